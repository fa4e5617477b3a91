// Texts of tokens without meaning, and texts that go to the limits.
use super::random::Random;
use std::alloc::{AllocError, Global};

const TOKENS: [&str; 48] = [
    "(",
    ")",
    "[",
    "]",
    "(",
    ")",
    "[",
    "]",
    ":",
    "->",
    "define",
    "datatype",
    "val",
    "if",
    "case",
    "let",
    "begin",
    "dup",
    "int",
    "bool",
    "sym",
    "unit",
    "true",
    "false",
    "main",
    "_",
    "+",
    "-",
    "neg",
    "print-int",
    "print-sym",
    "in",
    "x",
    "y",
    "c",
    "n",
    "0",
    "7",
    "-1",
    "+2",
    "2147483647",
    "2147483648",
    "-2147483648",
    "99999999999",
    "'a'",
    "'it\\'s'",
    "'not closed",
    "; a comment\n",
];

const OPENINGS: [&str; 6] = ["(", "[", "(begin ", "(+ 1 ", "(if true ", "[_ "];

const MAIN: &str = "(: main (-> () unit)) (define main () ";

// Up to so many tokens, most with a space behind them.
pub fn soup(heap: Global, random: &mut Random, most: usize) -> Result<Vec<u8>, AllocError> {
    let mut text = Vec::new(heap);
    for _ in 0..random.below(most) {
        text.extend_from_slice(random.one_of(&TOKENS).as_bytes())?;
        if !random.once_in(8) {
            text.push(b' ')?;
        }
    }
    Ok(text)
}

// Any bytes.
pub fn bytes(heap: Global, random: &mut Random, most: usize) -> Result<Vec<u8>, AllocError> {
    let mut text = Vec::new(heap);
    for _ in 0..random.below(most) {
        text.push((random.number() & 255) as u8)?;
    }
    Ok(text)
}

// Brackets in one another, more or fewer than may be open, closed again or nearly so.
pub fn deep(heap: Global, random: &mut Random) -> Result<Vec<u8>, AllocError> {
    let mut text = MAIN.as_bytes().to_vec(heap)?;
    let depth = random.below(80);
    for _ in 0..depth {
        text.extend_from_slice(random.one_of(&OPENINGS).as_bytes())?;
    }
    text.extend_from_slice(b"unit")?;
    let closing = if random.once_in(9) { b']' } else { b')' };
    for _ in random.below(3)..depth.saturating_add(2) {
        text.push(closing)?;
    }
    Ok(text)
}

// A long name, symbol or integer as main's body.
pub fn long(heap: Global, random: &mut Random) -> Result<Vec<u8>, AllocError> {
    let mut text = MAIN.as_bytes().to_vec(heap)?;
    let (front, byte, least) = match random.below(3) {
        0 => ("(let ([", b'k', 60),
        1 => ("(print-sym '", b's', 250),
        _ => ("(print-int ", b'1', 7),
    };
    text.extend_from_slice(front.as_bytes())?;
    for _ in 0..random.below(9).saturating_add(least) {
        text.push(byte)?;
    }
    let back = match byte {
        b'k' => " 1]) unit))",
        b's' => "'))",
        _ => "))",
    };
    text.extend_from_slice(back.as_bytes())?;
    Ok(text)
}
