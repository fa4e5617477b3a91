// Scripts with something changed.
use super::random::Random;
use std::alloc::{AllocError, Global};

const WORDS: [&str; 22] = [
    "int",
    "bool",
    "sym",
    "unit",
    "true",
    "0",
    "1",
    "-1",
    "31",
    "2147483647",
    "'a'",
    "+",
    "/",
    "%",
    "<<",
    "<",
    "in",
    "print-int",
    "unit",
    "x",
    "(dup x)",
    "_",
];

// Whether a byte ends a word.
fn is_between(byte: u8) -> bool {
    matches!(
        byte,
        b' ' | b'\n' | b'\t' | b'\r' | b'(' | b')' | b'[' | b']' | b'\'' | b';'
    )
}

// How many bytes in front are those of a word, or are not.
fn run_of(text: &[u8], of_a_word: bool) -> usize {
    text.iter()
        .position(|b| is_between(*b) == of_a_word)
        .unwrap_or(text.len())
}

// A text before, in and behind a word.
#[derive(Clone, Copy)]
struct Parts<'t> {
    front: &'t [u8],
    word: &'t [u8],
    back: &'t [u8],
}

// The first word at a place or behind it.
fn parts_at(text: &[u8], place: usize) -> Parts<'_> {
    let from = place.min(text.len());
    let first = from + run_of(&text[from..], false).min(text.len() - from);
    let (front, rest) = text.split_at(first);
    let (word, back) = rest.split_at(run_of(rest, true).min(rest.len()));
    Parts { front, word, back }
}

// Another word in place of the one at hand, the word twice or not at all, a copy of it, or one of its bytes changed.
fn put_other(
    out: &mut Vec<u8>,
    random: &mut Random,
    text: &[u8],
    word: &[u8],
) -> Result<(), AllocError> {
    match random.below(7) {
        0 => {}
        1 => {
            out.extend_from_slice(word)?;
            out.push(b' ')?;
            out.extend_from_slice(word)?;
        }
        2 => {
            out.extend_from_slice(b"(dup ")?;
            out.extend_from_slice(word)?;
            out.push(b')')?;
        }
        3 => {
            let other = parts_at(text, random.below(text.len()));
            out.extend_from_slice(other.word)?;
        }
        4 => {
            out.extend_from_slice(word)?;
            out.push((random.number() & 255) as u8)?;
        }
        _ => out.extend_from_slice(random.one_of(&WORDS).as_bytes())?,
    }
    Ok(())
}

// One place changed.
fn damaged_once(heap: Global, random: &mut Random, text: &[u8]) -> Result<Vec<u8>, AllocError> {
    let place = random.below(text.len());
    let Parts { front, word, back } = parts_at(text, place);
    let mut out = front.to_vec(heap)?;
    put_other(&mut out, random, text, word)?;
    out.extend_from_slice(back)?;
    Ok(out)
}

// One to three places changed.
pub fn damaged(heap: Global, random: &mut Random, text: &[u8]) -> Result<Vec<u8>, AllocError> {
    let mut out = damaged_once(heap, random, text)?;
    for _ in 0..random.below(3) {
        out = damaged_once(heap, random, &out)?;
    }
    Ok(out)
}
