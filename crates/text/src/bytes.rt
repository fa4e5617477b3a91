// What bytes begin and how far they go: separators, words, symbols.
ghost use Rattle.std.specs.Prelude.{◌≡◌, ℕ, ◌+◌, ◌-◌, ◌<◌, ◌≤◌, true, false, length, IfSome};
ghost use Rattle.text.specs.Bytes.{class_of, in_word, word_run, separator_run, part_inside, closing};

use super::Bracket;

// What a byte begins where no token has begun.
#[derive(Clone, Copy, Debug, PartialEq, Eq)]
pub enum Class {
    Blank,
    Newline,
    Comment,
    Open(Bracket),
    Close(Bracket),
    Quote,
    Word,
}

pub(crate) fn class_of(b: u8) -> Class
    ensures { result ≡ class_of b }
{
    match b {
        b' ' | b'\t' | b'\r' => Class::Blank,
        b'\n' => Class::Newline,
        b';' => Class::Comment,
        b'(' => Class::Open(Bracket::Round),
        b')' => Class::Close(Bracket::Round),
        b'[' => Class::Open(Bracket::Square),
        b']' => Class::Close(Bracket::Square),
        b'\'' => Class::Quote,
        _ => Class::Word,
    }
}

fn stands_in_word(b: u8) -> bool
    ensures { result ≡ in_word (class_of b) }
{
    class_of(b) == Class::Word
}

// How many bytes at the front can stand in a word.
pub(crate) fn word_len(s: &[u8]) -> usize
    ensures value { result ≡ word_run s.now }
    ensures within { result ≤ length s.now }
{
    s.iter().take_while(|b| stands_in_word(**b)).count()
}

// How many bytes at the front only separate: blanks, and comments, each through its newline.
pub(crate) fn separator_len(s: &[u8]) -> usize
    ensures value { result ≡ separator_run false s.now }
    ensures within { result ≤ length s.now }
{
    let mut comment = false;
    for (n, b) in s.iter().enumerate() {
        match class_of(*b) {
            Class::Blank => {}
            Class::Newline => comment = false,
            Class::Comment => comment = true,
            _ if comment => {}
            _ => return n,
        }
    }
    s.len()
}

// What comes next between the quotes of a symbol.
#[derive(Clone, Copy, Debug, PartialEq, Eq)]
pub enum Inside {
    Plain,
    Escape,
    Closed,
    Broken,
}

fn inside_of(s: &[u8]) -> Inside
    ensures { result ≡ part_inside s.now }
{
    match s {
        [b'\'', ..] => Inside::Closed,
        [b'\\', b'\'' | b'\\', ..] => Inside::Escape,
        [] | [b'\\', ..] => Inside::Broken,
        [_, ..] => Inside::Plain,
    }
}

// How many bytes stand before the quote that closes a symbol; none where it is not closed or wrongly escaped.
pub(crate) fn symbol_len(s: &[u8]) -> Option<usize>
    ensures value { result ≡ closing s.now }
    ensures within { IfSome result (λ n. n < length s.now) }
{
    let mut n = 0;
    // an escape is one part of two bytes, so the parts are no iterator over bytes: that would carry a flag beside the count
    loop {
        match inside_of(&s[n..]) {
            Inside::Closed => return Some(n),
            Inside::Broken => return None,
            Inside::Escape => n += 2,
            Inside::Plain => n += 1,
        }
    }
}
