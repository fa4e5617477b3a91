// A token: a part of the text, with its place.
use super::{Bracket, Keyword};

#[derive(Clone, Copy, Debug, PartialEq, Eq)]
pub enum TokenKind {
    Open(Bracket),
    Close(Bracket),
    Symbol,
    Integer(i32),
    Keyword(Keyword),
    Name,
}

#[derive(Clone, Copy, Debug, PartialEq, Eq)]
pub struct Token<'t> {
    pub kind: TokenKind,
    // The offset of the token's first byte in the text.
    pub place: usize,
    // The token's bytes, a symbol's with both quotes.
    pub bytes: &'t [u8],
}
