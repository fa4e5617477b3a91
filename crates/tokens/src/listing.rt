// The tokens of a text, a line for each.
use explain::shown;
use std::{fmt, io};
use text::{Reader, Token, TokenKind};

// What kind of token it is, in one word.
#[derive(Clone, Copy)]
struct Kind(TokenKind);

impl fmt::Display for Kind {
    fn fmt<W: fmt::Write>(&self, f: &mut fmt::Formatter<W>) -> fmt::Result {
        f.pad(match self.0 {
            TokenKind::Open(_) => "open",
            TokenKind::Close(_) => "close",
            TokenKind::Symbol => "symbol",
            TokenKind::Integer(_) => "integer",
            TokenKind::Keyword(_) => "keyword",
            TokenKind::Name => "name",
        })
    }
}

fn print_token(rt: &HostRuntime, token: Token<'_>) -> io::Result<()> {
    let Token { kind, place, bytes } = token;
    let kind = Kind(kind);
    let word = shown(rt.alloc(), bytes)?;
    println!(rt; "{place:>5} {kind:<7} {word}")
}

// Prints the tokens of a text that is known to have `count` of them.
pub fn list_tokens(rt: &HostRuntime, text: &[u8], count: usize) -> io::Result<()> {
    let mut reader = Reader::new(text);
    while let Ok(Some(token)) = reader.next() {
        print_token(rt, token)?;
    }
    println!(rt; "{count} tokens")
}
