// A token as the case file writes it.
use std::alloc::{AllocError, Global};
use std::fmt;
use text::{Bracket, Keyword, Reader, Token, TokenKind};

#[derive(Clone, Copy)]
struct Described<'t>(Token<'t>);

#[derive(Clone, Copy)]
struct Word(Keyword);

impl fmt::Display for Word {
    fn fmt<W: fmt::Write>(&self, f: &mut fmt::Formatter<W>) -> fmt::Result {
        f.write_str(match self.0 {
            Keyword::Colon => ":",
            Keyword::Val => "val",
            Keyword::Define => "define",
            Keyword::Datatype => "datatype",
            Keyword::Use => "use",
            Keyword::Arrow => "->",
            Keyword::Int => "int",
            Keyword::Bool => "bool",
            Keyword::Sym => "sym",
            Keyword::Unit => "unit",
            Keyword::If => "if",
            Keyword::Case => "case",
            Keyword::Begin => "begin",
            Keyword::Let => "let",
            Keyword::Dup => "dup",
            Keyword::True => "true",
            Keyword::False => "false",
            Keyword::Wildcard => "_",
        })
    }
}

impl<'t> fmt::Display for Described<'t> {
    fn fmt<W: fmt::Write>(&self, f: &mut fmt::Formatter<W>) -> fmt::Result {
        write!(f, "{} {} ", self.0.place, self.0.bytes.len())?;
        match self.0.kind {
            TokenKind::Open(Bracket::Round) => f.write_str("("),
            TokenKind::Open(Bracket::Square) => f.write_str("["),
            TokenKind::Close(Bracket::Round) => f.write_str(")"),
            TokenKind::Close(Bracket::Square) => f.write_str("]"),
            TokenKind::Symbol => f.write_str("symbol"),
            TokenKind::Integer(n) => write!(f, "integer {n}"),
            TokenKind::Keyword(k) => write!(f, "keyword {}", Word(k)),
            TokenKind::Name => f.write_str("name"),
        }
    }
}

// The tokens of a text, a line for each.
pub fn listing(heap: Global, text: &[u8]) -> Result<String, AllocError> {
    let mut lines = String::new(heap);
    let mut reader = Reader::new(text);
    while let Ok(Some(token)) = reader.next() {
        let described = Described(token);
        lines.push_str(format!(in heap; "{described}\n")?.as_str())?;
    }
    Ok(lines)
}
