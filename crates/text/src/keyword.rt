// The reserved words. None of them is a name.
ghost use Rattle.std.specs.Prelude.{◌≡◌};
ghost use Rattle.text.specs.Keywords.{keyword_spelt};

#[derive(Clone, Copy, Debug, PartialEq, Eq)]
pub enum Keyword {
    Colon,
    Val,
    Define,
    Datatype,
    Use,
    If,
    Case,
    Begin,
    Let,
    Dup,
    Arrow,
    Int,
    Bool,
    Sym,
    Unit,
    True,
    False,
    Wildcard,
}

// The reserved word that `word` is, or none; `unit` is a type and its literal.
pub(crate) fn keyword_of(word: &[u8]) -> Option<Keyword>
    ensures { result ≡ keyword_spelt word.now }
{
    match word {
        b":" => Some(Keyword::Colon),
        b"val" => Some(Keyword::Val),
        b"define" => Some(Keyword::Define),
        b"datatype" => Some(Keyword::Datatype),
        b"use" => Some(Keyword::Use),
        b"if" => Some(Keyword::If),
        b"case" => Some(Keyword::Case),
        b"begin" => Some(Keyword::Begin),
        b"let" => Some(Keyword::Let),
        b"dup" => Some(Keyword::Dup),
        b"->" => Some(Keyword::Arrow),
        b"int" => Some(Keyword::Int),
        b"bool" => Some(Keyword::Bool),
        b"sym" => Some(Keyword::Sym),
        b"unit" => Some(Keyword::Unit),
        b"true" => Some(Keyword::True),
        b"false" => Some(Keyword::False),
        b"_" => Some(Keyword::Wildcard),
        _ => None,
    }
}
