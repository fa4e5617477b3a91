// The names of the basis: one list of them all, each name a part of it, and the function that has a name.
ghost use Rattle.std.specs.Prelude.{◌≡◌, ◌≤◌, MatchOption, ◌≢◌};
ghost use Rattle.std.specs.Str.{bytes_eq};
ghost use Rattle.basis.specs.Numbers.{equalities, arithmetic, comparisons, logic, bitwise, exchange};
ghost use Rattle.basis.specs.Names.{name_of, basis_names, span_of, part_of, first_named, named};

use super::{Basis, Span};

static NAMES: [u8; 145] =
    *b"=i =b =s =u + - * / % udiv umod neg > < >= <= not and or xor & | ^ << >> ~ print-int print-bool print-sym print-unit print-newline print-ascii in";

// All names in the order of the functions, a space between two.
pub fn names() -> &'static [u8]
    ensures { result.now ≡ basis_names }
{
    &NAMES
}

// Where the function's name stands in the list of all names.
pub fn span_of(basis: Basis) -> Span
    ensures value { result ≡ span_of basis }
    ensures ordered { result.from ≤ result.to }
{
    match basis {
        Basis::EqualInt => Span { from: 0, to: 2 },
        Basis::EqualBool => Span { from: 3, to: 5 },
        Basis::EqualSym => Span { from: 6, to: 8 },
        Basis::EqualUnit => Span { from: 9, to: 11 },
        Basis::Add => Span { from: 12, to: 13 },
        Basis::Subtract => Span { from: 14, to: 15 },
        Basis::Multiply => Span { from: 16, to: 17 },
        Basis::Divide => Span { from: 18, to: 19 },
        Basis::Remainder => Span { from: 20, to: 21 },
        Basis::UnsignedDivide => Span { from: 22, to: 26 },
        Basis::UnsignedRemainder => Span { from: 27, to: 31 },
        Basis::Negate => Span { from: 32, to: 35 },
        Basis::Greater => Span { from: 36, to: 37 },
        Basis::Less => Span { from: 38, to: 39 },
        Basis::GreaterOrEqual => Span { from: 40, to: 42 },
        Basis::LessOrEqual => Span { from: 43, to: 45 },
        Basis::Not => Span { from: 46, to: 49 },
        Basis::And => Span { from: 50, to: 53 },
        Basis::Or => Span { from: 54, to: 56 },
        Basis::Xor => Span { from: 57, to: 60 },
        Basis::BitAnd => Span { from: 61, to: 62 },
        Basis::BitOr => Span { from: 63, to: 64 },
        Basis::BitXor => Span { from: 65, to: 66 },
        Basis::ShiftLeft => Span { from: 67, to: 69 },
        Basis::ShiftRight => Span { from: 70, to: 72 },
        Basis::Complement => Span { from: 73, to: 74 },
        Basis::PrintInt => Span { from: 75, to: 84 },
        Basis::PrintBool => Span { from: 85, to: 95 },
        Basis::PrintSym => Span { from: 96, to: 105 },
        Basis::PrintUnit => Span { from: 106, to: 116 },
        Basis::PrintNewline => Span { from: 117, to: 130 },
        Basis::PrintAscii => Span { from: 131, to: 142 },
        Basis::Input => Span { from: 143, to: 145 },
    }
}

// The function's name as a part of a list of names that the caller holds; nothing where that is too short.
pub fn name_in(names: &[u8], basis: Basis) -> &[u8]
    ensures { result.now ≡ part_of (span_of basis) names.now }
{
    let span = span_of(basis);
    names.get(span.from..span.to).unwrap_or(&[])
}

// The function's name, a part of the list of all names.
pub fn name_of(basis: Basis) -> &'static [u8]
    ensures name { result.now ≡ name_of basis }
    ensures part { result.now ≡ part_of (span_of basis) basis_names }
{
    name_in(names(), basis)
}

// Among the functions that tell whether two values are equal.
fn equality_named(word: &[u8]) -> Option<Basis>
    ensures { result ≡ first_named word.now equalities }
{
    match word {
        b"=i" => Some(Basis::EqualInt),
        b"=b" => Some(Basis::EqualBool),
        b"=s" => Some(Basis::EqualSym),
        b"=u" => Some(Basis::EqualUnit),
        _ => None,
    }
}

// Among the functions that compute with ints.
fn arithmetic_named(word: &[u8]) -> Option<Basis>
    ensures { result ≡ first_named word.now arithmetic }
{
    match word {
        b"+" => Some(Basis::Add),
        b"-" => Some(Basis::Subtract),
        b"*" => Some(Basis::Multiply),
        b"/" => Some(Basis::Divide),
        b"%" => Some(Basis::Remainder),
        b"udiv" => Some(Basis::UnsignedDivide),
        b"umod" => Some(Basis::UnsignedRemainder),
        b"neg" => Some(Basis::Negate),
        _ => None,
    }
}

// Among the functions that compare ints.
fn comparison_named(word: &[u8]) -> Option<Basis>
    ensures { result ≡ first_named word.now comparisons }
{
    match word {
        b">" => Some(Basis::Greater),
        b"<" => Some(Basis::Less),
        b">=" => Some(Basis::GreaterOrEqual),
        b"<=" => Some(Basis::LessOrEqual),
        _ => None,
    }
}

// Among the functions on bools.
fn logic_named(word: &[u8]) -> Option<Basis>
    ensures { result ≡ first_named word.now logic }
{
    match word {
        b"not" => Some(Basis::Not),
        b"and" => Some(Basis::And),
        b"or" => Some(Basis::Or),
        b"xor" => Some(Basis::Xor),
        _ => None,
    }
}

// Among the functions on the bits of ints.
fn bitwise_named(word: &[u8]) -> Option<Basis>
    ensures { result ≡ first_named word.now bitwise }
{
    match word {
        b"&" => Some(Basis::BitAnd),
        b"|" => Some(Basis::BitOr),
        b"^" => Some(Basis::BitXor),
        b"<<" => Some(Basis::ShiftLeft),
        b">>" => Some(Basis::ShiftRight),
        b"~" => Some(Basis::Complement),
        _ => None,
    }
}

// Among the functions that print and read.
fn exchange_named(word: &[u8]) -> Option<Basis>
    ensures { result ≡ first_named word.now exchange }
{
    match word {
        b"print-int" => Some(Basis::PrintInt),
        b"print-bool" => Some(Basis::PrintBool),
        b"print-sym" => Some(Basis::PrintSym),
        b"print-unit" => Some(Basis::PrintUnit),
        b"print-newline" => Some(Basis::PrintNewline),
        b"print-ascii" => Some(Basis::PrintAscii),
        b"in" => Some(Basis::Input),
        _ => None,
    }
}

// The function with this name.
pub fn find(word: &[u8]) -> Option<Basis>
    ensures value { result ≡ named word.now }
    ensures exact { MatchOption result ((b : Basis) → name_of b ≢ word.now) (λ b. name_of b ≡ word.now) }
{
    equality_named(word)
        .or_else(|| arithmetic_named(word))
        .or_else(|| comparison_named(word))
        .or_else(|| logic_named(word))
        .or_else(|| bitwise_named(word))
        .or_else(|| exchange_named(word))
}
