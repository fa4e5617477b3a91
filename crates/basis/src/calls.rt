// The calls of the basis: a function on its arguments. A run makes these by the hundred million, so nothing here loops or looks
// anything up.
ghost use Rattle.std.specs.Prelude.{◌≡◌, [], ◌∷◌};
ghost use Rattle.basis.specs.Calls.{answer, applied, low_byte};
ghost use Rattle.basis.specs.declared.plain.Plain.TheVariants.{Int, Bool, Sym, Unit};

use super::arithmetic::{
    add, bit_and, bit_or, bit_xor, complement, divide, multiply, negate, remainder, shift_left,
    shift_right, subtract, unsigned_divide, unsigned_remainder,
};
use super::{Applied, ArithmeticFault, Basis, Plain, Print};

// The result of the arithmetic, or its fault.
impl From<Result<i32, ArithmeticFault>> for Applied {
    ghost from_gives = { λ res applied. applied ≡ answer res };

    fn from(res: Result<i32, ArithmeticFault>) -> Applied {
        match res {
            Ok(n) => Applied::Int(n),
            Err(fault) => Applied::Faults(fault),
        }
    }
}

fn low_byte(a: i32) -> u8
    ensures { result ≡ low_byte a }
{
    (a.cast_unsigned() % 256) as u8
}

// The function on two ints.
fn on_ints(basis: Basis, a: i32, b: i32) -> Applied
    ensures { result ≡ applied basis (Int a ∷ Int b ∷ []) }
{
    match basis {
        Basis::EqualInt => Applied::Bool(a == b),
        Basis::Add => Applied::Int(add(a, b)),
        Basis::Subtract => Applied::Int(subtract(a, b)),
        Basis::Multiply => Applied::Int(multiply(a, b)),
        Basis::Divide => divide(a, b).into(),
        Basis::Remainder => remainder(a, b).into(),
        Basis::UnsignedDivide => unsigned_divide(a, b).into(),
        Basis::UnsignedRemainder => unsigned_remainder(a, b).into(),
        Basis::Greater => Applied::Bool(a > b),
        Basis::Less => Applied::Bool(a < b),
        Basis::GreaterOrEqual => Applied::Bool(a >= b),
        Basis::LessOrEqual => Applied::Bool(a <= b),
        Basis::BitAnd => Applied::Int(bit_and(a, b)),
        Basis::BitOr => Applied::Int(bit_or(a, b)),
        Basis::BitXor => Applied::Int(bit_xor(a, b)),
        Basis::ShiftLeft => shift_left(a, b).into(),
        Basis::ShiftRight => shift_right(a, b).into(),
        _ => Applied::Mismatch,
    }
}

// The function on two bools.
fn on_bools(basis: Basis, a: bool, b: bool) -> Applied
    ensures { result ≡ applied basis (Bool a ∷ Bool b ∷ []) }
{
    match basis {
        Basis::EqualBool => Applied::Bool(a == b),
        Basis::And => Applied::Bool(a && b),
        Basis::Or => Applied::Bool(a || b),
        Basis::Xor => Applied::Bool(a != b),
        _ => Applied::Mismatch,
    }
}

// The function on two symbols.
fn on_syms(basis: Basis, a: u32, b: u32) -> Applied
    ensures { result ≡ applied basis (Sym a ∷ Sym b ∷ []) }
{
    match basis {
        Basis::EqualSym => Applied::Bool(a == b),
        _ => Applied::Mismatch,
    }
}

// The function on two units.
fn on_units(basis: Basis) -> Applied
    ensures { result ≡ applied basis (Unit ∷ Unit ∷ []) }
{
    match basis {
        Basis::EqualUnit => Applied::Bool(true),
        _ => Applied::Mismatch,
    }
}

// The function on one int.
fn on_int(basis: Basis, a: i32) -> Applied
    ensures { result ≡ applied basis (Int a ∷ []) }
{
    match basis {
        Basis::Negate => Applied::Int(negate(a)),
        Basis::Complement => Applied::Int(complement(a)),
        Basis::PrintInt => Applied::Prints(Print::Int(a)),
        Basis::PrintAscii => Applied::Prints(Print::Byte(low_byte(a))),
        _ => Applied::Mismatch,
    }
}

// The function on one bool.
fn on_bool(basis: Basis, a: bool) -> Applied
    ensures { result ≡ applied basis (Bool a ∷ []) }
{
    match basis {
        Basis::Not => Applied::Bool(!a),
        Basis::PrintBool => Applied::Prints(Print::Bool(a)),
        _ => Applied::Mismatch,
    }
}

// The function on one symbol.
fn on_sym(basis: Basis, a: u32) -> Applied
    ensures { result ≡ applied basis (Sym a ∷ []) }
{
    match basis {
        Basis::PrintSym => Applied::Prints(Print::Sym(a)),
        _ => Applied::Mismatch,
    }
}

// The function on one unit.
fn on_unit(basis: Basis) -> Applied
    ensures { result ≡ applied basis (Unit ∷ []) }
{
    match basis {
        Basis::PrintUnit => Applied::Prints(Print::Unit),
        _ => Applied::Mismatch,
    }
}

// The function on no argument.
pub fn apply_none(basis: Basis) -> Applied
    ensures { result ≡ applied basis [] }
{
    match basis {
        Basis::PrintNewline => Applied::Prints(Print::Newline),
        Basis::Input => Applied::Reads,
        _ => Applied::Mismatch,
    }
}

// The function on one argument.
pub fn apply_one(basis: Basis, argument: Plain) -> Applied
    ensures { result ≡ applied basis (argument ∷ []) }
{
    match argument {
        Plain::Int(a) => on_int(basis, a),
        Plain::Bool(a) => on_bool(basis, a),
        Plain::Sym(a) => on_sym(basis, a),
        Plain::Unit => on_unit(basis),
    }
}

// The function on two arguments.
pub fn apply_two(basis: Basis, first: Plain, second: Plain) -> Applied
    ensures { result ≡ applied basis (first ∷ second ∷ []) }
{
    match (first, second) {
        (Plain::Int(a), Plain::Int(b)) => on_ints(basis, a, b),
        (Plain::Bool(a), Plain::Bool(b)) => on_bools(basis, a, b),
        (Plain::Sym(a), Plain::Sym(b)) => on_syms(basis, a, b),
        (Plain::Unit, Plain::Unit) => on_units(basis),
        _ => Applied::Mismatch,
    }
}
