ghost use Rattle.std.specs.Prelude.{◌≡◌, ℕ, ◌<◌, ◌≤◌, Some, MatchOption};
ghost use Rattle.cells.specs.Values.{kind_of, number_of, value_of, most};

use crate::kinds::Kind;

// A value: its kind, with what a value of that kind carries. Sym, function and cell numbers may be any.
#[derive(Clone, Copy, Debug, PartialEq, Eq)]
pub enum Value {
    Int(i32),
    Bool(bool),
    Sym(u32),
    Unit,
    Function(u32),
    Cell(u32),
}

impl Value {
    // The value's kind.
    pub fn kind(self) -> Kind
        ensures { result ≡ kind_of self }
    {
        match self {
            Value::Int(_) => Kind::Int,
            Value::Bool(_) => Kind::Bool,
            Value::Sym(_) => Kind::Sym,
            Value::Unit => Kind::Unit,
            Value::Function(_) => Kind::Function,
            Value::Cell(_) => Kind::Cell,
        }
    }

    // The value's 32-bit number: an int's bits, a bool's 0 or 1, a unit's 0. With the kind it gives the value back.
    pub fn number(self) -> u32
        ensures is { result ≡ number_of self }
        ensures back { value_of (kind_of self) result ≡ Some self }
    {
        match self {
            Value::Int(number) => number.cast_unsigned(),
            Value::Bool(truth) => truth as u32,
            Value::Sym(number) => number,
            Value::Unit => 0,
            Value::Function(number) => number,
            Value::Cell(number) => number,
        }
    }

    // The value of this kind with this number; none exactly where the number is more than the kind allows.
    // Two parameters, so no conversion trait fits.
    pub fn from_parts(kind: Kind, number: u32) -> Option<Value>
        ensures is { result ≡ value_of kind number }
        ensures exact { MatchOption result (most kind < number) (λ v. (number ≤ most kind) × (kind_of v ≡ kind) × (number_of v ≡ number)) }
    {
        match kind {
            Kind::Int => Some(Value::Int(number.cast_signed())),
            Kind::Bool => match number {
                0 => Some(Value::Bool(false)),
                1 => Some(Value::Bool(true)),
                _ => None,
            },
            Kind::Sym => Some(Value::Sym(number)),
            Kind::Unit => (number == 0).then_some(Value::Unit),
            Kind::Function => Some(Value::Function(number)),
            Kind::Cell => Some(Value::Cell(number)),
        }
    }

    // A cell's number as a value.
    pub fn cell(number: u16) -> Value
        ensures { result ≡ Value.Cell number }
    {
        Value::Cell(number as u32)
    }
}
