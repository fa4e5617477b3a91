// The type of each function of the basis.
ghost use Rattle.std.specs.Prelude.{◌≡◌, List, map, ◌≢◌};
ghost use Rattle.basis.specs.CallLaws.{type_of, Gives, Suits};
ghost use Rattle.basis.specs.Calls.{applied};
ghost use Rattle.basis.specs.Types.{parameter_types, result_of, listed};
ghost use Rattle.basis.specs.declared.applied.Applied.TheVariants.{Mismatch};

use super::{Basis, BasisType, Parameters, Plain};

// The types of the function's parameters.
pub fn parameters_of(basis: Basis) -> Parameters
    ensures value { result ≡ parameter_types basis }
    ensures law { (s : List Plain) → (map type_of s ≢ listed result) → applied basis s ≡ Mismatch }
{
    match basis {
        Basis::EqualInt
        | Basis::Add
        | Basis::Subtract
        | Basis::Multiply
        | Basis::Divide
        | Basis::Remainder
        | Basis::UnsignedDivide
        | Basis::UnsignedRemainder
        | Basis::Greater
        | Basis::Less
        | Basis::GreaterOrEqual
        | Basis::LessOrEqual
        | Basis::BitAnd
        | Basis::BitOr
        | Basis::BitXor
        | Basis::ShiftLeft
        | Basis::ShiftRight => Parameters::Two(BasisType::Int, BasisType::Int),
        Basis::EqualBool | Basis::And | Basis::Or | Basis::Xor => Parameters::Two(
            BasisType::Bool,
            BasisType::Bool,
        ),
        Basis::EqualSym => Parameters::Two(BasisType::Sym, BasisType::Sym),
        Basis::EqualUnit => Parameters::Two(BasisType::Unit, BasisType::Unit),
        Basis::Negate | Basis::Complement | Basis::PrintInt | Basis::PrintAscii => Parameters::One(
            BasisType::Int,
        ),
        Basis::Not | Basis::PrintBool => Parameters::One(BasisType::Bool),
        Basis::PrintSym => Parameters::One(BasisType::Sym),
        Basis::PrintUnit => Parameters::One(BasisType::Unit),
        Basis::PrintNewline | Basis::Input => Parameters::Zero,
    }
}

// The type of the function's result.
pub fn result_of(basis: Basis) -> BasisType
    ensures value { result ≡ result_of basis }
    ensures law { (s : List Plain) → Suits basis s → Gives result (applied basis s) }
{
    match basis {
        Basis::EqualInt
        | Basis::EqualBool
        | Basis::EqualSym
        | Basis::EqualUnit
        | Basis::Greater
        | Basis::Less
        | Basis::GreaterOrEqual
        | Basis::LessOrEqual
        | Basis::Not
        | Basis::And
        | Basis::Or
        | Basis::Xor => BasisType::Bool,
        Basis::Add
        | Basis::Subtract
        | Basis::Multiply
        | Basis::Divide
        | Basis::Remainder
        | Basis::UnsignedDivide
        | Basis::UnsignedRemainder
        | Basis::Negate
        | Basis::BitAnd
        | Basis::BitOr
        | Basis::BitXor
        | Basis::ShiftLeft
        | Basis::ShiftRight
        | Basis::Complement
        | Basis::Input => BasisType::Int,
        Basis::PrintInt
        | Basis::PrintBool
        | Basis::PrintSym
        | Basis::PrintUnit
        | Basis::PrintNewline
        | Basis::PrintAscii => BasisType::Unit,
    }
}
