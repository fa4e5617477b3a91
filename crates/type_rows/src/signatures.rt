// The rows of the functions of the basis.
ghost use Rattle.std.specs.Prelude.{◌≡◌, ℕ, slice_set};
ghost use Rattle.basis.specs.Types.{parameter_types, result_of};
ghost use Rattle.type_rows.specs.Signatures.{basis_shape, function_row, plain_row, root_of, stored, signature_rows, HasBasis};
ghost use Rattle.type_rows.specs.declared.value_type.ValueType.TheVariants as value;

use super::row::{NO_ROW, Row};
use super::rows::Rows;
use super::shape::Shape;
use super::value_type::ValueType;
use basis::{Basis, BasisType, Parameters, parameters_of, result_of};

// Where the rows of the basis begin, and how many each of its functions has.
const FIRST: u16 = 512;

const EACH: u16 = 4;

impl From<BasisType> for Shape {
    ghost from_gives = { λ kind shape. shape ≡ basis_shape kind };

    fn from(kind: BasisType) -> Shape {
        match kind {
            BasisType::Int => Shape::Int,
            BasisType::Bool => Shape::Bool,
            BasisType::Sym => Shape::Sym,
            BasisType::Unit => Shape::Unit,
        }
    }
}

fn plain(past: u16, kind: BasisType) -> Row
    ensures { result ≡ plain_row past kind }
{
    Row {
        shape: kind.into(),
        past,
        result: 0,
    }
}

fn function(parameters: u16, value: u16, past: u16) -> Row
    ensures { result ≡ function_row parameters value past }
{
    Row {
        shape: Shape::Function(parameters),
        past,
        result: value,
    }
}

// Where the rows of a function of the basis begin.
fn root(basis: Basis) -> u16
    ensures { result ≡ root_of basis }
{
    FIRST + EACH * basis.number() as u16
}

// The type of a function of the basis.
pub fn basis_type(basis: Basis) -> ValueType
    ensures { result ≡ value.Function (root_of basis) }
{
    ValueType::Function(root(basis))
}

impl Rows {
    // The rows of a function of the basis.
    fn sign(&mut self, basis: Basis)
        ensures { self.new.rows ≡ stored self.old.rows (root_of basis) (signature_rows basis) }
    {
        let k = root(basis);
        let at = k as usize;
        let result = result_of(basis);
        match parameters_of(basis) {
            Parameters::Zero => {
                self.put(at, function(0, k + 1, k + 2));
                self.put(at + 1, plain(k + 2, result));
            }
            Parameters::One(first) => {
                self.put(at, function(1, k + 2, k + 3));
                self.put(at + 1, plain(k + 2, first));
                self.put(at + 2, plain(k + 3, result));
            }
            Parameters::Two(first, second) => {
                self.put(at, function(2, k + 3, k + 4));
                self.put(at + 1, plain(k + 2, first));
                self.put(at + 2, plain(k + 3, second));
                self.put(at + 3, plain(k + 4, result));
            }
        }
    }

    // The table with the rows of the basis, and none of a script yet.
    pub fn new() -> Rows
        ensures { HasBasis result.rows 0 }
    {
        let mut rows = Rows {
            rows: [NO_ROW; 644],
        };
        for n in 0..Basis::COUNT {
            if let Ok(basis) = Basis::try_from(n) {
                rows.sign(basis);
            }
        }
        rows
    }
}
