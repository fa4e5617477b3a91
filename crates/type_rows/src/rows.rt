// The table of types.
ghost use Rattle.std.specs.Prelude.{◌≡◌, ℕ, ◌<◌, MatchBool, slice_set};
ghost use Rattle.type_rows.specs.Shapes.{kind_of, ty};
ghost use Rattle.type_rows.specs.Rows.{row_at, kind_at, RowsMean, IsKind, LookSame};
ghost use Rattle.typing.specs.Types.{Ty, same_type};

use super::row::{NO_ROW, Row};
use super::shape::Shape;
use super::value_type::ValueType;
use entries::put;

// At most 512 type expressions of a script, and four rows for each of the 33 functions of the basis.
#[derive(Clone, Copy)]
pub struct Rows {
    pub(crate) rows: [Row; 644],
}

// The type of a value whose row has this shape and this number.
// A function and no `From`: it takes the row's number, too.
fn kind_of(k: u16, shape: Shape) -> ValueType
    ensures { result ≡ kind_of k shape }
{
    match shape {
        Shape::Int => ValueType::Int,
        Shape::Bool => ValueType::Bool,
        Shape::Sym => ValueType::Sym,
        Shape::Unit => ValueType::Unit,
        Shape::Datatype(d) => ValueType::Datatype(d),
        Shape::Function(_) => ValueType::Function(k),
    }
}

impl Rows {
    // The row with a number; past the end, one that no type uses.
    pub fn row(&self, k: usize) -> Row
        ensures { result ≡ row_at self.now.rows k }
    {
        self.rows.get(k).copied().unwrap_or(NO_ROW)
    }

    // The type in a row.
    pub fn kind(&self, k: u16) -> ValueType
        ensures { result ≡ kind_at self.now.rows k }
    {
        kind_of(k, self.row(k as usize).shape)
    }

    // A row is written; past the end nothing changes.
    pub fn put(&mut self, k: usize, row: Row)
        ensures { self.new.rows ≡ slice_set self.old.rows k row }
    {
        put(&mut self.rows, k, row);
    }

    // Whether two rows and their parts look the same. The parts stand in the table, which no derive sees.
    fn look_same(&self, x: u16, y: u16) -> bool
        ensures { MatchBool result (LookSame self.now.rows x y) (LookSame self.now.rows x y → ⊥) }
    {
        let x = x as usize;
        let y = y as usize;
        let size = (self.row(x).past as usize).saturating_sub(x);
        if (self.row(y).past as usize).saturating_sub(y) != size {
            return false;
        }
        (x..x + size)
            .zip(y..y + size)
            .all(|(a, b)| self.row(a).shape == self.row(b).shape)
    }

    // Whether two types are the same.
    #[tactic(auto, using(crate::proofs::ShapeLaws::function_same))]
    pub fn same(&self, a: ValueType, b: ValueType) -> bool
        ensures { (m : ℕ → Ty) → RowsMean self.now.rows m → IsKind self.now.rows a → IsKind self.now.rows b → result ≡ same_type (ty m a) (ty m b) }
    {
        match (a, b) {
            (ValueType::Function(x), ValueType::Function(y)) => self.look_same(x, y),
            _ => a == b,
        }
    }
}
