// The type of what is applied.
ghost use Rattle.bodies.specs.Heads.{IsSignature, IsNext};

use type_rows::{Rows, ValueType};

// A function's parameter types, from a row up to another, and its result; nothing that is no function has a result.
#[derive(Clone, Copy)]
pub struct Signature {
    pub first: u16,
    pub past: u16,
    pub result: Option<ValueType>,
}

pub(crate) fn signature_of(rows: &Rows, kind: ValueType) -> Signature
    ensures { IsSignature rows.now.rows kind result }
{
    let ValueType::Function(k) = kind else {
        return Signature {
            first: 0,
            past: 0,
            result: None,
        };
    };
    let result = rows.row(k as usize).result;
    Signature {
        first: k.saturating_add(1),
        past: result,
        result: Some(rows.kind(result)),
    }
}

// Whether there is a row left of those up to another, and a type is that in the row.
pub(crate) fn is_next(rows: &Rows, row: u16, last: u16, kind: ValueType) -> bool
    ensures { IsNext rows.now.rows row last kind result }
{
    row < last && rows.same(rows.kind(row), kind)
}
