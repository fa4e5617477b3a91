// The types that the defines are annotated with, in text order.
use type_rows::ValueType;

#[derive(Clone, Copy)]
pub struct DefineTypes {
    pub(crate) types: [ValueType; 256],
}
