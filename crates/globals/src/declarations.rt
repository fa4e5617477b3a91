// The names that a script declares, and what they mean, by three tallies: bound names, annotations and datatypes.
use super::global::Global;
use super::variant::Variant;
use names::Index;

// Memory is fixed, and a generic struct holds no array of a type parameter: so the values stand in arrays beside the indexes.
#[derive(Clone, Copy)]
pub struct Declarations {
    pub(crate) bound: Index,
    // what each bound name means; none past the last
    pub(crate) meanings: [Option<Global>; 512],
    pub(crate) annotations: Index,
    // the type node of each annotation's type
    pub(crate) roots: [u16; 512],
    pub(crate) datatypes: Index,
    // the constructors in text order
    pub(crate) variants: [Variant; 256],
    // the number of the next define among the functions, and of the next val
    pub(crate) functions: u16,
    pub(crate) vals: u16,
}
