// The tables of a script, each as large as the limits allow, in text order; the counts say how many entries are used.
use super::{Constructor, Counts, Definition, Functions, TypeNode, Word};

// Arrays with their counts: a library takes no heap.
#[derive(Clone, Copy)]
pub struct Tables {
    pub counts: Counts,
    // at most 64 datatypes, 512 annotations (each has a type expression), 256 defines and vals
    pub definitions: [Definition; 832],
    pub constructors: [Constructor; 256],
    // the names of parameters, at most six for each define
    pub parameters: [Word; 1536],
    pub types: [TypeNode; 512],
    pub functions: Functions,
}
