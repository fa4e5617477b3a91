// A constructor, as the check needs it.
#[derive(Clone, Copy, PartialEq, Eq)]
pub struct Variant {
    // the number of its datatype
    pub datatype: u16,
    // its field types: the first row in the table of types, and the row after the last
    pub first: u16,
    pub past: u16,
    // how many fields it has
    pub fields: u8,
}

// What is read where there is no constructor.
pub(crate) const NO_VARIANT: Variant = Variant {
    datatype: 0,
    first: 0,
    past: 0,
    fields: 0,
};
