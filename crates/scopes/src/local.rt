// A local name: a part of the text, with its type.
use layout::Word;
use type_rows::ValueType;

#[derive(Clone, Copy, PartialEq, Eq)]
pub struct Local {
    pub name: Word,
    pub kind: ValueType,
    // how many entries lie below it in a run: names, and arguments handed to waiting applications
    pub height: usize,
}

impl Local {
    // what is read where there is no local
    pub const NONE: Local = Local {
        name: Word::UNUSED,
        kind: ValueType::Unit,
        height: 0,
    };
}
