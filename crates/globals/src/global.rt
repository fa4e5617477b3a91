// What a name of the whole script means: a function by its number (those of the basis first, then the defines in text order), a
// constructor or a val by its place in text order.
#[derive(Clone, Copy, PartialEq, Eq)]
pub enum Global {
    Function(u16),
    Constructor(u16),
    Val(u16),
}
