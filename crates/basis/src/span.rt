// A part of a slice, by its places. The library's `Range` is not `Copy` and says no more.
#[derive(Clone, Copy, PartialEq, Eq)]
pub struct Span {
    // the place of the first byte, from 0
    pub from: usize,
    // the place behind the last byte
    pub to: usize,
}
