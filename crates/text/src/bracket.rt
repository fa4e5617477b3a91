// The two shapes of bracket. Either may stand wherever the other may, but a pair is of one shape.
#[derive(Clone, Copy, Debug, PartialEq, Eq)]
pub enum Bracket {
    Round,
    Square,
}
