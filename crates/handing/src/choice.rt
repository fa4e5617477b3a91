// Which branch of a case fits.

#[derive(Clone, Copy, PartialEq, Eq)]
pub enum Choice {
    // the one at this node, whose pattern is a wildcard
    Any(u16),
    // the one at this node, and the fields that it binds: the lowest bit is the first field's
    Fields(u16, u8),
}
