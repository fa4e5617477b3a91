// How many nodes an expression has.
use layout::Node;
use std::fmt;

#[derive(Clone, Copy)]
pub struct Size(usize);

impl fmt::Display for Size {
    fn fmt<W: fmt::Write>(&self, f: &mut fmt::Formatter<W>) -> fmt::Result {
        let unit = if self.0 == 1 { "node" } else { "nodes" };
        write!(f, "{} {unit}", self.0)
    }
}

// The size of the expression at a node.
pub fn size_at(nodes: &[Node], body: u16) -> Size {
    let at = body as usize;
    Size(
        nodes
            .get(at)
            .map_or(0, |node| (node.past as usize).saturating_sub(at)),
    )
}
