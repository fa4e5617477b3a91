// A script that was read.
ghost use Rattle.std.specs.Prelude.{◌≡◌, ◌↔◌, ◌≤◌, ◌-◌, IsTrue, length, take, drop, replicate};
ghost use Rattle.layout.specs.Encoding.{unused};
ghost use Rattle.parser.specs.Recording.{used, left};

use layout::{NODES, Node, Tables};

// Only `read` makes one, so its parts belong together: the text, how many nodes were lent, the nodes that are used, and the tables. The
// node list itself stays the caller's; a script can tell whether a list holds what reading left.
#[derive(Drop)]
pub struct Script<'t> {
    pub(crate) text: &'t [u8],
    pub(crate) lent: usize,
    pub(crate) nodes: [Node; 4096],
    pub(crate) tables: Tables,
}

impl<'t> Script<'t> {
    // The text that was read.
    pub fn text(&self) -> &'t [u8]
        ensures { result.now ≡ self.now.text.now }
    {
        self.text
    }

    // How many entries the node list had.
    pub fn lent(&self) -> usize
        ensures { result ≡ self.now.lent }
    {
        self.lent
    }

    // The nodes of the script, as reading left them in the node list.
    pub fn nodes(&self) -> &[Node]
        ensures { result.now ≡ used self.now }
    {
        &self.nodes[..self.tables.counts.nodes.min(NODES)]
    }

    pub fn tables(&self) -> &Tables
        ensures { result.now ≡ self.now.tables }
    {
        &self.tables
    }

    // Whether a node list holds what reading left: the nodes of the script, and behind them unused entries.
    pub fn is_left(&self, nodes: &[Node]) -> bool
        ensures { IsTrue result ↔ (nodes.now ≡ left self.now) }
    {
        let used = self.nodes();
        let count = used.len();
        if nodes.len() != self.lent.max(count) {
            return false;
        }
        starts_with(nodes, used) && is_unused(&nodes[count..])
    }
}

// Whether a list begins with these nodes. It compares entry by entry: of `starts_with` on a list of nodes the check finds no equation.
fn starts_with(nodes: &[Node], first: &[Node]) -> bool
    requires { length first.now ≤ length nodes.now }
    ensures { IsTrue result ↔ (take (length first.now) nodes.now ≡ first.now) }
{
    nodes[..first.len()]
        .iter()
        .zip(first)
        .all(|(node, other)| node == other)
}

// Whether no node uses an entry of these.
pub fn is_unused(nodes: &[Node]) -> bool
    ensures { IsTrue result ↔ (nodes.now ≡ replicate (length nodes.now) unused) }
{
    nodes.iter().all(|node| *node == Node::UNUSED)
}
