// What reading finds of the text of a case.
use super::rows::rows_of;
use case_files::{Expected, Found, Refused, Trial};
use layout::{NODES, Node, NodeForm};
use parser::{Script, is_unused, read};
use std::alloc::{AllocError, Global};

// What stands in the node list before a case.
const USED: Node = Node {
    form: NodeForm::If,
    place: 7,
    past: 9,
};

// What no script's first node is.
const OTHER: Node = Node {
    form: NodeForm::Unit,
    place: 65535,
    past: 0,
};

// How many entries the node list of the next text has.
#[derive(Clone, Copy)]
pub struct Scripts {
    lent: usize,
}

impl Scripts {
    pub fn new() -> Scripts {
        Scripts { lent: NODES }
    }
}

// Whether the script knows the node list again, and not with its first entry changed.
fn knows(script: &Script<'_>, nodes: &mut [Node]) -> bool {
    if !script.is_left(nodes) {
        return false;
    }
    let Some(node) = nodes.first_mut() else {
        return true;
    };
    *node = OTHER;
    !script.is_left(nodes)
}

// Where the node list is not left as it has to be.
fn complaint(left: bool) -> Option<&'static str> {
    (!left).then_some("the node list is not left as it has to be")
}

impl Trial for Scripts {
    fn set(&mut self, word: &str, rest: &str) -> Option<()> {
        if word != "lent" {
            return None;
        }
        self.lent = rest.parse::<usize>().ok()?;
        Some(())
    }

    fn found(
        &mut self,
        heap: Global,
        text: &[u8],
        _expected: Expected,
    ) -> Result<Found, AllocError> {
        let mut nodes = vec![in heap; USED; self.lent]?;
        self.lent = NODES;
        match read(text, &mut nodes) {
            Ok(script) => {
                let count = script.nodes().len();
                let left = is_unused(&nodes[count.min(nodes.len())..])
                    && script.lent() == nodes.len()
                    && knows(&script, &mut nodes);
                Ok(Found {
                    answer: Ok(count),
                    listing: rows_of(heap, &script)?,
                    complaint: complaint(left),
                })
            }
            Err(refused) => Ok(Found {
                answer: Err(Refused::from(refused)),
                listing: String::new(heap),
                complaint: complaint(is_unused(&nodes)),
            }),
        }
    }
}
