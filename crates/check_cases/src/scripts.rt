// What the check finds of the text of a case.
use case_files::{Answer, Expected, Found, Refused, Trial};
use checking::check;
use entries::put;
use first_uses::explain_check;
use layout::{NODES, Node, NodeForm};
use parser::{Script, read};
use std::alloc::{AllocError, Global};

// What no script's first node is.
const OTHER: Node = Node {
    form: NodeForm::Unit,
    place: 65535,
    past: 0,
};

// What is not as it was when the check comes.
#[derive(Clone, Copy, PartialEq, Eq)]
enum Change {
    Text,
    // another first entry, another last one, or the last one missing
    First,
    Last,
    Shorter,
}

// How many entries the node list of the next text has, and what is changed before the check.
#[derive(Clone, Copy)]
pub struct Scripts {
    lent: usize,
    changed: Option<Change>,
}

impl Scripts {
    pub fn new() -> Scripts {
        Scripts {
            lent: NODES,
            changed: None,
        }
    }
}

// What the check answers: how many defines and vals there are, or the refusal, whose explanation is the listing.
fn checked(
    heap: Global,
    script: &Script<'_>,
    text: &[u8],
    nodes: &[Node],
) -> Result<Found, AllocError> {
    match check(script, text, nodes) {
        Ok(checked) => Ok(found(heap, Ok(checked.counts().bindings))),
        Err(refused) => Ok(Found {
            answer: Err(Refused {
                number: refused.refusal.number(),
                place: refused.place,
            }),
            listing: explain_check(heap, text, nodes, refused)?,
            complaint: None,
        }),
    }
}

// An answer without a listing.
fn found(heap: Global, answer: Answer) -> Found {
    Found {
        answer,
        listing: String::new(heap),
        complaint: None,
    }
}

// What reading and the check answer of a text.
fn judged(
    heap: Global,
    text: &[u8],
    nodes: &mut [Node],
    changed: Option<Change>,
) -> Result<Found, AllocError> {
    let script = match read(text, nodes) {
        Ok(script) => script,
        Err(refused) => return Ok(found(heap, Err(Refused::from(refused)))),
    };
    let last = nodes.len().saturating_sub(1);
    match changed {
        None => checked(heap, &script, text, nodes),
        Some(Change::Text) => checked(heap, &script, b"", nodes),
        Some(Change::First) => {
            put(nodes, 0, OTHER);
            checked(heap, &script, text, nodes)
        }
        Some(Change::Last) => {
            put(nodes, last, OTHER);
            checked(heap, &script, text, nodes)
        }
        Some(Change::Shorter) => checked(heap, &script, text, &nodes[..last]),
    }
}

impl Trial for Scripts {
    fn set(&mut self, word: &str, rest: &str) -> Option<()> {
        match word {
            "lent" => self.lent = rest.parse::<usize>().ok()?,
            "changed" => {
                self.changed = match rest {
                    "text" => Some(Change::Text),
                    "nodes" => Some(Change::First),
                    "last" => Some(Change::Last),
                    "shorter" => Some(Change::Shorter),
                    _ => return None,
                }
            }
            _ => return None,
        }
        Some(())
    }

    fn found(
        &mut self,
        heap: Global,
        text: &[u8],
        _expected: Expected,
    ) -> Result<Found, AllocError> {
        let mut nodes = vec![in heap; Node::UNUSED; self.lent]?;
        let changed = self.changed;
        *self = Scripts::new();
        judged(heap, text, &mut nodes, changed)
    }
}
