// A text through reading, checking and, where it is accepted, running.
use super::random::Random;
use super::tally::Tally;
use super::texts::Stored;
use super::trials::{Ends, Setting, play};
use checking::check;
use layout::{NODES, Node, NodeForm};
use parser::{Script, is_unused, read};
use script_refusals::Refused;
use std::alloc::{AllocError, Global};
use std::mem;
use trial_runs::Lent;

// What no script's first node is.
const OTHER: Node = Node {
    form: NodeForm::Unit,
    place: 65535,
    past: 0,
};

// What came of the texts of one sort.
#[derive(Clone, Copy)]
pub struct Hunt {
    pub random: Random,
    pub texts: Tally,
    // of those whose node list was changed before the check
    pub changed: Tally,
    pub ends: Ends,
}

// Mostly plenty, and at times a few.
fn any_size(random: &mut Random, few: usize) -> usize {
    if random.once_in(4) {
        return random.below(few);
    }
    1000
}

impl Hunt {
    pub fn new(random: Random) -> Hunt {
        Hunt {
            random,
            texts: Tally::new(),
            changed: Tally::new(),
            ends: Ends::new(),
        }
    }

    // A node list that is not as reading left it.
    fn hand_over_changed(&mut self, script: &Script<'_>, text: &[u8], nodes: &mut [Node]) {
        let Some(first) = nodes.first_mut() else {
            return;
        };
        let was = mem::replace(first, OTHER);
        self.changed.count_verdict(check(script, text, nodes).err());
        if let Some(first) = nodes.first_mut() {
            *first = was;
        }
    }

    // A script that was read.
    fn on_read(
        &mut self,
        heap: Global,
        script: &Script<'_>,
        stored: &Stored,
        nodes: &mut [Node],
    ) -> Result<(), AllocError> {
        if self.random.once_in(20) {
            self.hand_over_changed(script, &stored.text, nodes);
        }
        match check(script, &stored.text, nodes) {
            Ok(checked) => {
                self.texts.count_verdict(None);
                let setting = Setting {
                    script: &checked,
                    input: &stored.input,
                    lent: Lent {
                        first: any_size(&mut self.random, 60),
                        second: any_size(&mut self.random, 60),
                        allowance: self.random.below(200_000) as u32,
                    },
                    cells: any_size(&mut self.random, 40),
                };
                play(heap, setting, &mut self.random, &mut self.ends)
            }
            Err(refused) => {
                self.texts.count_verdict(Some(refused));
                Ok(())
            }
        }
    }

    pub fn on_text(&mut self, heap: Global, stored: &Stored) -> Result<(), AllocError> {
        let lent = if self.random.once_in(10) {
            self.random.below(300)
        } else {
            NODES
        };
        let mut nodes = vec![in heap; Node::UNUSED; lent]?;
        match read(&stored.text, &mut nodes) {
            Ok(script) => self.on_read(heap, &script, stored, &mut nodes),
            Err(refused) => {
                self.texts.count_verdict(Some(Refused::from(refused)));
                if !is_unused(&nodes) {
                    self.texts.count_wrong();
                }
                Ok(())
            }
        }
    }
}
