// One pass over a text that counts the parts of every list.
ghost use Rattle.std.specs.Prelude.{◌≡◌, map};
ghost use Rattle.stack.specs.Items.{tops};
ghost use Rattle.forms.specs.Surveys.{Known, added, told};

use super::part_count::PartCount;
use super::sight::{Look, look_at};
use entries::put;
use layout::DEPTH;
use stack::Stack;

// A list that is open: the place where its parts begin, and how many there were so far, where seven stands for more.
#[derive(Clone, Copy, PartialEq, Eq)]
pub struct OpenList {
    pub inside: usize,
    pub parts: u8,
}

// One part more of the newest list.
fn add_part(opened: &mut Stack<'_, OpenList>)
    ensures { tops opened.new ≡ added (tops opened.old) }
{
    if let Some(list) = opened.top() {
        let _ = opened.replace_top(OpenList {
            parts: list.parts.saturating_add(1).min(7),
            ..list
        });
    }
}

// Whatever the table tells is right: the pass writes the number of parts of each list behind the bracket that opens it.
pub(crate) fn count_lists(text: &[u8], counts: &mut [PartCount; 65536])
    requires { Known text.now (map told counts.old) }
    ensures { Known text.now (map told counts.new) }
{
    let mut room = [OpenList {
        inside: 0,
        parts: 0,
    }; DEPTH];
    let mut opened = Stack::new(&mut room);
    // Tokens are followed: the place is where the last one ended, and no index.
    let mut at = 0;
    'tokens: loop {
        match look_at(text, at) {
            Look::Atom(_, _, after) => {
                add_part(&mut opened);
                at = after;
            }
            Look::Open(_, after) => {
                add_part(&mut opened);
                let list = OpenList {
                    inside: after,
                    parts: 0,
                };
                if opened.push(list).is_err() {
                    return;
                }
                at = after;
            }
            Look::Close(_, after) => {
                if let Some(list) = opened.pop() {
                    put(counts, list.inside, PartCount::of(list.parts));
                }
                at = after;
            }
            Look::End => return,
        }
    }
}
