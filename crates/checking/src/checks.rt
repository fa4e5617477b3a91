// The check of a script that was read.
ghost use Rattle.std.specs.Prelude.{◌≡◌, ◌↔◌, IsTrue};
ghost use Rattle.checking.specs.Check.{IsUnchanged, CheckAnswers};

use super::whole::check_bodies;
use globals::{Globals, refused};
use layout::{Counts, NODES, Node};
use parser::Script;
use program::Compiled;
use script_refusals::{Refusal, Refused};

// A script that passed the check: only `check` makes one. Its text, and its code, in which names are looked up already.
#[derive(Drop)]
pub struct Checked<'t> {
    pub(crate) text: &'t [u8],
    pub(crate) code: Compiled,
    pub(crate) counts: Counts,
}

impl<'t> Checked<'t> {
    pub fn text(&self) -> &'t [u8]
        ensures { result.now ≡ self.now.text.now }
    {
        self.text
    }

    pub fn code(&self) -> &Compiled
        ensures { result.now ≡ self.now.code }
    {
        &self.code
    }

    // How many nodes, functions and constructors there are, and the like.
    pub fn counts(&self) -> Counts
        ensures { result ≡ self.now.counts }
    {
        self.counts
    }
}

// Whether the text and the node list are what was read, and what reading left.
fn is_unchanged(script: &Script<'_>, text: &[u8], nodes: &[Node]) -> bool
    ensures { IsTrue result ↔ IsUnchanged script.now text.now nodes.now }
{
    text == script.text() && script.is_left(nodes)
}

// Checks a script that was read from this text into this node list: the script with its code, or the first refusal.
pub fn check<'t>(script: &Script<'t>, text: &[u8], nodes: &[Node]) -> Result<Checked<'t>, Refused>
    ensures { CheckAnswers script.now text.now nodes.now result }
{
    if !is_unchanged(script, text, nodes) {
        return Err(refused(Refusal::Changed, 0));
    }
    let globals = Globals::read(script.text(), script.tables())?;
    let used = &nodes[..nodes.len().min(NODES)];
    let code = check_bodies(script.text(), used, script.tables(), &globals)?;
    Ok(Checked {
        text: script.text(),
        code,
        counts: script.tables().counts,
    })
}
