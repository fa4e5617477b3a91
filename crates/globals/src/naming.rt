// What a name means in the whole script.
ghost use Rattle.std.specs.Prelude.{◌≡◌};
ghost use Rattle.std.specs.Option.{is_some};
ghost use Rattle.globals.specs.Names.{Named};
ghost use Rattle.globals.specs.Pairs.{IsRoot};
ghost use Rattle.globals.specs.Tallies.{meaning_of};
ghost use Rattle.grammar.specs.Trees.{Script};
ghost use Rattle.program.specs.Programs.{program, global_of, first_of};

use super::declarations::Declarations;
use super::global::Global;
use basis::find;

impl Declarations {
    // What a name means where no local has it; nothing, if it is bound nowhere.
    pub fn named(&self, text: &[u8], name: &[u8]) -> Option<Global>
        ensures { (script : Script) → Named text.now self.now script → meaning_of result ≡ global_of (program script) name.now }
    {
        match self.bound.find(text, name) {
            Some(k) => self.meanings[k],
            None => find(name).map(|basis| Global::Function(basis.number() as u16)),
        }
    }

    // Whether a define has a name.
    pub(crate) fn has_define(&self, text: &[u8], name: &[u8]) -> bool
        ensures { (script : Script) → Named text.now self.now script → result ≡ is_some (first_of (λ d. d.name) name.now (program script).defines) }
    {
        let Some(k) = self.bound.find(text, name) else {
            return false;
        };
        matches!(self.meanings[k], Some(Global::Function(_)))
    }

    // The type node of the type that a name is annotated with.
    pub(crate) fn annotation(&self, text: &[u8], name: &[u8]) -> Option<u16>
        ensures { (script : Script) → Named text.now self.now script → IsRoot (program script) script name.now result }
    {
        let k = self.annotations.find(text, name)?;
        Some(self.roots[k])
    }
}
