// The table of functions: an annotation opens a function's entry and its define fills it, or the other way round.
ghost use Rattle.std.specs.Prelude.{◌≡◌, ◌<◌, ◌≤◌, length, take};
ghost use Rattle.parser.specs.Noting.{fits_word, given_word, position, noted_in};

use layout::{Function, Functions, Half, Word};
use names::part;

// A half that a definition gives to the function of a name, which stands in the text.
#[derive(Clone, Copy)]
pub struct Given<'t> {
    pub text: &'t [u8],
    pub half: Half,
    pub name: Word,
}

impl<'t> Given<'t> {
    // Whether an entry has this name and lacks this half.
    fn fits(&self, entry: Function) -> bool
        ensures { result ≡ fits_word self.now.text.now self.now.half self.now.name entry }
    {
        let other = match self.half {
            Half::Annotation => entry.annotation,
            Half::Define => entry.define,
        };
        other.is_none() && part(self.text, entry.name) == part(self.text, self.name)
    }

    // The first entry that fits, or the number of the next entry where none does.
    // Not an `Option`: where none fits, the number is that of the entry to be opened.
    fn find(&self, functions: &Functions) -> usize
        requires { functions.now.count ≤ 768 }
        ensures { result ≡ position (fits_word self.now.text.now self.now.half self.now.name) (take functions.now.count functions.now.entries) }
    {
        let used = &functions.entries[..functions.count];
        used.iter()
            .position(|entry| self.fits(*entry))
            .unwrap_or(used.len())
    }

    // The number of its definition goes into the first entry of that name that lacks this half, or into a new one.
    pub(crate) fn note(&self, functions: &mut Functions, number: u16)
        requires { functions.old.count < 768 }
        ensures { functions.new ≡ noted_in self.now.text.now self.now.half self.now.name number functions.old }
    {
        let count = functions.count;
        let i = self.find(functions);
        if i < count {
            fill(&mut functions.entries[i], self.half, number);
            return;
        }
        functions.entries[count] = Function {
            name: self.name,
            annotation: None,
            define: None,
        };
        functions.count = count + 1;
        fill(&mut functions.entries[count], self.half, number);
    }
}

// The entry has this half from now on.
fn fill(entry: &mut Function, half: Half, number: u16)
    ensures { entry.new ≡ given_word half number entry.old }
{
    match half {
        Half::Annotation => entry.annotation = Some(number),
        Half::Define => entry.define = Some(number),
    }
}
