// Type expressions as an author writes them.
use explain::shown;
use layout::{TypeForm, TypeNode, Word};
use names::part;
use parser::Script;
use std::alloc::{AllocError, Global};

// A function type has at most so many parts: six parameter types and the result type.
const PARTS: usize = 7;

// The type expressions of a script, and its text, which has their names.
#[derive(Clone, Copy)]
pub struct Types<'s> {
    heap: Global,
    text: &'s [u8],
    types: &'s [TypeNode],
}

impl<'s> Types<'s> {
    pub fn new(heap: Global, script: &'s Script<'_>) -> Types<'s> {
        Types {
            heap,
            text: script.text(),
            types: &script.tables().types,
        }
    }

    // The number of the entry behind the parts of a type.
    fn past_of(&self, at: usize) -> usize {
        self.types.get(at).map_or(0, |node| node.past as usize)
    }

    // The types from one entry up to another, with a space between two.
    #[cycle(type_text)]
    pub fn push_all(
        &self,
        out: &mut String,
        first: usize,
        past: usize,
        depth: usize,
    ) -> Result<(), AllocError> {
        // each entry tells where the next part is, so there is no slice to iterate over
        let mut at = first;
        for k in 0..PARTS {
            if at < past && at < self.types.len() {
                if k > 0 {
                    out.push(' ')?;
                }
                self.push(out, at, depth)?;
                at = self.past_of(at);
            }
        }
        Ok(())
    }

    // The entry of the result type: the last part of the function type at an entry.
    fn result_of(&self, at: usize) -> usize {
        let past = self.past_of(at);
        let mut last = at;
        let mut next = at.saturating_add(1);
        // Each entry tells where the next part is, so there is no slice to go over.
        for _ in 0..PARTS {
            if next < past {
                last = next;
                next = self.past_of(next);
            }
        }
        last
    }

    // The type at an entry, with at most so many function types in one another.
    #[cycle(type_text)]
    pub fn push(&self, out: &mut String, at: usize, depth: usize) -> Result<(), AllocError> {
        if at >= self.types.len() || depth == 0 {
            return Ok(());
        }
        let node = self.types[at];
        match node.form {
            TypeForm::Int => out.push_str("int"),
            TypeForm::Bool => out.push_str("bool"),
            TypeForm::Sym => out.push_str("sym"),
            TypeForm::Unit => out.push_str("unit"),
            TypeForm::Datatype(size) => {
                let name = part(
                    self.text,
                    Word {
                        place: node.place,
                        size,
                    },
                );
                out.push_str(shown(self.heap, name)?.as_str())
            }
            TypeForm::Function => {
                let result = self.result_of(at);
                out.push_str("(-> (")?;
                self.push_all(out, at + 1, result, depth - 1)?;
                out.push_str(") ")?;
                self.push(out, result, depth - 1)?;
                out.push(')')
            }
            TypeForm::Unused => Ok(()),
        }
    }
}
