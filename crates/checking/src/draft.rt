// The code of the bodies that were judged so far.
ghost use Rattle.std.specs.Prelude.{◌≡◌, ◌+◌, min};
ghost use Rattle.checking.specs.Drafting.{IsBlank, last_number, WithDefine, WithVal, Finished};

use super::defines::arity_of;
use entries::put;
use layout::{Define, Val, Word};
use program::{Code, Compiled, FunctionCode, Op, Owner};
use type_rows::ValueType;

// Arrays with their counts: a library takes no heap.
#[derive(Drop)]
pub(crate) struct Draft {
    pub(crate) code: [Code; 4096],
    // the defines in text order, and where each begins
    pub(crate) functions: [FunctionCode; 256],
    pub(crate) places: [u16; 256],
    // the nodes of the vals' expressions, and their types
    pub(crate) vals: [u16; 256],
    pub(crate) kinds: [ValueType; 256],
    // defines and vals together
    pub(crate) owners: [Owner; 256],
    pub(crate) define_count: usize,
    pub(crate) val_count: usize,
}

const NO_CODE: Code = Code {
    op: Op::Unused,
    place: 0,
    past: 0,
};

const NO_FUNCTION: FunctionCode = FunctionCode { body: 0, arity: 0 };

const NO_OWNER: Owner = Owner {
    place: 0,
    name: Word::UNUSED,
};

impl Draft {
    // No body was judged.
    pub(crate) fn new() -> Draft
        ensures { IsBlank result }
    {
        Draft {
            code: [NO_CODE; 4096],
            functions: [NO_FUNCTION; 256],
            places: [0; 256],
            vals: [0; 256],
            kinds: [ValueType::Unit; 256],
            owners: [NO_OWNER; 256],
            define_count: 0,
            val_count: 0,
        }
    }

    // How many defines and vals there are together.
    fn owned(&self) -> usize
        ensures { result ≡ min (self.now.define_count + self.now.val_count) last_number }
    {
        self.define_count.saturating_add(self.val_count)
    }

    // A define more, whose body was judged.
    pub(crate) fn add_define(&mut self, define: Define)
        ensures { WithDefine self.old define self.new }
    {
        let owned = self.owned();
        let owner = Owner {
            place: define.place,
            name: define.name,
        };
        put(&mut self.owners, owned, owner);
        let entry = FunctionCode {
            body: define.body,
            arity: arity_of(define),
        };
        put(&mut self.functions, self.define_count, entry);
        put(&mut self.places, self.define_count, define.place);
        self.define_count = self.define_count.saturating_add(1);
    }

    // A val more, with the type of its expression.
    pub(crate) fn add_val(&mut self, val: Val, kind: ValueType)
        ensures { WithVal self.old val kind self.new }
    {
        let owned = self.owned();
        let owner = Owner {
            place: val.place,
            name: val.name,
        };
        put(&mut self.owners, owned, owner);
        put(&mut self.vals, self.val_count, val.body);
        put(&mut self.kinds, self.val_count, kind);
        self.val_count = self.val_count.saturating_add(1);
    }

    // The code of the whole script, whose define `main` has this number.
    pub(crate) fn finish(self, main: u16) -> Compiled
        ensures { Finished self main result }
    {
        let main_place = self.places.get(main as usize).copied().unwrap_or(0);
        Compiled {
            code: self.code,
            functions: self.functions,
            vals: self.vals,
            owners: self.owners,
            owner_count: self.owned().min(65535) as u16,
            main,
            main_place,
        }
    }
}
