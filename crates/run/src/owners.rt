// The define or val that a place of the script lies in.
ghost use Rattle.std.specs.Prelude.{◌≡◌, slice_index_or};
ghost use Rattle.layout.specs.Words.{word};
ghost use Rattle.program.specs.Programs.{Program, owner_found};
ghost use Rattle.program.specs.Standing.{Lays, no_owner};

use layout::Word;
use program::{Compiled, Owner};

// An owner by its number. Past the end stands what no script has.
fn owner_of(script: &Compiled, number: usize) -> Owner
    ensures { result ≡ slice_index_or script.now.owners number no_owner }
{
    let none = Owner {
        place: 0,
        name: Word::UNUSED,
    };
    script.owners.get(number).copied().unwrap_or(none)
}

// The name of the last one that begins at the place or before it.
pub fn owner_at(script: &Compiled, place: u16) -> Word
    ensures { (P : Program) → Lays script.now P → result ≡ word (owner_found P place) }
{
    let mut name = Word::UNUSED;
    // nothing bounds the count by the table, so the owners are looked up by number and are no slice
    for i in 0..script.owner_count as usize {
        let owner = owner_of(script, i);
        if owner.place > place {
            return name;
        }
        name = owner.name;
    }
    name
}
