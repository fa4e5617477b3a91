// The fields of tested data are bound to the names of a pattern, and those under `_` are dropped.
// `room` is a clause of each: what a call leaves as it was is no fact of one value.
ghost use Rattle.std.specs.Prelude.{◌≡◌, ℕ, ◌+◌, ◌<◌, ◌≤◌, true, false, List, ◌∷◌, ◌++◌, map, length, Some};
ghost use Rattle.cells.specs.Meaning.{Cells};
ghost use Rattle.cells.specs.Records.{row};
ghost use Rattle.cells.specs.declared.values.Value.{Value as Held};
ghost use Rattle.data.proofs.Outs.{join};
ghost use Rattle.data.specs.Taking.{Out};
ghost use Rattle.data.specs.Trees.{Tree, Trees, more, size};
ghost use Rattle.grammar.specs.Trees.{PatternPart};
ghost use Rattle.handing.specs.Binding.{BindsFields};
ghost use Rattle.machine.specs.Holding.{is_full, values_in, holds, trees_in};
ghost use Rattle.program.specs.Scopes.{bits, names_inside};
ghost use Rattle.rules.specs.States.{Environment};
ghost use Rattle.rules.specs.Steps.{binds, bind_parts};
ghost use Rattle.stack.specs.Items.{tops, room_of};

use cells::records::CellRecord;
use cells::store::CellStore;
use cells::values::Value;
use data::drops::drop_value;
use machine::Slot;
use stack::Stack;

// How many names a pattern binds, from the fields that it binds.
pub fn names_in(mask: u8) -> u16
    ensures { (xs : List PatternPart) → mask ≡ bits xs → result ≡ names_inside xs }
{
    mask.count_ones() as u16
}

// One field: it is bound, or dropped. The answer is how many cells are given back, and none where the store contradicts.
fn bind_field<S: CellStore>(
    slots: &mut Stack<'_, Slot>,
    store: &mut S,
    field: Value,
    named: bool,
) -> Option<u32>
    ensures room { room_of slots.new ≡ room_of slots.old }
    ensures bound { named ≡ true → length (tops slots.old) < room_of slots.old
        → (result ≡ Some 0) × (tops slots.new ≡ Some field ∷ tops slots.old) × (S.CellStore.cells store.new ≡ S.CellStore.cells store.old) }
    ensures skipped { named ≡ false → (m₀ : Cells) (vs : List Held) (t : Tree) (ts : Trees) → Out (S.CellStore.cells store.old) (field ∷ vs) (more t ts) m₀
        → (result ≡ Some (size t)) × (tops slots.new ≡ tops slots.old) × Out (S.CellStore.cells store.new) vs ts m₀ }
{
    if named {
        slots.push(Some(field)).ok()?;
        return Some(0);
    }
    drop_value(store, field).ok()
}

// All fields in their order, by the names of a pattern: each is bound, or dropped under `_`.
pub fn bind_fields<S: CellStore>(
    slots: &mut Stack<'_, Slot>,
    store: &mut S,
    contents: CellRecord,
    mask: u8,
) -> Option<u64>
    ensures room { room_of slots.new ≡ room_of slots.old }
    ensures law { (m₀ : Cells) (xs : List PatternPart) (vs : Trees) (env after : Environment) (n : ℕ) → mask ≡ bits xs → bind_parts xs vs env ≡ binds after n
        → names_inside xs + length (tops slots.old) ≤ room_of slots.old → map is_full (tops slots.old) ≡ map holds env
        → Out (S.CellStore.cells store.old) (row contents ++ values_in (tops slots.old)) (join vs (trees_in env)) m₀
        → BindsFields after n result (tops slots.new) (S.CellStore.cells store.new) m₀ }
{
    let mut rest = mask;
    let mut total = 0;
    for field in &contents.fields[..contents.used as usize] {
        let count = bind_field(slots, store, *field, rest % 2 == 1)?;
        total = u64::saturating_add(total, count as u64);
        rest = rest / 2;
    }
    Some(total)
}
