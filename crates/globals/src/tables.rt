// What stands in the tables of a script that was read; past their ends, entries that nothing uses.
ghost use Rattle.std.specs.Prelude.{◌≡◌, min, length, take, slice_index_or};
ghost use Rattle.layout.specs.Tabling.{unused_constructor};
ghost use Rattle.layout.specs.TypeEncoding.{unused_type};

use layout::{Constructor, Definition, Tables, TypeNode};

// A script that was read: its text, and its tables.
#[derive(Clone, Copy)]
pub(crate) struct Parsed<'a> {
    pub(crate) text: &'a [u8],
    pub(crate) tables: &'a Tables,
}

// The definitions in text order.
pub fn definitions(tables: &Tables) -> &[Definition]
    ensures items { result.now ≡ take (min tables.now.counts.definitions 832) tables.now.definitions }
    ensures many { length result.now ≡ min tables.now.counts.definitions 832 }
{
    &tables.definitions[..tables.counts.definitions.min(832)]
}

pub(crate) fn constructor_at(tables: &Tables, k: usize) -> Constructor
    ensures { result ≡ slice_index_or tables.now.constructors k unused_constructor }
{
    tables
        .constructors
        .get(k)
        .copied()
        .unwrap_or(Constructor::UNUSED)
}

pub(crate) fn type_at(tables: &Tables, k: u16) -> TypeNode
    ensures { result ≡ slice_index_or tables.now.types k unused_type }
{
    tables
        .types
        .get(k as usize)
        .copied()
        .unwrap_or(TypeNode::UNUSED)
}
