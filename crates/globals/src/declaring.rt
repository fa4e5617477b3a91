// Names are declared one by one, in text order; a name that was declared before in the same tally is refused.
ghost use Rattle.std.specs.Prelude.{◌≡◌, ℕ, ◌+◌, ◌<◌, ◌≤◌, List, reverse, ◌++◌, length, IfOk, Some, slice_index_or, slice_set, ◌∷◌, []};
ghost use Rattle.globals.specs.Lying.{VariantLies, Laid};
ghost use Rattle.globals.specs.Tallies.{Tally, no_tally, tallied_all, seen_bound, seen_annotated, seen_datatypes, also_bound, also_annotated, also_datatype, also_variants, meaning_of, Next, Declared, Holds, told};
ghost use Rattle.grammar.specs.Trees.{Ident, TypeExpr, Constructor, Script};
ghost use Rattle.layout.specs.Spelling.{Spells};
ghost use Rattle.layout.specs.Tabling.{none, unused_constructor};
ghost use Rattle.names.specs.Indexing.{IsIndex, names_in};
ghost use Rattle.names.specs.Parts.{part_of};
ghost use Rattle.program.specs.Programs.{Name};
ghost use Rattle.typing.specs.Scripts.{basis_names};
ghost use Rattle.typing.specs.Verdict.{Verdict, accepted, among_them, once, once_variants, once_all};

use super::declarations::Declarations;
use super::global::Global;
use super::refusing::refused;
use super::tables::{Parsed, constructor_at, definitions};
use super::variant::{NO_VARIANT, Variant};
use basis::{Basis, find};
use entries::put;
use layout::{Datatype, Define, Definition, Val, Word};
use names::{Index, part};
use script_refusals::{Refusal, Refused};

// The number of the first define among the functions: those of the basis come first.
pub(crate) const FIRST_DEFINE: u16 = Basis::COUNT as u16;

// Whether a tally has a name.
fn is_among(index: &Index, text: &[u8], name: &[u8]) -> bool
    ensures value { IsIndex text.now index.now → result ≡ among_them name.now (names_in text.now index.now) }
    ensures backwards { IsIndex text.now index.now → result ≡ among_them name.now (reverse (names_in text.now index.now)) }
{
    index.find(text, name).is_some()
}

// Whether a function of the basis has a name.
fn is_basis(name: &[u8]) -> bool
    ensures { result ≡ among_them name.now basis_names }
{
    find(name).is_some()
}

// The same for a tally that the functions of the basis are in beforehand.
fn is_taken(index: &Index, text: &[u8], name: &[u8]) -> bool
    ensures { IsIndex text.now index.now → result ≡ among_them name.now (reverse (names_in text.now index.now) ++ basis_names) }
{
    is_among(index, text, name) || is_basis(name)
}

// A name more in an index, with what goes with it in the array beside it; a name that the index or the basis has is refused.
fn tally<T: Copy>(
    index: &mut Index,
    values: &mut [T],
    text: &[u8],
    name: Word,
    value: T,
) -> Result<(), Refused>
    ensures told { (x : Ident) (next : Verdict) → IsIndex text.now index.old → Spells text.now name x → once x (reverse (names_in text.now index.old) ++ basis_names) next ≡ told result next }
    ensures index { IfOk result (λ _. IsIndex text.now index.old → IsIndex text.now index.new) }
    ensures names { IfOk result (λ _. IsIndex text.now index.old → length (names_in text.now index.old) < 512 → names_in text.now index.new ≡ names_in text.now index.old ++ part_of text.now name ∷ []) }
    ensures values { IfOk result (λ _. IsIndex text.now index.old → values.new ≡ slice_set values.old (length (names_in text.now index.old)) value) }
{
    if is_taken(index, text, part(text, name)) {
        return Err(refused(Refusal::Repeated, name.place));
    }
    let n = index.count();
    put(values, n, value);
    index.add(text, name);
    Ok(())
}

impl Declarations {
    // A bound name: of a constructor, a define or a val.
    fn bind(&mut self, text: &[u8], name: Word, meaning: Global) -> Result<(), Refused>
        ensures told { (t : Tally) (x : Ident) (next : Verdict) → Holds text.now self.old t → Spells text.now name x → once x (seen_bound t) next ≡ told result next }
        ensures holds { (t : Tally) (x : Ident) → Holds text.now self.old t → Spells text.now name x → length t.bound < 512 → IfOk result (λ _. Holds text.now self.new (also_bound x (meaning_of (Some meaning)) t)) }
    {
        let meaning = Some(meaning);
        tally(&mut self.bound, &mut self.meanings, text, name, meaning)
    }

    // An annotation, with the type node of its type.
    fn annotate(&mut self, text: &[u8], name: Word, root: u16) -> Result<(), Refused>
        ensures told { (t : Tally) (x : Ident) (next : Verdict) → Holds text.now self.old t → Spells text.now name x → once x (seen_annotated t) next ≡ told result next }
        ensures holds { (t : Tally) (x : Ident) (e : TypeExpr) → Holds text.now self.old t → Spells text.now name x → length t.annotations < 512 → IfOk result (λ _. Holds text.now self.new (also_annotated x e root t)) }
    {
        tally(&mut self.annotations, &mut self.roots, text, name, root)
    }

    // A datatype's name.
    fn name_datatype(&mut self, text: &[u8], name: Word) -> Result<(), Refused>
        ensures told { (t : Tally) (x : Ident) (next : Verdict) → Holds text.now self.old t → Spells text.now name x → once x (seen_datatypes t) next ≡ told result next }
        ensures holds { (t : Tally) (x : Ident) → Holds text.now self.old t → Spells text.now name x → length t.datatypes < 512 → IfOk result (λ _. Holds text.now self.new (also_datatype x t)) }
    {
        if is_among(&self.datatypes, text, part(text, name)) {
            return Err(refused(Refusal::Repeated, name.place));
        }
        self.datatypes.add(text, name);
        Ok(())
    }

    // The constructor with a number, of the datatype with a number.
    fn constructor(&mut self, parsed: &Parsed<'_>, datatype: u16, i: u16) -> Result<(), Refused>
        ensures told { (t : Tally) (k : ℕ) (x : Constructor) (next : Verdict) → Holds parsed.now.text.now self.old t → VariantLies parsed.now.text.now parsed.now.tables.now (slice_index_or parsed.now.tables.now.constructors i unused_constructor) k x → once x.name (seen_bound t) next ≡ told result next }
        ensures holds { (t : Tally) (k : ℕ) (x : Constructor) → Holds parsed.now.text.now self.old t → VariantLies parsed.now.text.now parsed.now.tables.now (slice_index_or parsed.now.tables.now.constructors i unused_constructor) k x → length t.variants ≡ i → i < 256 → length t.bound < 512 → IfOk result (λ _. Holds parsed.now.text.now self.new (also_variants datatype i k (x ∷ []) t)) }
    {
        let entry = constructor_at(parsed.tables, i as usize);
        self.bind(parsed.text, entry.name, Global::Constructor(i))?;
        let variant = Variant {
            datatype,
            first: entry.first,
            past: entry.past,
            fields: entry.fields,
        };
        put(&mut self.variants, i as usize, variant);
        Ok(())
    }

    // The constructors from one number up to another, of the datatype with a number.
    fn constructors(
        &mut self,
        parsed: &Parsed<'_>,
        datatype: u16,
        first: u16,
        past: u16,
    ) -> Result<(), Refused>
        ensures told { (t : Tally) (k : ℕ) (cs : List Constructor) (next : List Name → Verdict) → Holds parsed.now.text.now self.old t → Next parsed.now.text.now parsed.now.tables.now t first past k cs → once_variants cs (seen_bound t) next ≡ told result (next (seen_bound (also_variants datatype first k cs t))) }
        ensures holds { (t : Tally) (k : ℕ) (cs : List Constructor) → Holds parsed.now.text.now self.old t → Next parsed.now.text.now parsed.now.tables.now t first past k cs → IfOk result (λ _. Holds parsed.now.text.now self.new (also_variants datatype first k cs t)) }
    {
        // By number: it is the constructor's, in the meanings and the variants.
        'each: for i in first..past {
            self.constructor(parsed, datatype, i)?;
        }
        Ok(())
    }

    // A datatype and its constructors.
    fn datatype(&mut self, parsed: &Parsed<'_>, datatype: Datatype) -> Result<(), Refused>
        ensures { Declared parsed.now.text.now parsed.now.tables.now (Definition.Datatype datatype) self.old result self.new }
    {
        let number = self.datatypes.count() as u16;
        self.name_datatype(parsed.text, datatype.name)?;
        self.constructors(parsed, number, datatype.first, datatype.past)
    }

    // A define, with the next number among the functions.
    fn define(&mut self, parsed: &Parsed<'_>, define: Define) -> Result<(), Refused>
        ensures { Declared parsed.now.text.now parsed.now.tables.now (Definition.Define define) self.old result self.new }
    {
        let number = self.functions;
        self.bind(parsed.text, define.name, Global::Function(number))?;
        self.functions = number.saturating_add(1);
        Ok(())
    }

    // (The same for each of the two counters: one function of both would take which, and match on it.)
    // A val, with the next number among the vals.
    fn bind_val(&mut self, parsed: &Parsed<'_>, val: Val) -> Result<(), Refused>
        ensures { Declared parsed.now.text.now parsed.now.tables.now (Definition.Val val) self.old result self.new }
    {
        let number = self.vals;
        self.bind(parsed.text, val.name, Global::Val(number))?;
        self.vals = number.saturating_add(1);
        Ok(())
    }

    // What one definition declares. A closed enum, each case its own rule.
    fn declare(&mut self, parsed: &Parsed<'_>, definition: Definition) -> Result<(), Refused>
        ensures { Declared parsed.now.text.now parsed.now.tables.now definition self.old result self.new }
    {
        match definition {
            Definition::Datatype(datatype) => self.datatype(parsed, datatype),
            Definition::Annotation(annotation) => self.annotate(
                parsed.text,
                annotation.name,
                annotation.root,
            ),
            Definition::Define(define) => self.define(parsed, define),
            Definition::Val(val) => self.bind_val(parsed, val),
            Definition::Unused => Ok(()),
        }
    }

    // Nothing is declared yet; the functions of the basis have the first numbers.
    fn new() -> Declarations
        ensures { (text : List ℕ) → Holds text result no_tally }
    {
        Declarations {
            bound: Index::new(),
            meanings: [None; 512],
            annotations: Index::new(),
            roots: [0; 512],
            datatypes: Index::new(),
            variants: [NO_VARIANT; 256],
            functions: FIRST_DEFINE,
            vals: 0,
        }
    }

    // What all definitions declare; the first name in text order that was declared before is refused.
    pub(crate) fn read(parsed: &Parsed<'_>) -> Result<Declarations, Refused>
        ensures names { (script : Script) → Laid parsed.now.text.now parsed.now.tables.now script → once_all basis_names basis_names [] script ≡ told result accepted }
        ensures holds { (script : Script) → Laid parsed.now.text.now parsed.now.tables.now script → IfOk result (λ d. Holds parsed.now.text.now d (tallied_all none script no_tally)) }
    {
        let mut declared = Declarations::new();
        for &definition in definitions(parsed.tables) {
            declared.declare(parsed, definition)?;
        }
        Ok(declared)
    }
}
