// What a script declares, as a whole.
ghost use Rattle.std.specs.Prelude.{◌≡◌, ℕ, List, codes, slice_index_or};
ghost use Rattle.type_rows.specs.declared.value_type.ValueType.TheVariants as value;
ghost use Rattle.globals.specs.Known.{Known, FunctionIs, VariantIs, IsWhole, told_main};
ghost use Rattle.globals.specs.Lying.{Laid};
ghost use Rattle.globals.specs.Names.{no_variant};
ghost use Rattle.globals.specs.Tallies.{meaning_of};
ghost use Rattle.grammar.specs.Trees.{Script};
ghost use Rattle.program.specs.Programs as means;
ghost use Rattle.program.specs.Programs.{Name, program, global_of, first_of};
ghost use Rattle.typing.specs.Verdict.{main_stands};

use super::declarations::Declarations;
use super::declaring::FIRST_DEFINE;
use super::define_types::DefineTypes;
use super::global::Global;
use super::pairing::pair;
use super::refusing::refused;
use super::resolving::resolve;
use super::tables::Parsed;
use super::variant::{NO_VARIANT, Variant};
use basis::Basis;
use layout::Tables;
use script_refusals::{Refusal, Refused};
use type_rows::{Rows, ValueType, basis_type};

#[derive(Clone, Copy)]
pub struct Globals {
    pub(crate) declared: Declarations,
    pub(crate) rows: Rows,
    pub(crate) types: DefineTypes,
}

impl Globals {
    // What a name means where no local has it; nothing, if it is bound nowhere.
    pub fn named(&self, text: &[u8], name: &[u8]) -> Option<Global>
        ensures { (script : Script) → Known text.now self.now script → meaning_of result ≡ global_of (program script) name.now }
    {
        self.declared.named(text, name)
    }

    // The table of types.
    pub fn rows(&self) -> &Rows
        ensures { result.now ≡ self.now.rows }
    {
        &self.rows
    }

    // The type that the define with a number is annotated with.
    pub fn define_type(&self, j: usize) -> ValueType
        ensures { result ≡ slice_index_or self.now.types.types j value.Unit }
    {
        self.types.types.get(j).copied().unwrap_or(ValueType::Unit)
    }

    // The type of the function with a number.
    pub fn function_type(&self, n: u16) -> ValueType
        ensures { (text : List ℕ) (script : Script) (w : Name) → Known text self.now script → global_of (program script) w ≡ means.function n → FunctionIs script self.now.rows.rows n result }
    {
        // By map_or_else both arms would be closures, the second one first: no plainer.
        match Basis::try_from(n as u32) {
            Ok(basis) => basis_type(basis),
            Err(_) => self.define_type((n as usize).saturating_sub(FIRST_DEFINE as usize)),
        }
    }

    fn variant_at(&self, k: usize) -> Variant
        ensures { result ≡ slice_index_or self.now.declared.variants k no_variant }
    {
        self.declared.variants.get(k).copied().unwrap_or(NO_VARIANT)
    }

    // The constructor with a number.
    pub fn variant(&self, k: u16) -> Variant
        ensures { (text : List ℕ) (script : Script) (w : Name) → Known text self.now script → global_of (program script) w ≡ means.constructor k → VariantIs script self.now.rows.rows k result }
    {
        self.variant_at(k as usize)
    }

    // Whether a define `main` is of the type (-> () unit). The function of the basis that prints a newline is of that type, too.
    fn has_main(&self, text: &[u8]) -> bool
        ensures { (script : Script) → Known text.now self.now script → told_main (main_stands (program script) (first_of (λ d. d.name) (codes "main") (program script).defines)) result }
    {
        let Some(Global::Function(n)) = self.named(text, b"main") else {
            return false;
        };
        self.rows
            .same(self.function_type(n), basis_type(Basis::PrintNewline))
    }

    // All that a script declares, by the rules for the whole of it: names once, then types, then defines and annotations by pairs, then main.
    pub fn read(text: &[u8], tables: &Tables) -> Result<Globals, Refused>
        ensures { (script : Script) → Laid text.now tables.now script → IsWhole text.now script result }
    {
        let parsed = Parsed { text, tables };
        let declared = Declarations::read(&parsed)?;
        let rows = resolve(&parsed, &declared)?;
        let types = pair(&parsed, &declared, &rows)?;
        let globals = Globals {
            declared,
            rows,
            types,
        };
        if globals.has_main(text) {
            return Ok(globals);
        }
        Err(refused(Refusal::NoMain, 0))
    }
}
