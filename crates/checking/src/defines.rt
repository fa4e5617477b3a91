// The body of one define, and the expression of one val.
ghost use Rattle.std.specs.Prelude.{◌≡◌, ◌-◌};
ghost use Rattle.checking.specs.Defining.{OnDefine, OnVal};

use bodies::expression;
use layout::{Define, Tables, Val};
use naming::{World, bind_parameters, mismatch};
use program::Code;
use scopes::{Local, Scope};
use script_refusals::Refused;
use type_rows::{Shape, ValueType};

// How many parameters a define has.
pub(crate) fn arity_of(define: Define) -> u16
    ensures { result ≡ define.past - define.first }
{
    define.past.saturating_sub(define.first)
}

// A define whose name is annotated with a type: its parameters, then its body, then the body's type.
pub(crate) fn check_define(
    world: &World<'_>,
    tables: &Tables,
    define: Define,
    kind: ValueType,
    codes: &mut [Code],
) -> Result<(), Refused>
    ensures { OnDefine world.now tables.now define kind codes.old result codes.new }
{
    let rows = world.globals.rows();
    let ValueType::Function(k) = kind else {
        return Err(mismatch(define.place));
    };
    let row = rows.row(k as usize);
    if row.shape != Shape::Function(arity_of(define)) {
        return Err(mismatch(define.place));
    }
    let mut scope = Scope::new();
    let mut locals = [Local::NONE; 64];
    bind_parameters(
        world,
        tables,
        define.first,
        define.past,
        k.saturating_add(1),
        &mut scope,
        &mut locals,
    )?;
    let height = scope.depth;
    let found = expression(
        world,
        define.body as usize,
        height,
        &mut scope,
        &mut locals,
        codes,
    )?;
    if rows.same(found, rows.kind(row.result)) {
        return Ok(());
    }
    Err(mismatch(define.place))
}

// A val has the type of its expression.
pub(crate) fn check_val(
    world: &World<'_>,
    val: Val,
    codes: &mut [Code],
) -> Result<ValueType, Refused>
    ensures { OnVal world.now val codes.old result codes.new }
{
    let mut scope = Scope::new();
    let mut locals = [Local::NONE; 64];
    expression(world, val.body as usize, 0, &mut scope, &mut locals, codes)
}
