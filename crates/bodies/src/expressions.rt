// Expressions, their arguments, bindings and branches. Each function calls those of the parts, whose nodes have higher numbers.
// Scope and locals go side by side: a guard lends the scope alone, so that a struct of both would be made anew at each call.
ghost use Rattle.std.specs.Prelude.{◌<◌, ◌≤◌, length, IfOk};
ghost use Rattle.bodies.specs.Parts.{OnExpr, OnRow, OnArguments, OnBindings, OnArm, OnArms, OnConstruct, OnCall, Alike};
ghost use Rattle.layout.specs.declared.node.NodeForm.TheVariants as form;
ghost use Rattle.naming.specs.Judges.{desk, Kept, Grown, OnForm};

use super::heads::constructor_at;
use super::signature::{is_next, signature_of};
use layout::NodeForm;
use naming::{World, after, bind, dup, literal, mismatch, name, node_at, note, pattern};
use program::{Code, Op};
use scopes::{Guard, Local, Scope, join};
use script_refusals::Refused;
use type_rows::ValueType;

// The type of the expression at a node, whose names lie below so many entries.
#[cycle(expression)]
pub fn expression(
    world: &World<'_>,
    i: usize,
    height: usize,
    scope: &mut Scope,
    locals: &mut [Local],
    codes: &mut [Code],
) -> Result<ValueType, Refused>
    ensures kept { Kept (desk scope.old locals.old) (desk scope.new locals.new) }
    ensures answers { OnExpr world.now i height (desk scope.old locals.old) codes.old result (desk scope.new locals.new) codes.new }
{
    let node = node_at(world.nodes, i);
    match node.form {
        NodeForm::Integer(z) => literal(codes, i, node, Op::Integer(z), ValueType::Int),
        NodeForm::Symbol(n) => literal(codes, i, node, Op::Symbol(n), ValueType::Sym),
        NodeForm::Boolean(b) => literal(codes, i, node, Op::Boolean(b), ValueType::Bool),
        NodeForm::Unit => literal(codes, i, node, Op::Unit, ValueType::Unit),
        NodeForm::Name(size) => name(world, i, size, height, scope, locals, codes),
        NodeForm::If => if_form(world, i, height, scope, locals, codes),
        NodeForm::Begin => begin_form(world, i, height, scope, locals, codes),
        NodeForm::Let => let_form(world, i, height, scope, locals, codes),
        NodeForm::Case => case_form(world, i, height, scope, locals, codes),
        NodeForm::Dup(word) => dup(world, i, word, height, scope, locals, codes),
        NodeForm::Apply => apply_form(world, i, height, scope, locals, codes),
        NodeForm::Unused | NodeForm::Binding(_) | NodeForm::Branch(_) => Err(mismatch(node.place)),
    }
}

// An if: both arms begin with the marks that the test left.
#[cycle(expression)]
fn if_form(
    world: &World<'_>,
    i: usize,
    height: usize,
    scope: &mut Scope,
    locals: &mut [Local],
    codes: &mut [Code],
) -> Result<ValueType, Refused>
    requires { i < length world.now.nodes.now }
    ensures kept { Kept (desk scope.old locals.old) (desk scope.new locals.new) }
    ensures answers { OnForm world.now form.If i height (desk scope.old locals.old) codes.old result (desk scope.new locals.new) codes.new }
{
    let node = node_at(world.nodes, i);
    note(codes, i, node, Op::If);
    let test = i + 1;
    let ValueType::Bool = expression(world, test, height, scope, locals, codes)? else {
        return Err(mismatch(node.place));
    };
    let tested = scope.marks;
    let first = after(world.nodes, test);
    let kind = expression(world, first, height, scope, locals, codes)?;
    let taken = scope.marks;
    scope.marks = tested;
    let second = after(world.nodes, first);
    let other = expression(world, second, height, scope, locals, codes)?;
    join(&mut scope.marks, &taken);
    if world.globals.rows().same(kind, other) {
        return Ok(kind);
    }
    Err(mismatch(node.place))
}

// A begin: the type is that of its last part.
#[cycle(expression)]
fn begin_form(
    world: &World<'_>,
    i: usize,
    height: usize,
    scope: &mut Scope,
    locals: &mut [Local],
    codes: &mut [Code],
) -> Result<ValueType, Refused>
    requires { i < length world.now.nodes.now }
    ensures kept { Kept (desk scope.old locals.old) (desk scope.new locals.new) }
    ensures answers { OnForm world.now form.Begin i height (desk scope.old locals.old) codes.old result (desk scope.new locals.new) codes.new }
{
    let node = node_at(world.nodes, i);
    note(codes, i, node, Op::Begin);
    let first = i + 1;
    let kind = expression(world, first, height, scope, locals, codes)?;
    row(
        world,
        after(world.nodes, first),
        node.past,
        kind,
        height,
        scope,
        locals,
        codes,
    )
}

// The further parts of a begin, from a node up to another, behind one of this type.
#[cycle(expression)]
fn row(
    world: &World<'_>,
    i: usize,
    past: u16,
    kind: ValueType,
    height: usize,
    scope: &mut Scope,
    locals: &mut [Local],
    codes: &mut [Code],
) -> Result<ValueType, Refused>
    ensures kept { Kept (desk scope.old locals.old) (desk scope.new locals.new) }
    ensures answers { OnRow world.now i past kind height (desk scope.old locals.old) codes.old result (desk scope.new locals.new) codes.new }
{
    if i >= past as usize {
        return Ok(kind);
    }
    let kind = expression(world, i, height, scope, locals, codes)?;
    row(
        world,
        after(world.nodes, i),
        past,
        kind,
        height,
        scope,
        locals,
        codes,
    )
}

// A let: the names that it binds leave the scope at its end.
#[cycle(expression)]
fn let_form(
    world: &World<'_>,
    i: usize,
    height: usize,
    scope: &mut Scope,
    locals: &mut [Local],
    codes: &mut [Code],
) -> Result<ValueType, Refused>
    requires { i < length world.now.nodes.now }
    ensures kept { Kept (desk scope.old locals.old) (desk scope.new locals.new) }
    ensures answers { OnForm world.now form.Let i height (desk scope.old locals.old) codes.old result (desk scope.new locals.new) codes.new }
{
    let guard = Guard::new(scope);
    let body = bindings(world, i + 1, height, guard.scope, locals, codes)?;
    let bound = guard.bound();
    note(
        codes,
        i,
        node_at(world.nodes, i),
        Op::Let(bound.min(65535) as u16),
    );
    expression(
        world,
        body,
        height.saturating_add(bound),
        guard.scope,
        locals,
        codes,
    )
}

// The bindings from a node on; the answer is the node of the body behind them.
#[cycle(expression)]
fn bindings(
    world: &World<'_>,
    i: usize,
    height: usize,
    scope: &mut Scope,
    locals: &mut [Local],
    codes: &mut [Code],
) -> Result<usize, Refused>
    ensures grown { Grown (desk scope.old locals.old) (desk scope.new locals.new) }
    ensures later { IfOk result (λ body. i ≤ body) }
    ensures answers { OnBindings world.now i height (desk scope.old locals.old) codes.old result (desk scope.new locals.new) codes.new }
{
    let node = node_at(world.nodes, i);
    let NodeForm::Binding(word) = node.form else {
        return Ok(i);
    };
    note(codes, i, node, Op::Binding);
    let kind = expression(world, i + 1, height, scope, locals, codes)?;
    bind(world, word, kind, height, scope, locals)?;
    bindings(
        world,
        after(world.nodes, i),
        height.saturating_add(1),
        scope,
        locals,
        codes,
    )
}

// A case: what it tests is of a datatype, and its branches are of one type.
#[cycle(expression)]
fn case_form(
    world: &World<'_>,
    i: usize,
    height: usize,
    scope: &mut Scope,
    locals: &mut [Local],
    codes: &mut [Code],
) -> Result<ValueType, Refused>
    requires { i < length world.now.nodes.now }
    ensures kept { Kept (desk scope.old locals.old) (desk scope.new locals.new) }
    ensures answers { OnForm world.now form.Case i height (desk scope.old locals.old) codes.old result (desk scope.new locals.new) codes.new }
{
    let node = node_at(world.nodes, i);
    note(codes, i, node, Op::Case);
    let test = i + 1;
    let kind = expression(world, test, height, scope, locals, codes)?;
    let ValueType::Datatype(datatype) = kind else {
        return Err(mismatch(node.place));
    };
    arms(
        world,
        after(world.nodes, test),
        node.past,
        datatype,
        height,
        scope,
        locals,
        codes,
    )?
    .ok_or(mismatch(node.place))
}

// The branches from a node up to another, for values of a datatype: their type, if they are of one type. Each begins with the marks that
// the test left.
#[cycle(expression)]
fn arms(
    world: &World<'_>,
    i: usize,
    past: u16,
    datatype: u16,
    height: usize,
    scope: &mut Scope,
    locals: &mut [Local],
    codes: &mut [Code],
) -> Result<Option<ValueType>, Refused>
    ensures kept { Kept (desk scope.old locals.old) (desk scope.new locals.new) }
    ensures answers { OnArms world.now i past datatype height (desk scope.old locals.old) codes.old result (desk scope.new locals.new) codes.new }
{
    let marks = scope.marks;
    let kind = arm(world, i, datatype, height, scope, locals, codes)?;
    let next = after(world.nodes, i);
    if next >= past as usize {
        return Ok(Some(kind));
    }
    let consumed = scope.marks;
    scope.marks = marks;
    let others = arms(world, next, past, datatype, height, scope, locals, codes)?;
    join(&mut scope.marks, &consumed);
    Ok(alike(world, kind, others))
}

// The type of a branch and of those behind it, if they are of one type.
fn alike(world: &World<'_>, kind: ValueType, others: Option<ValueType>) -> Option<ValueType>
    ensures { Alike world.now kind others result }
{
    match others {
        Some(other) if world.globals.rows().same(kind, other) => Some(kind),
        _ => None,
    }
}

// A branch: the names of its pattern leave the scope at its end.
#[cycle(expression)]
fn arm(
    world: &World<'_>,
    i: usize,
    datatype: u16,
    height: usize,
    scope: &mut Scope,
    locals: &mut [Local],
    codes: &mut [Code],
) -> Result<ValueType, Refused>
    ensures kept { Kept (desk scope.old locals.old) (desk scope.new locals.new) }
    ensures answers { OnArm world.now i datatype height (desk scope.old locals.old) codes.old result (desk scope.new locals.new) codes.new }
{
    let node = node_at(world.nodes, i);
    let NodeForm::Branch(place) = node.form else {
        return Err(mismatch(node.place));
    };
    let guard = Guard::new(scope);
    pattern(
        world,
        i,
        place,
        datatype,
        height,
        guard.scope,
        locals,
        codes,
    )?;
    let bound = guard.bound();
    expression(
        world,
        i + 1,
        height.saturating_add(bound),
        guard.scope,
        locals,
        codes,
    )
}

// An application.
#[cycle(expression)]
fn apply_form(
    world: &World<'_>,
    i: usize,
    height: usize,
    scope: &mut Scope,
    locals: &mut [Local],
    codes: &mut [Code],
) -> Result<ValueType, Refused>
    requires { i < length world.now.nodes.now }
    ensures kept { Kept (desk scope.old locals.old) (desk scope.new locals.new) }
    ensures answers { OnForm world.now form.Apply i height (desk scope.old locals.old) codes.old result (desk scope.new locals.new) codes.new }
{
    match constructor_at(world, i + 1, scope, locals) {
        Some(k) => construct(world, i, k, height, scope, locals, codes),
        None => call(world, i, height, scope, locals, codes),
    }
}

// An application of the constructor with a number, whose name is not entered.
#[cycle(expression)]
fn construct(
    world: &World<'_>,
    i: usize,
    k: u16,
    height: usize,
    scope: &mut Scope,
    locals: &mut [Local],
    codes: &mut [Code],
) -> Result<ValueType, Refused>
    requires { i < length world.now.nodes.now }
    ensures kept { Kept (desk scope.old locals.old) (desk scope.new locals.new) }
    ensures answers { OnConstruct world.now i k height (desk scope.old locals.old) codes.old result (desk scope.new locals.new) codes.new }
{
    let node = node_at(world.nodes, i);
    let head = i + 1;
    note(codes, head, node_at(world.nodes, head), Op::Head);
    let variant = world.globals.variant(k);
    let fit = arguments(
        world,
        after(world.nodes, head),
        node.past,
        variant.first,
        variant.past,
        height,
        scope,
        locals,
        codes,
    )?;
    if !fit {
        return Err(mismatch(node.place));
    }
    note(codes, i, node, Op::Build(k, variant.fields as u16));
    Ok(ValueType::Datatype(variant.datatype))
}

// An application of what the head's value is.
#[cycle(expression)]
fn call(
    world: &World<'_>,
    i: usize,
    height: usize,
    scope: &mut Scope,
    locals: &mut [Local],
    codes: &mut [Code],
) -> Result<ValueType, Refused>
    requires { i < length world.now.nodes.now }
    ensures kept { Kept (desk scope.old locals.old) (desk scope.new locals.new) }
    ensures answers { OnCall world.now i height (desk scope.old locals.old) codes.old result (desk scope.new locals.new) codes.new }
{
    let node = node_at(world.nodes, i);
    note(codes, i, node, Op::Call);
    let head = i + 1;
    let kind = expression(world, head, height, scope, locals, codes)?;
    let signature = signature_of(world.globals.rows(), kind);
    let fit = arguments(
        world,
        after(world.nodes, head),
        node.past,
        signature.first,
        signature.past,
        height,
        scope,
        locals,
        codes,
    )?;
    match signature.result {
        Some(result) if fit => Ok(result),
        _ => Err(mismatch(node.place)),
    }
}

// Whether the arguments from a node up to another fit the types from a row up to another. Each is held while the next ones are evaluated.
#[cycle(expression)]
fn arguments(
    world: &World<'_>,
    i: usize,
    past: u16,
    row: u16,
    last: u16,
    height: usize,
    scope: &mut Scope,
    locals: &mut [Local],
    codes: &mut [Code],
) -> Result<bool, Refused>
    ensures kept { Kept (desk scope.old locals.old) (desk scope.new locals.new) }
    ensures answers { OnArguments world.now i past row last height (desk scope.old locals.old) codes.old result (desk scope.new locals.new) codes.new }
{
    if i >= past as usize {
        return Ok(row >= last);
    }
    let kind = expression(world, i, height, scope, locals, codes)?;
    let rows = world.globals.rows();
    let fit = is_next(rows, row, last, kind);
    let others = arguments(
        world,
        after(world.nodes, i),
        past,
        rows.row(row as usize).past,
        last,
        height.saturating_add(1),
        scope,
        locals,
        codes,
    )?;
    Ok(fit && others)
}
