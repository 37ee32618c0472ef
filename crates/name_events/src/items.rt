//! What happens to names in the items of modules and interfaces, and in generate constructs.

ghost use Rattle.std.specs.Prelude.{◌≡◌, OnOk};
ghost use Rattle.name_events.specs.Items as means;

use crate::declarations::{declarators, import_items, parameters, typedef};
use crate::events::{Declared, Event, Events, Role, ScopeKind};
use crate::expressions::{Position, expr, exprs};
use crate::functions::{function, task};
use crate::instances::{always, assignments, instantiation, modport_declaration};
use crate::statements::{closes, end_label, labelled, labels, loop_step, opens};
use crate::steps::{declares, put_if, uses};
use crate::types::type_text;
use std::alloc::AllocError;
use sv_source::Boxed;
use sv_tree::{
    CaseGenerateItem, DataDeclaration, GenerateBlock, GenerateElse, GenerateLoop, Item,
    NetOrVariable,
};

/// How deep items nest at most in a text: generate blocks nest at most 256 deep.
const DEPTH: u32 = 257;

/// What a data declaration declares.
fn data_kind(net: Option<NetOrVariable>) -> Declared
    ensures { result ≡ means.data_kind net }
{
    match net {
        Some(NetOrVariable::Wire(_)) => Declared::Net,
        Some(NetOrVariable::Var(_)) => Declared::Variable,
        None => Declared::Variable,
    }
}

/// Nets or variables.
fn data_declaration(one: &DataDeclaration, to: &mut Events) -> Result<(), AllocError>
    ensures { OnOk result (to.new ≡ means.data_declaration one.now to.old) }
{
    type_text(&one.of, to)?;
    declarators(data_kind(one.net), one.declarators.as_slice(), to)
}

/// Names of generate loops.
fn genvars(names: &[u32], to: &mut Events) -> Result<(), AllocError>
    ensures { OnOk result (to.new ≡ means.genvars names.now to.old) }
{
    for name in names {
        declares(Declared::Genvar, *name, *name, to)?;
    }
    Ok(())
}

/// The name of a generate loop, which is declared in it or before.
fn loop_name(genvar: Option<u32>, name: u32, last: u32, to: &mut Events) -> Result<(), AllocError>
    ensures { OnOk result (to.new ≡ means.loop_name genvar name last to.old) }
{
    match genvar {
        None => uses(name, Role::LoopGenvar, to),
        Some(_) => declares(Declared::Genvar, name, last, to),
    }
}

/// The name of a generate loop with its first value.
fn loop_control(one: &GenerateLoop, to: &mut Events) -> Result<(), AllocError>
    ensures { OnOk result (to.new ≡ means.loop_control one.now to.old) }
{
    let last = one.first.last_token();
    expr(&one.first, Position::Value, to)?;
    loop_name(one.genvar, one.name, last, to)?;
    to.push(Event::Runs {
        name: one.name,
        last,
    })
}

/// The first word of the whole conditional generate that one is part of.
fn construct_of(around: Option<u32>, keyword: u32) -> u32
    ensures { result ≡ means.construct_of around keyword }
{
    match around {
        None => keyword,
        Some(outer) => outer,
    }
}

/// Whether an item is a conditional generate.
fn is_conditional(item: &Item) -> bool
    ensures { result ≡ means.is_conditional item.now }
{
    match item {
        Item::IfGenerate { .. } => true,
        Item::CaseGenerate { .. } => true,
        Item::Parameters(_) => false,
        Item::Typedef(_) => false,
        Item::Import(_) => false,
        Item::Function(_) => false,
        Item::Task(_) => false,
        Item::Data(_) => false,
        Item::Genvars(_) => false,
        Item::Assign(_) => false,
        Item::Always(_) => false,
        Item::Generate { .. } => false,
        Item::LoopGenerate { .. } => false,
        Item::Modports(_) => false,
        Item::Instances(_) => false,
        Item::Empty { .. } => false,
    }
}

/// Whether an item that is a branch alone is a scope.
fn is_scope(around: Option<u32>, item: &Item) -> bool
    ensures { result ≡ means.is_scope around item.now }
{
    around.is_some() && !is_conditional(item)
}

/// Items, in which items nest at most so deep.
#[cycle(item)]
fn items_with(depth: u32, inside: bool, list: &[Item], to: &mut Events) -> Result<(), AllocError>
    ensures { OnOk result (to.new ≡ means.items_with (means.item_within depth inside) list.now to.old) }
{
    for one in list {
        item(depth, inside, None, one, to)?;
    }
    Ok(())
}

/// The block of a generate loop.
#[cycle(item)]
fn loop_block(
    depth: u32,
    inside: bool,
    block: &GenerateBlock,
    to: &mut Events,
) -> Result<(), AllocError>
    ensures { OnOk result (to.new ≡ means.loop_block (means.item_within depth inside) block.now to.old) }
{
    match block {
        GenerateBlock::Block {
            label,
            items,
            end_label: ended,
            ..
        } => {
            labels(Declared::Block, *label, to)?;
            items_with(depth, inside, items.as_slice(), to)?;
            end_label(*label, *ended, to)
        }
        GenerateBlock::Single(one) => item(depth, inside, None, one.get(), to),
    }
}

/// A generate loop from its first token to its last one.
#[cycle(item)]
fn loop_generate(
    depth: u32,
    inside: bool,
    keyword: u32,
    last: u32,
    control: &GenerateLoop,
    body: &GenerateBlock,
    to: &mut Events,
) -> Result<(), AllocError>
    ensures { OnOk result (to.new ≡ means.loop_generate (means.item_within depth inside) keyword last control.now body.now to.old) }
{
    opens(ScopeKind::GenerateLoop, keyword, last, to)?;
    loop_control(control, to)?;
    expr(&control.test, Position::Value, to)?;
    loop_step(control.name, &control.step, to)?;
    loop_block(depth, inside, body, to)?;
    closes(to)
}

/// A branch of the conditional generate with this first word.
#[cycle(item)]
fn branch(
    depth: u32,
    inside: bool,
    construct: u32,
    block: &GenerateBlock,
    to: &mut Events,
) -> Result<(), AllocError>
    ensures { OnOk result (to.new ≡ means.branch (means.item_within depth inside) construct block.now to.old) }
{
    match block {
        GenerateBlock::Block {
            begin,
            label,
            items,
            end,
            end_label: ended,
        } => {
            opens(ScopeKind::GenerateBlock, *begin, labelled(*end, *ended), to)?;
            labels(Declared::Alternative { construct }, *label, to)?;
            items_with(depth, inside, items.as_slice(), to)?;
            end_label(*label, *ended, to)?;
            closes(to)
        }
        GenerateBlock::Single(one) => item(depth, inside, Some(construct), one.get(), to),
    }
}

/// The branch behind `else`, if there is one.
#[cycle(item)]
fn else_branch(
    depth: u32,
    inside: bool,
    construct: u32,
    other: &Option<Boxed<GenerateElse>>,
    to: &mut Events,
) -> Result<(), AllocError>
    ensures { OnOk result (to.new ≡ means.else_branch (means.item_within depth inside) construct other.now to.old) }
{
    match other {
        None => Ok(()),
        Some(other) => branch(depth, inside, construct, &other.get().body, to),
    }
}

/// An item of a generate `case`.
#[cycle(item)]
fn case_generate_item(
    depth: u32,
    inside: bool,
    construct: u32,
    one: &CaseGenerateItem,
    to: &mut Events,
) -> Result<(), AllocError>
    ensures { OnOk result (to.new ≡ means.case_generate_item (means.item_within depth inside) construct one.now to.old) }
{
    match one {
        CaseGenerateItem::Values { values, body, .. } => {
            exprs(values.as_slice(), to)?;
            branch(depth, inside, construct, body, to)
        }
        CaseGenerateItem::Default { body, .. } => branch(depth, inside, construct, body, to),
    }
}

/// The items of a generate `case`.
#[cycle(item)]
fn case_generate_items(
    depth: u32,
    inside: bool,
    construct: u32,
    list: &[CaseGenerateItem],
    to: &mut Events,
) -> Result<(), AllocError>
    ensures { OnOk result (to.new ≡ means.case_generate_items (means.item_within depth inside) construct list.now to.old) }
{
    for one in list {
        case_generate_item(depth, inside, construct, one, to)?;
    }
    Ok(())
}

/// An item without the scope that it may be.
#[cycle(item)]
fn item_in(
    depth: u32,
    inside: bool,
    around: Option<u32>,
    one: &Item,
    to: &mut Events,
) -> Result<(), AllocError>
    ensures { OnOk result (to.new ≡ means.item_alone (means.item_within depth inside) inside around one.now to.old) }
{
    match one {
        Item::Parameters(declaration) => parameters(declaration.bodies.as_slice(), to),
        Item::Typedef(declaration) => typedef(declaration, to),
        Item::Import(import) => import_items(import.items.as_slice(), to),
        Item::Function(routine) => function(routine, to),
        Item::Task(routine) => task(routine, to),
        Item::Data(declaration) => data_declaration(declaration, to),
        Item::Genvars(declaration) => genvars(declaration.names.as_slice(), to),
        Item::Assign(assign) => assignments(assign.assignments.as_slice(), to),
        Item::Always(process) => always(process, to),
        Item::Generate { items, .. } => items_with(depth, inside, items.as_slice(), to),
        Item::LoopGenerate {
            keyword,
            control,
            body,
            ..
        } => loop_generate(
            depth,
            inside,
            *keyword,
            one.last_token(),
            control,
            body.get(),
            to,
        ),
        Item::IfGenerate {
            keyword,
            test,
            body,
            other,
            ..
        } => {
            let construct = construct_of(around, *keyword);
            expr(test, Position::Value, to)?;
            branch(depth, inside, construct, body.get(), to)?;
            else_branch(depth, inside, construct, other, to)
        }
        Item::CaseGenerate {
            keyword,
            value,
            items,
            ..
        } => {
            let construct = construct_of(around, *keyword);
            expr(value, Position::Value, to)?;
            case_generate_items(depth, inside, construct, items.as_slice(), to)
        }
        Item::Modports(declaration) => modport_declaration(inside, declaration, to),
        Item::Instances(list) => instantiation(list, to),
        Item::Empty { .. } => Ok(()),
    }
}

/// An item inside which items nest at most so deep.
#[cycle(item)]
fn item_around(
    depth: u32,
    inside: bool,
    around: Option<u32>,
    one: &Item,
    to: &mut Events,
) -> Result<(), AllocError>
    ensures { OnOk result (to.new ≡ means.item_around (means.item_within depth inside) inside around one.now to.old) }
{
    let own_scope = is_scope(around, one);
    let begin = Event::Opens {
        kind: ScopeKind::GenerateBlock,
        first: one.first_token(),
        last: one.last_token(),
    };
    put_if(own_scope, begin, to)?;
    item_in(depth, inside, around, one, to)?;
    put_if(own_scope, Event::Closes, to)
}

/// An item in which items nest at most so deep, in a module or (`inside`) an interface.
#[cycle(item)]
fn item(
    depth: u32,
    inside: bool,
    around: Option<u32>,
    one: &Item,
    to: &mut Events,
) -> Result<(), AllocError>
    ensures { OnOk result (to.new ≡ means.item_within depth inside around one.now to.old) }
{
    match depth.checked_sub(1) {
        Some(inner) => item_around(inner, inside, around, one, to),
        None => Ok(()),
    }
}

/// The items of a module or (`inside`) an interface.
pub fn items(inside: bool, list: &[Item], to: &mut Events) -> Result<(), AllocError>
    ensures { OnOk result (to.new ≡ means.items inside list.now to.old) }
{
    items_with(DEPTH, inside, list, to)
}
