//! Items of modules and interfaces, and generate constructs. In each function `depth` is the most nesting of the items inside.

ghost use Rattle.std.specs.Prelude.{◌≡◌, ◌∷◌, ◌++◌, map, drop, IfOk};
ghost use Rattle.sv_build.specs.Items as means;

use crate::declarations::{import, parameters, typedef};
use crate::functions::{function, task};
use crate::instances::{binds, genvars, instances, instances_behind, modports};
use crate::loops::loop_step;
use crate::processes::{always, assign};
use crate::rows;
use crate::statements::optional_token;
use crate::variables::{VariableText, data, data_with, declared, variables};
use crate::words::label;
use expr_build::{
    NESTING_LIMIT, alone, bare_text, declarators_behind, expression, expression_list, kid, kids,
    kids_from, named_dims_text, named_text, row, scoped, token, with_last,
};
use ll_engine::Tree;
use pairs::both;
use std::alloc::{AllocError, Global};
use sv_source::{Boxed, Items};
use sv_tree::{
    CaseGenerateItem, CaseGenerateItems, GenerateBlock, GenerateElse, GenerateLoop, Instantiation,
    Item, ModuleItems, TypeText,
};

/// Variables of a named type.
fn typed_data(alloc: Global, of: TypeText, names: &Tree, semicolon: u32) -> Result<Item, AllocError>
    ensures { IfOk result (λ i. i ≡ means.typed_data of names.now semicolon) }
{
    let text = variables(alloc, of, names)?;
    Ok(Item::Data(data_with(None, text, semicolon)))
}

/// Variables of a type that is a name alone.
fn named_data(alloc: Global, of: u32, name: u32, tree: &Tree) -> Result<Item, AllocError>
    ensures { IfOk result (λ i. i ≡ means.named_data of name tree.now) }
{
    let first = declared(alloc, name, kid(tree, 0), kid(tree, 1))?;
    let declarators = declarators_behind(alloc, first, kids(kid(tree, 2)))?;
    let text = VariableText {
        of: bare_text(alloc, of),
        declarators,
    };
    Ok(Item::Data(data_with(None, text, token(tree, 3))))
}

/// Variables or instances, behind two names.
fn two_names_item(alloc: Global, of: u32, name: u32, tree: &Tree) -> Result<Item, AllocError>
    ensures { IfOk result (λ i. i ≡ means.two_names_item of name tree.now) }
{
    match row(tree) {
        rows::INSTANCE => {
            let instances = instances_behind(alloc, name, tree)?;
            Ok(Item::Instances(Instantiation {
                of,
                parameters: None,
                instances,
                semicolon: token(tree, 4),
            }))
        }
        _ => named_data(alloc, of, name, tree),
    }
}

/// Instances with parameters.
fn bound_instances(alloc: Global, of: u32, tree: &Tree) -> Result<Item, AllocError>
    ensures { IfOk result (λ i. i ≡ means.bound_instances of tree.now) }
{
    let instances = instances(alloc, kids(kid(tree, 4)));
    let (parameters, instances) = both(binds(alloc, tree), instances)?;
    Ok(Item::Instances(Instantiation {
        of,
        parameters: Some(parameters),
        instances,
        semicolon: token(tree, 5),
    }))
}

/// An item that a name begins.
fn name_item(alloc: Global, first: u32, tree: &Tree) -> Result<Item, AllocError>
    ensures { IfOk result (λ i. i ≡ means.name_item first tree.now) }
{
    match row(tree) {
        rows::SCOPED_DATA => {
            let name = scoped(first, token(tree, 0), token(tree, 1));
            let of = named_text(alloc, name, kid(tree, 2))?;
            typed_data(alloc, of, kid(tree, 3), token(tree, 4))
        }
        rows::DIMENSIONED_DATA => {
            let of = named_dims_text(alloc, alone(first), kid(tree, 0), kid(tree, 1))?;
            typed_data(alloc, of, kid(tree, 2), token(tree, 3))
        }
        rows::NAMED_DATA => two_names_item(alloc, first, token(tree, 0), kid(tree, 1)),
        _ => bound_instances(alloc, first, tree),
    }
}

/// The items of a block, of a region or of a module.
#[cycle(item)]
fn items_inside(alloc: Global, depth: u32, trees: &[Tree]) -> Result<ModuleItems, AllocError>
    ensures { IfOk result (λ is. is ≡ map (means.item_within depth) trees.now) }
{
    let mut items = Items::new(alloc);
    for tree in trees {
        let (before, last) = both(Ok(items), item(alloc, depth, tree))?;
        items = with_last(before, last)?;
    }
    Ok(items)
}

/// A block of a generate construct.
#[cycle(item)]
fn generate_block(alloc: Global, depth: u32, tree: &Tree) -> Result<GenerateBlock, AllocError>
    ensures { IfOk result (λ b. b ≡ means.generate_block_of (means.item_within depth) tree.now) }
{
    match row(tree) {
        rows::GENERATE_BLOCK => {
            let items = items_inside(alloc, depth, kids(kid(tree, 2)))?;
            Ok(GenerateBlock::Block {
                begin: token(tree, 0),
                label: label(kid(tree, 1)),
                items,
                end: token(tree, 3),
                end_label: label(kid(tree, 4)),
            })
        }
        _ => {
            let single = item(alloc, depth, kid(tree, 0))?;
            Ok(GenerateBlock::Single(Boxed::new(alloc, single)?))
        }
    }
}

/// A block of a generate construct, in its box.
#[cycle(item)]
fn boxed_block(alloc: Global, depth: u32, tree: &Tree) -> Result<Boxed<GenerateBlock>, AllocError>
    ensures { IfOk result (λ b. b ≡ means.generate_block_of (means.item_within depth) tree.now) }
{
    let block = generate_block(alloc, depth, tree)?;
    Boxed::new(alloc, block)
}

/// `else` and its block, where they are written.
#[cycle(item)]
fn generate_else(
    alloc: Global,
    depth: u32,
    trees: &[Tree],
) -> Result<Option<Boxed<GenerateElse>>, AllocError>
    ensures { IfOk result (λ e. e ≡ means.generate_else_of (means.item_within depth) trees.now) }
{
    let [tree, ..] = trees else {
        return Ok(None);
    };
    let body = generate_block(alloc, depth, kid(tree, 1))?;
    let keyword = token(tree, 0);
    Ok(Some(Boxed::new(alloc, GenerateElse { keyword, body })?))
}

/// What stands between the parentheses of a generate loop.
fn generate_loop(alloc: Global, tree: &Tree) -> Result<GenerateLoop, AllocError>
    ensures { IfOk result (λ g. g ≡ means.generate_loop_of tree.now) }
{
    let first = expression(alloc, kid(tree, 5));
    let test = expression(alloc, kid(tree, 7));
    let (first, turn) = both(first, both(test, loop_step(alloc, kid(tree, 9))))?;
    let (test, step) = turn;
    Ok(GenerateLoop {
        genvar: optional_token(kid(tree, 2)),
        name: token(tree, 3),
        equals: token(tree, 4),
        first,
        first_semicolon: token(tree, 6),
        test,
        test_semicolon: token(tree, 8),
        step,
    })
}

/// A generate loop.
#[cycle(item)]
fn loop_generate(alloc: Global, depth: u32, tree: &Tree) -> Result<Item, AllocError>
    ensures { IfOk result (λ i. i ≡ means.loop_generate (means.item_within depth) tree.now) }
{
    let control = generate_loop(alloc, tree);
    let (control, body) = both(control, boxed_block(alloc, depth, kid(tree, 11)))?;
    Ok(Item::LoopGenerate {
        keyword: token(tree, 0),
        opening: token(tree, 1),
        control,
        closing: token(tree, 10),
        body,
    })
}

/// A conditional generate.
#[cycle(item)]
fn if_generate(alloc: Global, depth: u32, tree: &Tree) -> Result<Item, AllocError>
    ensures { IfOk result (λ i. i ≡ means.if_generate (means.item_within depth) tree.now) }
{
    let test = expression(alloc, kid(tree, 2));
    let body = boxed_block(alloc, depth, kid(tree, 4));
    let bodies = both(body, generate_else(alloc, depth, kids_from(tree, 5)));
    let (test, bodies) = both(test, bodies)?;
    Ok(Item::IfGenerate {
        keyword: token(tree, 0),
        opening: token(tree, 1),
        test,
        closing: token(tree, 3),
        body: bodies.0,
        other: bodies.1,
    })
}

/// An item of a generate `case`, by its values.
#[cycle(item)]
fn values_generate(alloc: Global, depth: u32, tree: &Tree) -> Result<CaseGenerateItem, AllocError>
    ensures { IfOk result (λ i. i ≡ means.values_generate (means.item_within depth) tree.now) }
{
    let values = expression_list(alloc, kid(tree, 0));
    let (values, body) = both(values, generate_block(alloc, depth, kid(tree, 2)))?;
    Ok(CaseGenerateItem::Values {
        values,
        colon: token(tree, 1),
        body,
    })
}

/// The default of a generate `case`.
#[cycle(item)]
fn default_generate(alloc: Global, depth: u32, tree: &Tree) -> Result<CaseGenerateItem, AllocError>
    ensures { IfOk result (λ i. i ≡ means.default_generate (means.item_within depth) tree.now) }
{
    let body = generate_block(alloc, depth, kid(tree, 2))?;
    Ok(CaseGenerateItem::Default {
        keyword: token(tree, 0),
        colon: optional_token(kid(tree, 1)),
        body,
    })
}

/// Adds items by their values.
#[cycle(item)]
fn add_values(
    alloc: Global,
    depth: u32,
    first: CaseGenerateItems,
    trees: &[Tree],
) -> Result<CaseGenerateItems, AllocError>
    ensures { IfOk result (λ is. is ≡ first ++ map (means.values_generate (means.item_within depth)) trees.now) }
{
    let mut items = first;
    for tree in trees {
        let (before, last) = both(Ok(items), values_generate(alloc, depth, tree))?;
        items = with_last(before, last)?;
    }
    Ok(items)
}

/// Adds a default and the items behind it, where it is written.
#[cycle(item)]
fn add_default(
    alloc: Global,
    depth: u32,
    first: CaseGenerateItems,
    trees: &[Tree],
) -> Result<CaseGenerateItems, AllocError>
    ensures { IfOk result (λ is. is ≡ first ++ means.from_default_generate (means.item_within depth) trees.now) }
{
    let [tree, rest @ ..] = trees else {
        return Ok(first);
    };
    let (before, last) = both(Ok(first), default_generate(alloc, depth, tree))?;
    add_values(alloc, depth, with_last(before, last)?, rest)
}

/// The items of a generate `case`.
#[cycle(item)]
fn case_generate_items(
    alloc: Global,
    depth: u32,
    tree: &Tree,
) -> Result<CaseGenerateItems, AllocError>
    ensures { IfOk result (λ is. is ≡ means.case_generate_items_of (means.item_within depth) tree.now) }
{
    if row(tree) == rows::GENERATE_ITEMS_FIRST {
        let first = values_generate(alloc, depth, kid(tree, 0))?;
        let items = with_last(Items::new(alloc), first)?;
        let items = add_values(alloc, depth, items, kids(kid(tree, 1)))?;
        return add_default(alloc, depth, items, kids(kid(tree, 2)));
    }
    add_default(alloc, depth, Items::new(alloc), kids(tree))
}

/// A generate `case`.
#[cycle(item)]
fn case_generate(alloc: Global, depth: u32, tree: &Tree) -> Result<Item, AllocError>
    ensures { IfOk result (λ i. i ≡ means.case_generate (means.item_within depth) tree.now) }
{
    let value = expression(alloc, kid(tree, 2));
    let (value, items) = both(value, case_generate_items(alloc, depth, kid(tree, 4)))?;
    Ok(Item::CaseGenerate {
        keyword: token(tree, 0),
        opening: token(tree, 1),
        value,
        closing: token(tree, 3),
        items,
        end: token(tree, 5),
    })
}

/// A generate region.
#[cycle(item)]
fn region(alloc: Global, depth: u32, tree: &Tree) -> Result<Item, AllocError>
    ensures { IfOk result (λ i. i ≡ means.region_of (means.item_within depth) tree.now) }
{
    let items = items_inside(alloc, depth, kids(kid(tree, 1)))?;
    Ok(Item::Generate {
        keyword: token(tree, 0),
        items,
        end: token(tree, 2),
    })
}

/// A generate construct, modports, an item that a name begins, or an empty one.
#[cycle(item)]
fn construct(alloc: Global, depth: u32, tree: &Tree) -> Result<Item, AllocError>
    ensures { IfOk result (λ i. i ≡ means.construct_of (means.item_within depth) tree.now) }
{
    match row(tree) {
        rows::GENERATE_MODULE_ITEM => region(alloc, depth, tree),
        rows::LOOP_MODULE_ITEM => loop_generate(alloc, depth, kid(tree, 0)),
        rows::IF_MODULE_ITEM => if_generate(alloc, depth, kid(tree, 0)),
        rows::CASE_MODULE_ITEM => case_generate(alloc, depth, kid(tree, 0)),
        rows::MODPORT_MODULE_ITEM => Ok(Item::Modports(modports(alloc, kid(tree, 0))?)),
        rows::NAME_MODULE_ITEM => name_item(alloc, token(tree, 0), kid(tree, 1)),
        _ => Ok(Item::Empty {
            semicolon: token(tree, 0),
        }),
    }
}

/// An item around items.
#[cycle(item)]
fn item_around(alloc: Global, depth: u32, tree: &Tree) -> Result<Item, AllocError>
    ensures { IfOk result (λ i. i ≡ means.item_around (means.item_within depth) tree.now) }
{
    let first = kid(tree, 0);
    match row(tree) {
        rows::PARAMETERS_MODULE_ITEM => {
            let declaration = parameters(alloc, first, token(tree, 1))?;
            Ok(Item::Parameters(declaration))
        }
        rows::TYPEDEF_MODULE_ITEM => Ok(Item::Typedef(typedef(alloc, first)?)),
        rows::IMPORT_MODULE_ITEM => Ok(Item::Import(import(alloc, first)?)),
        rows::FUNCTION_MODULE_ITEM => Ok(Item::Function(function(alloc, first)?)),
        rows::TASK_MODULE_ITEM => Ok(Item::Task(task(alloc, first)?)),
        rows::DATA_MODULE_ITEM => Ok(Item::Data(data(alloc, first, token(tree, 1))?)),
        rows::GENVAR_MODULE_ITEM => Ok(Item::Genvars(genvars(alloc, tree)?)),
        rows::ASSIGN_MODULE_ITEM => Ok(Item::Assign(assign(alloc, tree)?)),
        rows::ALWAYS_MODULE_ITEM => Ok(Item::Always(always(alloc, first)?)),
        _ => construct(alloc, depth, tree),
    }
}

/// An item in which items of generate constructs nest at most so deep.
#[cycle(item)]
fn item(alloc: Global, depth: u32, tree: &Tree) -> Result<Item, AllocError>
    ensures { IfOk result (λ i. i ≡ means.item_within depth tree.now) }
{
    if depth == 0 {
        return Ok(Item::Empty { semicolon: 0 });
    }
    item_around(alloc, depth - 1, tree)
}

/// The items of a module or an interface.
pub fn items(alloc: Global, tree: &Tree) -> Result<ModuleItems, AllocError>
    ensures { IfOk result (λ is. is ≡ means.items_of tree.now) }
{
    items_inside(alloc, NESTING_LIMIT + 1, kids(tree))
}
