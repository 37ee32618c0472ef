//! What a derivation means.

ghost use Rattle.std.specs.Prelude.{◌≡◌, ◌<◌, ◌+◌, [], map, IfOk, OnOk, slice_get, reverse};
ghost use Rattle.ll_engine.specs.declared.tree.Tree.TheVariants.{Node};
ghost use Rattle.v_rows.specs.Rows.{meaning_of};
ghost use Rattle.v_parse.specs.Walking.{kept, kept_part, around, with_part, walked, nodes, steps_left, Steps};

use b4_core::Vec4;
use ll_engine::{Kids, Tree};
use std::alloc::{AllocError, Global};
use std::mem;
use sv_source::{Items, at};
use v_lexer::{Says, VToken};
use v_parts::turned;
use v_rows::node_part;
use v_tree::{VPart, VParts};

/// A node that is being read from its last part to its first: the parts that are left, and what those behind them mean, the
/// last one first.
#[derive(Drop)]
pub struct Open {
    row: u16,
    left: Kids,
    parts: VParts,
}

/// The nodes that are being read, the innermost on top.
#[derive(Drop)]
pub struct Walk {
    top: Open,
    around: Items<Open>,
}

/// What a token means, or want of memory.
fn leaf_part(alloc: Global, tokens: &[VToken], place: u32) -> Result<VPart, AllocError>
    ensures { IfOk result (λ part. part ≡ kept (slice_get tokens.now place)) }
{
    let Some(token) = at(tokens, place as usize) else {
        return Ok(VPart::Nothing);
    };
    match &token.says {
        Says::Nothing => Ok(VPart::Nothing),
        Says::Name(name) => Ok(VPart::Name(name.copy(alloc)?)),
        Says::Number(bits) => Ok(VPart::Number(Vec4::from_slice(alloc, bits.as_slice())?)),
        Says::Decimal(value) => Ok(VPart::Decimal(*value)),
    }
}

/// A node of which no part was read yet.
fn started(alloc: Global, row: u16, left: Kids) -> Open
    ensures { result ≡ record { row = row; left = left; parts = [] } }
{
    Open {
        row,
        left,
        parts: VParts::new(alloc),
    }
}

/// What a node means whose parts are all read, or want of memory.
fn closed(alloc: Global, node: Open) -> Result<VPart, AllocError>
    ensures { IfOk result (λ part. part ≡ meaning_of node.row (reverse node.parts)) }
{
    let Open {
        row,
        left: _left,
        parts,
    } = node;
    let parts = turned(alloc, parts)?;
    node_part(alloc, row, parts)
}

impl Walk {
    /// Reads the next part of the innermost node, from which it was taken, or begins to.
    fn enter(&mut self, alloc: Global, tokens: &[VToken], tree: Tree) -> Result<(), AllocError>
        ensures means { OnOk result (walked tokens.now self.new ≡ around tokens.now self.old.around (with_part tokens.now self.old.top (kept_part tokens.now tree))) }
        ensures smaller { OnOk result (steps_left self.new < steps_left self.old + nodes tree) }
    {
        match tree {
            Tree::Leaf(place) => {
                let part = leaf_part(alloc, tokens, place)?;
                self.top.parts.push(part)?;
                Ok(())
            }
            Tree::Node { row, kids } => {
                let outer = mem::replace(&mut self.top, started(alloc, row, kids));
                self.around.push(outer)?;
                Ok(())
            }
        }
    }

    /// Ends the innermost node, of which all parts are read. What it means is the next part of the node around it, or the end.
    fn leave(&mut self, alloc: Global, tokens: &[VToken]) -> Result<Option<VPart>, AllocError>
        requires { self.old.top.left ≡ [] }
        ensures { IfOk result (λ done. Steps tokens.now self.old self.new done) }
    {
        let outer = self.around.pop();
        let Some(outer) = outer else {
            let last = mem::replace(&mut self.top, started(alloc, 0, Kids::new(alloc)));
            let part = closed(alloc, last)?;
            return Ok(Some(part));
        };
        let inner = mem::replace(&mut self.top, outer);
        let part = closed(alloc, inner)?;
        self.top.parts.push(part)?;
        Ok(None)
    }

    /// Reads one part more, or ends the innermost node.
    fn step(&mut self, alloc: Global, tokens: &[VToken]) -> Result<Option<VPart>, AllocError>
        ensures { IfOk result (λ done. Steps tokens.now self.old self.new done) }
    {
        match self.top.left.pop() {
            Some(tree) => {
                self.enter(alloc, tokens, tree)?;
                Ok(None)
            }
            None => self.leave(alloc, tokens),
        }
    }
}

/// What a node means with these parts, or want of memory.
fn parts_part(alloc: Global, tokens: &[VToken], row: u16, kids: Kids) -> Result<VPart, AllocError>
    ensures { IfOk result (λ part. part ≡ kept_part tokens.now (Node row kids)) }
{
    let mut walk = Walk {
        top: started(alloc, row, kids),
        around: Items::new(alloc),
    };
    loop {
        if let Some(part) = walk.step(alloc, tokens)? {
            return Ok(part);
        }
    }
}

/// What a derivation of these tokens means, or want of memory.
pub fn tree_part(alloc: Global, tokens: &[VToken], tree: Tree) -> Result<VPart, AllocError>
    ensures { IfOk result (λ part. part ≡ kept_part tokens.now tree) }
{
    match tree {
        Tree::Leaf(place) => Ok(leaf_part(alloc, tokens, place)?),
        Tree::Node { row, kids } => Ok(parts_part(alloc, tokens, row, kids)?),
    }
}
