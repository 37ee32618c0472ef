//! What an expression asked, taken out of a list.

ghost use Rattle.std.specs.Prelude.{◌≡◌, ◌≤◌, [], ◌∷◌, ◌++◌, length};

use v_tree::{VExpr, VExprs};

/// Two operands.
#[derive(Drop)]
pub struct Pair {
    pub left: VExpr,
    pub right: VExpr,
}

/// Three operands.
#[derive(Drop)]
pub struct Triple {
    pub first: VExpr,
    pub rest: Pair,
}

/// The last one.
fn last(parts: &mut VExprs) -> VExpr
    requires { 1 ≤ length parts.old }
    ensures { parts.old ≡ parts.new ++ result ∷ [] }
{
    match parts.pop() {
        Some(part) => part,
        None => unreachable!(),
    }
}

/// The last two.
pub fn last_two(parts: &mut VExprs) -> Pair
    requires { 2 ≤ length parts.old }
    ensures { parts.old ≡ parts.new ++ result.left ∷ result.right ∷ [] }
{
    let right = last(parts);
    let left = last(parts);
    Pair { left, right }
}

/// The only one.
pub fn one(parts: VExprs) -> VExpr
    requires { length parts ≡ 1 }
    ensures { parts ≡ result ∷ [] }
{
    let mut rest = parts;
    last(&mut rest)
}

/// Both of them.
pub fn two(parts: VExprs) -> Pair
    requires { length parts ≡ 2 }
    ensures { parts ≡ result.left ∷ result.right ∷ [] }
{
    let mut rest = parts;
    let right = last(&mut rest);
    let left = one(rest);
    Pair { left, right }
}

/// All three.
pub fn three(parts: VExprs) -> Triple
    requires { length parts ≡ 3 }
    ensures { parts ≡ result.first ∷ result.rest.left ∷ result.rest.right ∷ [] }
{
    let mut rest = parts;
    let right = last(&mut rest);
    let others = two(rest);
    Triple {
        first: others.left,
        rest: Pair {
            left: others.right,
            right,
        },
    }
}
