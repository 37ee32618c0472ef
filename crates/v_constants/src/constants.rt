//! Whether expressions are constants.

ghost use Rattle.std.specs.Prelude.{◌≡◌, ◌&&◌, map};
ghost use Rattle.v_meaning.specs.Values as means;
ghost use Rattle.v_meaning.specs.Values.{meaning, sel_meaning, is_empty};
ghost use Rattle.v_eval.specs.Scopes.{scope_of, prim_meaning, callee_at};
ghost use Rattle.v_constants.specs.Constants.{AreQuiet, leading};

use sv_source::at;
use v_eval::Scope;
use v_tree::{VExpr, VPrim, VSel};

// Whether the function at an item reads no signal. One that isn't there reads none.
#[tactic(auto, using(crate::proofs::Quiet::quiet))]
fn is_quiet(scope: Scope<'_>, quiet: &[bool], function: Option<usize>) -> bool
    requires calls { AreQuiet scope quiet.now }
    ensures { result ≡ is_empty (callee_at scope.entry function).reads }
{
    match function {
        None => true,
        Some(i) => match at(quiet, i) {
            None => true,
            Some(q) => *q,
        },
    }
}

// Both conditions.
fn both(a: bool, b: bool) -> bool
    ensures { result ≡ (a && b) }
{
    a && b
}

// Whether all of these expressions are constants.
#[cycle(constants)]
fn are_constant(scope: Scope<'_>, quiet: &[bool], items: &[VExpr]) -> bool
    requires calls { AreQuiet scope quiet.now }
    ensures { result ≡ means.all_constant (map meaning items.now) (scope_of scope.entry) }
{
    for item in items {
        if !is_constant(scope, quiet, item) {
            return false;
        }
    }
    true
}

// Whether an operand is a constant.
#[cycle(constants)]
#[tactic(auto, using(crate::proofs::Exprs::operands))]
fn is_constant_prim(scope: Scope<'_>, quiet: &[bool], prim: &VPrim) -> bool
    requires calls { AreQuiet scope quiet.now }
    ensures { result ≡ (prim_meaning prim.now).constant (scope_of scope.entry) }
{
    match prim {
        VPrim::Number(_) => true,
        VPrim::Paren(inner) => is_constant(scope, quiet, inner.get()),
        VPrim::Name { name: _, sels: _ } => false,
        VPrim::Call { function, args } => {
            let own = is_quiet(scope, quiet, scope.function(function));
            both(are_constant(scope, quiet, args.as_slice()), own)
        }
        VPrim::Repeat { count: _, items } => are_constant(scope, quiet, items.as_slice()),
        VPrim::Concat(items) => are_constant(scope, quiet, items.as_slice()),
        VPrim::Sign { signed: _, of } => is_constant(scope, quiet, of.get()),
    }
}

/// Whether an expression is a constant: it reads no signal and no local. `quiet` says of each item of the module whether the
/// function there reads no signal.
#[cycle(constants)]
#[tactic(auto, using(crate::proofs::Exprs::expressions))]
pub fn is_constant(scope: Scope<'_>, quiet: &[bool], e: &VExpr) -> bool
    requires calls { AreQuiet scope quiet.now }
    ensures { result ≡ (meaning e.now).constant (scope_of scope.entry) }
{
    match e {
        VExpr::Prim(a) => is_constant_prim(scope, quiet, a),
        VExpr::Unary { op: _, of } => is_constant_prim(scope, quiet, of),
        VExpr::Binary { op: _, left, right } => {
            let l = is_constant_prim(scope, quiet, left);
            let r = is_constant_prim(scope, quiet, right);
            both(l, r)
        }
        VExpr::Choose { on, then, other } => {
            let o = is_constant_prim(scope, quiet, on);
            let a = is_constant_prim(scope, quiet, then);
            let b = is_constant_prim(scope, quiet, other);
            both(both(o, a), b)
        }
    }
}

// Whether the base of a select is a constant.
#[tactic(auto, using(crate::proofs::Exprs::selects))]
fn is_constant_base(scope: Scope<'_>, quiet: &[bool], sel: &VSel) -> bool
    requires calls { AreQuiet scope quiet.now }
    ensures { result ≡ (sel_meaning sel.now).constant (scope_of scope.entry) }
{
    match sel {
        VSel::Decimal { base: _, extent: _ } => true,
        VSel::Expr { base, extent: _ } => is_constant(scope, quiet, base.get()),
    }
}

/// The selects of a name as far as their bases are constants. `quiet` says of each item of the module whether the function
/// there reads no signal.
pub fn constant_prefix<'a>(scope: Scope<'_>, quiet: &[bool], sels: &'a [VSel]) -> &'a [VSel]
    requires calls { AreQuiet scope quiet.now }
    ensures { result.now ≡ leading (scope_of scope.entry) sels.now }
{
    let mut k = 0;
    while k < sels.len() {
        if !is_constant_base(scope, quiet, &sels[k]) {
            return &sels[..k];
        }
        k += 1;
    }
    sels
}
