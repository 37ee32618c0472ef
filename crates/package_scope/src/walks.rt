//! What stands around a scope.

ghost use Rattle.std.specs.Prelude.{◌≡◌, ◌<◌, ◌^◌, cond, length, is_some};
ghost use Rattle.package_scope.specs.Innermost.{holds, last_holder};
ghost use Rattle.package_scope.specs.Rules as means;

use crate::building::outer;
use crate::table::{Scope, Table};
use name_events::ScopeKind;
use sv_source::at;

/// Whether a scope is that of a function or a task.
fn is_routine_scope(kind: ScopeKind) -> bool
    ensures { result ≡ means.is_routine_scope kind }
{
    match kind {
        ScopeKind::Function => true,
        ScopeKind::VoidFunction => true,
        ScopeKind::Task => true,
        _ => false,
    }
}

/// Whether a scope is that of a function.
fn is_function_scope(kind: ScopeKind) -> bool
    ensures { result ≡ means.is_function_scope kind }
{
    match kind {
        ScopeKind::Function => true,
        ScopeKind::VoidFunction => true,
        _ => false,
    }
}

/// Whether the scope with this number is that of a function or a task.
fn is_routine(table: &Table, scope: u32) -> bool
    ensures { result ≡ means.holds_at means.is_routine_scope table.now scope }
{
    match at(table.scopes.as_slice(), scope as usize) {
        Some(scope) => is_routine_scope(scope.kind),
        None => false,
    }
}

/// Whether the scope with this number is that of a function.
fn is_function(table: &Table, scope: u32) -> bool
    ensures { result ≡ means.holds_at means.is_function_scope table.now scope }
{
    match at(table.scopes.as_slice(), scope as usize) {
        Some(scope) => is_function_scope(scope.kind),
        None => false,
    }
}

/// The scope of the function or task around a scope.
pub fn routine_around(table: &Table, scope: u32) -> Option<u32>
    ensures { result ≡ means.routine_around table.now scope }
{
    let mut scope = scope;
    let mut left = table.scopes.len();
    while left > 0 {
        left -= 1;
        if is_routine(table, scope) {
            return Some(scope);
        }
        if scope == 0 {
            return None;
        }
        scope = outer(table.scopes.as_slice(), scope);
    }
    None
}

/// Whether a scope stands in a function.
pub fn in_function(table: &Table, scope: u32) -> bool
    ensures { result ≡ means.in_function table.now scope }
{
    let mut scope = scope;
    let mut left = table.scopes.len();
    while left > 0 {
        left -= 1;
        if is_function(table, scope) {
            return true;
        }
        if scope == 0 {
            return false;
        }
        scope = outer(table.scopes.as_slice(), scope);
    }
    false
}

/// Whether a scope holds a token.
fn is_around(scope: &Scope, token: u32) -> bool
    ensures { result ≡ holds token scope.now }
{
    scope.first <= token && token <= scope.last
}

/// A scope with its number if it holds a token, or else one that is known.
fn inner(known: u32, number: u32, scope: &Scope, token: u32) -> u32
    ensures { result ≡ cond (holds token scope.now) number known }
{
    if is_around(scope, token) {
        number
    } else {
        known
    }
}

/// The innermost scope that holds a token, by its number.
pub fn innermost(scopes: &[Scope], token: u32) -> u32
    requires { length scopes.now < 2 ^ 32 }
    ensures { result ≡ last_holder 0 0 token scopes.now }
{
    let mut known = 0;
    for (at, scope) in scopes.iter().enumerate() {
        known = inner(known, at as u32, scope, token);
    }
    known
}
