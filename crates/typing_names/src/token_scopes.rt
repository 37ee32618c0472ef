//! The innermost scope of each token of a source text.

ghost use Rattle.std.specs.Prelude.{◌≡◌, ℕ, length, slice_index, IfOk};
ghost use Rattle.package_scope.specs.Innermost.{scope_at};
ghost use Rattle.typing_names.specs.Scopes.{Paints, AreInnermost};

use package_scope::{NameTable, Scope};
use std::alloc::{AllocError, Global};
use sv_source::{Items, at};

/// The innermost scopes of the tokens of a text, by their numbers.
pub type TokenScopes = Items<u32>;

/// The scope of the compilation unit for so many tokens.
fn units(alloc: Global, count: usize) -> Result<TokenScopes, AllocError>
    ensures { IfOk result (λ x. (q : ℕ) → slice_index x q ≡ 0) }
{
    let mut scopes = Items::new(alloc);
    for _token in 0..count {
        scopes.push(0)?;
    }
    Ok(scopes)
}

/// Writes the number of a scope at each of its tokens.
fn paint(scopes: &mut TokenScopes, scope: Scope, number: u32)
    ensures length { length scopes.new ≡ length scopes.old }
    ensures painted { Paints scope number scopes.old scopes.new }
{
    let first = scope.first as usize;
    let end = (scope.last as usize + 1).min(scopes.len());
    for token in first..end {
        scopes.set(token, number);
    }
}

/// The innermost of these scopes for each of so many tokens. It takes time by the tokens of all scopes.
pub fn innermost_of(alloc: Global, list: &[Scope], count: usize) -> Result<TokenScopes, AllocError>
    ensures { IfOk result (λ x. AreInnermost list.now x) }
{
    let mut scopes = units(alloc, count)?;
    for (number, scope) in list.iter().enumerate() {
        let Ok(number) = u32::try_from(number) else {
            return Err(AllocError);
        };
        paint(&mut scopes, *scope, number);
    }
    Ok(scopes)
}

/// The innermost scope that holds a token, by its number.
pub fn scope_of(scopes: &TokenScopes, names: &NameTable, token: u32) -> u32
    requires { AreInnermost names.now.scopes scopes.now }
    ensures { result ≡ scope_at names.now token }
{
    match at(scopes.as_slice(), token as usize) {
        Some(scope) => *scope,
        None => names.scope_at(token),
    }
}
