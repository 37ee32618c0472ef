//! The declarations of a text with what their names stand for, and the scopes of its tokens.

use case_files::escaped;
use package_scope::{Found, Scopes, lookup};
use std::io;

/// A token behind each text.
const BEHIND: u32 = 1 << 20;

/// Prints what a name stands for behind a text, as it is looked up in a scope.
fn print_found(rt: &HostRuntime, found: Found) -> io::Result<()> {
    match found {
        Found::Decl(number) => println!(rt; " -> {number}"),
        Found::Absent => println!(rt; " -> nothing"),
        Found::Twice => println!(rt; " -> two"),
    }
}

/// Prints the declarations of a text, each with what its name stands for in its own scope behind the text.
pub fn print_scopes(rt: &HostRuntime, scopes: &Scopes) -> io::Result<()> {
    for number in 0..BEHIND {
        let Some(declaration) = scopes.declaration(number) else {
            break;
        };
        let name = escaped(rt.alloc(), declaration.name.as_bytes())?;
        let scope = declaration.scope;
        print!(rt; "{number}: {name} in {scope}, {:?}", declaration.how)?;
        print_found(rt, lookup(scopes, scope, &declaration.name, BEHIND))?;
    }
    println!(rt; "accepted")
}

/// Prints the innermost scope that holds each token.
pub fn print_places(rt: &HostRuntime, scopes: &Scopes) -> io::Result<()> {
    print!(rt; "tokens in")?;
    let mut token = 0;
    for _ in scopes.tree().tokens.as_slice() {
        print!(rt; " {}", scopes.scope_at(token))?;
        token = token.saturating_add(1);
    }
    println!(rt; "")
}
