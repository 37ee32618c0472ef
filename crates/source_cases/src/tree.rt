//! The text of a source tree.

mod declarations;
mod expressions;
mod instances;
mod items;
mod operators;
mod ports;
mod printer;
mod processes;
mod statements;
mod types;
mod units;
mod words;

use crate::tree::printer::Printer;
use crate::tree::units::print_units;
use std::alloc::{AllocError, Global};
use std::io;
use sv_tree::SourceTree;

/// How many tokens a tree has at most that is printed.
const MOST_TOKENS: usize = 200;

/// The text of a tree.
fn tree_text(alloc: Global, tree: &SourceTree) -> Result<String, AllocError> {
    let mut printer = Printer::new(alloc, tree.tokens.as_slice());
    print_units(tree.units.as_slice(), &mut printer);
    printer.finish()
}

/// Prints a tree, or how large it is.
pub fn print_tree(rt: &HostRuntime, tree: &SourceTree) -> io::Result<()> {
    if tree.tokens.len() > MOST_TOKENS {
        return println!(rt;
            "reads: {} units of {} tokens",
            tree.units.len(),
            tree.tokens.len()
        );
    }
    let text = tree_text(rt.alloc(), tree)?;
    println!(rt; "reads{text}")
}
