//! Where a walk over functions stands, and the calls that it found.

ghost use Rattle.std.specs.Prelude.{◌≡◌, IfOk, OnOk};
ghost use Rattle.v_scopes.specs.Env.{found};
ghost use Rattle.v_functions.specs.Numbered.{numbers_in};
ghost use Rattle.v_functions.specs.Walks as means;

use crate::table::Functions;
use call_circles::Call;
use std::alloc::AllocError;
use sv_source::{Items, Text};
use v_expr_rules::{is_function, plus};
use v_item_rules::range_tokens;
use v_scopes::Scope;
use v_tree::VLocal;

/// Where a walk stands in a function, and the calls that it found.
#[derive(Drop)]
pub struct Walk {
    /// The number of the function among the items of its module.
    pub from: u32,
    /// The number of the next token.
    pub at: u32,
    /// The calls.
    pub calls: Items<Call>,
}

impl Walk {
    /// Goes on by tokens.
    pub fn skip(&mut self, tokens: u32)
        ensures { self.new ≡ means.skipped tokens self.old }
    {
        self.at = plus(self.at, tokens);
    }

    /// Goes on by a comma, before an item of a list that isn't the first one.
    pub fn skip_comma(&mut self, number: usize)
        ensures { self.new ≡ means.comma number self.old }
    {
        if number != 0 {
            self.skip(1);
        }
    }

    /// Goes on by the declarations of variables.
    pub fn skip_locals(&mut self, locals: &[VLocal])
        ensures { self.new ≡ means.locals_skipped locals.now self.old }
    {
        for local in locals {
            self.skip(3 + range_tokens(local.range));
        }
    }

    // Adds a call at the next token, if it calls a function.
    fn add(&mut self, to: Option<u32>) -> Result<(), AllocError>
        ensures { OnOk result (self.new ≡ means.call_to to self.old) }
    {
        let Some(to) = to else {
            return Ok(());
        };
        self.calls.push(Call {
            from: Some(self.from),
            to,
            at: self.at,
        })
    }

    /// Adds the call of a name, which is the next token, if it stands for a function. Or want of memory.
    pub fn call(
        &mut self,
        functions: &Functions,
        scope: &Scope,
        name: &Text,
    ) -> Result<(), AllocError>
        ensures { OnOk result (self.new ≡ means.name_called name.now (numbers_in functions.now) (found scope.now) self.old) }
    {
        if is_function(scope.find(name)) {
            self.add(functions.number(name))
        } else {
            Ok(())
        }
    }
}
