//! Declarations that stand one behind the other.

ghost use Rattle.std.specs.Prelude.{◌≡◌, OnOk};
ghost use Rattle.expr_type.specs.Names.{with_values};
ghost use Rattle.expr_type.specs.Statements.{and_then, behind};
ghost use Rattle.typing_scopes.specs.Scopes.{context_of, means};
ghost use Rattle.typing_calls.specs.Lists.{as_meant};
ghost use Rattle.typing_declarations.specs.Blocks.{declared, declares, ended, named, Takes};

use expr_type::Halt;
use frame_things::{NamedLocal, Rows};
use std::alloc::{AllocError, Global};
use sv_source::Items;
use sv_types::{Local, Locals, ParamType, ParamValue};
use typing_scopes::{Base, Declared, Level, Scope};

/// What one declaration brings in.
#[derive(Drop)]
pub enum Part {
    /// A constant.
    Value(ParamValue),
    /// A type.
    Type(ParamType),
    /// A local, as its name stands for it and as statements have it.
    Local(NamedLocal, Local),
}

/// Declarations that are met so far: the scope behind them, and the locals that they make, in the order of the text.
#[derive(Drop)]
pub struct Block<'s, B> {
    /// The scope behind them.
    pub scope: Scope<'s, B>,
    /// The locals that they make.
    pub locals: Locals,
}

impl<'s, B: Base> Block<'s, B> {
    /// Behind the names of a type in a scope. It takes no memory.
    pub fn new(alloc: Global, outer: &'s Scope<'s, B>, names: Rows<ParamValue>) -> Block<'s, B>
        ensures context { context_of B.context result.scope ≡ with_values names (context_of B.context outer.now) }
        ensures brings { declared result ≡ named names }
    {
        Block {
            scope: Scope {
                alloc,
                base: outer.base,
                level: Level {
                    values: names,
                    types: Rows::new(alloc),
                    locals: Rows::new(alloc),
                    outer: Some(&outer.level),
                },
                result: outer.result,
            },
            locals: Items::new(alloc),
        }
    }

    /// One declaration more.
    pub fn add(&mut self, part: Part) -> Result<(), AllocError>
        ensures context { OnOk result (context_of B.context self.new.scope ≡ behind (context_of B.context self.old.scope) (declares part)) }
        ensures brings { OnOk result (declared self.new ≡ and_then (declared self.old) (declares part)) }
    {
        match part {
            Part::Value(value) => self.scope.level.values.push(value),
            Part::Type(named) => self.scope.level.types.push(named),
            Part::Local(named, local) => {
                self.scope.level.locals.push(named)?;
                self.locals.push(local)
            }
        }
    }

    /// What the next declaration brings in, if it is whole; and whether it and all those before it are.
    pub(crate) fn take(&mut self, whole: bool, part: Result<Part, Halt>) -> Result<bool, Halt>
        ensures { Takes B.context self.old self.new whole part result }
    {
        match part {
            Ok(part) => {
                self.add(part)?;
                Ok(whole)
            }
            Err(Halt::Quiet) => Ok(false),
            Err(Halt::Memory) => Err(Halt::Memory),
            Err(Halt::Breaks { at, rule }) => Err(Halt::Breaks { at, rule }),
        }
    }

    /// What all of them bring in, if they are whole.
    pub(crate) fn ended(self, whole: bool) -> Result<Declared, Halt>
        ensures { as_meant means result ≡ ended whole (declared self.entry) }
    {
        if whole {
            Ok(self.into_declared())
        } else {
            Err(Halt::Quiet)
        }
    }

    /// What all of them bring in.
    pub fn into_declared(self) -> Declared
        ensures { means result ≡ declared self.entry }
    {
        let Block { scope, locals } = self;
        let Scope { level, .. } = scope;
        let Level {
            values,
            types,
            locals: ids,
            ..
        } = level;
        Declared {
            values,
            types,
            ids,
            locals,
        }
    }
}
