//! Scopes.

ghost use Rattle.std.specs.Prelude.{◌≡◌, ◌-◌, ◌++◌, [], ◌∷◌, IfOk, OnOk};
ghost use Rattle.std.specs.Option.{option_copied};
ghost use Rattle.expr_type.specs.Names.{with_values, with_types, with_locals, word};
ghost use Rattle.expr_type.specs.Statements.{behind};
ghost use Rattle.frame_things.specs.Finding.{local_id};
ghost use Rattle.typing_scopes.specs.Scopes.{context_of, means, own_values};

use crate::base::Base;
use crate::declared::Declared;
use crate::level::Level;
use crate::rows::put_behind;
use frame_things::{NamedLocal, Rows};
use std::alloc::{AllocError, Global};
use sv_types::{Locals, ParamType, ParamValue, SvType};

/// A text, or a part of one behind declarations. What is typed there takes it by a reference and doesn't change it.
#[derive(Drop)]
pub struct Scope<'s, B> {
    /// What gives memory to what is declared.
    pub alloc: Global,
    /// The text.
    pub base: &'s B,
    /// What is declared before.
    pub level: Level<'s>,
    /// The type of what `return` gives, if it gives something.
    pub result: Option<&'s SvType>,
}

impl<'s, B: Base> Scope<'s, B> {
    /// A text before its declarations. It takes no memory.
    pub fn over(alloc: Global, base: &'s B) -> Scope<'s, B>
        ensures context { context_of B.context result ≡ B.context base.now }
        ensures own { own_values result ≡ [] }
    {
        Scope {
            alloc,
            base,
            level: Level {
                values: Rows::new(alloc),
                types: Rows::new(alloc),
                locals: Rows::new(alloc),
                outer: None,
            },
            result: base.given(),
        }
    }

    /// A scope in another one, before its declarations. It takes no memory.
    pub fn inside(alloc: Global, outer: &'s Scope<'s, B>) -> Scope<'s, B>
        ensures context { context_of B.context result ≡ context_of B.context outer.now }
        ensures own { own_values result ≡ [] }
    {
        Scope {
            alloc,
            base: outer.base,
            level: Level {
                values: Rows::new(alloc),
                types: Rows::new(alloc),
                locals: Rows::new(alloc),
                outer: Some(&outer.level),
            },
            result: outer.result,
        }
    }

    /// The same, where `return` gives this type, or nothing.
    pub fn within(self, given: Option<&'s SvType>) -> Scope<'s, B>
        ensures context { context_of B.context result ≡ record (context_of B.context self.entry) { result = option_copied given.entry } }
        ensures own { own_values result ≡ own_values self.entry }
    {
        let Scope {
            alloc,
            base,
            level,
            result: _,
        } = self;
        Scope {
            alloc,
            base,
            level,
            result: given,
        }
    }

    /// A value behind those that are declared.
    pub fn add_value(&mut self, value: ParamValue) -> Result<(), AllocError>
        ensures context { OnOk result (context_of B.context self.new ≡ with_values (value ∷ []) (context_of B.context self.old)) }
        ensures own { OnOk result (own_values self.new ≡ value ∷ own_values self.old) }
    {
        self.level.values.push(value)
    }

    /// A type behind those that are declared.
    pub fn add_type(&mut self, named: ParamType) -> Result<(), AllocError>
        ensures context { OnOk result (context_of B.context self.new ≡ with_types (named ∷ []) (context_of B.context self.old)) }
        ensures own { own_values self.new ≡ own_values self.old }
    {
        self.level.types.push(named)
    }

    /// A local behind those that are declared.
    pub fn add_local(&mut self, local: NamedLocal) -> Result<(), AllocError>
        ensures context { OnOk result (context_of B.context self.new ≡ with_locals (local_id local ∷ []) (context_of B.context self.old)) }
        ensures own { own_values self.new ≡ own_values self.old }
    {
        self.level.locals.push(local)
    }

    /// Values that were met elsewhere, in their order.
    pub fn add_values(&mut self, values: Rows<ParamValue>) -> Result<(), AllocError>
        ensures context { OnOk result (context_of B.context self.new ≡ with_values values (context_of B.context self.old)) }
        ensures own { OnOk result (own_values self.new ≡ values ++ own_values self.old) }
    {
        put_behind(self.alloc, &mut self.level.values, values)
    }

    /// What declarations bring in. It gives the locals that they make.
    pub fn add(&mut self, declared: Declared) -> Result<Locals, AllocError>
        ensures context { OnOk result (context_of B.context self.new ≡ behind (context_of B.context self.old) (means declared)) }
        ensures own { OnOk result (own_values self.new ≡ declared.values ++ own_values self.old) }
        ensures locals { IfOk result (λ locals. locals ≡ declared.locals) }
    {
        let Declared {
            values,
            types,
            ids,
            locals,
        } = declared;
        put_behind(self.alloc, &mut self.level.values, values)?;
        put_behind(self.alloc, &mut self.level.types, types)?;
        put_behind(self.alloc, &mut self.level.locals, ids)?;
        Ok(locals)
    }

    /// The values that were added to this scope, and none of those around it.
    pub fn into_values(self) -> Rows<ParamValue>
        ensures { result ≡ own_values self.entry }
    {
        let Scope { level, .. } = self;
        let Level { values, .. } = level;
        values
    }

    /// Whether a declaration is a net's.
    pub fn is_net(&self, declaration: u32) -> bool
        ensures { result ≡ (context_of B.context self.now).is_net declaration }
    {
        self.base.is_net(declaration)
    }

    /// Whether the member of an interface's instance or port whose name stands at a token is a net.
    pub fn is_net_member(&self, interface: u32, name: u32) -> bool
        ensures { result ≡ (context_of B.context self.now).is_net_member interface (word (context_of B.context self.now).source name) }
    {
        self.base.is_net_member(interface, name)
    }

    /// The number of the declaration whose name stands at a token.
    pub fn declaration(&self, at: u32) -> u32
        ensures { result ≡ (context_of B.context self.now).declared at }
    {
        self.base.declaration(at)
    }

    /// The number of the local whose name stands at a token: how far its declaration stands behind that of the local with the number 0.
    pub fn local_number(&self, at: u32) -> u32
        ensures { result ≡ (context_of B.context self.now).declared at - (context_of B.context self.now).base }
    {
        self.base.declaration(at).saturating_sub(self.base.start())
    }

    /// The type of what `return` gives, if it gives something.
    pub fn given(&self) -> Option<&SvType>
        ensures { option_copied result ≡ (context_of B.context self.now).result }
    {
        self.result
    }
}
