//! Calls in circles, and early calls.

ghost use Rattle.std.specs.Prelude.{◌≡◌, ◌++◌, flat_map, IfOk, OnOk};
ghost use Rattle.package_scope.specs.Rules as means;

use crate::breaks::Break;
use crate::building::number;
use crate::named_text::NamedText;
use crate::table::{DeclKind, Declaration, Found, Table, Use};
use crate::walks::routine_around;
use call_circles::{Call, Need, first_broken};
use name_events::Role;
use std::alloc::{AllocError, Global};
use sv_source::Items;

/// Whether a use is a call.
fn is_call_role(role: Role) -> bool
    ensures { result ≡ means.is_call_role role }
{
    match role {
        Role::Call => true,
        Role::CallStatement => true,
        _ => false,
    }
}

/// Whether a declaration is that of a function or a task.
fn is_routine(what: DeclKind) -> bool
    ensures { result ≡ means.is_routine what }
{
    match what {
        DeclKind::Function => true,
        _ => false,
    }
}

/// Whether a declaration is that of a constant, a type or a name of an enumeration.
fn is_constant_kind(what: DeclKind) -> bool
    ensures { result ≡ means.is_constant_kind what }
{
    match what {
        DeclKind::Constant => true,
        DeclKind::TypeName => true,
        DeclKind::EnumName => true,
        _ => false,
    }
}

/// Whether a routine needs a declaration that it names to stand before calls of it.
fn is_needed(table: &Table, declaration: &Declaration) -> bool
    ensures { result ≡ means.is_needed table.now declaration.now }
{
    is_constant_kind(declaration.what) && routine_around(table, declaration.scope).is_none()
}

impl<'t> NamedText<'t> {
    /// Adds the call that a use is, if it is one.
    fn add_call(&self, found_by: Use, calls: &mut Items<Call>) -> Result<(), AllocError>
        ensures { OnOk result (calls.new ≡ calls.old ++ means.call_by self.now.tokens.now self.now.names.now found_by) }
    {
        let Found::Decl(number) = self.finds(found_by) else {
            return Ok(());
        };
        let Some(declaration) = self.numbered(number) else {
            return Ok(());
        };
        if !is_call_role(found_by.role) || !is_routine(declaration.what) {
            return Ok(());
        }
        calls.push(Call {
            from: routine_around(self.table(), found_by.scope),
            to: declaration.inner,
            at: found_by.at,
        })
    }

    /// Adds what a routine needs by a use, if it is something.
    fn add_need(&self, found_by: Use, needs: &mut Items<Need>) -> Result<(), AllocError>
        ensures { OnOk result (needs.new ≡ needs.old ++ means.need_by self.now.tokens.now self.now.names.now found_by) }
    {
        let Some(routine) = routine_around(self.table(), found_by.scope) else {
            return Ok(());
        };
        let Found::Decl(number) = self.finds(found_by) else {
            return Ok(());
        };
        let Some(declaration) = self.numbered(number) else {
            return Ok(());
        };
        if !is_needed(self.table(), declaration) {
            return Ok(());
        }
        needs.push(Need {
            routine,
            last: declaration.last,
        })
    }

    /// The calls.
    fn calls(&self, alloc: Global) -> Result<Items<Call>, AllocError>
        ensures { IfOk result (λ cs. cs ≡ means.calls self.now.tokens.now self.now.names.now) }
    {
        let uses = self.table().uses.as_slice();
        let mut calls = Items::new(alloc);
        for found_by in uses {
            self.add_call(*found_by, &mut calls)?;
        }
        Ok(calls)
    }

    /// What routines need.
    fn needs(&self, alloc: Global) -> Result<Items<Need>, AllocError>
        ensures { IfOk result (λ ns. ns ≡ means.needs self.now.tokens.now self.now.names.now) }
    {
        let uses = self.table().uses.as_slice();
        let mut needs = Items::new(alloc);
        for found_by in uses {
            self.add_need(*found_by, &mut needs)?;
        }
        Ok(needs)
    }

    /// The least break by a call.
    #[tactic(auto, using(crate::proofs::Calls::calling))]
    pub(crate) fn calls_break(&self, alloc: Global) -> Result<Option<Break>, AllocError>
        ensures { IfOk result (λ b. b ≡ means.least (means.calls_breaks self.now.tokens.now self.now.names.now)) }
    {
        let calls = self.calls(alloc)?;
        let needs = self.needs(alloc)?;
        let routines = number(self.table().scopes.len())?;
        match first_broken(alloc, routines, calls.as_slice(), needs.as_slice())? {
            Some(at) => Ok(Some(Break { at, rule: 609 })),
            None => Ok(None),
        }
    }
}
