//! The names of a source text, with what finds them in near constant time.

ghost use Rattle.std.specs.Prelude.{◌≡◌, ◌<◌, ℕ, length, slice_index, IfOk};
ghost use Rattle.std.proofs.Props.{props};
ghost use Rattle.std.specs.Coded.{Coded-set};
ghost use Rattle.std.specs.Option.{option_copied, option_map};
ghost use Rattle.expr_type.specs.Names.{formal_count};
ghost use Rattle.expr_type.specs.Routines.{named_at, routines as means_routines};
ghost use Rattle.frame_texts.specs.Frames as means;
ghost use Rattle.frame_things.specs.Places.{place_from, places_in};
ghost use Rattle.package_scope.specs.Rules as rules;
ghost use Rattle.package_scope.specs.Tables as tables;
ghost use Rattle.source_routines.specs.Texts.{routine_in, text_of};
ghost use Rattle.sv_tree.specs.contracts.functions.Function as function_row;
ghost use Rattle.sv_tree.specs.contracts.functions.Task as task_row;
ghost use Rattle.typing_names.specs.Counts.{before_token};
ghost use Rattle.typing_names.specs.Scopes.{AreInnermost, declaration_number, use_number, routine_text};

use crate::counting::{Counts, counts_before};
use crate::token_scopes::{TokenScopes, innermost_of, scope_of};
use frame_things::Places;
use name_events::Declared;
use package_scope::{DeclKind, Declaration, Found, NameTable, Use};
use source_routines::{Routine, RoutineTable, routines_of};
use std::alloc::{AllocError, Global};
use sv_source::{Text, at};
use sv_tree::{QualifiedName, SourceTree};

/// A source text with its names.
#[derive(Drop)]
pub struct SourceNames<'t> {
    /// The text.
    pub tree: &'t SourceTree,
    /// Its names.
    pub names: &'t NameTable,
    /// The innermost scope of each token.
    pub scopes: TokenScopes,
    /// At which places of the list of uses the first use at each token stands.
    pub uses: Places,
    /// At which places of the list of declarations the first one at each token stands.
    pub declarations: Places,
    /// The functions and tasks by the tokens of their names.
    pub routines: RoutineTable<'t>,
    /// How many declarations stand before each token.
    pub before: Counts,
    /// How many tokens there are.
    pub end: u32,
    ghost scoped: { AreInnermost names.now.scopes scopes },
    ghost used: { (q : ℕ) → places_in uses q ≡ place_from use_number 0 q names.now.uses },
    ghost declared: { (q : ℕ) → places_in declarations q ≡ place_from declaration_number 0 q names.now.declared },
    ghost routed: { (q : ℕ) → routine_in routines q ≡ named_at q (means_routines tree.now) } by { Prim.hlevel (props, Coded-set, function_row.the_row.coded, task_row.the_row.coded) },
    ghost placed: { (q : ℕ) → q < length before → slice_index before q ≡ before_token q names.now.declared },
    ghost ended: { end ≡ length tree.now.tokens },
    ghost few: { length names.now.declared < 4294967296 },
}

/// At which place of a list the first use at each token stands.
fn uses_of(alloc: Global, list: &[Use]) -> Result<Places, AllocError>
    ensures { IfOk result (λ x. (q : ℕ) → places_in x q ≡ place_from use_number 0 q list.now) }
{
    let mut places = Places::new(alloc);
    let mut at = list.len();
    while at > 0 {
        at -= 1;
        places.put(list[at].at, at)?;
    }
    Ok(places)
}

/// At which place of a list the first declaration at each token stands.
fn declarations_of(alloc: Global, list: &[Declaration]) -> Result<Places, AllocError>
    ensures { IfOk result (λ x. (q : ℕ) → places_in x q ≡ place_from declaration_number 0 q list.now) }
{
    let mut places = Places::new(alloc);
    let mut at = list.len();
    while at > 0 {
        at -= 1;
        places.put(list[at].at, at)?;
    }
    Ok(places)
}

/// The number of the declaration that was found, if it is one.
fn number_of(found: Found) -> Option<u32>
    ensures { result ≡ rules.number_of found }
{
    match found {
        Found::Decl(number) => Some(number),
        Found::Absent => None,
        Found::Twice => None,
    }
}

/// Whether a declaration is that of an interface.
fn is_interface(declaration: Option<&Declaration>) -> bool
    ensures { result ≡ rules.is_interface (option_copied declaration.entry) }
{
    match declaration {
        None => false,
        Some(declaration) => matches!(declaration.what, DeclKind::Interface),
    }
}

// Whether what is declared so is a signal or a port.
fn is_signal_kind(what: DeclKind) -> bool
    ensures { result ≡ rules.is_signal_kind what }
{
    match what {
        DeclKind::Signal => true,
        _ => false,
    }
}

impl<'t> SourceNames<'t> {
    /// The names of a source text with the table of its names. It takes time by its tokens and the depth of its scopes.
    pub fn new(
        alloc: Global,
        tree: &'t SourceTree,
        names: &'t NameTable,
    ) -> Result<SourceNames<'t>, AllocError>
        ensures tree { IfOk result (λ x. x.tree.now ≡ tree.now) }
        ensures names { IfOk result (λ x. x.names.now ≡ names.now) }
    {
        let scopes = innermost_of(alloc, names.table().scopes.as_slice(), tree.tokens.len())?;
        let uses = uses_of(alloc, names.table().uses.as_slice())?;
        let declarations = declarations_of(alloc, names.table().declared.as_slice())?;
        let routines = routines_of(alloc, tree)?;
        let before = counts_before(alloc, names.table().declared.as_slice(), tree.tokens.len())?;
        let Ok(end) = u32::try_from(tree.tokens.len()) else {
            return Err(AllocError);
        };
        let Ok(_count) = u32::try_from(names.table().declared.len()) else {
            return Err(AllocError);
        };
        Ok(SourceNames {
            tree,
            names,
            scopes,
            uses,
            declarations,
            routines,
            before,
            end,
        })
    }

    /// The text of a token.
    pub fn word(&self, token: u32) -> &Text
        ensures { result.now ≡ tables.word self.now.tree.now.tokens token }
    {
        self.names.word(self.tree.tokens.as_slice(), token)
    }

    /// The declaration that a name finds, by its number (IEEE 1800-2017 clauses 23.9 and 26.3).
    pub fn found(&self, of: QualifiedName) -> Option<u32>
        ensures { result ≡ means.finds self.now.tree.now self.now.names.now of }
    {
        let name = self.word(of.name);
        match of.scope {
            None => {
                let scope = scope_of(&self.scopes, self.names, of.name);
                number_of(self.names.lookup(scope, name, of.name))
            }
            Some(scope) => {
                let package = self.word(scope.package);
                self.names.in_package(package, scope.package, name, of.name)
            }
        }
    }

    /// The number of the declaration whose name stands at a token, or how many declarations there are where none stands there.
    pub fn declared(&self, token: u32) -> usize
        ensures { result ≡ means.number_from self.now.tree.now self.now.names.now 0 token self.now.names.now.declared }
    {
        match self.declarations.of(token) {
            Some(place) => place,
            None => self.names.table().declared.len(),
        }
    }

    /// The use that stands at a token, if there is one.
    fn use_at(&self, token: u32) -> Option<Use>
        ensures { result ≡ rules.use_at token self.now.names.now.uses }
    {
        match self.uses.of(token) {
            None => None,
            Some(place) => at(self.names.table().uses.as_slice(), place).copied(),
        }
    }

    /// The declaration that the use at a token finds.
    pub(crate) fn declaration_at(&self, token: u32) -> Option<&Declaration>
        ensures { option_copied result ≡ rules.declaration_at self.now.tree.now.tokens self.now.names.now token }
    {
        match self.use_at(token) {
            None => None,
            Some(found_by) => match self.names.finds(self.tree.tokens.as_slice(), found_by) {
                Found::Decl(number) => self.names.declaration(number),
                Found::Absent => None,
                Found::Twice => None,
            },
        }
    }

    /// Whether what is declared is an interface's instance or port, of which members are read and written.
    fn holds_members(&self, how: Declared) -> bool
        ensures { result ≡ rules.is_interface_holder self.now.tree.now.tokens self.now.names.now how }
    {
        match how {
            Declared::InterfacePort => true,
            Declared::NamedPort { of, .. } => is_interface(self.declaration_at(of)),
            Declared::Instance { of } => is_interface(self.declaration_at(of)),
            _ => false,
        }
    }

    /// Whether a declaration is an interface's instance or port.
    pub fn is_interface(&self, declaration: u32) -> bool
        ensures { result ≡ means.how self.now.tree.now self.now.names.now (rules.is_interface_holder self.now.tree.now.tokens self.now.names.now) declaration }
    {
        match self.names.declaration(declaration) {
            None => false,
            Some(declaration) => self.holds_members(declaration.how),
        }
    }

    /// Whether a kind of declaration stands for unless it is broken.
    fn names_thing(&self, what: DeclKind) -> bool
        ensures { result ≡ means.names_thing self.now.tree.now self.now.names.now what }
    {
        match what {
            DeclKind::Package => false,
            DeclKind::Module => false,
            DeclKind::Interface => false,
            DeclKind::Constant => true,
            DeclKind::TypeName => true,
            DeclKind::EnumName => true,
            DeclKind::Signal => true,
            DeclKind::Genvar => false,
            DeclKind::Function => false,
            DeclKind::Instance => false,
            DeclKind::Block => false,
            DeclKind::Modport => false,
            DeclKind::Formal => true,
            DeclKind::Local => true,
        }
    }

    /// Whether a declaration stands for something unless it is broken.
    fn stands(&self, declaration: u32) -> bool
        ensures { result ≡ means.is_kind self.now.tree.now self.now.names.now (means.names_thing self.now.tree.now self.now.names.now) declaration }
    {
        match self.names.declaration(declaration) {
            None => false,
            Some(declaration) => self.names_thing(declaration.what),
        }
    }

    /// The rule that a name which finds a declaration breaks as a pattern's key where it stands for nothing, or none where the
    /// declaration is broken.
    pub fn key_rule(&self, declaration: u32) -> Option<u16>
        ensures { result ≡ means.key_rule self.now.tree.now self.now.names.now declaration }
    {
        if self.stands(declaration) {
            None
        } else {
            Some(404)
        }
    }

    /// Whether a declaration is a signal or a port.
    fn is_signal(&self, declaration: u32) -> bool
        ensures { result ≡ means.is_kind self.now.tree.now self.now.names.now rules.is_signal_kind declaration }
    {
        match self.names.declaration(declaration) {
            None => false,
            Some(declaration) => is_signal_kind(declaration.what),
        }
    }

    /// The same in a function or a task, where signals and interfaces aren't seen: a signal breaks E406, an interface's port E404.
    pub fn hidden_rule(&self, declaration: u32) -> Option<u16>
        ensures { result ≡ means.hidden_rule self.now.tree.now self.now.names.now declaration }
    {
        if self.is_interface(declaration) {
            return Some(404);
        }
        if self.is_signal(declaration) {
            return Some(406);
        }
        self.key_rule(declaration)
    }

    /// The function or task with a declaration, if it is one.
    pub fn routine(&self, declaration: u32) -> Option<Routine<'t>>
        ensures { option_map text_of result ≡ routine_text self.now.tree.now self.now.names.now declaration }
    {
        match self.names.declaration(declaration) {
            None => None,
            Some(declaration) => self.routines.at(declaration.at),
        }
    }

    /// How many formals the function or task with a declaration has, if it is one.
    pub fn formal_count(&self, declaration: u32) -> Option<usize>
        ensures { result ≡ option_map formal_count (routine_text self.now.tree.now self.now.names.now declaration) }
    {
        match self.routine(declaration) {
            None => None,
            Some(routine) => Some(routine.formal_count()),
        }
    }
}
