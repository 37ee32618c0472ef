//! Which declarations fit a use.

ghost use Rattle.std.specs.Prelude.{◌≡◌, ◌||◌, ◌&&◌, codes, filter, length, not};
ghost use Rattle.std.specs.List.{list_any};
ghost use Rattle.std.specs.Str.{bytes_eq};
ghost use Rattle.package_scope.specs.Finding.{is_loop_of, Kept};
ghost use Rattle.package_scope.specs.Rules as means;
ghost use Rattle.package_scope.specs.Walks as walks;

use crate::building::outer;
use crate::named_text::NamedText;
use crate::table::{DeclKind, Declaration, LoopRun, Table, Use};
use crate::walks::{in_function, routine_around};
use name_events::{Declared, Role, SelectPath};
use sv_source::Text;

/// Whether a declaration is that of an interface.
fn is_interface_kind(what: DeclKind) -> bool
    ensures { result ≡ means.is_interface_kind what }
{
    match what {
        DeclKind::Interface => true,
        _ => false,
    }
}

/// Whether a declaration is that of a module or an interface.
pub fn is_instantiated(what: DeclKind) -> bool
    ensures { result ≡ means.is_instantiated what }
{
    match what {
        DeclKind::Module => true,
        DeclKind::Interface => true,
        _ => false,
    }
}

/// Whether a member stands first behind a name.
fn is_member_path(path: SelectPath) -> bool
    ensures { result ≡ means.is_member_path path }
{
    match path {
        SelectPath::Member => true,
        _ => false,
    }
}

/// Whether what stands behind a name may stand behind that of a type.
fn is_type_path(path: SelectPath) -> bool
    ensures { result ≡ means.is_type_path path }
{
    match path {
        SelectPath::Alone => true,
        SelectPath::Ranges => true,
        _ => false,
    }
}

/// Whether a declaration is that of a type.
fn is_type(path: SelectPath, how: Declared) -> bool
    ensures { result ≡ means.is_type path how }
{
    match how {
        Declared::TypeParameter => is_type_path(path),
        Declared::TypeName(_) => is_type_path(path),
        _ => false,
    }
}

/// Whether a declaration is that of a constant.
fn is_constant(how: Declared) -> bool
    ensures { result ≡ means.is_constant how }
{
    match how {
        Declared::Parameter => true,
        Declared::EnumName => true,
        _ => false,
    }
}

/// Whether a declaration is that of a variable in statements, or of a formal argument.
fn is_local(how: Declared) -> bool
    ensures { result ≡ means.is_local how }
{
    match how {
        Declared::Formal => true,
        Declared::Local => true,
        Declared::LoopVariable => true,
        _ => false,
    }
}

/// Whether a declaration is that of a genvar.
fn is_genvar(how: Declared) -> bool
    ensures { result ≡ means.is_genvar how }
{
    match how {
        Declared::Genvar => true,
        _ => false,
    }
}

/// Whether a declaration is that of a function with a value.
fn is_function(how: Declared) -> bool
    ensures { result ≡ means.is_function how }
{
    match how {
        Declared::Function => true,
        _ => false,
    }
}

/// Whether a use stands in the body of a function, formals included, whose result its name stands for there.
fn in_own_body(table: &Table, found_by: Use, declaration: &Declaration) -> bool
    ensures { result ≡ means.in_own_body table.now found_by declaration.now }
{
    if found_by.at <= declaration.last {
        return false;
    }
    match routine_around(table, found_by.scope) {
        Some(routine) => routine == declaration.inner,
        None => false,
    }
}

/// Whether a routine may be called by a statement where a use stands.
fn is_called(table: &Table, found_by: Use, how: Declared) -> bool
    ensures { result ≡ means.is_called table.now found_by how }
{
    match how {
        Declared::VoidFunction => true,
        Declared::Task => !in_function(table, found_by.scope),
        _ => false,
    }
}

/// Whether a system function takes a type.
pub fn is_bits(function: &Text) -> bool
    ensures { result ≡ bytes_eq function.now (codes "$bits") }
{
    function.as_bytes() == b"$bits".as_slice()
}

impl<'t> NamedText<'t> {
    /// Whether the use at a token finds an interface.
    pub(crate) fn names_interface(&self, token: u32) -> bool
        requires kept { Kept self.now.tokens.now self.now.names.now self.now.found.now self.now.loops.now }
        ensures { result ≡ means.names_interface self.now.tokens.now self.now.names.now token }
    {
        match self.declaration_at(token) {
            Some(declaration) => is_interface_kind(declaration.what),
            None => false,
        }
    }

    /// Whether a declaration is that of an interface's instance or port.
    fn is_interface_holder(&self, how: Declared) -> bool
        requires kept { Kept self.now.tokens.now self.now.names.now self.now.found.now self.now.loops.now }
        ensures { result ≡ means.is_interface_holder self.now.tokens.now self.now.names.now how }
    {
        match how {
            Declared::InterfacePort => true,
            Declared::NamedPort { of, .. } => self.names_interface(of),
            Declared::Instance { of } => self.names_interface(of),
            _ => false,
        }
    }

    /// Whether a use is of a member of an interface.
    fn is_member_of(&self, found_by: Use, declaration: &Declaration) -> bool
        requires kept { Kept self.now.tokens.now self.now.names.now self.now.found.now self.now.loops.now }
        ensures { result ≡ means.is_member_of self.now.tokens.now self.now.names.now found_by declaration.now }
    {
        self.is_interface_holder(declaration.how) && is_member_path(found_by.path)
    }

    /// Whether a declaration is that of a net, a variable or a port with a type.
    fn is_signal(&self, how: Declared) -> bool
        requires kept { Kept self.now.tokens.now self.now.names.now self.now.found.now self.now.loops.now }
        ensures { result ≡ means.is_signal self.now.tokens.now self.now.names.now how }
    {
        match how {
            Declared::Net => true,
            Declared::Variable => true,
            Declared::NamedPort { of, .. } => !self.names_interface(of),
            _ => false,
        }
    }

    /// Whether a declaration is that of a variable.
    fn is_variable(&self, how: Declared) -> bool
        requires kept { Kept self.now.tokens.now self.now.names.now self.now.found.now self.now.loops.now }
        ensures { result ≡ means.is_variable self.now.tokens.now self.now.names.now how }
    {
        match how {
            Declared::Variable => true,
            Declared::NamedPort { of, net } => !net && !self.names_interface(of),
            _ => false,
        }
    }

    /// Whether the loop name at a token is that of a declaration, or finds it.
    fn is_of(&self, declaration: &Declaration, token: u32) -> bool
        requires kept { Kept self.now.tokens.now self.now.names.now self.now.found.now self.now.loops.now }
        ensures { result ≡ walks.is_of self.now.tokens.now self.now.names.now declaration.now token }
    {
        if declaration.at == token {
            return true;
        }
        match self.declaration_at(token) {
            Some(other) => declaration.at == other.at,
            None => false,
        }
    }

    /// Whether a loop gives a declaration a value at a token.
    fn gives_value(&self, token: u32, declaration: &Declaration, run: LoopRun) -> bool
        requires kept { Kept self.now.tokens.now self.now.names.now self.now.found.now self.now.loops.now }
        ensures { result ≡ walks.gives_value self.now.tokens.now self.now.names.now token declaration.now run }
    {
        run.last < token && self.is_of(declaration, run.name)
    }

    /// Whether a loop of a scope gives a declaration a value at a token.
    fn has_value_in(&self, scope: u32, token: u32, declaration: &Declaration) -> bool
        requires kept { Kept self.now.tokens.now self.now.names.now self.now.found.now self.now.loops.now }
        ensures { result ≡ list_any (walks.gives_value self.now.tokens.now self.now.names.now token declaration.now) (filter (is_loop_of scope) self.now.names.now.loops) }
    {
        let runs = self.loops_in(scope);
        for run in runs {
            if self.gives_value(token, declaration, *run) {
                return true;
            }
        }
        false
    }

    /// Whether a genvar has a value where it is used.
    #[tactic(auto, using(crate::proofs::Around::valuing))]
    fn has_value(&self, found_by: Use, declaration: &Declaration) -> bool
        requires kept { Kept self.now.tokens.now self.now.names.now self.now.found.now self.now.loops.now }
        ensures { result ≡ walks.valued (walks.gives_value self.now.tokens.now self.now.names.now found_by.at declaration.now) self.now.names.now (length self.now.names.now.scopes) found_by.scope }
    {
        let table = self.table();
        let mut scope = found_by.scope;
        let mut left = table.scopes.len();
        while left > 0 {
            left -= 1;
            if self.has_value_in(scope, found_by.at, declaration) {
                return true;
            }
            if scope == 0 {
                return false;
            }
            scope = outer(table.scopes.as_slice(), scope);
        }
        false
    }

    /// Whether a use is of a signal or of a member of an interface.
    fn is_signal_or_member(&self, found_by: Use, declaration: &Declaration) -> bool
        requires kept { Kept self.now.tokens.now self.now.names.now self.now.found.now self.now.loops.now }
        ensures { result ≡ (means.is_signal self.now.tokens.now self.now.names.now declaration.now.how || means.is_member_of self.now.tokens.now self.now.names.now found_by declaration.now) }
    {
        self.is_signal(declaration.how) || self.is_member_of(found_by, declaration)
    }

    /// Whether a function's name stands for its result.
    fn is_result(&self, found_by: Use, declaration: &Declaration) -> bool
        ensures { result ≡ (means.is_function declaration.now.how && means.in_own_body self.now.names.now found_by declaration.now) }
    {
        is_function(declaration.how) && in_own_body(self.table(), found_by, declaration)
    }

    /// Whether a genvar or a function has a value where it is used.
    #[tactic(auto, using(crate::proofs::Around::valuing))]
    fn has_value_there(&self, found_by: Use, declaration: &Declaration) -> bool
        requires kept { Kept self.now.tokens.now self.now.names.now self.now.found.now self.now.loops.now }
        ensures { result ≡ ((means.is_genvar declaration.now.how && means.has_value self.now.tokens.now self.now.names.now found_by declaration.now)
            || (means.is_function declaration.now.how && means.in_own_body self.now.names.now found_by declaration.now)) }
    {
        if is_genvar(declaration.how) && self.has_value(found_by, declaration) {
            return true;
        }
        self.is_result(found_by, declaration)
    }

    /// Whether a declaration is a genvar, and no loop around its use runs over it.
    #[tactic(auto, using(crate::proofs::Around::valuing))]
    fn is_free_genvar(&self, found_by: Use, declaration: &Declaration) -> bool
        requires kept { Kept self.now.tokens.now self.now.names.now self.now.found.now self.now.loops.now }
        ensures { result ≡ (means.is_genvar declaration.now.how && not (means.has_value self.now.tokens.now self.now.names.now found_by declaration.now)) }
    {
        is_genvar(declaration.how) && !self.has_value(found_by, declaration)
    }

    /// Whether a use fits as a value.
    fn is_value(&self, found_by: Use, declaration: &Declaration) -> bool
        requires kept { Kept self.now.tokens.now self.now.names.now self.now.found.now self.now.loops.now }
        ensures { result ≡ means.is_value self.now.tokens.now self.now.names.now found_by declaration.now }
    {
        if is_constant(declaration.how) || is_local(declaration.how) {
            return true;
        }
        self.is_signal_or_member(found_by, declaration)
            || self.has_value_there(found_by, declaration)
    }

    /// Whether a statement may assign to what is used.
    fn is_procedural_target(&self, found_by: Use, declaration: &Declaration) -> bool
        requires kept { Kept self.now.tokens.now self.now.names.now self.now.found.now self.now.loops.now }
        ensures { result ≡ means.is_procedural_target self.now.tokens.now self.now.names.now found_by declaration.now }
    {
        if is_local(declaration.how) || self.is_variable(declaration.how) {
            return true;
        }
        self.is_member_of(found_by, declaration) || self.is_result(found_by, declaration)
    }

    /// Whether a use fits as the argument of a system function.
    fn is_argument(&self, function: u32, found_by: Use, declaration: &Declaration) -> bool
        requires kept { Kept self.now.tokens.now self.now.names.now self.now.found.now self.now.loops.now }
        ensures { result ≡ means.fits_role (Role.Argument function) self.now.tokens.now self.now.names.now found_by declaration.now }
    {
        self.is_value(found_by, declaration)
            || (is_bits(self.word(function)) && is_type(found_by.path, declaration.how))
    }

    /// Whether a declaration fits a use.
    pub(crate) fn fits_role(&self, found_by: Use, declaration: &Declaration) -> bool
        requires kept { Kept self.now.tokens.now self.now.names.now self.now.found.now self.now.loops.now }
        ensures { result ≡ means.fits_role found_by.role self.now.tokens.now self.now.names.now found_by declaration.now }
    {
        let how = declaration.how;
        match found_by.role {
            Role::Value => self.is_value(found_by, declaration),
            Role::Type => is_type(found_by.path, how),
            Role::ValueOrType => {
                self.is_value(found_by, declaration) || is_type(found_by.path, how)
            }
            Role::Argument(function) => self.is_argument(function, found_by, declaration),
            Role::Connection => {
                self.is_value(found_by, declaration) || self.is_interface_holder(how)
            }
            Role::Call => is_function(how),
            Role::CallStatement => is_called(self.table(), found_by, how),
            Role::ProceduralTarget => self.is_procedural_target(found_by, declaration),
            Role::ContinuousTarget => self.is_signal_or_member(found_by, declaration),
            Role::TypeOrInterface => {
                is_interface_kind(declaration.what) || is_type(found_by.path, how)
            }
            Role::Interface => is_interface_kind(declaration.what),
            Role::Instantiated => is_instantiated(declaration.what),
            Role::Edge => self.is_signal_or_member(found_by, declaration),
            Role::LoopGenvar => self.is_free_genvar(found_by, declaration),
            Role::Step => true,
            Role::ModportPort => self.is_signal(how),
            Role::Key => true,
        }
    }

    /// Whether a function or task names a signal, or a member of an interface, outside itself.
    pub(crate) fn names_signal(&self, found_by: Use, declaration: &Declaration) -> bool
        requires kept { Kept self.now.tokens.now self.now.names.now self.now.found.now self.now.loops.now }
        ensures { result ≡ means.names_signal self.now.tokens.now self.now.names.now found_by declaration.now }
    {
        match routine_around(self.table(), found_by.scope) {
            Some(_) => {
                self.is_signal(declaration.how) || self.is_interface_holder(declaration.how)
            }
            None => false,
        }
    }
}
