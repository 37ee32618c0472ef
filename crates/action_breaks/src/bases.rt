//! Whether targets name signals and locals.

ghost use Rattle.std.specs.Prelude.{◌≡◌, map};
ghost use Rattle.sv_types.specs.Surroundings.{local_number};
ghost use Rattle.action_breaks.specs.Bases as spec;

use sv_types::{Expr, Form};

/// What targets name.
#[derive(Clone, Copy)]
pub struct Bases {
    /// Whether they name a signal.
    pub signal: bool,
    /// Whether they name a local.
    pub local: bool,
}

fn with_signal(number: u32, so_far: Bases) -> Bases
    ensures { result ≡ spec.with_number number so_far }
{
    let _is_below = number;
    Bases {
        signal: true,
        local: so_far.local,
    }
}

fn with_local(number: u32, so_far: Bases) -> Bases
    ensures { result ≡ spec.with_number (local_number number) so_far }
{
    let _local = number;
    Bases {
        signal: so_far.signal,
        local: true,
    }
}

// Adds what a select path stands on.
fn add_path(e: &Expr, so_far: Bases) -> Bases
    ensures { result ≡ (spec.stands e.now).path so_far }
{
    match &e.form {
        Form::Literal { .. } => so_far,
        Form::Fill(_) => so_far,
        Form::Constant(_) => so_far,
        Form::Signal(n) => with_signal(*n, so_far),
        Form::Local(n) => with_local(*n, so_far),
        Form::Member(from, _) => add_path(from.get(), so_far),
        Form::Index(from, _) => add_path(from.get(), so_far),
        Form::Part { from, .. } => add_path(from.get(), so_far),
        Form::Slide { from, .. } => add_path(from.get(), so_far),
        Form::Unary(_, _) => so_far,
        Form::Reduce(_, _) => so_far,
        Form::Negate(_) => so_far,
        Form::Binary(_, _, _) => so_far,
        Form::Shift(_, _, _) => so_far,
        Form::Power(_, _) => so_far,
        Form::Order(_, _, _) => so_far,
        Form::Equal { .. } => so_far,
        Form::Both(_, _) => so_far,
        Form::Either(_, _) => so_far,
        Form::Choose(_, _, _) => so_far,
        Form::Concat(_) => so_far,
        Form::Repeat(_, _) => so_far,
        Form::Inside(_, _) => so_far,
        Form::Cast(_) => so_far,
        Form::Clog2(_) => so_far,
        Form::Pattern(_) => so_far,
        Form::Call(_, _) => so_far,
        Form::Stream { .. } => so_far,
    }
}

// Adds what a target names.
#[cycle(bases)]
fn add_target(e: &Expr, so_far: Bases) -> Bases
    ensures { result ≡ (spec.stands e.now).all so_far }
{
    match &e.form {
        Form::Literal { .. } => so_far,
        Form::Fill(_) => so_far,
        Form::Constant(_) => so_far,
        Form::Signal(n) => with_signal(*n, so_far),
        Form::Local(n) => with_local(*n, so_far),
        Form::Member(from, _) => add_path(from.get(), so_far),
        Form::Index(from, _) => add_path(from.get(), so_far),
        Form::Part { from, .. } => add_path(from.get(), so_far),
        Form::Slide { from, .. } => add_path(from.get(), so_far),
        Form::Unary(_, _) => so_far,
        Form::Reduce(_, _) => so_far,
        Form::Negate(_) => so_far,
        Form::Binary(_, _, _) => so_far,
        Form::Shift(_, _, _) => so_far,
        Form::Power(_, _) => so_far,
        Form::Order(_, _, _) => so_far,
        Form::Equal { .. } => so_far,
        Form::Both(_, _) => so_far,
        Form::Either(_, _) => so_far,
        Form::Choose(_, _, _) => so_far,
        Form::Concat(parts) => add_parts(parts.as_slice(), so_far),
        Form::Repeat(_, _) => so_far,
        Form::Inside(_, _) => so_far,
        Form::Cast(_) => so_far,
        Form::Clog2(_) => so_far,
        Form::Pattern(_) => so_far,
        Form::Call(_, _) => so_far,
        Form::Stream { parts, .. } => add_parts(parts.as_slice(), so_far),
    }
}

// Adds what the parts of a target name.
#[cycle(bases)]
fn add_parts(es: &[Expr], so_far: Bases) -> Bases
    ensures { result ≡ spec.in_turn (map spec.stands es.now) so_far }
{
    let mut bases = so_far;
    for e in es {
        bases = add_target(e, bases);
    }
    bases
}

/// What targets name, together.
pub fn bases_of(es: &[Expr]) -> Bases
    ensures { result ≡ spec.bases_of es.now }
{
    add_parts(
        es,
        Bases {
            signal: false,
            local: false,
        },
    )
}

/// What one target names.
pub fn target_bases(e: &Expr) -> Bases
    ensures { result ≡ spec.target_bases e.now }
{
    add_target(
        e,
        Bases {
            signal: false,
            local: false,
        },
    )
}
