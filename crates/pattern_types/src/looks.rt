//! Which break comes first.

ghost use Rattle.std.specs.Prelude.{◌≡◌, IfOk};
ghost use Rattle.pattern_laws.specs.Reasons.{is_sooner, lesser_reason, lesser_tried, followed_by};
ghost use Rattle.pattern_types.specs.Reasons.{reason_of, tried_of, Says, Passes};

use expr_type::Halt;
use std::alloc::AllocError;

/// What a look at something that is given to a type shows.
#[derive(Clone, Copy)]
pub enum Look {
    /// It is whole.
    Fine,
    /// It isn't whole, but breaks no rule.
    Quiet,
    /// It breaks a rule.
    Breaks {
        /// The token that breaks it.
        at: u32,
        /// The rule's number.
        rule: u16,
    },
}

/// What looks at something for each type that takes it show, if any does.
pub type Tried = Option<Look>;

// Whether a break comes before another one.
fn is_sooner(at: u32, rule: u16, other_at: u32, other_rule: u16) -> bool
    ensures { result ≡ is_sooner (record { at = at; rule = rule }) (record { at = other_at; rule = other_rule }) }
{
    at < other_at || (at == other_at && rule < other_rule)
}

/// Of two looks the one whose break comes first.
pub fn lesser(a: Look, b: Look) -> Look
    ensures { reason_of result ≡ lesser_reason (reason_of a) (reason_of b) }
{
    match a {
        Look::Fine => b,
        Look::Quiet => match b {
            Look::Fine => a,
            Look::Quiet => a,
            Look::Breaks { .. } => b,
        },
        Look::Breaks { at, rule } => match b {
            Look::Fine => a,
            Look::Quiet => a,
            Look::Breaks { at: p, rule: q } => { if is_sooner(p, q, at, rule) { b } else { a } }
        },
    }
}

/// The same of looks at types that there may be.
pub fn lesser_tried(a: Tried, b: Tried) -> Tried
    ensures { tried_of result ≡ lesser_tried (tried_of a) (tried_of b) }
{
    match a {
        None => b,
        Some(x) => match b {
            None => a,
            Some(y) => Some(lesser(x, y)),
        },
    }
}

/// Two looks at parts in the order of the text: the first break.
pub fn followed_by(a: Look, b: Look) -> Look
    ensures { reason_of result ≡ followed_by (reason_of a) (reason_of b) }
{
    match a {
        Look::Fine => b,
        Look::Quiet => match b {
            Look::Fine => a,
            Look::Quiet => a,
            Look::Breaks { .. } => b,
        },
        Look::Breaks { .. } => a,
    }
}

/// What a halt shows, unless memory ran out.
pub fn look_of(halt: Halt) -> Result<Look, AllocError>
    ensures { IfOk result (λ l. Says halt l) }
{
    match halt {
        Halt::Memory => Err(AllocError),
        Halt::Quiet => Ok(Look::Quiet),
        Halt::Breaks { at, rule } => Ok(Look::Breaks { at, rule }),
    }
}

/// That something is whole, or why it isn't.
pub fn passes(look: Look) -> Result<(), Halt>
    ensures { Passes result (reason_of look) }
{
    match look {
        Look::Fine => Ok(()),
        Look::Quiet => Err(Halt::Quiet),
        Look::Breaks { at, rule } => Err(Halt::Breaks { at, rule }),
    }
}
