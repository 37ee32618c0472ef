//! Breaks of rules, and the one that is answered.

ghost use Rattle.std.specs.Prelude.{◌≡◌};
ghost use Rattle.package_scope.specs.Least.{joined};
ghost use Rattle.package_scope.specs.Rules as means;

/// A break of a rule.
#[derive(Clone, Copy, PartialEq, Eq, Debug)]
pub struct Break {
    /// The token that breaks it.
    pub at: u32,
    /// The rule's number, as 401 for E401.
    pub rule: u16,
}

/// Whether a break counts before another one.
fn is_less(one: Break, other: Break) -> bool
    ensures { result ≡ means.is_less one other }
{
    one.at < other.at || (one.at == other.at && one.rule < other.rule)
}

/// Of a break and another one, if there is one, the one that counts.
fn lesser(one: Break, other: Option<Break>) -> Option<Break>
    ensures { result ≡ means.lesser one other }
{
    match other {
        None => Some(one),
        Some(other) => {
            if is_less(other, one) {
                Some(other)
            } else {
                Some(one)
            }
        }
    }
}

/// Of two breaks the one that counts.
pub fn first(one: Option<Break>, other: Option<Break>) -> Option<Break>
    ensures { result ≡ joined one other }
{
    match one {
        None => other,
        Some(one) => lesser(one, other),
    }
}

/// A break, if a rule is broken.
pub fn break_if(broken: bool, rule: u16, at: u32) -> Option<Break>
    ensures { result ≡ means.least (means.breaks_if broken rule at) }
{
    if broken {
        Some(Break { at, rule })
    } else {
        None
    }
}
