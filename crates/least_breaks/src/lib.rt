//! The least of the breaks of some rules, put together from those of each rule.
#![tactic(auto)]

ghost use Rattle.std.specs.Prelude.{◌≡◌, ◌++◌, ℕ, List};
ghost use Rattle.design_breaks.specs.Breaks as B;
ghost use Rattle.least_breaks.specs.Least as spec;
ghost use Rattle.least_breaks.specs.Least.{IsLeastToken, IsLeast};

use design_breaks::Break;

/// The lesser one of a token and one that may be missing.
pub fn with_token(least: Option<u32>, at: u32) -> Option<u32>
    ensures { result ≡ spec.with_token least at }
{
    match least {
        None => Some(at),
        Some(t) => Some(t.min(at)),
    }
}

/// The least of some tokens.
pub fn least_of(tokens: &[u32]) -> Option<u32>
    ensures { IsLeastToken tokens.now result }
{
    let mut least = None;
    for at in tokens {
        least = with_token(least, *at);
    }
    least
}

// Whether a break comes before another one: by instance, then by token, then by rule.
fn comes_before(a: Break, b: Break) -> bool
    ensures { result ≡ B.is_less a b }
{
    a.instance < b.instance
        || (a.instance == b.instance && (a.at < b.at || (a.at == b.at && a.rule < b.rule)))
}

/// The lesser one of the least breaks of two lists.
#[tactic(auto, using(crate::proofs::Comparing::lesser_laws))]
pub fn lesser(a: Option<Break>, b: Option<Break>) -> Option<Break>
    ensures { (xs ys : List Break) → IsLeast xs a → IsLeast ys b → IsLeast (xs ++ ys) result }
{
    match (a, b) {
        (None, b) => b,
        (Some(a), None) => Some(a),
        (Some(a), Some(b)) => Some(if comes_before(b, a) { b } else { a }),
    }
}

/// The break of a rule at the least of its tokens in an instance.
#[tactic(auto, using(crate::proofs::Comparing::lesser_laws))]
pub fn break_at(instance: u32, rule: u16, at: Option<u32>) -> Option<Break>
    ensures { (ts : List ℕ) → IsLeastToken ts at → IsLeast (B.at_each instance rule ts) result }
{
    match at {
        None => None,
        Some(at) => Some(Break { instance, at, rule }),
    }
}

/// The least of all breaks is the one that the definition names.
#[tactic(auto, using(crate::proofs::Comparing::lesser_laws))]
pub fn least_is_least()
    ensures { spec.LeastIsLeast }
{}
