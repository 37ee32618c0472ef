ghost use Rattle.std.specs.Prelude.{◌≡◌, ℕ, ◌<◌, length, false, IfOk};
ghost use Rattle.ll_engine.specs.Marks.{all_marked, rule_bound, AreMarks, AreWithin, Passes};

use sqlite_items::Items;
use std::alloc::{AllocError, Global};

/// A head that is marked where all heads of a list are.
#[derive(Debug, Drop)]
pub struct Rule {
    pub to: u16,
    pub from: Items<u16>,
}

pub type Rules = Items<Rule>;

/// A mark for each head.
pub type Marks = Items<bool>;

fn all_marked(marks: &[bool], heads: &[u16]) -> bool
    ensures { result ≡ all_marked marks.now heads.now }
{
    for head in heads {
        match marks.get(*head as usize) {
            Some(true) => {}
            Some(false) => return false,
            None => return false,
        }
    }
    true
}

/// Marks the heads of the rules once, and says whether there was a new one.
fn pass(rules: &[Rule], marks: &mut [bool]) -> bool
    requires { AreWithin (length marks.old) rules.now }
    ensures { Passes rules.now result marks.old marks.new }
{
    let mut changed = false;
    for rule in rules {
        let to = rule.to as usize;
        if !marks[to] {
            if all_marked(marks, rule.from.as_slice()) {
                marks[to] = true;
                changed = true;
            }
        }
    }
    changed
}

fn bound_of(rules: &[Rule]) -> usize
    ensures { result ≡ rule_bound rules.now 0 }
{
    let mut count = 0usize;
    for rule in rules {
        count = count.max(rule.to as usize + 1);
    }
    count
}

/// The heads that the rules mark.
pub fn marks_of(alloc: Global, rules: &[Rule]) -> Result<Marks, AllocError>
    ensures { IfOk result (λ marks. AreMarks rules.now marks) }
{
    let count = bound_of(rules);
    let mut marks = vec![in alloc; false; count]?;
    while pass(rules, marks.as_mut_slice()) {}
    Ok(Items::from_vec(marks))
}
