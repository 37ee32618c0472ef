//! Whether a design can be run with a module as its top.

ghost use Rattle.std.specs.Prelude.{◌≡◌, length, IfOk};
ghost use Rattle.v_tree.specs.Rules.{FitsTop, bits_below};
ghost use Rattle.v_top_rules.specs.Fitting.{TopGives};
ghost use Rattle.v_top_rules.specs.Sums as means;

use crate::nodes::nodes_of;
use crate::sums::{Sum, sum_at, sums_of};
use std::alloc::{AllocError, Global};
use sv_source::Text;
use v_rules::Modules;
use v_tree::{VDesign, VModule};

/// The most instances below a top.
const MOST_INSTANCES: u32 = 4096;

/// The most signal bits in a top and below it.
const MOST_BITS: u32 = 67_108_864;

/// Why a design can't be run with a module as its top.
#[derive(Drop)]
pub enum TopFail {
    /// Want of memory.
    Memory,
    /// There is no such module, or too much stands below it.
    Unfit,
}

impl From<AllocError> for TopFail {
    ghost use Rattle.v_top_rules.specs.declared.check.TopFail.TheVariants.{Memory};

    ghost from_gives = { λ _ r. r ≡ Memory };

    fn from(_error: AllocError) -> TopFail {
        TopFail::Memory
    }
}

// What stands below a module of this name, if it is there.
fn top_sum(alloc: Global, modules: &[VModule], top: &Text) -> Result<Option<Sum>, AllocError>
    ensures { IfOk result (λ sum. sum ≡ means.top_sum modules.now top.now) }
{
    let table = Modules::of(alloc, modules)?;
    let nodes = nodes_of(alloc, &table, modules)?;
    let sums = sums_of(alloc, &nodes)?;
    match table.number(top) {
        None => Ok(None),
        Some(number) => Ok(Some(sum_at(sums.as_slice(), Some(number)))),
    }
}

// Whether this may stand below a top.
fn is_few(sum: Option<Sum>) -> bool
    ensures { result ≡ means.is_few sum }
{
    match sum {
        None => false,
        Some(sum) => sum.instances <= MOST_INSTANCES && sum.bits <= MOST_BITS,
    }
}

/// Says whether a design can be run with the module of this name as its top: it is there, at most 4,096 instances stand below it,
/// and its signals and theirs have at most 2^26 bits.
#[tactic(auto, using(crate::proofs::Counting::few_fits, crate::proofs::Counting::many_unfit))]
pub fn check_top(alloc: Global, design: &VDesign, top: &Text) -> Result<(), TopFail>
    ensures { TopGives design.now top.now result }
{
    let sum = top_sum(alloc, design.modules.as_slice(), top)?;
    if is_few(sum) {
        Ok(())
    } else {
        Err(TopFail::Unfit)
    }
}

// The signal bits that were counted.
fn bits_or(sum: Option<Sum>) -> u32
    ensures { result ≡ means.bits_or sum }
{
    match sum {
        None => 0,
        Some(sum) => sum.bits,
    }
}

/// How many bits the signals of a top and of all instances below it have, memories with all their words. Or want of memory.
#[tactic(auto, using(crate::proofs::Counting::exact_bits))]
pub fn top_bits(alloc: Global, design: &VDesign, top: &Text) -> Result<u32, AllocError>
    requires { FitsTop design.now top.now }
    ensures { IfOk result (λ bits. bits ≡ bits_below (length design.now.modules) design.now.modules top.now) }
{
    let sum = top_sum(alloc, design.modules.as_slice(), top)?;
    Ok(bits_or(sum))
}
