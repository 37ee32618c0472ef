//! Runs of bits of one kind of store, two-state or four-state.

ghost use Rattle.std.specs.Prelude.{◌≡◌, ◌≤◌, ◌<◌, true, false, length};
ghost use Rattle.path_flatten.specs.Storing.{AllAre, IsSteady};
ghost use Rattle.path_reads.specs.Running.{IsRunBelow};

use b4_core::Bit4;

/// Whether each of these bits is one.
pub(crate) fn are_all(bits: &[Bit4], b: Bit4) -> bool
    ensures all { result ≡ true → AllAre b bits.now }
    ensures some { result ≡ false → 0 < length bits.now }
{
    for bit in bits {
        if *bit != b {
            return false;
        }
    }
    true
}

/// Where the run of equal bits begins that ends below `high`.
fn run_start(bits: &[Bit4], high: usize) -> usize
    requires some { 0 < high }
    requires fits { high ≤ length bits.now }
    ensures below { result < high }
    ensures same { IsSteady bits.now result high }
{
    let mut low = high - 1;
    while low > 0 && bits[low - 1] == bits[high - 1] {
        low -= 1;
    }
    low
}

/// Bits of one kind of store, out of so many.
#[derive(Clone, Copy)]
pub(crate) struct Run {
    pub low: u32,
    pub bits: u32,
    pub all: u32,
    pub two_state: bool,
}

/// The run of equal bits that ends below `high`. A bit says what becomes of x.
pub(crate) fn run_below(marks: &[Bit4], high: usize) -> Run
    requires some { 0 < high }
    requires fits { high ≤ length marks.now }
    requires narrow { length marks.now ≤ 4194304 }
    ensures { IsRunBelow marks.now high result }
{
    let low = run_start(marks, high);
    Run {
        low: low as u32,
        bits: (high - low) as u32,
        all: marks.len() as u32,
        two_state: marks[high - 1] != Bit4::X,
    }
}
