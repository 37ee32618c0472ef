//! Which processes are run together.

use b4_core::Items;

/// Groups of processes that share signals that they write, by numbers. There are as many groups as signals, some of them empty.
#[derive(Debug, Drop)]
pub struct Plan {
    /// Of each signal its group.
    pub places: Items<usize>,
    /// Of each group its signals.
    pub signals: Items<Items<usize>>,
    /// Of each group its processes, in order.
    pub processes: Items<Items<usize>>,
    /// Of each signal the groups that read it.
    pub readers: Items<Items<usize>>,
}
