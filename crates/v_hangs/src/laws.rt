//! Laws of the definitions.

ghost use Rattle.v_hangs.specs.Laws.{HangsOnReads, LocalsDontCount, WritesOnlyUses};

/// What a process does hangs on nothing that a valuation holds in locals: they are made x where their block or function begins
/// (IEEE 1364-2005 clauses 9.8 and 10.4).
pub fn locals_dont_count()
    ensures { LocalsDontCount }
{}

/// It hangs on the signals alone that it reads.
pub fn hangs_on_reads()
    ensures { HangsOnReads }
{}

/// It assigns those signals alone that it may write.
pub fn writes_only_uses()
    ensures { WritesOnlyUses }
{}
