//! The laws of core forms. Each function carries one law as its contract and does nothing.

ghost use Rattle.core_forms.specs.Laws.{CoresHaveTheTraces, CoresRunAlike};

/// A design of one instance whose types are vectors runs as its core form does, but for what its processes are said to read
/// and write.
pub fn cores_run_alike()
    ensures { CoresRunAlike }
{}

/// So any rows have the same traces on both.
pub fn cores_have_the_traces()
    ensures { CoresHaveTheTraces }
{}
