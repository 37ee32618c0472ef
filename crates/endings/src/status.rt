/// How a run ends. As a number from 0 it is the status of the process.
#[derive(Clone, Copy, PartialEq, Eq, Debug)]
pub enum Status {
    /// The output is written whole.
    Done,
    /// The input breaks a rule.
    Refused,
    /// The words of the command line aren't of the form.
    Usage,
    /// Want of memory.
    Memory,
    /// A file could not be read.
    FileFault,
    /// A sink failed.
    SinkFault,
    /// A design that is run doesn't settle.
    Unsettled,
}
