//! The output of a run.

ghost use Rattle.std.specs.Prelude.{◌≤◌};
ghost use Rattle.endings.specs.Sinks.{sink};
ghost use Rattle.endings.specs.Ends.{Writes, LevelUnless};
ghost use Rattle.endings.specs.declared.status.Status.TheVariants.{SinkFault};

use crate::status::Status;
use sv_source::{Put, Sink, put_all, put_write_fault};

/// Puts the output on `out`, in pieces of 512 bytes, and answers `Done`; or, where a put fails, says a write fault on `err` and
/// answers `SinkFault`. It takes no memory.
pub fn write_out<O: Sink, E: Sink>(bytes: &[u8], out: &mut O, err: &mut E) -> Status
    ensures writes { Writes (sink O.written O.faults out.old out.new) (sink E.written E.faults err.old err.new) bytes.now result }
    ensures out_later { O.faults out.old ≤ O.faults out.new }
    ensures err_later { E.faults err.old ≤ E.faults err.new }
    // Where it doesn't answer `SinkFault`, the counts of both sinks are as they were.
    ensures out_level { LevelUnless SinkFault result (O.faults out.old) (O.faults out.new) }
    ensures err_level { LevelUnless SinkFault result (E.faults err.old) (E.faults err.new) }
{
    match put_all(out, bytes) {
        Put::Ok => Status::Done,
        Put::Failed => {
            let _ = put_write_fault(err);
            Status::SinkFault
        }
    }
}
