// A call over any files and sinks, as the programs have one: its answers have their causes whatever the devices are.
ghost use Rattle.std.specs.Prelude.{◌≡◌, ◌⊎◌, ◌+◌, ◌≤◌, length};
ghost use Rattle.sv_source.specs.Faults.{Rose, NoFault};
ghost use Rattle.sv_source.specs.Putting.{appended};
ghost use Rattle.sv_source.specs.Message.{read_fault_line};
ghost use Rattle.sv_source_tests.specs.Copying.{Copies};

use std::alloc::Global;
use std::test::Fail;
use sv_source::{
    Entries, Files, Loaded, MemoryFiles, MemorySink, Put, Sink, SureSink, put_all, put_read_fault,
    put_write_fault,
};

#[derive(Clone, Copy, PartialEq, Eq, Debug)]
enum Status {
    Done,
    Absent,
    Memory,
    FileFault,
    SinkFault,
}

// Copies a file to `out`, and says on `err` why not.
fn copy_file<F: Files, O: Sink, E: Sink>(
    alloc: Global,
    path: &[u8],
    files: &mut F,
    out: &mut O,
    err: &mut E,
) -> Status
    ensures done { result ≡ Status.Done → Copies (F.contents files.old) path.now (O.written out.old) (O.written out.new) }
    ensures absent { result ≡ Status.Absent → O.written out.new ≡ O.written out.old }
    ensures file_fault { result ≡ Status.FileFault → Rose (F.faults files.old) (F.faults files.new) }
    ensures quiet { NoFault (F.faults files.old) (F.faults files.new) → result ≡ Status.FileFault → ⊥ }
    ensures named { result ≡ Status.FileFault → E.written err.new ≡ appended (E.written err.old) (read_fault_line path.now) }
    ensures sink_fault { result ≡ Status.SinkFault → Rose (O.faults out.old) (O.faults out.new) ⊎ Rose (E.faults err.old) (E.faults err.new) }
    ensures sure { 65536 ≤ O.spare out.old → length path.now + 13 ≤ E.spare err.old → result ≡ Status.SinkFault → ⊥ }
{
    let text = match files.load(alloc, path, 65536) {
        Loaded::Bytes(text) => text,
        Loaded::Absent | Loaded::TooLong => return Status::Absent,
        Loaded::Memory => return Status::Memory,
        Loaded::Failed => {
            return match put_read_fault(err, path) {
                Put::Ok => Status::FileFault,
                Put::Failed => Status::SinkFault,
            };
        }
    };
    match put_all(out, text.as_bytes()) {
        Put::Ok => Status::Done,
        Put::Failed => {
            let _ = put_write_fault(err);
            Status::SinkFault
        }
    }
}

#[test]
fn answers_have_their_causes(rt: HostRuntime) -> Result<(), Fail> {
    let alloc = rt.alloc();
    for (fail, room, want, line) in [
        (1, 9, Status::FileFault, b"read fault: a\n".as_slice()),
        (2, 9, Status::Absent, b""),
    ] {
        let fail = [fail].to_vec(alloc)?;
        let mut files = MemoryFiles::new(Entries::new(alloc), fail);
        let mut out = MemorySink::new(alloc, room, Vec::new(alloc))?;
        let mut err = SureSink::new(alloc, 99)?;
        let status = copy_file(alloc, b"a", &mut files, &mut out, &mut err);
        assert_eq!(rt; status, want);
        assert_eq!(rt; err.bytes(), line);
    }
    Ok(())
}
