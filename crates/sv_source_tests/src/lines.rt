// The lines on the error stream.
use std::alloc::{AllocError, Global};
use std::test::Fail;
use sv_source::{
    MemorySink, Place, Put, Refusal, SureSink, Text, put_eval_usage, put_out_of_memory,
    put_read_fault, put_refusal, put_unsettled, put_usage, put_write_fault,
};

fn refusal(alloc: Global) -> Result<Refusal, AllocError> {
    Ok(Refusal {
        rule: 302,
        place: Place {
            file: 0,
            line: 1,
            col: 38,
        },
        word: Text::from_bytes(alloc, b"pos")?,
    })
}

#[test]
fn prints_a_refusal(rt: HostRuntime) -> Result<(), Fail> {
    let alloc = rt.alloc();
    let mut sink = SureSink::new(alloc, 100)?;
    assert_eq!(rt; put_refusal(&mut sink, b"t.sv", &refusal(alloc)?), Put::Ok);
    assert_eq!(rt; sink.bytes(), b"t.sv:1:38: E302 pos\n".as_slice());
    Ok(())
}

#[test]
fn a_full_stream_holds_a_front(rt: HostRuntime) -> Result<(), Fail> {
    let alloc = rt.alloc();
    for (room, want) in [
        (0, b"".as_slice()),
        (3, b"t.s"),
        (4, b"t.sv"),
        (9, b"t.sv:1:38"),
        (19, b"t.sv:1:38: E302 pos"),
    ] {
        let mut sink = MemorySink::new(alloc, room, Vec::new(alloc))?;
        let put = put_refusal(&mut sink, b"t.sv", &refusal(alloc)?);
        assert_eq!(rt; put, Put::Failed, "at {room}");
        assert_eq!(rt; sink.bytes(), want, "at {room}");
    }
    Ok(())
}

#[test]
fn prints_the_other_lines(rt: HostRuntime) -> Result<(), Fail> {
    let alloc = rt.alloc();
    let mut sink = SureSink::new(alloc, 400)?;
    assert_eq!(rt; put_usage(&mut sink), Put::Ok);
    assert_eq!(rt; put_eval_usage(&mut sink), Put::Ok);
    assert_eq!(rt; put_out_of_memory(&mut sink), Put::Ok);
    assert_eq!(rt; put_read_fault(&mut sink, b"and.sv"), Put::Ok);
    assert_eq!(rt; put_write_fault(&mut sink), Put::Ok);
    assert_eq!(rt; put_unsettled(&mut sink, 1, b"y"), Put::Ok);
    let want = b"usage: sv2v [-I DIR] [-D NAME[=TEXT]] --top=NAME FILE...
usage: sv2v_eval --lang sv|v --top NAME ROWS FILE... | --gen N
out of memory
read fault: and.sv
write fault
row 1: y unsettled
";
    assert_eq!(rt; sink.bytes(), want.as_slice());
    Ok(())
}
