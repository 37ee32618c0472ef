// The files and streams of the system.
use std::fs;
use std::test::Fail;
use sv_source::{Files, Loaded, Put, RealFiles, RealSink, Sink};

#[test]
fn real_files_are_read(rt: HostRuntime) -> Result<(), Fail> {
    let alloc = rt.alloc();
    let bytes = vec![in alloc; b'm'; 9000]?;
    fs::write(&rt, "long.sv", &bytes)?;
    let mut files = RealFiles::new(&rt);
    let whole = files.load(alloc, b"long.sv", 9000);
    assert!(rt; matches!(&whole, Loaded::Bytes(text) if text.as_bytes() == bytes.as_slice()));
    assert!(rt; matches!(&files.load(alloc, b"long.sv", 8999), Loaded::TooLong));
    assert!(rt; matches!(&files.load(alloc, b"absent.sv", 10), Loaded::Absent));
    assert!(rt; matches!(&files.load(alloc, b"\xff.sv", 10), Loaded::Absent));
    fs::create_dir(&rt, "folder")?;
    assert!(rt; matches!(&files.load(alloc, b"folder", 10), Loaded::Failed));
    Ok(())
}

#[test]
fn a_real_sink_writes(rt: HostRuntime) -> Result<(), Fail> {
    let alloc = rt.alloc();
    let mut sink = RealSink::new(fs::create(&rt, "out.v")?);
    assert_eq!(rt; sink.put(b"module m;\n"), Put::Ok);
    assert_eq!(rt; sink.put(b""), Put::Ok);
    assert_eq!(rt; sink.put(b"endmodule\n"), Put::Ok);
    let text = fs::read_to_string(&rt, "out.v")?;
    assert_eq!(rt; text.as_str(), "module m;\nendmodule\n");
    let mut closed = RealSink::new(fs::open(&rt, "out.v")?);
    assert_eq!(rt; closed.put(b"x"), Put::Failed);
    let mut out = RealSink::new(rt.stdout());
    assert_eq!(rt; out.put(b"written\n"), Put::Ok);
    Ok(())
}
