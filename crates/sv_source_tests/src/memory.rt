// Files and sinks in memory.
use std::alloc::{AllocError, Global};
use std::test::Fail;
use sv_source::{
    Entries, Entry, Files, Loaded, MemoryFiles, MemorySink, Put, Sink, SureFiles, SureSink, Text,
    put_all, put_number, put_parts,
};

fn entries(alloc: Global, files: &[(&[u8], &[u8])]) -> Result<Entries, AllocError> {
    let mut entries = Entries::new(alloc);
    for (path, bytes) in files {
        entries.push(Entry {
            path: Text::from_bytes(alloc, path)?,
            bytes: Text::from_bytes(alloc, bytes)?,
        })?;
    }
    Ok(entries)
}

// What a load answered, as one value to compare.
#[derive(Clone, Copy, PartialEq, Eq, Debug)]
enum Answer<'a> {
    Bytes(&'a [u8]),
    Absent,
    TooLong,
    Failed,
    Memory,
}

fn seen(loaded: &Loaded) -> Answer<'_> {
    match loaded {
        Loaded::Bytes(text) => Answer::Bytes(text.as_bytes()),
        Loaded::Absent => Answer::Absent,
        Loaded::TooLong => Answer::TooLong,
        Loaded::Failed => Answer::Failed,
        Loaded::Memory => Answer::Memory,
    }
}

fn load<F: Files>(files: &mut F, alloc: Global, path: &[u8]) -> Loaded {
    files.load(alloc, path, 3)
}

#[test]
fn memory_files_answer(rt: HostRuntime) -> Result<(), Fail> {
    let alloc = rt.alloc();
    let held = [
        (b"a".as_slice(), b"one".as_slice()),
        (b"b", b"four"),
        (b"a", b"two"),
        (b"c", b""),
    ];
    let fail = [3u64, 9].to_vec(alloc)?;
    let mut files = MemoryFiles::new(entries(alloc, &held)?, fail);
    for (number, path, want) in [
        (1, b"a".as_slice(), Answer::Bytes(b"two")),
        (2, b"b", Answer::TooLong),
        (3, b"a", Answer::Failed),
        (4, b"c", Answer::Bytes(b"")),
        (5, b"d", Answer::Absent),
        (6, b"", Answer::Absent),
    ] {
        let loaded = load(&mut files, alloc, path);
        assert_eq!(rt; seen(&loaded), want, "at load {number}");
    }
    Ok(())
}

#[test]
fn sure_files_answer(rt: HostRuntime) -> Result<(), Fail> {
    let alloc = rt.alloc();
    let held = [(b"a".as_slice(), b"one".as_slice()), (b"b", b"four")];
    let mut files = SureFiles::new(entries(alloc, &held)?);
    for (path, want) in [
        (b"a".as_slice(), Answer::Bytes(b"one")),
        (b"b", Answer::TooLong),
        (b"c", Answer::Absent),
    ] {
        let loaded = load(&mut files, alloc, path);
        assert_eq!(rt; seen(&loaded), want);
    }
    Ok(())
}

#[test]
fn memory_sink_fails_where_numbered_or_full(rt: HostRuntime) -> Result<(), Fail> {
    let alloc = rt.alloc();
    let fail = [2u64].to_vec(alloc)?;
    let mut sink = MemorySink::new(alloc, 6, fail)?;
    for (piece, want, bytes) in [
        (b"ab".as_slice(), Put::Ok, b"ab".as_slice()),
        (b"", Put::Ok, b"ab"),
        (b"cd", Put::Failed, b"ab"),
        (b"ef", Put::Ok, b"abef"),
        (b"ghi", Put::Failed, b"abefgh"),
        (b"", Put::Ok, b"abefgh"),
        (b"j", Put::Failed, b"abefgh"),
    ] {
        assert_eq!(rt; sink.put(piece), want, "at {piece:?}");
        assert_eq!(rt; sink.bytes(), bytes);
    }
    Ok(())
}

#[test]
fn sure_sink_takes_its_room(rt: HostRuntime) -> Result<(), Fail> {
    let alloc = rt.alloc();
    let mut sink = SureSink::new(alloc, 3)?;
    assert_eq!(rt; sink.put(b"ab"), Put::Ok);
    assert_eq!(rt; sink.put(b"cd"), Put::Failed);
    assert_eq!(rt; sink.bytes(), b"abc".as_slice());
    let mut none = SureSink::new(alloc, 0)?;
    assert_eq!(rt; none.put(b""), Put::Ok);
    assert_eq!(rt; none.put(b"a"), Put::Failed);
    assert!(rt; none.bytes().is_empty());
    Ok(())
}

#[test]
fn puts_pieces_of_512_bytes(rt: HostRuntime) -> Result<(), Fail> {
    let alloc = rt.alloc();
    let text = vec![in alloc; b'x'; 1100]?;
    for (number, want) in [(1, 0), (2, 512), (3, 1024), (4, 1100)] {
        let fail = [number].to_vec(alloc)?;
        let mut sink = MemorySink::new(alloc, 2000, fail)?;
        let put = put_all(&mut sink, &text);
        assert_eq!(rt; put == Put::Failed, number < 4, "at put {number}");
        assert_eq!(rt; sink.bytes().len(), want, "at put {number}");
    }
    let mut sink = SureSink::new(alloc, 1100)?;
    assert_eq!(rt; put_all(&mut sink, &text), Put::Ok);
    assert_eq!(rt; sink.bytes(), text.as_slice());
    Ok(())
}

#[test]
fn puts_parts_and_numbers(rt: HostRuntime) -> Result<(), Fail> {
    let alloc = rt.alloc();
    let mut sink = SureSink::new(alloc, 64)?;
    assert_eq!(rt; put_parts(&mut sink, &[b"a", b"", b"bc"]), Put::Ok);
    for number in [0, 7, 10, 18_446_744_073_709_551_615] {
        assert_eq!(rt; put_number(&mut sink, number), Put::Ok);
    }
    assert_eq!(rt; sink.bytes(), b"abc071018446744073709551615".as_slice());
    Ok(())
}
