use nim_io::{
    HostFiles, HostSink, LoadFault, MemFiles, MemSink, Sink, WriteFault, read_all, write_all,
};
use std::alloc::{AllocError, Global};
use std::test::Fail;

/// Names of files with their texts.
const FILES: &[(&str, &str)] = &[
    ("empty", ""),
    ("two", "ab"),
    ("three", "abc"),
    ("two", "xyz"),
];

/// A name, the most bytes that are wanted, and what is loaded, as its length.
const LOADS: &[(&str, u16, Result<usize, LoadFault>)] = &[
    ("empty", 0, Ok(0)),
    ("two", 2, Ok(2)),
    ("two", 1, Err(LoadFault::TooLong)),
    ("three", 2, Err(LoadFault::TooLong)),
    ("none", 2, Err(LoadFault::Open)),
];

fn files(alloc: Global) -> Result<MemFiles, AllocError> {
    let mut files = Vec::new(alloc);
    for (name, text) in FILES {
        let name = String::from_str(alloc, *name)?;
        files.push((name, text.as_bytes().to_vec(alloc)?))?;
    }
    Ok(MemFiles::new(files, Vec::new(alloc)))
}

fn loaded(alloc: Global, files: &mut MemFiles, name: &str, most: u16) -> Result<usize, LoadFault> {
    let bytes = read_all(alloc, files, name, usize::from(most))?;
    Ok(bytes.len())
}

#[test]
fn files_are_loaded_up_to_the_most_bytes(rt: HostRuntime) -> Result<(), Fail> {
    let mut files = files(rt.alloc())?;
    for (name, most, want) in LOADS {
        assert_eq!(rt; loaded(rt.alloc(), &mut files, *name, *most), *want);
    }
    Ok(())
}

#[test]
fn a_sink_that_takes_nothing_takes_an_empty_piece(rt: HostRuntime) -> Result<(), Fail> {
    let mut sink = MemSink::new(rt.alloc(), 0, Vec::new(rt.alloc()));
    assert_eq!(rt; sink.write(b"a"), Ok(0));
    assert_eq!(rt; write_all(&mut sink, b"a"), Err(WriteFault));
    assert_eq!(rt; write_all(&mut sink, b""), Ok(()));
    Ok(())
}

#[test]
fn files_of_the_system_are_loaded(rt: HostRuntime) -> Result<(), Fail> {
    let alloc = rt.alloc();
    let mut files = HostFiles::new(rt);
    let status = read_all(alloc, &mut files, "/proc/self/status", 1_000_000)?;
    assert!(rt; status.starts_with(b"Name:"));
    assert!(rt; read_all(alloc, &mut files, "/dev/null", 0)?.is_empty());
    let endless = read_all(alloc, &mut files, "/dev/zero", 100_000);
    assert!(rt; matches!(endless, Err(LoadFault::TooLong)));
    for name in ["/no/such/file", ""] {
        assert!(rt; matches!(read_all(alloc, &mut files, name, 9), Err(LoadFault::Open)));
    }
    let folder = read_all(alloc, &mut files, "/", 9);
    assert!(rt; matches!(folder, Err(LoadFault::Open | LoadFault::Read)));
    Ok(())
}

#[test]
fn both_streams_are_written(rt: HostRuntime) -> Result<(), Fail> {
    write_all(&mut HostSink::out(rt.stdout()), b"out\n")?;
    write_all(&mut HostSink::err(rt.stderr()), b"err\n")?;
    Ok(())
}
