// The files and the output of the system, those in memory that fail by a list of numbers, and a sink with its room.
use pv_script::{
    CalmSink, DiskFiles, Failed, Files, MemFiles, MemSink, Printed, ReadError, Sink, read_all,
    write_all,
};
use std::io;
use std::process::Abort;

#[test]
fn a_calm_sink_keeps_its_room(rt: HostRuntime) {
    let mut sink = CalmSink::new(rt.alloc(), 3).expect(&rt, "no memory");
    assert!(rt; sink.write(b"ab").expect(&rt, "write") == 2);
    assert!(rt; sink.write(b"cd").expect(&rt, "write") == 2);
    assert!(rt; sink.bytes() == b"abc".as_slice());
}

#[test]
fn real_files_are_read(rt: HostRuntime) {
    std::fs::write(&rt, "a.c", "abc").expect(&rt, "a file");
    let mut files = DiskFiles::new(&rt, rt.alloc());
    let mut into = [0u8; 8];
    assert!(rt; files.read("a.c", 1, &mut into) == Ok(2));
    assert!(rt; into[0] == b'b');
    assert!(rt; files.read("b.c", 0, &mut into) == Err(Failed));
}

// A file that takes the path of another while that is read: what is read goes on in the older one, and a read from the
// beginning sees the newer one.
#[test]
fn a_file_is_read_on(rt: HostRuntime) {
    std::fs::write(&rt, "old.c", "abcd").expect(&rt, "a file");
    std::fs::write(&rt, "new.c", "efgh").expect(&rt, "a file");
    let mut files = DiskFiles::new(&rt, rt.alloc());
    let mut into = [0u8; 2];
    assert!(rt; files.read("old.c", 0, &mut into) == Ok(2));
    std::fs::rename(&rt, "new.c", "old.c").expect(&rt, "a file");
    assert!(rt; files.read("old.c", 2, &mut into) == Ok(2));
    assert!(rt; into[0] == b'c');
    assert!(rt; files.read("old.c", 0, &mut into) == Ok(2));
    assert!(rt; into[0] == b'e');
}

#[test]
fn real_output_is_written(rt: HostRuntime) {
    let mut out = Printed::new(io::writer(&rt));
    assert!(rt; out.write(b"words\n").expect(&rt, "output") == 6);
}

/// A file of six bytes is read up to a limit and one byte more. The third read of all fails.
#[test]
fn a_file_is_read_up_to_a_limit(rt: HostRuntime) {
    let mut files = MemFiles::new(rt.alloc(), &[3]).expect(&rt, "no memory");
    files.put("a.c", b"abcdef").expect(&rt, "no memory");
    let whole = read_all(rt.alloc(), &mut files, "a.c", 10);
    assert!(rt; matches!(&whole, Ok(bytes) if bytes.as_slice() == b"abcdef".as_slice()));
    let failed = read_all(rt.alloc(), &mut files, "a.c", 10);
    assert!(rt; matches!(&failed, Err(ReadError::Fault)));
    let part = read_all(rt.alloc(), &mut files, "a.c", 3);
    assert!(rt; matches!(&part, Ok(bytes) if bytes.as_slice() == b"abcd".as_slice()));
}

/// A sink takes two bytes a write. The fourth write fails.
#[test]
fn all_bytes_are_written_or_some(rt: HostRuntime) {
    let mut sink = MemSink::new(rt.alloc(), 2, &[4]).expect(&rt, "no memory");
    assert!(rt; write_all(&mut sink, b"abcde").is_ok());
    assert!(rt; sink.bytes() == b"abcde".as_slice());
    assert!(rt; write_all(&mut sink, b"fg").is_err());
    assert!(rt; sink.bytes() == b"abcde".as_slice());
}
