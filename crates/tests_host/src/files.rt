//! Files as sources and sinks, on a disk whose calls fail and on a real one, and sources and sinks that never fail.
use crate::disk::{Call, Disk, OpenCalls};
use std::fs;
use std::io::ErrorKind;
use std::test::Fail;
use tool_host::{FileSink, FileSource, StdoutSink, SystemFiles};
use wire_base::{Failed, Octets, QuietSink, QuietSource, Sink, Source};

/// What a file at that path is read from, or written to.
const READ: Disk = Disk {
    path: "domain.toml",
    written: false,
    calls: &[
        Call::Moves(b"ab"),
        Call::Fails(ErrorKind::Interrupted),
        Call::Moves(b"c"),
        Call::Fails(ErrorKind::Other),
        Call::Moves(b""),
    ],
};

const WRITTEN: Disk = Disk {
    path: "frames.pcap",
    written: true,
    calls: &[
        Call::Moves(b"ab"),
        Call::Fails(ErrorKind::StorageFull),
        Call::Moves(b""),
        Call::Fails(ErrorKind::Interrupted),
        Call::Flushes,
    ],
};

/// A read is an error exactly where the file's is, interrupted or not, and the end exactly where nothing was read.
#[test]
fn reads_fail_as_the_file_does(rt: HostRuntime) -> Result<(), Fail> {
    let mut source = FileSource::new(&READ, "domain.toml");
    let mut into = [0; 4];
    assert_eq!(rt; source.read(&mut into), Ok(2));
    assert_eq!(rt; &into[..2], b"ab".as_slice());
    assert_eq!(rt; source.read(&mut into), Err(Failed));
    assert_eq!(rt; source.read(&mut into), Ok(1));
    assert_eq!(rt; &into[..1], b"c".as_slice());
    assert_eq!(rt; source.read(&mut into), Err(Failed));
    assert_eq!(rt; source.read(&mut into), Ok(0));
    let mut absent = FileSource::new(&READ, "other");
    assert_eq!(rt; absent.read(&mut into), Err(Failed));
    let mut written = FileSource::new(&WRITTEN, "frames.pcap");
    assert_eq!(rt; written.read(&mut into), Err(Failed));
    Ok(())
}

/// A write and a finish fail exactly where the file's write and flush do. A finish with nothing written opens no file.
#[test]
fn writes_fail_as_the_file_does(rt: HostRuntime) -> Result<(), Fail> {
    let mut sink = FileSink::new(&WRITTEN, "frames.pcap");
    assert_eq!(rt; sink.finish(), Ok(()));
    assert_eq!(rt; sink.write(b"abc"), Ok(2));
    assert_eq!(rt; sink.write(b"c"), Err(Failed));
    assert_eq!(rt; sink.write(b"c"), Ok(0));
    assert_eq!(rt; sink.finish(), Err(Failed));
    assert_eq!(rt; sink.finish(), Ok(()));
    let mut elsewhere = FileSink::new(&WRITTEN, "schedule.txt");
    assert_eq!(rt; elsewhere.write(b"ab"), Err(Failed));
    let mut read = FileSink::new(&READ, "domain.toml");
    assert_eq!(rt; read.write(b"ab"), Err(Failed));
    Ok(())
}

/// What a writer receives as standard output is what the sink received, as far as the writer accepts it, and a finish
/// flushes it.
#[test]
fn a_writer_takes_two_of_five_octets(rt: HostRuntime) -> Result<(), Fail> {
    let mut sink = StdoutSink::new(OpenCalls::new(&[
        Call::Moves(b"ab"),
        Call::Moves(b"cde"),
        Call::Flushes,
        Call::Fails(ErrorKind::BrokenPipe),
        Call::Fails(ErrorKind::StorageFull),
    ]));
    assert_eq!(rt; sink.write(b"abcde"), Ok(2));
    assert_eq!(rt; sink.write(b"cde"), Ok(3));
    assert_eq!(rt; sink.finish(), Ok(()));
    assert_eq!(rt; sink.write(b"f"), Err(Failed));
    assert_eq!(rt; sink.finish(), Err(Failed));
    Ok(())
}

/// For a file that does not exist each read fails. One that exists is truncated, written, and read back to its end.
#[test]
fn a_file_written_and_read_back(rt: HostRuntime) -> Result<(), Fail> {
    let path = "bier_domain.test";
    let files = SystemFiles::new(&rt);
    let mut into = [0; 8];
    assert!(rt;
        FileSource::new(&files, "no/such/file")
            .read(&mut into)
            .is_err()
    );
    fs::write(&rt, path, "what stood there before")?;
    let mut sink = FileSink::new(&files, path);
    assert_eq!(rt; sink.write(b"bsl 64\n"), Ok(7));
    assert_eq!(rt; sink.finish(), Ok(()));
    let mut source = FileSource::new(&files, path);
    assert_eq!(rt; source.read(&mut into), Ok(7));
    assert_eq!(rt; &into[..7], b"bsl 64\n".as_slice());
    assert_eq!(rt; source.read(&mut into), Ok(0));
    fs::remove_file(&rt, path)?;
    Ok(())
}

/// A sink that never fails accepts what a source that never fails returns, as far as the sink has room.
#[test]
fn quiet_objects_pass_octets_on(rt: HostRuntime) -> Result<(), Fail> {
    let mut source = QuietSource::new(Octets::from_slice(rt.alloc(), b"abcde")?);
    let mut sink = QuietSink::new(rt.alloc(), 4)?;
    let mut into = [0; 3];
    assert_eq!(rt; source.read(&mut into), Ok(3));
    assert_eq!(rt; sink.write(&into), Ok(3));
    assert_eq!(rt; source.read(&mut into), Ok(2));
    assert_eq!(rt; sink.write(&into[..2]), Ok(1));
    assert_eq!(rt; sink.finish(), Ok(()));
    assert_eq!(rt; sink.as_slice(), b"abcd".as_slice());
    Ok(())
}
