ghost use Rattle.std.specs.Prelude.{◌<◌, length};

use super::*;
use lload_names::{Body, Word};
use std::alloc::Global;
use std::test::Fail;

fn read_once<S: Source>(source: &mut S, buf: &mut [u8]) -> Taken
    requires { 0 < length buf.old }
{
    source.read(buf)
}

fn write_once<K: Sink>(sink: &mut K, piece: &[u8]) -> Given {
    sink.write(piece)
}

// The bytes that a read of a file gave, if it gave any.
fn body_read<F: FileReader>(files: &mut F, name: &Word, limit: u32) -> Option<Body> {
    match files.read(name, limit) {
        FileRead::Whole(body) => Some(body),
        FileRead::TooLong | FileRead::Failed | FileRead::NoMemory => None,
    }
}

fn one_file(alloc: Global) -> Result<FileTable, Fail> {
    let mut files = FileTable::new(alloc);
    files.push(NamedFile {
        name: Word::from_text(alloc, "a")?,
        content: Body::from_slice(alloc, b"abc")?,
    })?;
    Ok(files)
}

#[test]
fn a_source_fails_by_its_plan_and_reads_on(rt: HostRuntime) -> Result<(), Fail> {
    let alloc = rt.alloc();
    let content = Body::from_slice(alloc, b"abc")?;
    let failing = Body::from_slice(alloc, &[0, 1])?;
    let mut source = MemSource::new(content, failing)?;
    let mut buf = [0u8; 2];
    assert_eq!(rt; read_once(&mut source, &mut buf), Taken::Got(2));
    assert_eq!(rt; buf.as_slice(), b"ab".as_slice());
    assert_eq!(rt; read_once(&mut source, &mut buf), Taken::Failed);
    assert_eq!(rt; read_once(&mut source, &mut buf), Taken::Got(1));
    assert_eq!(rt; buf[0], b'c');
    assert_eq!(rt; read_once(&mut source, &mut buf), Taken::End);
    Ok(())
}

#[test]
fn a_quiet_source_gives_its_bytes(rt: HostRuntime) -> Result<(), Fail> {
    let mut source = QuietSource::new(Body::from_slice(rt.alloc(), b"abc")?)?;
    let mut buf = [0u8; 4];
    assert_eq!(rt; read_once(&mut source, &mut buf), Taken::Got(3));
    assert_eq!(rt; buf.as_slice(), b"abc\0".as_slice());
    assert_eq!(rt; read_once(&mut source, &mut buf), Taken::End);
    Ok(())
}

#[test]
fn sinks_keep_what_they_took(rt: HostRuntime) -> Result<(), Fail> {
    let alloc = rt.alloc();
    let mut sink = MemSink::new(alloc, Body::from_slice(alloc, &[0, 1])?)?;
    assert_eq!(rt; write_once(&mut sink, b"ab"), Given::Put(2));
    assert_eq!(rt; write_once(&mut sink, b"cd"), Given::Failed);
    assert_eq!(rt; write_once(&mut sink, b"e"), Given::Put(1));
    assert_eq!(rt; sink.written(), b"abe".as_slice());
    let mut quiet = QuietSink::new(alloc)?;
    assert_eq!(rt; write_once(&mut quiet, b"ab"), Given::Put(2));
    assert_eq!(rt; quiet.written(), b"ab".as_slice());
    Ok(())
}

#[test]
fn files_fail_by_their_plan(rt: HostRuntime) -> Result<(), Fail> {
    let alloc = rt.alloc();
    let name = Word::from_text(alloc, "a")?;
    let failing = Body::from_slice(alloc, &[0, 1])?;
    let mut files = MemFiles::new(alloc, one_file(alloc)?, failing)?;
    let whole = body_read(&mut files, &name, 3).ok_or("nothing read")?;
    assert_eq!(rt; whole.as_slice(), b"abc".as_slice());
    assert!(rt; body_read(&mut files, &name, 3).is_none());
    Ok(())
}

#[test]
fn quiet_files_give_their_bytes_within_a_limit(rt: HostRuntime) -> Result<(), Fail> {
    let alloc = rt.alloc();
    let name = Word::from_text(alloc, "a")?;
    let mut files = QuietFiles::new(alloc, one_file(alloc)?)?;
    let whole = body_read(&mut files, &name, 3).ok_or("nothing read")?;
    assert_eq!(rt; whole.as_slice(), b"abc".as_slice());
    assert!(rt; body_read(&mut files, &name, 2).is_none());
    Ok(())
}
