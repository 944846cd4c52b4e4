ghost use Rattle.std.specs.Prelude.{◌≡◌, ◌<◌, ℕ, List, [], ◌++◌, length};

use super::*;
use std::alloc::{AllocError, Global};
use std::cell::RefCell;
use std::fmt::Display;
use std::test::Fail;
use std::{fs, io};

/// A shelf with the files `a`, of three bytes, and `b`, which is empty.
fn two_files(alloc: Global, failing_reads: &[u64]) -> Result<MemShelf, AllocError> {
    let a = (
        String::from_str(alloc, "a")?,
        Vec::from_slice(alloc, b"one")?,
    );
    let b = (String::from_str(alloc, "b")?, Vec::new(alloc));
    let files = vec![in alloc; a, b]?;
    Ok(MemShelf::new(files, Vec::from_slice(alloc, failing_reads)?))
}

/// Whether an answer is that there is a file with these bytes, that there is none, or this fault.
fn is_answer(
    answer: &Result<Option<Vec<u8>>, ShelfFault>,
    want: Result<Option<&[u8]>, ShelfFault>,
) -> bool {
    match (answer, want) {
        (Ok(Some(bytes)), Ok(Some(wanted))) => bytes.as_slice() == wanted,
        (Ok(None), Ok(None)) => true,
        (Err(fault), Err(wanted)) => *fault == wanted,
        _ => false,
    }
}

#[test]
fn a_shelf_fails_at_the_listed_reads(rt: HostRuntime) -> Result<(), Fail> {
    let mut shelf = two_files(rt.alloc(), &[2, 4])?;
    let reads: [(&str, Result<Option<&[u8]>, ShelfFault>); 6] = [
        ("a", Ok(Some(b"one"))),
        ("a", Err(ShelfFault::Failed)),
        ("c", Ok(None)),
        ("c", Err(ShelfFault::Failed)),
        ("b", Ok(Some(b""))),
        ("a", Ok(Some(b"one"))),
    ];
    for (name, want) in reads {
        let answer = shelf.read(rt.alloc(), name);
        assert!(rt; is_answer(&answer, want), "at {name}");
    }
    Ok(())
}

#[test]
fn a_whole_piece_goes_out_or_a_prefix_of_it(rt: HostRuntime) -> Result<(), Fail> {
    let alloc = rt.alloc();
    // Room, step and failing writes of a sink; a piece; whether all of it goes out, and what does.
    let cases: [(usize, usize, &[u64], &[u8], bool, &[u8]); 6] = [
        (9, 3, &[], b"abcdefg", true, b"abcdefg"),
        (7, 1, &[8], b"abcdefg", true, b"abcdefg"),
        (9, 3, &[2], b"abcdefg", false, b"abc"),
        (5, 2, &[], b"abcdefg", false, b"abcde"),
        (9, 9, &[1], b"abcdefg", false, b""),
        // An empty piece makes no write, which would fail.
        (0, 1, &[1], b"", true, b""),
    ];
    for (room, step, failing, piece, all, taken) in cases {
        assert!(rt; 0 < step);
        let mut sink = MemSink::new(alloc, room, step, Vec::from_slice(alloc, failing)?)?;
        assert_eq!(rt; write_all(&mut sink, piece).is_ok(), all);
        assert_eq!(rt; sink.taken(), taken);
    }
    Ok(())
}

/// Whether a file comes both times if one name is read twice.
fn comes_twice<S: Shelf>(alloc: Global, shelf: &mut S, name: &str) -> bool
    ensures { S.becomes shelf.old shelf.new }
{
    let first = shelf.read(alloc, name);
    let second = shelf.read(alloc, name);
    matches!(first, Ok(Some(_))) && matches!(second, Ok(Some(_)))
}

/// If no read is to fail, no fault is counted, whatever a generic caller reads.
fn comes_from_memory(alloc: Global, shelf: &mut MemShelf, name: &str) -> bool
    requires { shelf.old.failing_reads ≡ [] }
    ensures { shelf.new.faults ≡ shelf.old.faults }
{
    comes_twice(alloc, shelf, name)
}

/// Whether two pieces both go out.
fn takes_both<K: Sink>(sink: &mut K, first: &[u8], second: &[u8]) -> bool
    ensures { K.becomes sink.old sink.new }
{
    write_all(sink, first).is_ok() && write_all(sink, second).is_ok()
}

/// If no write is to fail, no fault is counted before the sink is full.
fn takes_in_memory(sink: &mut MemSink, first: &[u8], second: &[u8]) -> bool
    requires { sink.old.failing_writes ≡ [] }
    ensures faults { length sink.new.bytes < sink.old.room → sink.new.faults ≡ sink.old.faults }
    ensures step { sink.new.step ≡ sink.old.step }
    ensures grows { (more : List ℕ) × (sink.new.bytes ≡ sink.old.bytes ++ more) }
{
    takes_both(sink, first, second)
}

#[test]
fn no_fault_comes_in_memory_through_a_bound(rt: HostRuntime) -> Result<(), Fail> {
    let alloc = rt.alloc();
    let mut shelf = MemShelf::new(Vec::new(alloc), Vec::new(alloc));
    assert!(rt; !comes_from_memory(alloc, &mut shelf, "a"));
    let mut sink = MemSink::new(alloc, 4, 3, Vec::new(alloc))?;
    assert!(rt; takes_in_memory(&mut sink, b"ab", b"cd"));
    assert_eq!(rt; sink.taken(), b"abcd".as_slice());
    Ok(())
}

/// So many bytes, each of which differs from the one before it.
fn varied(alloc: Global, count: usize) -> Result<Vec<u8>, AllocError> {
    let mut bytes: Vec<u8> = vec![in alloc; 0; count]?;
    for (place, byte) in bytes.iter_mut().enumerate() {
        *byte = (place % 251) as u8;
    }
    Ok(bytes)
}

#[test]
fn a_folder_gives_what_was_written(rt: HostRuntime) -> Result<(), Fail> {
    let alloc = rt.alloc();
    let mut shelf = DirShelf::new(&rt);
    for count in [0, 9, 65_536, 200_000, 16_777_216] {
        fs::write(&rt, "fw_shelf.written", varied(alloc, count)?)?;
        let given = shelf.read(alloc, "fw_shelf.written");
        assert!(rt; matches!(&given, Ok(Some(bytes)) if *bytes == varied(alloc, count)?));
    }
    fs::write(&rt, "fw_shelf.written", varied(alloc, 16_777_217)?)?;
    let longer = shelf.read(alloc, "fw_shelf.written");
    assert!(rt; is_answer(&longer, Err(ShelfFault::TooLong)));
    fs::remove_file(&rt, "fw_shelf.written")?;
    assert!(rt; !comes_twice(alloc, &mut shelf, "fw_shelf.written"));
    let absent = shelf.read(alloc, "fw_shelf.written");
    assert!(rt; is_answer(&absent, Ok(None)));
    // A folder opens as a file does, and then gives no bytes.
    let folder = shelf.read(alloc, ".");
    assert!(rt; is_answer(&folder, Err(ShelfFault::Failed)));
    Ok(())
}

#[test]
fn a_name_of_255_bytes_is_read(rt: HostRuntime) -> Result<(), Fail> {
    let alloc = rt.alloc();
    let mut name = String::new(alloc);
    for _ in 0..51 {
        name.push_str("shelf")?;
    }
    let mut shelf = DirShelf::new(&rt);
    fs::write(&rt, name.as_str(), b"long".as_slice())?;
    let given = shelf.read(alloc, name.as_str());
    fs::remove_file(&rt, name.as_str())?;
    assert!(rt; is_answer(&given, Ok(Some(b"long"))));
    Ok(())
}

/// A standard output that takes at most `step` bytes at a time, and keeps what it takes.
#[derive(Drop)]
struct Kept {
    step: usize,
    bytes: RefCell<Vec<u8>>,
}

impl Kept {
    /// Whether these are all the bytes that came out.
    fn are(&self, bytes: &[u8]) -> bool {
        match self.bytes.try_borrow() {
            Ok(kept) => kept.as_slice() == bytes,
            Err(_) => false,
        }
    }
}

impl Print for Kept {
    fn print<D: Display + Drop>(&self, _value: D) -> io::Result<()> {
        Err(io::Error::from(io::ErrorKind::Unsupported))
    }

    fn println<D: Display + Drop>(&self, _value: D) -> io::Result<()> {
        Err(io::Error::from(io::ErrorKind::Unsupported))
    }

    fn write_all(&self, _bytes: &[u8]) -> io::Result<()> {
        Err(io::Error::from(io::ErrorKind::Unsupported))
    }

    fn write_some(&self, bytes: &[u8]) -> io::Result<usize> {
        let share = bytes.len().min(self.step);
        match self.bytes.try_borrow_mut() {
            Ok(mut kept) => kept.extend_from_slice(&bytes[..share])?,
            Err(_) => return Err(io::Error::from(io::ErrorKind::ResourceBusy)),
        }
        Ok(share)
    }
}

#[test]
fn all_bytes_come_out_in_parts(rt: HostRuntime) -> Result<(), Fail> {
    let alloc = rt.alloc();
    let piece = varied(alloc, 100_000)?;
    for step in [1, 3, 4096, 99_999, 100_000] {
        let out = Kept {
            step,
            bytes: RefCell::new(Vec::new(alloc)),
        };
        let mut sink = OutSink::new(&out);
        assert!(rt; takes_both(&mut sink, piece.as_slice(), b"\xff"));
        let mut all = varied(alloc, 100_000)?;
        all.push(0xff)?;
        assert!(rt; out.are(all.as_slice()), "with {step}");
    }
    Ok(())
}

/// A standard output that is closed.
#[derive(Drop)]
struct Closed;

impl Print for Closed {
    fn print<D: Display + Drop>(&self, _value: D) -> io::Result<()> {
        Err(io::Error::from(io::ErrorKind::BrokenPipe))
    }

    fn println<D: Display + Drop>(&self, _value: D) -> io::Result<()> {
        Err(io::Error::from(io::ErrorKind::BrokenPipe))
    }

    fn write_all(&self, _bytes: &[u8]) -> io::Result<()> {
        Err(io::Error::from(io::ErrorKind::BrokenPipe))
    }
}

#[test]
fn a_closed_output_is_a_failure(rt: HostRuntime) {
    let mut out = OutSink::new(&rt);
    assert!(rt; takes_both(&mut out, b"bytes that need not be text: \xff", b"\n"));
    let mut closed = OutSink::new(Closed);
    assert_eq!(rt; write_all(&mut closed, b"lost"), Err(SinkFailed));
    assert_eq!(rt; write_all(&mut closed, b""), Ok(()));
}
