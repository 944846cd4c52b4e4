use crate::top::top;
use fw_shelf::{MemShelf, MemSink};
use fw_types::OutOfMemory;
use std::alloc::{AllocError, Global};
use std::test::Fail;

/// The smallest driver: MOVIqw R7, 0 and RET.
pub const SMALLEST: &[u8] = b"\x77\x37\x00\x00\x04\x00";

/// What `run s` writes if the script loads the smallest driver.
const SMALLEST_REPORT: &str =
    "> load a.efi\n1 0 entry 3 0 0 SUCCESS\nimage 1 handle 3\n= SUCCESS 82\n";

/// Puts bytes at a place.
pub fn put(bytes: &mut Vec<u8>, at: usize, field: &[u8]) {
    for (slot, byte) in bytes.iter_mut().skip(at).zip(field) {
        *slot = *byte;
    }
}

/// The image file of some code, entered at its first byte: headers of 512 bytes, and one section
/// with the code (PE/COFF: File Headers, Optional Header, Section Table).
pub fn image(alloc: Global, code: &[u8]) -> Result<Vec<u8>, AllocError> {
    let size = code.len().min(0xff_fe00);
    let room = size.div_ceil(512) * 512;
    let mut file = vec![in alloc; 0u8; 512 + room]?;
    put(&mut file, 0x00, b"MZ");
    put(&mut file, 0x3c, &[0x40]);
    put(&mut file, 0x40, b"PE");
    put(&mut file, 0x44, &[0xbc, 0x0e, 1]);
    put(&mut file, 0x54, &[160, 0, 0x0e]);
    put(&mut file, 0x58, &[0x0b, 0x02]);
    put(&mut file, 0x68, &[0x00, 0x02]);
    put(&mut file, 0x79, &[0x02, 0, 0, 0, 0x02]);
    put(&mut file, 0x90, &(512 + room as u32).to_le_bytes());
    put(&mut file, 0x95, &[0x02]);
    put(&mut file, 0x9c, &[11]);
    put(&mut file, 0xc4, &[6]);
    put(&mut file, 0xf8, b".text");
    put(&mut file, 0x100, &(size as u32).to_le_bytes());
    put(&mut file, 0x105, &[0x02]);
    put(&mut file, 0x108, &(room as u32).to_le_bytes());
    put(&mut file, 0x10d, &[0x02]);
    put(&mut file, 512, code);
    Ok(file)
}

/// A shelf with a script `s` and the smallest driver's image `a.efi`. Some of its reads fail.
fn shelf_of(alloc: Global, script: &[u8], failing: &[u64]) -> Result<MemShelf, AllocError> {
    let script = (
        String::from_str(alloc, "s")?,
        Vec::from_slice(alloc, script)?,
    );
    let image = (String::from_str(alloc, "a.efi")?, image(alloc, SMALLEST)?);
    let files = vec![in alloc; script, image]?;
    Ok(MemShelf::new(files, Vec::from_slice(alloc, failing)?))
}

/// The words `run` and a name.
pub fn run_words(alloc: Global, name: &str) -> Result<Vec<String>, AllocError> {
    let run = String::from_str(alloc, "run")?;
    let name = String::from_str(alloc, name)?;
    Ok(vec![in alloc; run, name]?)
}

/// The same piece, repeated `count` times.
pub fn repeated(alloc: Global, piece: &[u8], count: usize) -> Result<Vec<u8>, AllocError> {
    let mut bytes = Vec::new(alloc);
    for _ in 0..count {
        bytes.extend_from_slice(piece)?;
    }
    Ok(bytes)
}

#[test]
fn a_script_of_100_000_commands_is_replayed(rt: HostRuntime) -> Result<(), Fail> {
    let alloc = rt.alloc();
    let script = repeated(alloc, b"load x\n", 100_000)?;
    let report = repeated(alloc, b"> load x\n= NOT_FOUND 0\n", 100_000)?;
    let mut shelf = shelf_of(alloc, script.as_slice(), &[])?;
    let mut sink = MemSink::new(alloc, 2_300_000, 2_300_000, Vec::new(alloc))?;
    let words = run_words(alloc, "s")?;
    assert_eq!(rt; top(alloc, &words, &mut shelf, &mut sink), 0);
    assert!(rt; sink.taken() == report.as_slice());
    Ok(())
}

/// What `top` answers and writes for words, over a script of some bytes.
fn answered(alloc: Global, texts: &[&str], script: &[u8]) -> Result<(u8, MemSink), OutOfMemory> {
    let mut shelf = shelf_of(alloc, script, &[])?;
    let mut sink = MemSink::new(alloc, 1000, 100, Vec::new(alloc))?;
    let mut words = Vec::new(alloc);
    for text in texts {
        words.push(String::from_str(alloc, text)?)?;
    }
    let status = top(alloc, &words, &mut shelf, &mut sink);
    Ok((status, sink))
}

#[test]
fn words_are_answered(rt: HostRuntime) -> Result<(), Fail> {
    let usage = "usage: run SCRIPT, check SCRIPT, selftest N, disasm IMAGE\n";
    // The words, and the status with its text.
    let cases: [(&[&str], u8, &str); 6] = [
        (&[], 1, usage),
        (&["run"], 1, usage),
        (&["run", "s", "s"], 1, usage),
        (&["Run", "s"], 1, usage),
        (&["selftest"], 1, usage),
        (&["run", "x"], 6, "no such file\n"),
    ];
    for (texts, want, line) in cases {
        let (status, sink) = answered(rt.alloc(), texts, b"")?;
        assert_eq!(rt; status, want, "at {line}");
        assert_eq!(rt; sink.taken(), line.as_bytes());
    }
    Ok(())
}

/// A script with each command.
const EACH_COMMAND: &str = "load a.efi\nload none.efi\nconnect 3 one end\n\
    disconnect 3 0 0\nunload 3\nplatform 3 2 3\nbudget 1000 64\ndump\n";

/// Its report: the image installs no driver binding, so only the PCI bus driver is asked.
const EACH_COMMAND_REPORT: &str =
    "> load a.efi\n1 0 entry 3 0 0 SUCCESS\nimage 1 handle 3\n= SUCCESS 82\n\
    > load none.efi\n= NOT_FOUND 0\n\
    > connect 3 one end\n1 0 connect 0 3 0 SUCCESS\n2 1 supported 2 3 0 UNSUPPORTED\n\
    = SUCCESS 128\n\
    > disconnect 3 0 0\n1 0 disconnect 0 3 0 SUCCESS\n= SUCCESS 64\n\
    > unload 3\n= UNSUPPORTED 0\n\
    > platform 3 2 3\n= SUCCESS 0\n> budget 1000 64\n= SUCCESS 0\n\
    > dump\nhandle 1\nproto 5b1b31a1-9562-11d2-8e3f-00a0c969723b 0x14000 1\n\
    handle 2\nproto 18a031ab-b443-4d1a-a5c0-0c09261e9f71 0x13000 1\n\
    handle 3\nproto 5b1b31a1-9562-11d2-8e3f-00a0c969723b 0x100000000 1\n= SUCCESS 0\n";

#[test]
fn scripts_are_replayed_or_refused(rt: HostRuntime) -> Result<(), Fail> {
    // A script, and the status with its text.
    let cases: [(&str, u8, &str); 9] = [
        ("", 0, ""),
        (EACH_COMMAND, 0, EACH_COMMAND_REPORT),
        ("load a.efi\nload a\u{7f}\n", 2, "script 2 NotAscii\n"),
        ("unload 3 4", 2, "script 1 Extra\n"),
        ("\n\nfly\nload", 2, "script 3 UnknownWord\n"),
        ("load", 2, "script 1 Missing\n"),
        ("dump 3", 2, "script 1 Extra\n"),
        ("budget 0 64", 2, "script 1 Number\n"),
        ("disconnect x 0 0", 2, "script 1 Number\n"),
    ];
    for (script, want, text) in cases {
        let (status, sink) = answered(rt.alloc(), &["run", "s"], script.as_bytes())?;
        assert_eq!(rt; status, want, "at {text}");
        assert_eq!(rt; sink.taken(), text.as_bytes(), "at {text}");
    }
    Ok(())
}

#[test]
fn a_script_over_16_mib_is_too_long(rt: HostRuntime) -> Result<(), Fail> {
    let alloc = rt.alloc();
    let script: Vec<u8> = vec![in alloc; b'\n'; 16_777_217]?;
    let (status, sink) = answered(alloc, &["run", "s"], script.as_slice())?;
    assert_eq!(rt; status, 7);
    assert_eq!(rt; sink.taken(), b"file too long\n".as_slice());
    Ok(())
}

#[test]
fn a_failing_sink_has_taken_a_prefix(rt: HostRuntime) -> Result<(), Fail> {
    let alloc = rt.alloc();
    let words = run_words(alloc, "s")?;
    for write in 1..69u64 {
        let mut shelf = shelf_of(alloc, b"load a.efi", &[])?;
        let mut sink = MemSink::new(alloc, 100, 1, Vec::from_slice(alloc, &[write])?)?;
        let status = top(alloc, &words, &mut shelf, &mut sink);
        let taken = write as usize - 1;
        assert!(rt; taken <= SMALLEST_REPORT.len());
        assert_eq!(rt; status, if write < 68 { 4 } else { 0 }, "at {write}");
        assert_eq!(rt; sink.taken(), &SMALLEST_REPORT.as_bytes()[..taken]);
    }
    let mut shelf = shelf_of(alloc, b"load a.efi", &[])?;
    let mut sink = MemSink::new(alloc, 100, 5, Vec::from_slice(alloc, &[2])?)?;
    assert_eq!(rt; top(alloc, &words, &mut shelf, &mut sink), 4);
    assert_eq!(rt; sink.taken(), b"> loa".as_slice());
    Ok(())
}

#[test]
fn a_failing_shelf_ends_the_text_before_a_load(rt: HostRuntime) -> Result<(), Fail> {
    let alloc = rt.alloc();
    let words = run_words(alloc, "s")?;
    // The read that fails, and how many bytes were written by then: whole texts of 67 bytes.
    let cases: [(u64, usize); 5] = [(1, 0), (2, 0), (3, 67), (4, 134), (5, 201)];
    for (read, taken) in cases {
        let script = b"load a.efi\nload a.efi\nload a.efi";
        let mut shelf = shelf_of(alloc, script, &[read])?;
        let mut sink = MemSink::new(alloc, 1000, 1000, Vec::new(alloc))?;
        let status = top(alloc, &words, &mut shelf, &mut sink);
        assert_eq!(rt; status, if read < 5 { 3 } else { 0 }, "at {read}");
        assert_eq!(rt; sink.taken().len(), taken, "at {read}");
        if taken == 67 {
            assert_eq!(rt; sink.taken(), SMALLEST_REPORT.as_bytes());
        }
    }
    Ok(())
}
