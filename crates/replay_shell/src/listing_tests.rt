use crate::tests::{SMALLEST, image, put};
use crate::top::top;
use fw_shelf::{MemShelf, MemSink};
use fw_types::OutOfMemory;
use std::alloc::{AllocError, Global};
use std::test::Fail;

/// The driver that calls Stall: it reads the system table at 0x18 above the stack pointer, the boot
/// services there, and calls the service at 0xF8 of them.
const STALL: &[u8] =
    b"\x60\x84\x18\x00\x60\xC4\x60\x00\x35\x05\x83\x2C\xF8\x00\x00\x00\x36\x05\x04\x00";

const STALL_LISTING: &str =
    "00000200 MOVqw R4, @R0[0x0018]\n00000204 MOVqw R4, @R4[0x0060]\n00000208 PUSHn R5\n0000020A CALL32EXa @R4[0x000000F8]\n00000210 POPn R5\n00000212 RET\n";

/// What `top` answers and writes for two words, if the file `f` has these bytes.
pub fn answered(
    alloc: Global,
    verb: &str,
    name: &str,
    file: Vec<u8>,
    failing_reads: &[u64],
    failing_writes: &[u64],
) -> Result<(u8, MemSink), OutOfMemory> {
    let script = (
        String::from_str(alloc, "s")?,
        Vec::from_slice(alloc, b"load f\n")?,
    );
    let file = (String::from_str(alloc, "f")?, file);
    let files = vec![in alloc; script, file]?;
    let mut shelf = MemShelf::new(files, Vec::from_slice(alloc, failing_reads)?);
    let mut sink = MemSink::new(alloc, 10_000, 7, Vec::from_slice(alloc, failing_writes)?)?;
    let mut words = Vec::new(alloc);
    words.push(String::from_str(alloc, verb)?)?;
    words.push(String::from_str(alloc, name)?)?;
    Ok((top(alloc, &words, &mut shelf, &mut sink), sink))
}

/// What the program answers and writes if an image is listed.
fn listed(alloc: Global, file: Vec<u8>) -> Result<(u8, MemSink), OutOfMemory> {
    answered(alloc, "disasm", "f", file, &[], &[])
}

/// The smallest driver's image with bytes at some places changed.
pub fn changed(alloc: Global, changes: &[(usize, &[u8])]) -> Result<Vec<u8>, AllocError> {
    let mut file = image(alloc, SMALLEST)?;
    for (at, bytes) in changes {
        put(&mut file, *at, bytes);
    }
    Ok(file)
}

#[test]
fn images_are_listed(rt: HostRuntime) -> Result<(), Fail> {
    let alloc = rt.alloc();
    let (status, sink) = listed(alloc, image(alloc, STALL)?)?;
    assert_eq!(rt; status, 0);
    assert_eq!(rt; sink.taken(), STALL_LISTING.as_bytes());
    // Changes of the smallest driver's image, and the status with its text.
    let cases: [(&[(usize, &[u8])], u8, &str); 6] = [
        (&[], 0, "00000200 MOVIqw R7, 0\n00000204 RET\n"),
        (&[(0x68, &[0x04, 0x02])], 0, "00000204 RET\n"),
        (&[(0x200, &[0x27])], 0, "00000200 .illegal\n"),
        // The entry is in the headers, and so in no section.
        (&[(0x68, &[0x10, 0x00])], 0, ""),
        (&[(0x9C, &[10]), (0x56, &[0x0F])], 8, "image Subsystem\n"),
        (&[(0, b"ZM")], 8, "image NoMz\n"),
    ];
    for (changes, want, text) in cases {
        let file = changed(alloc, changes)?;
        let (status, sink) = listed(alloc, file)?;
        assert_eq!(rt; status, want, "at {text}");
        assert_eq!(rt; sink.taken(), text.as_bytes(), "at {text}");
    }
    Ok(())
}

#[test]
fn a_listing_ends_for_other_causes(rt: HostRuntime) -> Result<(), Fail> {
    let alloc = rt.alloc();
    let (status, sink) = answered(alloc, "disasm", "x", image(alloc, STALL)?, &[], &[])?;
    assert_eq!(rt; status, 6);
    assert_eq!(rt; sink.taken(), b"no such file\n".as_slice());
    let (status, sink) = listed(alloc, vec![in alloc; 0; 16_777_217]?)?;
    assert_eq!(rt; status, 7);
    assert_eq!(rt; sink.taken(), b"file too long\n".as_slice());
    let (status, sink) = answered(alloc, "disasm", "f", image(alloc, STALL)?, &[1], &[])?;
    assert_eq!(rt; status, 3);
    assert_eq!(rt; sink.taken(), b"".as_slice());
    // Two writes of 7 bytes succeed.
    let (status, sink) = answered(alloc, "disasm", "f", image(alloc, STALL)?, &[], &[3])?;
    assert_eq!(rt; status, 4);
    assert_eq!(rt; sink.taken(), b"00000200 MOVqw".as_slice());
    Ok(())
}
