use crate::tools::tools;
use fw_shelf::{MemShelf, MemSink};
use fw_types::OutOfMemory;
use std::alloc::{AllocError, Global};
use std::test::Fail;

const USAGE: &str =
    "usage: asm LISTING [ENTRY], rom VENDOR DEVICE CLASS FILE..., walk ROM, look IMAGE\n";

/// A driver that calls Stall, entered after 8 bytes of data.
const STALL: &str = "; calls Stall of the boot services\n\
    delay:\n.byte 1, 2, 3, 4 0x05 0x06 0x07 0x08\n\n\
    start: ; the entry point\r\n\
    \tMOVqw R4, @R0[0x0018]\n MOVqw R4, @R4[0x0060]\nPUSHn R5\n\
    CALL32EXa @R4[0x000000F8]\nPOPn R5\nRET";

/// Its code.
const STALL_CODE: &[u8] = b"\x01\x02\x03\x04\x05\x06\x07\x08\
    \x60\x84\x18\x00\x60\xC4\x60\x00\x35\x05\x83\x2C\xF8\x00\x00\x00\x36\x05\x04\x00";

/// What `look` says about its image.
const STALL_LOOK: &str = "subsystem 11\nsize 0x400\nentry 0x208\n\
    section \".text\" address 0x200 size 0x1c file-offset 0x200 file-size 0x200\n";

/// Puts bytes at a place.
fn put(bytes: &mut Vec<u8>, at: usize, field: &[u8]) {
    for (slot, byte) in bytes.iter_mut().skip(at).zip(field) {
        *slot = *byte;
    }
}

/// The image file of a driver that calls Stall (PE/COFF: File Headers, Optional Header, Section
/// Table).
fn stall_image(alloc: Global) -> Result<Vec<u8>, AllocError> {
    let mut file = vec![in alloc; 0u8; 1024]?;
    put(&mut file, 0x00, b"MZ");
    put(&mut file, 0x3c, &[0x40]);
    put(&mut file, 0x40, b"PE");
    put(&mut file, 0x44, &[0xbc, 0x0e, 1]);
    put(&mut file, 0x54, &[160, 0, 0x0e]);
    put(&mut file, 0x58, &[0x0b, 0x02]);
    put(&mut file, 0x68, &[0x08, 0x02]);
    put(&mut file, 0x79, &[0x02, 0, 0, 0, 0x02]);
    put(&mut file, 0x91, &[0x04]);
    put(&mut file, 0x95, &[0x02]);
    put(&mut file, 0x9c, &[11]);
    put(&mut file, 0xc4, &[6]);
    put(&mut file, 0xf8, b".text");
    put(&mut file, 0x100, &[0x1c]);
    put(&mut file, 0x105, &[0x02]);
    put(&mut file, 0x109, &[0x02]);
    put(&mut file, 0x10d, &[0x02]);
    put(&mut file, 512, STALL_CODE);
    Ok(file)
}

/// An image of 512 bytes for a PC with a BIOS, which says that another one follows it (PCI Firmware
/// 3.2, 5.1).
fn bios_image(alloc: Global) -> Result<Vec<u8>, AllocError> {
    let mut image = vec![in alloc; 0u8; 512]?;
    put(&mut image, 0, &[0x55, 0xaa, 1]);
    put(&mut image, 24, &[28]);
    put(&mut image, 28, b"PCIR\x86\x80\x0e\x10");
    put(&mut image, 38, &[24]);
    put(&mut image, 43, &[0x02, 1]);
    Ok(image)
}

/// A shelf with files, some reads of which fail.
fn shelf_of(
    alloc: Global,
    files: &[(&str, &[u8])],
    failing: &[u64],
) -> Result<MemShelf, OutOfMemory> {
    match files {
        [] => Ok(MemShelf::new(Vec::new(alloc), Vec::from_slice(alloc, failing)?)),
        [(name, bytes), ..] => {
            let file = (
                String::from_str(alloc, name)?,
                Vec::from_slice(alloc, bytes)?,
            );
            let files = vec![in alloc; file]?;
            Ok(MemShelf::new(files, Vec::from_slice(alloc, failing)?))
        }
    }
}

fn words_of(alloc: Global, texts: &[&str]) -> Result<Vec<String>, OutOfMemory> {
    let mut words = Vec::new(alloc);
    for text in texts {
        words.push(String::from_str(alloc, text)?)?;
    }
    Ok(words)
}

/// What `tools` answers and writes for words, if the file `f` has these bytes.
fn answered(alloc: Global, texts: &[&str], file: &[u8]) -> Result<(u8, MemSink), OutOfMemory> {
    let mut shelf = shelf_of(alloc, &[("f", file)], &[])?;
    let mut sink = MemSink::new(alloc, 10_000, 100, Vec::new(alloc))?;
    let words = words_of(alloc, texts)?;
    let status = tools(alloc, &words, &mut shelf, &mut sink);
    Ok((status, sink))
}

#[test]
fn words_of_no_form_are_answered(rt: HostRuntime) -> Result<(), Fail> {
    let cases: [&[&str]; 12] = [
        &[],
        &["asm"],
        &["asm", "f", "start", "f"],
        &["Asm", "f"],
        &["run", "f"],
        &["walk"],
        &["walk", "f", "f"],
        &["look", "f", "f"],
        &["rom", "1", "2", "3"],
        &["rom", "0x10000", "2", "3", "f"],
        &["rom", "1", "-2", "3", "f"],
        &["rom", "1", "2", "0x1000000", "f"],
    ];
    for texts in cases {
        let (status, sink) = answered(rt.alloc(), texts, b"")?;
        assert_eq!(rt; status, 1, "at {texts:?}");
        assert_eq!(rt; sink.taken(), USAGE.as_bytes());
    }
    Ok(())
}

#[test]
fn listings_are_refused(rt: HostRuntime) -> Result<(), Fail> {
    // A listing, the label at which it is to be entered, and the line.
    let cases: [(&[u8], &str, &str); 12] = [
        (b"RET\nHLT\n", "", "line 2 UnknownWord\n"),
        (b"RET\nPUSH64 RX\n", "", "line 2 Operand\n"),
        (b"; data\n\n.byte one", "", "line 3 Number\n"),
        (b"a:\nRET\na:\n", "", "line 3 Label\n"),
        (b"JMP8 =a\n", "", "line 1 Label\n"),
        (b".byte 256\n", "", "line 1 Range\n"),
        (b"HLT\n\nRET ; caf\xc3\xa9\n", "", "line 3 NotAscii\n"),
        (b"RET\xff", "", "line 1 NotAscii\n"),
        (b"", "", "image BadEntry\n"),
        (b"RET\n", "start", "entry Label\n"),
        (b".byte 0\nstart:\nRET\n", "start", "image BadEntry\n"),
        (b"RET\nend:\n", "end", "image BadEntry\n"),
    ];
    for (listing, entry, line) in cases {
        let texts = ["asm", "f", entry];
        let count = if entry.is_empty() { 2 } else { 3 };
        let (status, sink) = answered(rt.alloc(), &texts[..count], listing)?;
        assert_eq!(rt; sink.taken(), line.as_bytes());
        assert_eq!(rt; status, 8);
    }
    Ok(())
}

#[test]
fn a_driver_is_assembled(rt: HostRuntime) -> Result<(), Fail> {
    let alloc = rt.alloc();
    let (status, sink) = answered(alloc, &["asm", "f", "start"], STALL.as_bytes())?;
    assert_eq!(rt; status, 0);
    assert!(rt; sink.taken() == stall_image(alloc)?.as_slice());
    let (status, sink) = answered(alloc, &["asm", "f"], b"MOVIqw R7, 0\nRET\n")?;
    assert_eq!(rt; status, 0);
    assert_eq!(rt;
        sink.taken().get(512..518),
        Some(b"\x77\x37\x00\x00\x04\x00".as_slice())
    );
    Ok(())
}

#[test]
fn images_are_looked_at(rt: HostRuntime) -> Result<(), Fail> {
    let alloc = rt.alloc();
    let mut file = stall_image(alloc)?;
    let (status, sink) = answered(alloc, &["look", "f"], file.as_slice())?;
    assert_eq!(rt; status, 0);
    assert_eq!(rt; sink.taken(), STALL_LOOK.as_bytes());
    // A runtime driver with a name that is no text.
    put(&mut file, 0x9c, &[12]);
    put(&mut file, 0xf8, b"\x07\"d at\xffz");
    let (status, sink) = answered(alloc, &["look", "f"], file.as_slice())?;
    assert_eq!(rt; status, 0);
    let text = "subsystem 12\nsize 0x400\nentry 0x208\n\
        section \"??d at?z\" address 0x200 size 0x1c file-offset 0x200 file-size 0x200\n";
    assert_eq!(rt; sink.taken(), text.as_bytes());
    put(&mut file, 0x44, &[0x64, 0x86]);
    let (status, sink) = answered(alloc, &["look", "f"], file.as_slice())?;
    assert_eq!(rt; status, 0);
    assert_eq!(rt; sink.taken(), b"image Machine\n".as_slice());
    Ok(())
}

#[test]
fn an_option_rom_is_made_and_walked(rt: HostRuntime) -> Result<(), Fail> {
    let alloc = rt.alloc();
    let image = stall_image(alloc)?;
    let texts: &[&str] = &["rom", "0x1AF4", "4096", "0x020000", "f", "f"];
    let (status, made) = answered(alloc, texts, image.as_slice())?;
    assert_eq!(rt; status, 0);
    assert_eq!(rt; made.taken().len(), 3072);
    assert_eq!(rt; made.taken().get(64..1088), Some(image.as_slice()));
    assert_eq!(rt; made.taken().get(1600..2624), Some(image.as_slice()));
    // After an image for a BIOS, and with bytes after it.
    let mut rom = bios_image(alloc)?;
    rom.extend_from_slice(made.taken())?;
    rom.extend_from_slice(b"more")?;
    let (status, sink) = answered(alloc, &["walk", "f"], rom.as_slice())?;
    assert_eq!(rt; status, 0);
    let text = "image 1 at 0x0 size 0x200 vendor 0x8086 device 0x100e class 0x20000 \
        code-type 0x0 machine 0x0 compression 0x0\n\
        image 2 at 0x200 size 0x600 vendor 0x1af4 device 0x1000 class 0x20000 \
        code-type 0x3 machine 0xebc compression 0x0\n\
        image 3 at 0x800 size 0x600 vendor 0x1af4 device 0x1000 class 0x20000 \
        code-type 0x3 machine 0xebc compression 0x0\n\
        rom Done\n";
    assert_eq!(rt; sink.taken(), text.as_bytes());
    let (status, sink) = answered(alloc, &["walk", "f"], image.as_slice())?;
    assert_eq!(rt; status, 0);
    assert_eq!(rt; sink.taken(), b"rom BadSignature\n".as_slice());
    Ok(())
}

#[test]
fn files_that_are_not_read_are_named(rt: HostRuntime) -> Result<(), Fail> {
    let alloc = rt.alloc();
    let long = vec![in alloc; 0u8; 16_777_217]?;
    let cases: [(&[&str], u8, &str); 7] = [
        (&["asm", "x.ebc"], 6, "no such file: x.ebc\n"),
        (&["walk", "x"], 6, "no such file: x\n"),
        (&["look", "x"], 6, "no such file: x\n"),
        (&["rom", "1", "2", "3", "y", "f"], 6, "no such file: y\n"),
        (&["asm", "f"], 7, "file too long: f\n"),
        (&["look", "f"], 7, "file too long: f\n"),
        (&["rom", "1", "2", "3", "f", "y"], 7, "file too long: f\n"),
    ];
    for (texts, want, line) in cases {
        let (status, sink) = answered(alloc, texts, long.as_slice())?;
        assert_eq!(rt; sink.taken(), line.as_bytes());
        assert_eq!(rt; status, want);
    }
    Ok(())
}

#[test]
fn faults_are_reported(rt: HostRuntime) -> Result<(), Fail> {
    let alloc = rt.alloc();
    let words = words_of(alloc, &["rom", "1", "2", "3", "f", "f"])?;
    let mut shelf = shelf_of(alloc, &[("f", b"body")], &[2])?;
    let mut sink = MemSink::new(alloc, 10_000, 100, Vec::new(alloc))?;
    assert_eq!(rt; tools(alloc, &words, &mut shelf, &mut sink), 3);
    assert_eq!(rt; sink.taken(), b"".as_slice());
    let mut sink = MemSink::new(alloc, 10_000, 100, Vec::from_slice(alloc, &[3])?)?;
    assert_eq!(rt; tools(alloc, &words, &mut shelf, &mut sink), 4);
    assert_eq!(rt; sink.taken().len(), 200);
    Ok(())
}
