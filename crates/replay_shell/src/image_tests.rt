use crate::listing_tests::{answered, changed};
use crate::tests::{SMALLEST, image, put};
use crate::top::top;
use ebc_asm::assemble;
use fw_shelf::{MemShelf, MemSink};
use fw_types::{OutOfMemory, Rows};
use option_rom::{RomPart, write};
use std::alloc::{AllocError, Global};
use std::test::Fail;

/// A driver whose entry traps at once: BREAK 0.
const BROKEN: &[u8] = b"\x00\x00";

/// What the program answers and writes if a script loads a file.
fn loaded(alloc: Global, file: Vec<u8>) -> Result<(u8, MemSink), OutOfMemory> {
    answered(alloc, "run", "s", file, &[], &[])
}

#[test]
fn images_are_refused_by_kind(rt: HostRuntime) -> Result<(), Fail> {
    let accepted = "1 0 entry 3 0 0 SUCCESS\nimage 1 handle 3\n= SUCCESS 82\n";
    let cases: [(&[(usize, &[u8])], &str); 14] = [
        (&[], accepted),
        // A relocation of the last 8 bytes of the image, and one that passes its end.
        (
            &[
                (0x100, &[18]),
                (0xF0, &[0x08, 0x02, 0, 0, 10]),
                (0x208, &[0, 0, 0, 0, 10, 0, 0, 0, 0xF8, 0xA3]),
            ],
            accepted,
        ),
        (
            &[
                (0x100, &[18]),
                (0xF0, &[0x08, 0x02, 0, 0, 10]),
                (0x208, &[0, 0, 0, 0, 10, 0, 0, 0, 0xF9, 0xA3]),
            ],
            "image 1 refused Reloc\n= LOAD_ERROR 0\n",
        ),
        // An application whose relocations were stripped.
        (
            &[(0x9C, &[10]), (0x56, &[0x0F])],
            "image 1 refused Subsystem\n= UNSUPPORTED 0\n",
        ),
        (&[(0, b"ZM")], "image 1 refused NoMz\n= LOAD_ERROR 0\n"),
        (&[(0x40, b"NE")], "image 1 refused NoPe\n= LOAD_ERROR 0\n"),
        (
            &[(0x44, &[0x64, 0x86])],
            "image 1 refused Machine\n= UNSUPPORTED 0\n",
        ),
        (
            &[(0x58, &[0x0B, 0x01])],
            "image 1 refused Magic\n= UNSUPPORTED 0\n",
        ),
        (
            &[(0x56, &[0x0F])],
            "image 1 refused Stripped\n= LOAD_ERROR 0\n",
        ),
        (
            &[(0x90, &[0, 0, 0, 0])],
            "image 1 refused Size\n= LOAD_ERROR 0\n",
        ),
        (
            &[(0x46, &[97])],
            "image 1 refused Headers\n= LOAD_ERROR 0\n",
        ),
        (
            &[(0x104, &[0x00, 0x01])],
            "image 1 refused Section\n= LOAD_ERROR 0\n",
        ),
        (
            &[(0x68, &[0x01, 0x02])],
            "image 1 refused Entry\n= LOAD_ERROR 0\n",
        ),
        // A runtime driver.
        (&[(0x9C, &[12])], accepted),
    ];
    for (changes, line) in cases {
        let file = changed(rt.alloc(), changes)?;
        let (status, sink) = loaded(rt.alloc(), file)?;
        let report = format!(in rt.alloc(); "> load f\n{line}")?;
        assert_eq!(rt; status, 0, "at {line}");
        assert_eq!(rt; sink.taken(), report.as_bytes(), "at {line}");
    }
    Ok(())
}

/// An image of an option ROM that is not a plain driver: its header, with the signature of an EFI
/// image if its code type is 3, and the PCI data structure at 28.
fn other_image(alloc: Global, code_type: u8, compression: u8) -> Result<Vec<u8>, AllocError> {
    let mut bytes: Vec<u8> = vec![in alloc; 0; 512]?;
    put(&mut bytes, 0, &[0x55, 0xAA, 1]);
    if code_type == 3 {
        put(&mut bytes, 4, &[0xF1, 0x0E]);
        put(&mut bytes, 8, &[11, 0, 0xBC, 0x0E, compression]);
        put(&mut bytes, 22, &[64]);
    }
    put(&mut bytes, 24, &[28]);
    put(&mut bytes, 28, b"PCIR");
    put(&mut bytes, 38, &[24]);
    put(&mut bytes, 44, &[1, 0, 0, 0, code_type]);
    Ok(bytes)
}

/// The option ROM of some files, each the body of an image.
fn rom_of(alloc: Global, bodies: &[&[u8]]) -> Result<Vec<u8>, Fail> {
    let mut parts = Vec::new(alloc);
    for body in bodies {
        parts.push(RomPart {
            vendor: 0x1AF4,
            device: 0x1000,
            class: 0x02_0000,
            body: Rows::of(Vec::from_slice(alloc, body)?),
        })?;
    }
    Ok(write(alloc, parts.as_slice()).ok().ok_or("refused")?)
}

/// An image for another kind of machine, a compressed driver, and the smallest driver: 2,560 bytes.
fn three_images(alloc: Global) -> Result<Vec<u8>, Fail> {
    let mut rom = other_image(alloc, 0, 0)?;
    rom.extend_from_slice(other_image(alloc, 3, 1)?.as_slice())?;
    let driver = image(alloc, SMALLEST)?;
    rom.extend_from_slice(rom_of(alloc, &[driver.as_slice()])?.as_slice())?;
    Ok(rom)
}

#[test]
fn option_roms_are_loaded_image_by_image(rt: HostRuntime) -> Result<(), Fail> {
    let alloc = rt.alloc();
    let smallest = image(alloc, SMALLEST)?;
    let broken = image(alloc, BROKEN)?;
    let good = smallest.as_slice();
    let bad = broken.as_slice();
    let mut cut = three_images(alloc)?;
    put(&mut cut, 1024 + 44, &[4]);
    let mut compressed_last = rom_of(alloc, &[bad])?;
    put(&mut compressed_last, 49, &[0]);
    compressed_last.extend_from_slice(other_image(alloc, 3, 1)?.as_slice())?;
    let mut without_pcir = other_image(alloc, 0, 0)?;
    put(&mut without_pcir, 28, b"PCIX");
    let mut without_length = other_image(alloc, 0, 0)?;
    put(&mut without_length, 44, &[0]);
    // An option ROM, and what the report says of it.
    let cases: [(Vec<u8>, &str); 10] = [
        (
            three_images(alloc)?,
            "1 0 entry 3 0 0 SUCCESS\nimage 1 skipped\nimage 2 compressed\nimage 3 handle 3\nrom Done\n= SUCCESS 82\n",
        ),
        // The third image is longer than the ROM.
        (
            cut,
            "image 1 skipped\nimage 2 compressed\nrom PastEnd\n= UNSUPPORTED 0\n",
        ),
        (
            Vec::from_slice(alloc, b"\x55\xAA")?,
            "rom BadSignature\n= UNSUPPORTED 0\n",
        ),
        (without_pcir, "rom BadPcir\n= UNSUPPORTED 0\n"),
        (without_length, "rom LengthZero\n= UNSUPPORTED 0\n"),
        // Every image fails: the status is that of the last that was tried.
        (
            rom_of(alloc, &[bad, b"no image"])?,
            "1 0 entry 3 0 0 trap:Break\nimage 1 ABORTED\nimage 2 refused NoMz\nrom Done\n= LOAD_ERROR 81\n",
        ),
        (
            rom_of(alloc, &[b"no image", bad])?,
            "1 0 entry 3 0 0 trap:Break\nimage 1 refused NoMz\nimage 2 ABORTED\nrom Done\n= ABORTED 81\n",
        ),
        (
            compressed_last,
            "1 0 entry 3 0 0 trap:Break\nimage 1 ABORTED\nimage 2 compressed\nrom BadSignature\n= ABORTED 81\n",
        ),
        // The second image fails and is undone, so the third gets its handle.
        (
            rom_of(alloc, &[good, bad, good])?,
            "1 0 entry 3 0 0 SUCCESS\n2 0 entry 4 0 0 trap:Break\n3 0 entry 4 0 0 SUCCESS\nimage 1 handle 3\nimage 2 ABORTED\nimage 3 handle 4\nrom Done\n= SUCCESS 245\n",
        ),
        // One image stays loaded, whatever comes after it.
        (
            rom_of(alloc, &[good, bad])?,
            "1 0 entry 3 0 0 SUCCESS\n2 0 entry 4 0 0 trap:Break\nimage 1 handle 3\nimage 2 ABORTED\nrom Done\n= SUCCESS 163\n",
        ),
    ];
    for (rom, lines) in cases {
        let (status, sink) = loaded(alloc, rom)?;
        let report = format!(in alloc; "> load f\n{lines}")?;
        assert_eq!(rt; status, 0, "at {lines}");
        assert_eq!(rt; sink.taken(), report.as_bytes(), "at {lines}");
    }
    Ok(())
}

#[test]
fn a_command_spends_all_of_its_units(rt: HostRuntime) -> Result<(), Fail> {
    let alloc = rt.alloc();
    // A jump to itself. Laying costs 16 units, and a call ends at 1,048,576 units. The fourth call
    // ends when the command has none of its 4,194,304 units left, and then the fifth image is not
    // laid.
    let endless = image(alloc, b"\x02\xFF")?;
    let body = endless.as_slice();
    let rom = rom_of(alloc, &[body, body, body, body, body])?;
    let (status, sink) = loaded(alloc, rom)?;
    let report = "> load f\n\
        1 0 entry 3 0 0 trap:Budget\n\
        2 0 entry 3 0 0 trap:Budget\n\
        3 0 entry 3 0 0 trap:Budget\n\
        4 0 entry 3 0 0 trap:Budget\n\
        image 1 ABORTED\n\
        image 2 ABORTED\n\
        image 3 ABORTED\n\
        image 4 ABORTED\n\
        image 5 ABORTED\n\
        rom Done\n\
        = ABORTED 4194304\n";
    assert_eq!(rt; status, 0);
    assert_eq!(rt; sink.taken(), report.as_bytes());
    Ok(())
}

/// Adds 10, 9, .. and 1, and answers DEVICE_ERROR if the sum is not 55. R4 is 0 when it begins.
const ADDER: &str = "\
    MOVIqw R5, 10\n\
    MOVIqw R6, 0\n\
    next:\n\
    ADD64 R6, R5\n\
    ADD64 R5, R4{-1}\n\
    CMPI64weq R5, 0\n\
    JMP8cc =next\n\
    CMPI64weq R6, 55\n\
    JMP8cs =good\n\
    MOVIqq R7, -9223372036854775801 ; 0x8000000000000007\n\
    RET\n\
    good:\n\
    MOVIqw R7, 0\n\
    RET\n";

#[test]
fn a_driver_with_a_loop_is_assembled_and_run(rt: HostRuntime) -> Result<(), Fail> {
    let alloc = rt.alloc();
    // The expected sum, which comes after 22 bytes of the code, and the report. Of the units,
    // laying costs 16 and the call 64. Then two instructions come before the loop, which has 4 and
    // runs 10 times, and 4 come after it.
    let cases: [(u8, &str); 2] = [
        (
            55,
            "> load f\n1 0 entry 3 0 0 SUCCESS\nimage 1 handle 3\n= SUCCESS 126\n",
        ),
        (
            56,
            "> load f\n1 0 entry 3 0 0 DEVICE_ERROR\nimage 1 DEVICE_ERROR\n= DEVICE_ERROR 126\n",
        ),
    ];
    for (want, report) in cases {
        let mut code = assemble(alloc, ADDER).ok().ok_or("refused")?;
        put(&mut code, 22, &[want]);
        let (status, sink) = loaded(alloc, image(alloc, code.as_slice())?)?;
        assert_eq!(rt; status, 0);
        assert_eq!(rt; sink.taken(), report.as_bytes());
    }
    Ok(())
}
