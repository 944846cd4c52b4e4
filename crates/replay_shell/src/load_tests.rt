use crate::tests::{SMALLEST, image, repeated, run_words};
use crate::top::top;
use fw_shelf::{MemShelf, MemSink};
use fw_types::OutOfMemory;
use std::alloc::{AllocError, Global};
use std::test::Fail;

/// What `run s` writes if the script loads the smallest driver.
const SMALLEST_REPORT: &str =
    "> load a.efi\n1 0 entry 3 0 0 SUCCESS\nimage 1 handle 3\n= SUCCESS 82\n";

/// A shelf with a script `s` and the images `a.efi` and `b.efi` of some code.
fn shelf_of(alloc: Global, script: &[u8], a: &[u8], b: &[u8]) -> Result<MemShelf, AllocError> {
    let script = (
        String::from_str(alloc, "s")?,
        Vec::from_slice(alloc, script)?,
    );
    let a = (String::from_str(alloc, "a.efi")?, image(alloc, a)?);
    let b = (String::from_str(alloc, "b.efi")?, image(alloc, b)?);
    let files = vec![in alloc; script, a, b]?;
    Ok(MemShelf::new(files, Vec::new(alloc)))
}

/// Replays a script over the images of some code, into a sink with room for everything.
pub fn replayed(
    alloc: Global,
    script: &[u8],
    a: &[u8],
    b: &[u8],
) -> Result<(u8, MemSink), OutOfMemory> {
    let mut shelf = shelf_of(alloc, script, a, b)?;
    let mut sink = MemSink::new(alloc, 1_000_000, 1_000_000, Vec::new(alloc))?;
    let words = run_words(alloc, "s")?;
    Ok((top(alloc, &words, &mut shelf, &mut sink), sink))
}

#[test]
fn loads_are_replayed(rt: HostRuntime) -> Result<(), Fail> {
    // A script, the code of a.efi and of b.efi, and the report.
    let cases: [(&str, &[u8], &[u8], &str); 12] = [
        ("load a.efi", SMALLEST, b"\x04\x00", SMALLEST_REPORT),
        ("", SMALLEST, SMALLEST, ""),
        (
            "load none.efi\n",
            SMALLEST,
            SMALLEST,
            "> load none.efi\n= NOT_FOUND 0\n",
        ),
        // The script is not an image.
        (
            "load s\n",
            SMALLEST,
            SMALLEST,
            "> load s\nimage 1 refused Short\n= LOAD_ERROR 0\n",
        ),
        // MOVIqw R7, 0 alone runs into zeros, which are BREAK 0.
        (
            "load a.efi\n",
            b"\x77\x37\x00\x00",
            SMALLEST,
            "> load a.efi\n1 0 entry 3 0 0 trap:Break\nimage 1 ABORTED\n= ABORTED 82\n",
        ),
        // ADD64 R1, R2 and a RET; R7 is 0.
        (
            "load a.efi\n",
            b"\x4C\x21\x04\x00",
            SMALLEST,
            "> load a.efi\n1 0 entry 3 0 0 SUCCESS\nimage 1 handle 3\n= SUCCESS 82\n",
        ),
        // BREAK 5 asks for a thunk at the address 0.
        (
            "load a.efi\n",
            b"\x00\x05\x04\x00",
            SMALLEST,
            "> load a.efi\n1 0 entry 3 0 0 trap:Memory\nimage 1 ABORTED\n= ABORTED 81\n",
        ),
        // A jump to itself.
        (
            "load a.efi\n",
            b"\x02\xFF",
            SMALLEST,
            "> load a.efi\n1 0 entry 3 0 0 trap:Budget\nimage 1 ABORTED\n= ABORTED 1048592\n",
        ),
        // A native call of Stall, whose address is in the firmware's tables, and one of SetTimer.
        (
            "load a.efi\nload b.efi\n",
            b"\x60\x84\x18\x00\x60\xC4\x60\x00\x35\x05\x83\x2C\xF8\x00\x00\x00\x36\x05\x04\x00",
            b"\x60\x84\x18\x00\x60\xC4\x60\x00\x35\x05\x83\x2C\x58\x00\x00\x00\x36\x05\x04\x00",
            "> load a.efi\n1 0 entry 3 0 0 SUCCESS\nimage 1 handle 3\n= SUCCESS 87\n> load b.efi\n1 0 entry 4 0 0 UNSUPPORTED\nimage 1 UNSUPPORTED\n= UNSUPPORTED 87\n",
        ),
        // A warning, which is a success; an error with a name; and one without a name.
        (
            "load a.efi\n",
            b"\x77\x37\x05\x00\x04\x00",
            SMALLEST,
            "> load a.efi\n1 0 entry 3 0 0 0x0000000000000005\nimage 1 handle 3\n= SUCCESS 82\n",
        ),
        (
            "load a.efi\nload b.efi\n",
            b"\xF7\x37\x0E\x00\x00\x00\x00\x00\x00\x80\x04\x00",
            b"\xF7\x37\x63\x00\x00\x00\x00\x00\x00\x80\x04\x00",
            "> load a.efi\n1 0 entry 3 0 0 NOT_FOUND\nimage 1 NOT_FOUND\n= NOT_FOUND 82\n> load b.efi\n1 0 entry 3 0 0 0x8000000000000063\nimage 1 0x8000000000000063\n= 0x8000000000000063 82\n",
        ),
        // The number of a handle whose entry failed is used again.
        (
            "load a.efi\nload b.efi\nload a.efi\n",
            SMALLEST,
            b"\x00\x00",
            "> load a.efi\n1 0 entry 3 0 0 SUCCESS\nimage 1 handle 3\n= SUCCESS 82\n> load b.efi\n1 0 entry 4 0 0 trap:Break\nimage 1 ABORTED\n= ABORTED 81\n> load a.efi\n1 0 entry 4 0 0 SUCCESS\nimage 1 handle 4\n= SUCCESS 82\n",
        ),
    ];
    for (script, a, b, report) in cases {
        let (status, sink) = replayed(rt.alloc(), script.as_bytes(), a, b)?;
        assert_eq!(rt; status, 0, "at {script}");
        assert_eq!(rt; sink.taken(), report.as_bytes(), "at {script}");
    }
    Ok(())
}

#[test]
fn traps_and_breaks_are_reported(rt: HostRuntime) -> Result<(), Fail> {
    // A code, and the report after its first line.
    let cases: [(&[u8], &str); 5] = [
        // DIV64 R1, R2 by 0.
        (
            b"\x50\x21",
            "1 0 entry 3 0 0 trap:Divide\nimage 1 ABORTED\n= ABORTED 81\n",
        ),
        // No instruction has the opcode 0x27.
        (
            b"\x27\x00",
            "1 0 entry 3 0 0 trap:Illegal\nimage 1 ABORTED\n= ABORTED 81\n",
        ),
        // BREAK 1 puts the version of the virtual machine into R7; BREAK 3, 4 and 6 do nothing.
        (
            b"\x00\x01\x04\x00",
            "1 0 entry 3 0 0 0x0000000000010000\nimage 1 handle 3\n= SUCCESS 82\n",
        ),
        (
            b"\x00\x03\x00\x04\x00\x06\x04\x00",
            "1 0 entry 3 0 0 SUCCESS\nimage 1 handle 3\n= SUCCESS 84\n",
        ),
        // BREAK 2 means nothing here.
        (
            b"\x00\x02\x04\x00",
            "1 0 entry 3 0 0 trap:Break\nimage 1 ABORTED\n= ABORTED 81\n",
        ),
    ];
    for (code, report) in cases {
        let (status, sink) = replayed(rt.alloc(), b"load a.efi\n", code, SMALLEST)?;
        let report = format!(in rt.alloc(); "> load a.efi\n{report}")?;
        assert_eq!(rt; status, 0, "at {report}");
        assert_eq!(rt; sink.taken(), report.as_bytes(), "at {report}");
    }
    Ok(())
}

/// MOVIqd R1, 0x2000210; MOVqw R7, @R1; RET: the value is what the first image has 16 bytes after
/// its entry. This code has zeros there.
const READER: &[u8] =
    b"\xB7\x31\x10\x02\x00\x02\x20\x97\x04\x00\x00\x00\x00\x00\x00\x00\x00\x00\x00\x00\x00\x00\x00\x00";

#[test]
fn what_a_failed_entry_wrote_is_undone(rt: HostRuntime) -> Result<(), Fail> {
    // MOVIqd R1, 0x2000210; MOVIqw @R1, 5; an error or 0 to R7; RET: the code, and the report.
    let cases: [(&[u8], &str); 2] = [
        (
            b"\xB7\x31\x10\x02\x00\x02\x77\x39\x05\x00\xF7\x37\x0E\x00\x00\x00\x00\x00\x00\x80\x04\x00",
            "> load a.efi\n1 0 entry 3 0 0 SUCCESS\nimage 1 handle 3\n= SUCCESS 83\n> load b.efi\n1 0 entry 4 0 0 NOT_FOUND\nimage 1 NOT_FOUND\n= NOT_FOUND 84\n> load a.efi\n1 0 entry 4 0 0 SUCCESS\nimage 1 handle 4\n= SUCCESS 83\n",
        ),
        (
            b"\xB7\x31\x10\x02\x00\x02\x77\x39\x05\x00\x77\x37\x00\x00\x04\x00",
            "> load a.efi\n1 0 entry 3 0 0 SUCCESS\nimage 1 handle 3\n= SUCCESS 83\n> load b.efi\n1 0 entry 4 0 0 SUCCESS\nimage 1 handle 4\n= SUCCESS 84\n> load a.efi\n1 0 entry 5 0 0 0x0000000000000005\nimage 1 handle 5\n= SUCCESS 83\n",
        ),
    ];
    for (code, report) in cases {
        let script = b"load a.efi\nload b.efi\nload a.efi\n";
        let (status, sink) = replayed(rt.alloc(), script, READER, code)?;
        assert_eq!(rt; status, 0);
        assert_eq!(rt; sink.taken(), report.as_bytes());
    }
    Ok(())
}

#[test]
fn a_driver_sees_what_the_firmware_maps(rt: HostRuntime) -> Result<(), Fail> {
    // A MOVI of an address to R1, and what the code does at that address; and the report after its
    // first line.
    let cases: [(&[u8], &str); 4] = [
        // The signature of the system table.
        (
            b"\xB7\x31\x00\x00\x01\x00\x20\x97\x04\x00",
            "1 0 entry 3 0 0 0x5453595320494249\nimage 1 handle 3\n= SUCCESS 83\n",
        ),
        // ImageBase in the loaded image block of the image itself.
        (
            b"\xF7\x31\x40\x00\x00\x00\x01\x00\x00\x00\x20\x97\x04\x00",
            "1 0 entry 3 0 0 0x0000000002000000\nimage 1 handle 3\n= SUCCESS 83\n",
        ),
        // MOVIqw @R1, 5 to the system table, and to the loaded image block.
        (
            b"\xB7\x31\x00\x00\x01\x00\x77\x39\x05\x00\x04\x00",
            "1 0 entry 3 0 0 trap:Memory\nimage 1 ABORTED\n= ABORTED 82\n",
        ),
        (
            b"\xF7\x31\x58\x00\x00\x00\x01\x00\x00\x00\x77\x39\x05\x00\x04\x00",
            "1 0 entry 3 0 0 SUCCESS\nimage 1 handle 3\n= SUCCESS 83\n",
        ),
    ];
    for (code, report) in cases {
        let (status, sink) = replayed(rt.alloc(), b"load a.efi\n", code, SMALLEST)?;
        let report = format!(in rt.alloc(); "> load a.efi\n{report}")?;
        assert_eq!(rt; status, 0, "at {report}");
        assert_eq!(rt; sink.taken(), report.as_bytes(), "at {report}");
    }
    Ok(())
}

#[test]
fn runs_end_at_the_image_and_at_the_budget(rt: HostRuntime) -> Result<(), Fail> {
    let alloc = rt.alloc();
    // How many MOVIqw R7, 0 there are, the RET after them or none, and the report.
    let cases: [(usize, &[u8], &str); 3] = [
        (
            128,
            b"",
            "> load a.efi\n1 0 entry 3 0 0 trap:Fetch\nimage 1 ABORTED\n= ABORTED 209\n",
        ),
        (
            1_048_512,
            b"\x04\x00",
            "> load a.efi\n1 0 entry 3 0 0 trap:Budget\nimage 1 ABORTED\n= ABORTED 1114120\n",
        ),
        (
            1_048_511,
            b"\x04\x00",
            "> load a.efi\n1 0 entry 3 0 0 SUCCESS\nimage 1 handle 3\n= SUCCESS 1114120\n",
        ),
    ];
    for (count, end, report) in cases {
        let mut code = repeated(alloc, b"\x77\x37\x00\x00", count)?;
        code.extend_from_slice(end)?;
        let (status, sink) = replayed(alloc, b"load a.efi", code.as_slice(), SMALLEST)?;
        assert_eq!(rt; status, 0);
        assert_eq!(rt; sink.taken(), report.as_bytes(), "at {count}");
    }
    Ok(())
}

/// Whether a text ends like this.
fn ends_with(text: &[u8], end: &str) -> bool {
    text.ends_with(end.as_bytes())
}

#[test]
fn images_have_limits(rt: HostRuntime) -> Result<(), Fail> {
    let alloc = rt.alloc();
    let script = repeated(alloc, b"load a.efi\n", 4095)?;
    let (status, sink) = replayed(alloc, script.as_slice(), SMALLEST, SMALLEST)?;
    assert_eq!(rt; status, 0);
    assert!(rt;
        ends_with(
            sink.taken(),
            "1 0 entry 4096 0 0 SUCCESS\nimage 1 handle 4096\n= SUCCESS 82\n> load a.efi\nimage 1 OUT_OF_RESOURCES\n= OUT_OF_RESOURCES 16\n"
        )
    );
    // An image of 16 MiB: four of them fill the 64 MiB that all images may have.
    let mut code = repeated(alloc, SMALLEST, 1)?;
    code.resize(16_776_704, 0)?;
    let script = repeated(alloc, b"load a.efi\n", 5)?;
    let (status, sink) = replayed(alloc, script.as_slice(), code.as_slice(), SMALLEST)?;
    assert_eq!(rt; status, 0);
    assert!(rt;
        ends_with(
            sink.taken(),
            "1 0 entry 6 0 0 SUCCESS\nimage 1 handle 6\n= SUCCESS 262210\n> load a.efi\nimage 1 OUT_OF_RESOURCES\n= OUT_OF_RESOURCES 262144\n"
        )
    );
    Ok(())
}
