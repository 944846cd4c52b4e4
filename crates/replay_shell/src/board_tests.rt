use crate::tests::{SMALLEST, image, run_words};
use crate::top::top;
use fw_shelf::{MemShelf, MemSink};
use fw_types::OutOfMemory;
use std::alloc::{AllocError, Global};
use std::test::Fail;

/// The most bytes of the file of an option ROM.
const MOST_ROM_BYTES: usize = 1_048_576;

/// A shelf with a script `s`, the smallest driver's image `a.efi`, and two files `most.rom` and
/// `long.rom`. The second is too long for an option ROM. Some of the shelf's reads fail.
fn shelf_of(alloc: Global, script: &str, failing: &[u64]) -> Result<MemShelf, AllocError> {
    let most = vec![in alloc; 0u8; MOST_ROM_BYTES]?;
    let long = vec![in alloc; 0u8; MOST_ROM_BYTES + 1]?;
    let files = vec![in alloc;
        (
            String::from_str(alloc, "s")?,
            Vec::from_slice(alloc, script.as_bytes())?
        ),
        (String::from_str(alloc, "a.efi")?, image(alloc, SMALLEST)?),
        (String::from_str(alloc, "most.rom")?, most),
        (String::from_str(alloc, "long.rom")?, long),
    ]?;
    Ok(MemShelf::new(files, Vec::from_slice(alloc, failing)?))
}

/// What `run s` answers and writes over that shelf.
fn answered(alloc: Global, script: &str, failing: &[u64]) -> Result<(u8, MemSink), OutOfMemory> {
    let mut shelf = shelf_of(alloc, script, failing)?;
    let mut sink = MemSink::new(alloc, 1000, 100, Vec::new(alloc))?;
    let words = run_words(alloc, "s")?;
    let status = top(alloc, &words, &mut shelf, &mut sink);
    Ok((status, sink))
}

/// A root bridge and a function.
const FUNCTION: &str = "root 0 0\nfunc 0 3 0 0x8086 0x100e 0x020000\n";

#[test]
fn option_roms_are_noted_before_the_first_command(rt: HostRuntime) -> Result<(), Fail> {
    // The name of the ROM's file, and the note.
    for (name, note) in [
        ("none.rom", "rom 0:3.0 missing\n"),
        ("long.rom", "rom 0:3.0 too-long\n"),
        ("most.rom", ""),
    ] {
        let alloc = rt.alloc();
        let script = format!(in alloc; "{FUNCTION}rom 0 3 0 {name}\nload none.efi\n")?;
        let report = format!(in alloc; "{note}> load none.efi\n= NOT_FOUND 0\n")?;
        let (status, sink) = answered(alloc, script.as_str(), &[])?;
        assert_eq!(rt; status, 0, "at {name}");
        assert_eq!(rt; sink.taken(), report.as_bytes(), "at {name}");
    }
    Ok(())
}

/// A script with two option ROMs, whose files are absent, and two loads.
const TWO_ROMS: &str = "root 0 0\nfunc 0 3 0 0x8086 0x100e 0x020000\n\
    func 0 2 1 0x8086 0x100e 0x020000\nrom 0 3 0 x.rom\nrom 0 2 1 y.rom\n\
    load x.efi\nload y.efi\n";

/// Its report.
const TWO_ROMS_REPORT: &str =
    "rom 0:3.0 missing\nrom 0:2.1 missing\n> load x.efi\n= NOT_FOUND 0\n> load y.efi\n= NOT_FOUND 0\n";

#[test]
fn a_shelf_that_fails_at_boot_leaves_the_text_empty(rt: HostRuntime) -> Result<(), Fail> {
    // The read that fails, the status, and how many bytes were written by then: the notes have 36
    // together, and each command has 27.
    for (read, want, taken) in [
        (1, 3, 0),
        (2, 3, 0),
        (3, 3, 0),
        (4, 3, 36),
        (5, 3, 63),
        (6, 0, 90),
    ] {
        let (status, sink) = answered(rt.alloc(), TWO_ROMS, &[read])?;
        assert_eq!(rt; status, want, "at {read}");
        assert_eq!(rt;
            sink.taken(),
            &TWO_ROMS_REPORT.as_bytes()[..taken],
            "at {read}"
        );
    }
    Ok(())
}

#[test]
fn boards_are_replayed_or_refused(rt: HostRuntime) -> Result<(), Fail> {
    // A script, and the status with its text.
    for (script, want, text) in [
        (
            "root 0 0\ndump\nfunc 0 3 0 0x8086 0x100e 0x020000",
            2,
            "script 3 BoardLate\n",
        ),
        (
            "dump\nfunc 0 3 0 0x8086 0x100e 0x020000",
            2,
            "script 2 Number\n",
        ),
        ("root 0 0\n# again\n\nroot 1 0", 2, "script 4 Duplicate\n"),
        ("unload", 2, "script 1 Missing\n"),
        ("root 0 0", 0, ""),
        (
            "root 0 0\nload a.efi",
            0,
            "> load a.efi\n1 0 entry 4 0 0 SUCCESS\nimage 1 handle 4\n= SUCCESS 82\n",
        ),
    ] {
        let (status, sink) = answered(rt.alloc(), script, &[])?;
        assert_eq!(rt; status, want, "at {text}");
        assert_eq!(rt; sink.taken(), text.as_bytes(), "at {text}");
    }
    Ok(())
}
