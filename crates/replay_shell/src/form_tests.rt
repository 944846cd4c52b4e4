use crate::tests::repeated;
use crate::top::top;
use fw_shelf::{MemShelf, MemSink};
use fw_types::OutOfMemory;
use std::alloc::Global;
use std::test::Fail;

/// The usage line.
const USAGE: &str = "usage: run SCRIPT, check SCRIPT, selftest N, disasm IMAGE\n";

/// What two words answer and write, over a shelf with one file `s`. Some reads of the shelf fail.
fn answered(
    alloc: Global,
    verb: &str,
    word: &str,
    file: Vec<u8>,
    failing: &[u64],
) -> Result<(u8, MemSink), OutOfMemory> {
    let files = vec![in alloc; (String::from_str(alloc, "s")?, file)]?;
    let mut shelf = MemShelf::new(files, Vec::from_slice(alloc, failing)?);
    let mut sink = MemSink::new(alloc, 1000, 100, Vec::new(alloc))?;
    let words = vec![in alloc;
        String::from_str(alloc, verb)?,
        String::from_str(alloc, word)?,
    ]?;
    let status = top(alloc, &words, &mut shelf, &mut sink);
    Ok((status, sink))
}

#[test]
fn scripts_are_checked(rt: HostRuntime) -> Result<(), Fail> {
    // A script, and the status with its text. To load an absent file is no reason to refuse a
    // script.
    let cases: [(&str, u8, &str); 10] = [
        ("root 0 0", 0, "ok\n"),
        ("", 0, "ok\n"),
        ("load none.efi\nconnect 9 all end 5\n", 0, "ok\n"),
        (
            "root 0 0\nfunc 0 3 0 0x8086 0x100e 0x020000\nrom 0 3 0 x\n",
            0,
            "ok\n",
        ),
        ("load a\u{7f}", 2, "script 1 NotAscii\n"),
        ("\n\nfly", 2, "script 3 UnknownWord\n"),
        ("connect", 2, "script 1 Missing\n"),
        ("connect 3 some none", 2, "script 1 UnknownWord\n"),
        (
            "root 0 0\ndump\nfunc 0 3 0 0x8086 0x100e 0x020000",
            2,
            "script 3 BoardLate\n",
        ),
        ("root 0 0\nroot 1 0", 2, "script 2 Duplicate\n"),
    ];
    for (script, want, text) in cases {
        let alloc = rt.alloc();
        let file = Vec::from_slice(alloc, script.as_bytes())?;
        let (status, sink) = answered(alloc, "check", "s", file, &[])?;
        assert_eq!(rt; status, want, "at {script}");
        assert_eq!(rt; sink.taken(), text.as_bytes(), "at {script}");
    }
    Ok(())
}

#[test]
fn files_that_are_no_script_are_not_checked(rt: HostRuntime) -> Result<(), Fail> {
    let alloc = rt.alloc();
    let (status, sink) = answered(alloc, "check", "x", Vec::new(alloc), &[])?;
    assert_eq!(rt; status, 6);
    assert_eq!(rt; sink.taken(), b"no such file\n".as_slice());
    let long = repeated(alloc, b"\n", 16_777_217)?;
    let (status, sink) = answered(alloc, "check", "s", long, &[])?;
    assert_eq!(rt; status, 7);
    assert_eq!(rt; sink.taken(), b"file too long\n".as_slice());
    let (status, sink) = answered(alloc, "check", "s", Vec::new(alloc), &[1])?;
    assert_eq!(rt; status, 3);
    assert!(rt; sink.taken().is_empty());
    Ok(())
}

#[test]
fn loads_are_summed_up(rt: HostRuntime) -> Result<(), Fail> {
    // The size of a load as it is written, and the status with its text. A load of size N loads the
    // driver N times, and then connects and disconnects N times. Each load of the driver makes an
    // event and spends 82 units, and its image stays. A connect makes three events, one of them for
    // Start of the PCI bus driver, which makes N children: 3 * 64 + 16 * N units. A disconnect
    // removes them again and costs as much. So a load comes to N * (82 + 384 + 32 * N) units and
    // 7 * N events. In addition to the images there are three handles.
    let cases: [(&str, u8, &str); 12] = [
        (
            "1",
            0,
            "selftest 1 commands 3 units 498 events 7 handles 4\n",
        ),
        (
            "007",
            0,
            "selftest 7 commands 21 units 4830 events 49 handles 10\n",
        ),
        (
            "10",
            0,
            "selftest 10 commands 30 units 7860 events 70 handles 13\n",
        ),
        (
            "64",
            0,
            "selftest 64 commands 192 units 160896 events 448 handles 67\n",
        ),
        ("0", 1, USAGE),
        ("257", 1, USAGE),
        ("999", 1, USAGE),
        ("1x", 1, USAGE),
        ("0001", 1, USAGE),
        ("", 1, USAGE),
        ("+1", 1, USAGE),
        ("0x1", 1, USAGE),
    ];
    for (word, want, text) in cases {
        // The shelf would fail at its first read, but it is not read.
        let alloc = rt.alloc();
        let (status, sink) = answered(alloc, "selftest", word, Vec::new(alloc), &[1])?;
        assert_eq!(rt; status, want, "at {word}");
        assert_eq!(rt; sink.taken(), text.as_bytes(), "at {word}");
    }
    Ok(())
}
