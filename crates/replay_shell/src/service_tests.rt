use crate::load_tests::replayed;
use ebc_asm::assemble;
use fw_shelf::MemSink;
use std::alloc::Global;
use std::test::Fail;

/// Puts the address of the boot services into R4. It is a field of the system table, which is the
/// second argument of an entry point.
pub const FIND_SERVICES: &str = "\
    MOVqw R4, @R0[0x0018]\n\
    MOVqw R4, @R4[0x0060]\n";

/// Calls AllocatePool for 24 bytes. R1 points to the 8 bytes on the stack in which the address is
/// stored.
const ALLOCATE: &str = "\
    PUSHn R6\n\
    MOVqw R1, R0\n\
    MOVIqw R5, 24\n\
    PUSHn R1\n\
    PUSHn R5\n\
    PUSHn R6\n\
    CALL32EXa @R4[0x00000040]\n";

/// Calls FreePool.
const FREE: &str = "CALL32EXa @R4[0x00000048]\n";

/// Puts the bytes 01 to 08 on the stack, to which R1 then points, and 6 as the last argument.
const EIGHT_BYTES: &str = "\
    MOVIqq R5, 578437695752307201\n\
    PUSHn R5\n\
    MOVqw R1, R0\n\
    MOVIqw R5, 6\n\
    PUSHn R5\n";

/// Calls CopyMem.
const COPY: &str = "CALL32EXa @R4[0x00000160]\n";

/// Calls SetMem.
const SET: &str = "CALL32EXa @R4[0x00000168]\n";

/// Answers the 8 bytes to which R1 points.
pub const ANSWER: &str = "MOVqw R7, @R1\n";

/// Takes everything off the stack and returns. R1 points to the first 8 bytes that were put on it.
pub const LEAVE: &str = "\
    MOVqw R0, R1[0x0008]\n\
    RET\n";

/// Puts the end of the stack into R0.
const NO_STACK: &str = "\
    MOVIqw R5, 144\n\
    ADD64 R0, R5\n";

/// A place for a thunk, whose entry is the RET after it.
const PLACE: &str = "\
    place:\n\
    .byte 4, 0, 0, 0, 0, 0, 0, 0\n\
    RET\n";

/// The bytes of a code in parts.
pub fn assembled(alloc: Global, parts: &[&str]) -> Result<Vec<u8>, Fail> {
    let mut text = String::new(alloc);
    for part in parts {
        text.push_str(part)?;
    }
    if text.len() > 10_000 {
        return Err("too long".into());
    }
    Ok(assemble(alloc, text.as_str()).ok().ok_or("refused")?)
}

/// What the program answers and writes if a script loads the image of a code.
fn loaded(alloc: Global, code: &[u8]) -> Result<(u8, MemSink), Fail> {
    Ok(replayed(alloc, b"load a.efi\n", code, b"\x04\x00")?)
}

// Of the units in these reports, laying costs 16 and a call 64. The others are one for each
// instruction, and the prices of the services.

#[test]
fn blocks_are_made_and_given_back(rt: HostRuntime) -> Result<(), Fail> {
    let alloc = rt.alloc();
    // What is done after AllocatePool, and what the report says of it.
    let cases: [(&[&str], &str); 3] = [
        (
            &[ANSWER, LEAVE],
            "1 0 entry 3 0 0 0x0000000100000060\nimage 1 handle 3\n= SUCCESS 94\n",
        ),
        // The block is freed once, and then twice.
        (
            &["PUSHn @R1\n", FREE, LEAVE],
            "1 0 entry 3 0 0 SUCCESS\nimage 1 handle 3\n= SUCCESS 99\n",
        ),
        (
            &["PUSHn @R1\n", FREE, FREE, LEAVE],
            "1 0 entry 3 0 0 INVALID_PARAMETER\nimage 1 INVALID_PARAMETER\n= INVALID_PARAMETER 104\n",
        ),
    ];
    for (parts, lines) in cases {
        let mut code = assembled(alloc, &[FIND_SERVICES, ALLOCATE])?;
        code.extend_from_slice(assembled(alloc, parts)?.as_slice())?;
        let (status, sink) = loaded(alloc, code.as_slice())?;
        let report = format!(in alloc; "> load a.efi\n{lines}")?;
        assert_eq!(rt; status, 0, "at {lines}");
        assert_eq!(rt; sink.taken(), report.as_bytes(), "at {lines}");
    }
    Ok(())
}

#[test]
fn bytes_are_set_and_copied(rt: HostRuntime) -> Result<(), Fail> {
    let alloc = rt.alloc();
    // A code, and what the report says of its load.
    let cases: [(&[&str], &str); 5] = [
        // One byte of the system table is set.
        (
            &[
                FIND_SERVICES,
                "MOVIqw R5, 1\nMOVIqd R1, 65536\nPUSHn R6\nPUSHn R5\nPUSHn R1\n",
                SET,
            ],
            "1 0 entry 3 0 0 trap:Memory\nimage 1 ABORTED\n= ABORTED 90\n",
        ),
        // 5 bytes of the stack, to the lowest byte of 0x17F.
        (
            &[
                FIND_SERVICES,
                "PUSHn R6\nMOVqw R1, R0\nMOVIqw R2, 383\nMOVIqw R5, 5\nPUSHn R2\nPUSHn R5\nPUSHn R1\n",
                SET,
                ANSWER,
                LEAVE,
            ],
            "1 0 entry 3 0 0 0x0000007f7f7f7f7f\nimage 1 handle 3\n= SUCCESS 95\n",
        ),
        // No bytes at 0.
        (
            &[
                FIND_SERVICES,
                "PUSHn R6\nPUSHn R6\nPUSHn R6\n",
                SET,
                "MOVqw R0, R0[0x0018]\nRET\n",
            ],
            "1 0 entry 3 0 0 SUCCESS\nimage 1 handle 3\n= SUCCESS 89\n",
        ),
        // 6 of 8 bytes are copied by two places: up, and in the next case down.
        (
            &[
                FIND_SERVICES,
                EIGHT_BYTES,
                "PUSHn R1\nPUSHn R1{2}\n",
                COPY,
                ANSWER,
                LEAVE,
            ],
            "1 0 entry 3 0 0 0x0605040302010201\nimage 1 handle 3\n= SUCCESS 95\n",
        ),
        (
            &[
                FIND_SERVICES,
                EIGHT_BYTES,
                "PUSHn R1{2}\nPUSHn R1\n",
                COPY,
                ANSWER,
                LEAVE,
            ],
            "1 0 entry 3 0 0 0x0807080706050403\nimage 1 handle 3\n= SUCCESS 95\n",
        ),
    ];
    for (parts, lines) in cases {
        let code = assembled(alloc, parts)?;
        let (status, sink) = loaded(alloc, code.as_slice())?;
        let report = format!(in alloc; "> load a.efi\n{lines}")?;
        assert_eq!(rt; status, 0, "at {lines}");
        assert_eq!(rt; sink.taken(), report.as_bytes(), "at {lines}");
    }
    Ok(())
}

#[test]
fn prices_come_before_the_work(rt: HostRuntime) -> Result<(), Fail> {
    let alloc = rt.alloc();
    // What is done with the boot services in R4, and what the report says of it.
    let cases: [(&[&str], &str); 6] = [
        // SetMem at 0 of so many bytes that its price is all the units that the call has left, and
        // then one unit more.
        (
            &["MOVIqd R5, 8388032\nPUSHn R6\nPUSHn R5\nPUSHn R6\n", SET],
            "1 0 entry 3 0 0 trap:Memory\nimage 1 ABORTED\n= ABORTED 1048592\n",
        ),
        (
            &["MOVIqd R5, 8388033\nPUSHn R6\nPUSHn R5\nPUSHn R6\n", SET],
            "1 0 entry 3 0 0 trap:Budget\nimage 1 ABORTED\n= ABORTED 87\n",
        ),
        // No argument can be read. The price of Stall depends on no argument and is spent. That of
        // AllocatePool depends on one.
        (
            &[NO_STACK, "CALL32EXa @R4[0x000000F8]\n"],
            "1 0 entry 3 0 0 trap:Memory\nimage 1 ABORTED\n= ABORTED 86\n",
        ),
        (
            &[NO_STACK, "CALL32EXa @R4[0x00000040]\n"],
            "1 0 entry 3 0 0 trap:Memory\nimage 1 ABORTED\n= ABORTED 85\n",
        ),
        // SetTimer is not built, so it reads no argument.
        (
            &[
                NO_STACK,
                "CALL32EXa @R4[0x00000058]\nMOVqw R0, R0[0x8090]\nRET\n",
            ],
            "1 0 entry 3 0 0 UNSUPPORTED\nimage 1 UNSUPPORTED\n= UNSUPPORTED 88\n",
        ),
        // Nor is the last service of the table built.
        (
            &["CALL32EXa @R4[0x00000170]\nRET\n"],
            "1 0 entry 3 0 0 UNSUPPORTED\nimage 1 UNSUPPORTED\n= UNSUPPORTED 85\n",
        ),
    ];
    for (parts, lines) in cases {
        let mut code = assembled(alloc, &[FIND_SERVICES])?;
        code.extend_from_slice(assembled(alloc, parts)?.as_slice())?;
        let (status, sink) = loaded(alloc, code.as_slice())?;
        let report = format!(in alloc; "> load a.efi\n{lines}")?;
        assert_eq!(rt; status, 0, "at {lines}");
        assert_eq!(rt; sink.taken(), report.as_bytes(), "at {lines}");
    }
    Ok(())
}

#[test]
fn the_task_priority_level_is_as_before_a_call(rt: HostRuntime) -> Result<(), Fail> {
    let alloc = rt.alloc();
    // RaiseTPL to 16, once and then twice; and RestoreTPL to 16 before it, which is above the
    // level. Each code is loaded twice, and answers the level that its last call found.
    let cases: [(&str, &str); 3] = [
        (
            "CALL32EXa @R4[0x00000018]\n",
            "> load a.efi\n1 0 entry 3 0 0 0x0000000000000004\nimage 1 handle 3\n= SUCCESS 88\n> load a.efi\n1 0 entry 4 0 0 0x0000000000000004\nimage 1 handle 4\n= SUCCESS 88\n",
        ),
        (
            "CALL32EXa @R4[0x00000018]\nCALL32EXa @R4[0x00000018]\n",
            "> load a.efi\n1 0 entry 3 0 0 0x0000000000000010\nimage 1 handle 3\n= SUCCESS 90\n> load a.efi\n1 0 entry 4 0 0 0x0000000000000010\nimage 1 handle 4\n= SUCCESS 90\n",
        ),
        (
            "CALL32EXa @R4[0x00000020]\nCALL32EXa @R4[0x00000018]\n",
            "> load a.efi\n1 0 entry 3 0 0 0x0000000000000004\nimage 1 handle 3\n= SUCCESS 90\n> load a.efi\n1 0 entry 4 0 0 0x0000000000000004\nimage 1 handle 4\n= SUCCESS 90\n",
        ),
    ];
    for (calls, report) in cases {
        let code = assembled(
            alloc,
            &[
                FIND_SERVICES,
                "MOVIqw R5, 16\nPUSHn R5\n",
                calls,
                "POPn R5\nRET\n",
            ],
        )?;
        let script = b"load a.efi\nload a.efi\n";
        let (status, sink) = replayed(alloc, script, code.as_slice(), b"\x04\x00")?;
        assert_eq!(rt; status, 0, "at {calls}");
        assert_eq!(rt; sink.taken(), report.as_bytes(), "at {calls}");
    }
    Ok(())
}

#[test]
fn native_code_is_called_by_its_address(rt: HostRuntime) -> Result<(), Fail> {
    let alloc = rt.alloc();
    let unsupported = "1 0 entry 3 0 0 UNSUPPORTED\nimage 1 UNSUPPORTED\n= UNSUPPORTED 84\n";
    let bad_call = "1 0 entry 3 0 0 trap:BadCall\nimage 1 ABORTED\n= ABORTED 82\n";
    // Mem.Read of no elements costs 4 units, and `This` is the exit address here.
    let no_child =
        "1 0 entry 3 0 0 INVALID_PARAMETER\nimage 1 INVALID_PARAMETER\n= INVALID_PARAMETER 87\n";
    // An address, and what the report says of the load of a code that calls it.
    let cases: [(u64, &str); 14] = [
        // The bus driver's Supported, Start, Stop and GetDriver.
        (0x2_2000, unsupported),
        (0x2_2008, unsupported),
        (0x2_2010, unsupported),
        (0x2_3000, unsupported),
        // Functions of PCI I/O: the first, Mem.Read and the last; and the address after the last.
        (0x2_1000, unsupported),
        (0x2_1010, no_child),
        (0x2_1088, unsupported),
        (0x2_1090, bad_call),
        // The exit address, where there is nothing to call.
        (0x2_4000, bad_call),
        // The header of the boot services, an odd address in it, and the address after the last
        // service.
        (0x2_0000, bad_call),
        (0x2_0011, bad_call),
        (0x2_0178, bad_call),
        // The address of a thunk that no code has requested, and an address with nothing at it.
        (0x40_0000, bad_call),
        (0, bad_call),
    ];
    for (at, lines) in cases {
        let first = format!(in alloc; "MOVIqd R1, {at}\n")?;
        let code = assembled(alloc, &[first.as_str(), "CALL32EXa R1\nRET\n"])?;
        let (status, sink) = loaded(alloc, code.as_slice())?;
        let report = format!(in alloc; "> load a.efi\n{lines}")?;
        assert_eq!(rt; status, 0, "at {at}");
        assert_eq!(rt; sink.taken(), report.as_bytes(), "at {at}");
    }
    Ok(())
}

#[test]
fn thunks_are_made_of_entries_in_images(rt: HostRuntime) -> Result<(), Fail> {
    let alloc = rt.alloc();
    let align = "1 0 entry 3 0 0 trap:Align\nimage 1 ABORTED\n= ABORTED 82\n";
    let fetch = "1 0 entry 3 0 0 trap:Fetch\nimage 1 ABORTED\n= ABORTED 82\n";
    let memory = "1 0 entry 3 0 0 trap:Memory\nimage 1 ABORTED\n= ABORTED 82\n";
    // A code whose R7 points to a place when it asks for a thunk, and what the report says of its
    // load.
    let cases: [(&[&str], &str); 8] = [
        // The place gets the thunk's address.
        (
            &["MOVRELd R7, =place\nBREAK 5\nMOVqw R7, @R7\nRET\n", PLACE],
            "1 0 entry 3 0 0 0x0000000000400000\nimage 1 handle 3\n= SUCCESS 84\n",
        ),
        // Two thunks of one entry.
        (
            &[
                "MOVRELd R7, =place\nBREAK 5\nMOVIdw @R7, 4\nBREAK 5\nMOVqw R7, @R7\nRET\n",
                PLACE,
            ],
            "1 0 entry 3 0 0 0x0000000000400010\nimage 1 handle 3\n= SUCCESS 86\n",
        ),
        // An odd entry, one far below the image, and one far above it.
        (
            &["MOVRELd R7, =place\nBREAK 5\nplace:\n.byte 5, 0, 0, 0, 0, 0, 0, 0\nRET\n"],
            align,
        ),
        (
            &["MOVRELd R7, =place\nBREAK 5\nplace:\n.byte 0, 0, 0, 255, 0, 0, 0, 0\nRET\n"],
            fetch,
        ),
        (
            &["MOVRELd R7, =place\nBREAK 5\nplace:\n.byte 0, 0, 0, 127, 0, 0, 0, 0\nRET\n"],
            fetch,
        ),
        // The system table, which can be read but not written.
        (&["MOVIqd R7, 65536\nBREAK 5\n"], memory),
        // A thunk is called: its code ends at once, with 0 in R7. The call costs 64 units.
        (
            &["MOVRELd R7, =place\nBREAK 5\nCALL32EXa @R7\nRET\n", PLACE],
            "1 0 entry 3 0 0 SUCCESS\nimage 1 handle 3\n= SUCCESS 149\n",
        ),
        // Thunks are made without end, until there are 65,536.
        (
            &[
                "MOVRELd R7, =place\nnext:\nMOVIdw @R7, 4\nBREAK 5\nJMP8 =next\n",
                PLACE,
            ],
            "1 0 entry 3 0 0 trap:Thunks\nimage 1 ABORTED\n= ABORTED 196691\n",
        ),
    ];
    for (parts, lines) in cases {
        let code = assembled(alloc, parts)?;
        let (status, sink) = loaded(alloc, code.as_slice())?;
        let report = format!(in alloc; "> load a.efi\n{lines}")?;
        assert_eq!(rt; status, 0, "at {lines}");
        assert_eq!(rt; sink.taken(), report.as_bytes(), "at {lines}");
    }
    Ok(())
}

/// Allocates 24 bytes, makes a thunk, puts the sum of both addresses into R7, and ends like this.
fn asking(alloc: Global, end: &str) -> Result<Vec<u8>, Fail> {
    assembled(
        alloc,
        &[
            FIND_SERVICES,
            ALLOCATE,
            "MOVqw R0, R1[0x0008]\nMOVRELd R7, =place\nBREAK 5\nMOVqw R7, @R7\nADD64 R7, @R1\n",
            end,
            PLACE,
        ],
    )
}

#[test]
fn what_a_failed_entry_requested_is_undone(rt: HostRuntime) -> Result<(), Fail> {
    let alloc = rt.alloc();
    let good = asking(alloc, "RET\n")?;
    let bad = asking(alloc, "BREAK 0\n")?;
    let cases: [(&str, &str); 2] = [
        // The loaded image block of the second image has 96 bytes. It comes after the first block
        // of 24 bytes, which takes 32.
        (
            "load a.efi\nload a.efi\n",
            "> load a.efi\n1 0 entry 3 0 0 0x0000000100400060\nimage 1 handle 3\n= SUCCESS 97\n> load a.efi\n1 0 entry 4 0 0 0x00000001004000f0\nimage 1 handle 4\n= SUCCESS 97\n",
        ),
        (
            "load b.efi\nload a.efi\n",
            "> load b.efi\n1 0 entry 3 0 0 trap:Break\nimage 1 ABORTED\n= ABORTED 97\n> load a.efi\n1 0 entry 3 0 0 0x0000000100400060\nimage 1 handle 3\n= SUCCESS 97\n",
        ),
    ];
    for (script, report) in cases {
        let (status, sink) = replayed(alloc, script.as_bytes(), good.as_slice(), bad.as_slice())?;
        assert_eq!(rt; status, 0, "at {script}");
        assert_eq!(rt; sink.taken(), report.as_bytes(), "at {script}");
    }
    Ok(())
}
