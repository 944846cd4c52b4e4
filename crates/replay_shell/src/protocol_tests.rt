use crate::load_tests::replayed;
use crate::service_tests::{ANSWER, FIND_SERVICES, LEAVE, assembled};
use std::process::Abort;
use std::test::Fail;

/// Installs PCI I/O with the interface 5 on a new handle. R2 then points to the GUID, and R1 to the
/// 8 bytes on the stack in which the handle's number is stored.
const INSTALL: &str = "\
    MOVRELd R2, =name\n\
    PUSHn R6\n\
    MOVqw R1, R0\n\
    MOVIqw R5, 5\n\
    PUSHn R5\n\
    PUSHn R6\n\
    PUSHn R2\n\
    PUSHn R1\n\
    CALL32EXa @R4[0x00000080]\n";

/// Calls InstallProtocolInterface again, with what is on the stack.
const AGAIN: &str = "CALL32EXa @R4[0x00000080]\n";

/// Calls HandleProtocol for the handle, which stores the interface in the place of its number.
const OPEN: &str = "\
    MOVqw R3, @R1\n\
    PUSHn R1\n\
    PUSHn R2\n\
    PUSHn R3\n\
    CALL32EXa @R4[0x00000098]\n";

/// Calls UninstallProtocolInterface for the handle.
const UNINSTALL: &str = "\
    PUSHn R5\n\
    PUSHn R2\n\
    PUSHn @R1\n\
    CALL32EXa @R4[0x00000090]\n";

/// Calls LocateHandle by the protocol, with room for one handle in the place of the number. The
/// place is 0 before.
const LOCATE: &str = "\
    MOVqw @R1, R6\n\
    MOVIqw R5, 8\n\
    PUSHn R5\n\
    MOVqw R3, R0\n\
    PUSHn R1\n\
    PUSHn R3\n\
    PUSHn R6\n\
    PUSHn R2\n\
    MOVIqw R5, 2\n\
    PUSHn R5\n\
    CALL32EXa @R4[0x000000B0]\n";

/// Calls OpenProtocol for the handle, exclusively and for the image itself. R3 then has the
/// handle's number, and the interface is stored in the place of the number.
const OPEN_ALONE: &str = "\
    MOVIqw R5, 32\n\
    PUSHn R5\n\
    PUSHn R6\n\
    MOVIqw R5, 3\n\
    PUSHn R5\n\
    MOVqw R3, @R1\n\
    PUSHn R1\n\
    PUSHn R2\n\
    PUSHn R3\n\
    CALL32EXa @R4[0x00000118]\n";

/// Calls OpenProtocol again, with what is on the stack.
const OPEN_AGAIN: &str = "CALL32EXa @R4[0x00000118]\n";

/// Calls CloseProtocol for what `OPEN_ALONE` has opened.
const CLOSE: &str = "\
    PUSHn R6\n\
    PUSHn R5\n\
    PUSHn R2\n\
    PUSHn R3\n\
    CALL32EXa @R4[0x00000120]\n";

/// Calls CloseProtocol again, with what is on the stack.
const CLOSE_AGAIN: &str = "CALL32EXa @R4[0x00000120]\n";

/// Calls OpenProtocolInformation for what `OPEN_ALONE` has opened, and answers the attributes and
/// the count of the first record.
const INFORM: &str = "\
    PUSHn R6\n\
    MOVqw R5, R0\n\
    PUSHn R5\n\
    PUSHn R1\n\
    PUSHn R2\n\
    PUSHn R3\n\
    CALL32EXa @R4[0x00000128]\n\
    MOVqw R3, @R1\n\
    MOVqw R7, @R3[0x0010]\n";

/// Calls ProtocolsPerHandle for the handle, and answers the first 8 bytes of the first GUID.
const LIST_PROTOCOLS: &str = "\
    PUSHn R6\n\
    MOVqw R5, R0\n\
    MOVqw R3, @R1\n\
    PUSHn R5\n\
    PUSHn R1\n\
    PUSHn R3\n\
    CALL32EXa @R4[0x00000130]\n\
    MOVqw R3, @R1\n\
    MOVqw R3, @R3\n\
    MOVqw R7, @R3\n";

/// Calls LocateHandleBuffer by the protocol, and answers the first handle.
const LOCATE_BUFFER: &str = "\
    PUSHn R6\n\
    MOVqw R5, R0\n\
    PUSHn R1\n\
    PUSHn R5\n\
    PUSHn R6\n\
    PUSHn R2\n\
    MOVIqw R3, 2\n\
    PUSHn R3\n\
    CALL32EXa @R4[0x00000138]\n\
    MOVqw R3, @R1\n\
    MOVqw R7, @R3\n";

/// Calls LocateProtocol, which stores the interface in the place of the handle's number.
const LOCATE_PROTOCOL: &str = "\
    PUSHn R1\n\
    PUSHn R6\n\
    PUSHn R2\n\
    CALL32EXa @R4[0x00000140]\n";

/// Sets the place of the handle's number to 0.
const FORGET: &str = "MOVqw @R1, R6\n";

/// Calls InstallMultipleProtocolInterfaces with the protocol alone, for the handle whose number is
/// stored, or a new one.
const INSTALL_LIST: &str = "\
    PUSHn R6\n\
    PUSHn R5\n\
    PUSHn R2\n\
    PUSHn R1\n\
    CALL32EXa @R4[0x00000148]\n";

/// The GUID of PCI I/O.
const NAME: &str = "\
    name:\n\
    .byte 0x00, 0xb2, 0xf5, 0x4c, 0xb8, 0x68, 0xa5, 0x4c\n\
    .byte 0x9e, 0xec, 0xb2, 0x3e, 0x3f, 0x50, 0x02, 0x9a\n";

// Of the units in these reports, laying costs 16 and a call 64. The others are one for each
// instruction, 8 for each service on one protocol, and 16 for each service that goes through a
// list.

/// Checks what the report says of the load of a driver that installs the protocol and then does
/// these parts.
fn reports(rt: &(impl AllocGlobal + Abort), parts: &[&str], lines: &str) -> Result<(), Fail> {
    let alloc = rt.alloc();
    let mut all = Vec::new(alloc);
    all.push(FIND_SERVICES)?;
    all.push(INSTALL)?;
    all.extend_from_slice(parts)?;
    let code = assembled(alloc, all.as_slice())?;
    let (status, sink) = replayed(alloc, b"load a.efi\n", code.as_slice(), b"\x04\x00")?;
    let report = format!(in alloc; "> load a.efi\n{lines}")?;
    assert_eq!(rt; status, 0, "at {lines}");
    assert_eq!(rt; sink.taken(), report.as_bytes(), "at {lines}");
    Ok(())
}

#[test]
fn protocols_are_installed_opened_and_uninstalled(rt: HostRuntime) -> Result<(), Fail> {
    // What is done after the installation, and what the report says of the load.
    let cases: [(&[&str], &str); 5] = [
        // The new handle is the one after the image's.
        (
            &[ANSWER, LEAVE, NAME],
            "1 0 entry 3 0 0 0x0000000000000004\nimage 1 handle 3\n= SUCCESS 102\n",
        ),
        // The new handle has the interface, which is not installed a second time.
        (
            &[OPEN, ANSWER, LEAVE, NAME],
            "1 0 entry 3 0 0 0x0000000000000005\nimage 1 handle 3\n= SUCCESS 115\n",
        ),
        (
            &[AGAIN, LEAVE, NAME],
            "1 0 entry 3 0 0 INVALID_PARAMETER\nimage 1 INVALID_PARAMETER\n= INVALID_PARAMETER 110\n",
        ),
        // The interface is uninstalled, and its handle goes with it.
        (
            &[UNINSTALL, LEAVE, NAME],
            "1 0 entry 3 0 0 SUCCESS\nimage 1 handle 3\n= SUCCESS 113\n",
        ),
        (
            &[UNINSTALL, OPEN, LEAVE, NAME],
            "1 0 entry 3 0 0 INVALID_PARAMETER\nimage 1 INVALID_PARAMETER\n= INVALID_PARAMETER 126\n",
        ),
    ];
    for (parts, lines) in cases {
        reports(&rt, parts, lines)?;
    }
    Ok(())
}

#[test]
fn protocols_are_found(rt: HostRuntime) -> Result<(), Fail> {
    let cases: [(&[&str], &str); 4] = [
        (
            &[LOCATE, ANSWER, LEAVE, NAME],
            "1 0 entry 3 0 0 0x0000000000000004\nimage 1 handle 3\n= SUCCESS 129\n",
        ),
        (
            &[LOCATE_BUFFER, LEAVE, NAME],
            "1 0 entry 3 0 0 0x0000000000000004\nimage 1 handle 3\n= SUCCESS 128\n",
        ),
        (
            &[LOCATE_PROTOCOL, ANSWER, LEAVE, NAME],
            "1 0 entry 3 0 0 0x0000000000000005\nimage 1 handle 3\n= SUCCESS 122\n",
        ),
        (
            &[LIST_PROTOCOLS, LEAVE, NAME],
            "1 0 entry 3 0 0 0x4ca568b84cf5b200\nimage 1 handle 3\n= SUCCESS 127\n",
        ),
    ];
    for (parts, lines) in cases {
        reports(&rt, parts, lines)?;
    }
    Ok(())
}

#[test]
fn protocols_are_opened_and_closed(rt: HostRuntime) -> Result<(), Fail> {
    let cases: [(&[&str], &str); 5] = [
        (
            &[OPEN_ALONE, ANSWER, LEAVE, NAME],
            "1 0 entry 3 0 0 0x0000000000000005\nimage 1 handle 3\n= SUCCESS 120\n",
        ),
        // An exclusive open keeps out every further one.
        (
            &[OPEN_ALONE, OPEN_AGAIN, LEAVE, NAME],
            "1 0 entry 3 0 0 ACCESS_DENIED\nimage 1 ACCESS_DENIED\n= ACCESS_DENIED 128\n",
        ),
        (
            &[OPEN_ALONE, INFORM, LEAVE, NAME],
            "1 0 entry 3 0 0 0x0000000100000020\nimage 1 handle 3\n= SUCCESS 144\n",
        ),
        (
            &[OPEN_ALONE, CLOSE, LEAVE, NAME],
            "1 0 entry 3 0 0 SUCCESS\nimage 1 handle 3\n= SUCCESS 132\n",
        ),
        (
            &[OPEN_ALONE, CLOSE, CLOSE_AGAIN, LEAVE, NAME],
            "1 0 entry 3 0 0 NOT_FOUND\nimage 1 NOT_FOUND\n= NOT_FOUND 141\n",
        ),
    ];
    for (parts, lines) in cases {
        reports(&rt, parts, lines)?;
    }
    Ok(())
}

#[test]
fn protocols_are_installed_in_a_list(rt: HostRuntime) -> Result<(), Fail> {
    let cases: [(&[&str], &str); 2] = [
        (
            &[FORGET, INSTALL_LIST, ANSWER, LEAVE, NAME],
            "1 0 entry 3 0 0 0x0000000000000005\nimage 1 handle 3\n= SUCCESS 124\n",
        ),
        // The handle has the protocol.
        (
            &[INSTALL_LIST, LEAVE, NAME],
            "1 0 entry 3 0 0 INVALID_PARAMETER\nimage 1 INVALID_PARAMETER\n= INVALID_PARAMETER 122\n",
        ),
    ];
    for (parts, lines) in cases {
        reports(&rt, parts, lines)?;
    }
    Ok(())
}

#[test]
fn what_a_failed_entry_installed_is_undone(rt: HostRuntime) -> Result<(), Fail> {
    let alloc = rt.alloc();
    let good = assembled(alloc, &[FIND_SERVICES, INSTALL, ANSWER, LEAVE, NAME])?;
    let bad = assembled(alloc, &[FIND_SERVICES, INSTALL, "BREAK 0\n", NAME])?;
    // The number of the handle that the failed entry made is given out again.
    let script = b"load b.efi\nload a.efi\nload a.efi\n";
    let report = "> load b.efi\n1 0 entry 3 0 0 trap:Break\nimage 1 ABORTED\n= ABORTED 100\n\
        > load a.efi\n1 0 entry 3 0 0 0x0000000000000004\nimage 1 handle 3\n= SUCCESS 102\n\
        > load a.efi\n1 0 entry 5 0 0 0x0000000000000006\nimage 1 handle 5\n= SUCCESS 102\n";
    let (status, sink) = replayed(alloc, script, good.as_slice(), bad.as_slice())?;
    assert_eq!(rt; status, 0);
    assert_eq!(rt; sink.taken(), report.as_bytes());
    Ok(())
}
