use super::*;
use fw_shelf::Shelf;
use fw_types::{Command, PathArg, Rows, Text};
use pci_model::BoardLine;
use std::alloc::{AllocError, Global};
use std::test::Fail;

/// The bytes that are not 0 of the image of the smallest driver, each after its place (PE/COFF: File
/// Headers, Optional Header, Section Table).
const IMAGE: [(usize, &[u8]); 19] = [
    (0x00, b"MZ"),
    (0x3C, &[0x40]),
    (0x40, b"PE"),
    (0x44, &[0xBC, 0x0E, 0x01]),
    (0x54, &[0xA0]),
    (0x56, &[0x0E]),
    (0x58, &[0x0B, 0x02]),
    (0x69, &[0x02]),
    (0x79, &[0x02]),
    (0x7D, &[0x02]),
    (0x91, &[0x04]),
    (0x95, &[0x02]),
    (0x9C, &[0x0B]),
    (0xC4, &[0x06]),
    (0xF8, b".text"),
    (0x100, &[0x06]),
    (0x105, &[0x02]),
    (0x109, &[0x02]),
    (0x10D, &[0x02]),
];

/// The code of the smallest driver.
const CODE: &[u8] = &[0x77, 0x37, 0x00, 0x00, 0x04, 0x00];

/// Puts bytes at a place.
fn put(bytes: &mut Vec<u8>, at: usize, field: &[u8]) {
    for (slot, byte) in bytes.iter_mut().skip(at).zip(field) {
        *slot = *byte;
    }
}

/// The file of the smallest driver.
fn image(alloc: Global) -> Result<Vec<u8>, AllocError> {
    let mut file = vec![in alloc; 0u8; 1024]?;
    for (at, field) in IMAGE {
        put(&mut file, at, field);
    }
    put(&mut file, 0x200, CODE);
    Ok(file)
}

/// The line of a function.
fn function(device: u8, function: u8, id: u16) -> BoardLine {
    BoardLine::Func {
        bus: 0,
        device,
        function,
        vendor: 0x1AF4,
        id,
        class: 0x02_0000,
    }
}

/// The command `load s.efi`.
fn load(alloc: Global) -> Result<Command, AllocError> {
    Ok(Command::Load {
        name: Text::of(String::from_str(alloc, "s.efi")?),
    })
}

/// The command `connect 3 one none`.
fn connect(alloc: Global) -> Command {
    Command::Connect {
        controller: 3,
        recursive: false,
        path: PathArg::Null,
        context: Rows::of(Vec::new(alloc)),
    }
}

/// The command `disconnect 3 0 0`.
const DISCONNECT: Command = Command::Disconnect {
    controller: 3,
    driver: 0,
    child: 0,
};

#[test]
fn the_load_of_size_2_is_generated(rt: HostRuntime) -> Result<(), Fail> {
    let alloc = rt.alloc();
    let (script, mut shelf) = generate(alloc, 2)?;
    let board = vec![in alloc;
        BoardLine::Root { uid: 0, bus: 0 },
        function(0, 0, 0x1000),
        function(0, 1, 0x1001),
    ]?;
    let commands = vec![in alloc;
        load(alloc)?,
        load(alloc)?,
        connect(alloc),
        DISCONNECT,
        connect(alloc),
        DISCONNECT,
    ]?;
    assert_eq!(rt; script.board.as_slice(), board.as_slice());
    assert_eq!(rt; script.commands.as_slice(), commands.as_slice());
    let file = shelf.read(alloc, "s.efi")?.ok_or("absent")?;
    assert_eq!(rt; file.as_slice(), image(alloc)?.as_slice());
    assert!(rt; shelf.read(alloc, "a.efi")?.is_none());
    Ok(())
}

#[test]
fn the_last_function_of_the_largest_load_is_on_device_31(rt: HostRuntime) -> Result<(), Fail> {
    let (script, _) = generate(rt.alloc(), LARGEST_LOAD)?;
    assert_eq!(rt; script.board.as_slice().len(), 257);
    assert_eq!(rt;
        script.board.as_slice().last(),
        Some(&function(31, 7, 0x10FF))
    );
    assert_eq!(rt; script.commands.as_slice().len(), 768);
    Ok(())
}
