use crate::{Board, BoardFault, BoardLine, DevRefusal, LineFault, board_from};
use fw_types::Text;
use std::alloc::{AllocError, Global};
use std::process::Abort;
use std::test::Fail;

/// A root bridge with a bus.
fn root(uid: u32, bus: u8) -> BoardLine {
    BoardLine::Root { uid, bus }
}

/// A function at a location, with the device ID 0x100E.
fn func(location: (u8, u8, u8), vendor: u16, class: u32) -> BoardLine {
    BoardLine::Func {
        bus: location.0,
        device: location.1,
        function: location.2,
        vendor,
        id: 0x100E,
        class,
    }
}

/// A network controller at a location.
fn network(bus: u8, device: u8, function: u8) -> BoardLine {
    func((bus, device, function), 0x8086, 0x02_0000)
}

/// A bridge at a location, to a bus.
fn bridge(bus: u8, device: u8, function: u8, secondary: u8) -> BoardLine {
    BoardLine::Bridge {
        bus,
        device,
        function,
        vendor: 0x1B36,
        id: 1,
        secondary,
    }
}

/// A BAR of function 0 of a device on bus 0.
fn bar(device: u8, index: u8, address: u32, size: u32) -> BoardLine {
    BoardLine::Bar {
        bus: 0,
        device,
        function: 0,
        index,
        address,
        size,
    }
}

/// The ROM of function 0 of a device.
fn rom(alloc: Global, bus: u8, device: u8, name: &str) -> Result<BoardLine, AllocError> {
    Ok(BoardLine::Rom {
        bus,
        device,
        function: 0,
        name: Text::of(String::from_str(alloc, name)?),
    })
}

/// Why lines are no board.
fn fault_of(alloc: Global, lines: &[BoardLine]) -> Option<BoardFault> {
    board_from(alloc, lines).err()
}

/// A board with two root bridges. On the bus of the first there are a bridge and two functions, one
/// of them of a bridge's class; a function is below the bridge.
fn lines(alloc: Global) -> Result<Vec<BoardLine>, AllocError> {
    let mut lines = Vec::new(alloc);
    lines.push(root(7, 0))?;
    lines.push(func((0, 4, 0), 0x8086, 0x06_0400))?;
    lines.push(bridge(0, 1, 0, 1))?;
    lines.push(network(0, 3, 0))?;
    lines.push(network(1, 0, 1))?;
    lines.push(bar(4, 2, 0xFEB0_0000, 16))?;
    lines.push(bar(3, 0, 0xFEB1_0000, 0x1_0000))?;
    lines.push(bar(1, 1, 0x20, 0x20))?;
    lines.push(rom(alloc, 0, 3, "net.rom")?)?;
    lines.push(root(7, 200))?;
    Ok(lines)
}

/// The board of these lines.
fn board(rt: &impl Abort, alloc: Global) -> Result<Board, Fail> {
    let lines = lines(alloc)?;
    let board = board_from(alloc, lines.as_slice());
    assert!(rt; board.is_ok());
    Ok(board?)
}

/// Lines that may not follow these.
#[test]
fn refused_lines(rt: HostRuntime) -> Result<(), Fail> {
    let alloc = rt.alloc();
    let mut lines = lines(alloc)?;
    let rom_of_none = rom(alloc, 0, 5, "net.rom")?;
    let second_rom = rom(alloc, 0, 3, "other.rom")?;
    let cases: [(BoardLine, LineFault); 29] = [
        (network(0, 32, 0), LineFault::Number),
        (network(0, 2, 8), LineFault::Number),
        (func((0, 2, 0), 0xFFFF, 0x02_0000), LineFault::Number),
        (func((0, 2, 0), 0x8086, 0x100_0000), LineFault::Number),
        (bridge(0, 2, 0, 0), LineFault::Number),
        // No bus is below a function of a bridge's class.
        (network(4, 0, 0), LineFault::Number),
        (bridge(2, 0, 0, 3), LineFault::Number),
        (bar(5, 0, 0, 16), LineFault::Number),
        (rom_of_none, LineFault::Number),
        (bar(3, 6, 0, 16), LineFault::Number),
        (bar(1, 2, 0, 16), LineFault::Number),
        (bar(3, 1, 0, 0), LineFault::Number),
        (bar(3, 1, 0, 8), LineFault::Number),
        (bar(3, 1, 0, 24), LineFault::Number),
        (bar(3, 1, 0, 0x2_0000), LineFault::Number),
        (bar(3, 1, 0x18, 16), LineFault::Number),
        (bar(3, 1, 0x8000, 0x1_0000), LineFault::Number),
        (root(8, 0), LineFault::Duplicate),
        (root(8, 1), LineFault::Duplicate),
        (bridge(0, 2, 0, 1), LineFault::Duplicate),
        (bridge(200, 2, 0, 200), LineFault::Duplicate),
        (network(0, 3, 0), LineFault::Duplicate),
        (network(0, 1, 0), LineFault::Duplicate),
        (bridge(0, 3, 0, 2), LineFault::Duplicate),
        (bar(3, 0, 0, 16), LineFault::Duplicate),
        (bar(1, 1, 0, 16), LineFault::Duplicate),
        (second_rom, LineFault::Duplicate),
        // The first fault in the order of the rules counts.
        (func((0, 3, 0), 0xFFFF, 0), LineFault::Number),
        (bar(3, 0, 8, 16), LineFault::Number),
    ];
    for (line, fault) in cases {
        lines.push(line)?;
        let wanted = match fault {
            LineFault::Extra => BoardFault::Extra { line: 11 },
            LineFault::Number => BoardFault::Number { line: 11 },
            LineFault::Duplicate => BoardFault::Duplicate { line: 11 },
        };
        assert_eq!(rt; fault_of(alloc, lines.as_slice()), Some(wanted));
        let _ = lines.pop();
    }
    // The first line with a fault counts.
    lines.push(network(0, 3, 0))?;
    lines.push(network(0, 32, 0))?;
    assert_eq!(rt;
        fault_of(alloc, lines.as_slice()),
        Some(BoardFault::Duplicate { line: 11 })
    );
    Ok(())
}

/// A 17th root, and a 257th function, including bridges, whatever else is wrong with them.
#[test]
fn full_boards(rt: HostRuntime) -> Result<(), Fail> {
    let alloc = rt.alloc();
    let mut lines = Vec::new(alloc);
    for bus in 0..16u8 {
        lines.push(root(0, bus))?;
    }
    for place in 0..255u8 {
        lines.push(network(place / 64, place % 64 / 8, place % 8))?;
    }
    lines.push(bridge(0, 31, 7, 16))?;
    assert_eq!(rt; fault_of(alloc, lines.as_slice()), None);
    lines.push(root(0, 0))?;
    assert_eq!(rt;
        fault_of(alloc, lines.as_slice()),
        Some(BoardFault::Extra { line: 273 })
    );
    let _ = lines.pop();
    lines.push(network(99, 32, 0))?;
    assert_eq!(rt;
        fault_of(alloc, lines.as_slice()),
        Some(BoardFault::Extra { line: 273 })
    );
    let _ = lines.pop();
    lines.push(bridge(0, 0, 0, 0))?;
    assert_eq!(rt;
        fault_of(alloc, lines.as_slice()),
        Some(BoardFault::Extra { line: 273 })
    );
    Ok(())
}

/// Functions by number, and by location.
#[test]
fn look_ups(rt: HostRuntime) -> Result<(), Fail> {
    let alloc = rt.alloc();
    let board = board(&rt, alloc)?;
    assert_eq!(rt; board.lines().len(), 10);
    assert_eq!(rt; board.roots(), [(7, 0), (7, 200)].as_slice());
    assert_eq!(rt; board.functions(), 4);
    let functions: [((u8, u8, u8), Option<u8>, Option<&str>); 4] = [
        ((0, 4, 0), None, None),
        ((0, 1, 0), Some(1), None),
        ((0, 3, 0), None, Some("net.rom")),
        ((1, 0, 1), None, None),
    ];
    for (number, (location, secondary, name)) in (0..4u32).zip(functions) {
        assert_eq!(rt; board.location(number), Some(location));
        assert_eq!(rt;
            board.find(location.0, location.1, location.2),
            Some(number)
        );
        assert_eq!(rt; board.secondary(number), secondary);
        assert_eq!(rt; board.rom_name(number), name);
    }
    assert_eq!(rt; board.location(4), None);
    assert_eq!(rt; board.find(1, 0, 0), None);
    assert_eq!(rt; board.secondary(4), None);
    assert_eq!(rt; board.rom_name(4), None);
    let buses: [(u8, &[u32]); 4] = [(0, &[1, 2, 0]), (1, &[3]), (200, &[]), (2, &[])];
    for (bus, numbers) in buses {
        let found = board.functions_of(alloc, bus)?;
        assert_eq!(rt; found.as_slice(), numbers);
    }
    Ok(())
}

/// Configuration space of a function and of a bridge, before anything is written.
#[test]
fn configuration_space(rt: HostRuntime) -> Result<(), Fail> {
    let board = board(&rt, rt.alloc())?;
    let reads: [(u32, u64, u64); 18] = [
        // The function 0.3.0, with a BAR.
        (2, 0x00, 0x100E_8086),
        (2, 0x04, 0),
        (2, 0x08, 0x0200_0000),
        (2, 0x0C, 0),
        (2, 0x10, 0xFEB1_0000),
        (2, 0x14, 0),
        (2, 0x18, 0),
        (2, 0x3C, 0),
        (2, 0xFC, 0),
        // The bridge 0.1.0, with its second BAR.
        (1, 0x00, 0x0001_1B36),
        (1, 0x08, 0x0604_0000),
        (1, 0x0C, 0x0001_0000),
        (1, 0x10, 0),
        (1, 0x14, 0x0000_0020),
        (1, 0x18, 0x0001_0100),
        // The function of a bridge's class, with its third BAR.
        (0, 0x08, 0x0604_0000),
        (0, 0x0C, 0),
        (0, 0x18, 0xFEB0_0000),
    ];
    for (f, at, value) in reads {
        assert_eq!(rt; board.config_read(f, at, 4), Ok(value));
    }
    Ok(())
}

/// Writes to configuration space: which bytes are kept, and which are refused.
#[test]
fn configuration_writes(rt: HostRuntime) -> Result<(), Fail> {
    let mut board = board(&rt, rt.alloc())?;
    // Each write of ones, and what 8 bytes at 0x00 and at 0x38 are then.
    assert_eq!(rt; board.config_write(2, 0x00, 4, 0xFFFF_FFFF), Ok(()));
    assert_eq!(rt; board.config_write(2, 0x06, 2, 0xFFFF), Ok(()));
    assert_eq!(rt;
        board.config_write(2, 0x10, 8, 0xFFFF_FFFF_FFFF_FFFF),
        Ok(())
    );
    assert_eq!(rt; board.config_read(2, 0x00, 8), Ok(0x100E_8086));
    assert_eq!(rt; board.config_read(2, 0x10, 8), Ok(0xFEB1_0000));
    assert_eq!(rt; board.config_write(2, 0x04, 2, 0x0107), Ok(()));
    assert_eq!(rt; board.config_read(2, 0x00, 8), Ok(0x0107_100E_8086));
    assert_eq!(rt; board.config_write(2, 0x05, 1, 0x104), Ok(()));
    assert_eq!(rt; board.config_read(2, 0x00, 8), Ok(0x0407_100E_8086));
    assert_eq!(rt;
        board.config_write(2, 0x38, 8, 0xFFFF_FF0B_FFFF_FFFF),
        Ok(())
    );
    assert_eq!(rt; board.config_read(2, 0x38, 8), Ok(0x0B_0000_0000));
    // Nothing of it is in another function.
    assert_eq!(rt; board.config_read(1, 0x04, 4), Ok(0));
    assert_eq!(rt; board.config_read(2, 0xFF, 1), Ok(0));
    assert_eq!(rt; board.config_read(2, 0xFF, 2), Err(DevRefusal::PastEnd));
    assert_eq!(rt; board.config_write(2, 0xFD, 4, 0), Err(DevRefusal::PastEnd));
    assert_eq!(rt;
        board.config_write(2, u64::MAX, 8, 0),
        Err(DevRefusal::PastEnd)
    );
    assert_eq!(rt; board.config_read(4, 0x100, 1), Err(DevRefusal::NoFunction));
    assert_eq!(rt;
        board.config_write(4, 0x100, 1, 0),
        Err(DevRefusal::NoFunction)
    );
    Ok(())
}

/// The bytes of BARs.
#[test]
fn bars(rt: HostRuntime) -> Result<(), Fail> {
    let mut board = board(&rt, rt.alloc())?;
    assert_eq!(rt; board.bar_read(0, 2, 8, 8), Ok(0));
    assert_eq!(rt; board.bar_write(0, 2, 12, 4, 0x1122_3344_5566_7788), Ok(()));
    assert_eq!(rt; board.bar_read(0, 2, 8, 8), Ok(0x5566_7788_0000_0000));
    assert_eq!(rt; board.bar_read(0, 2, 13, 1), Ok(0x77));
    assert_eq!(rt; board.bar_write(2, 0, 0xFFFF, 1, 5), Ok(()));
    assert_eq!(rt; board.bar_read(2, 0, 0xFFFE, 2), Ok(0x0500));
    // By one byte past the end, and by far.
    assert_eq!(rt; board.bar_read(0, 2, 13, 4), Err(DevRefusal::PastEnd));
    assert_eq!(rt; board.bar_write(0, 2, 9, 8, 0), Err(DevRefusal::PastEnd));
    assert_eq!(rt; board.bar_read(0, 2, 16, 1), Err(DevRefusal::PastEnd));
    assert_eq!(rt; board.bar_read(0, 2, u64::MAX, 8), Err(DevRefusal::PastEnd));
    assert_eq!(rt;
        board.bar_write(0, 2, u64::MAX, 8, 0),
        Err(DevRefusal::PastEnd)
    );
    assert_eq!(rt; board.bar_read(0, 0, 99, 1), Err(DevRefusal::NoBar));
    assert_eq!(rt; board.bar_write(3, 0, 99, 1, 0), Err(DevRefusal::NoBar));
    assert_eq!(rt; board.bar_read(4, 0, 99, 1), Err(DevRefusal::NoFunction));
    assert_eq!(rt;
        board.bar_write(4, 0, 99, 1, 0),
        Err(DevRefusal::NoFunction)
    );
    Ok(())
}
