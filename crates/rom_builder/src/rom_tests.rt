use super::*;
use fw_types::RomEnd;
use option_rom::{RomWriteFault, images};
use std::alloc::Global;
use std::test::Fail;

#[test]
fn files_are_the_bodies_of_a_rom(rt: HostRuntime) -> Result<(), Fail> {
    let mut files: Vec<Vec<u8>> = Vec::new(rt.alloc());
    assert_eq!(rt;
        rom_of(rt.alloc(), 0x8086, 0x100E, 0x020000, &files).err(),
        Some(RomWriteFault::Empty)
    );
    files.push(vec![in rt.alloc(); 0xC3; 448]?)?;
    files.push(vec![in rt.alloc(); 0x77; 449]?)?;
    let rom = rom_of(rt.alloc(), 0x8086, 0x100E, 0x020000, &files)
        .ok()
        .ok_or("refused")?;
    assert_eq!(rt; rom.len(), 1536);
    let mut walk = images(&rom);
    let first = walk.next().ok_or("no first image")?;
    assert_eq!(rt;
        (first.vendor, first.device, first.class),
        (0x8086, 0x100E, 0x020000)
    );
    assert_eq!(rt; first.body, [0xC3; 448].as_slice());
    let second = walk.next().ok_or("no second image")?;
    assert_eq!(rt;
        (second.vendor, second.device, second.class),
        (0x8086, 0x100E, 0x020000)
    );
    assert_eq!(rt; second.body.get(..449), Some([0x77; 449].as_slice()));
    assert!(rt; walk.next().is_none());
    assert_eq!(rt; walk.end(), Some(RomEnd::Done));
    assert_eq!(rt;
        rom_of(rt.alloc(), 0x8086, 0x100E, 0x0100_0000, &files).err(),
        Some(RomWriteFault::TooLong)
    );
    files.push(vec![in rt.alloc(); 0; 33_553_857]?)?;
    assert_eq!(rt;
        rom_of(rt.alloc(), 0x8086, 0x100E, 0x020000, &files).err(),
        Some(RomWriteFault::TooLong)
    );
    Ok(())
}
