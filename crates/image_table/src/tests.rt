use crate::{PlaceFault, owner_of, place};
use fw_types::{BOOT_SERVICE_DRIVER, Handle, MOST_FILE_BYTES, PeRefusal, RUNTIME_DRIVER, Rows};
use fw_world::World;
use guest_memory::GuestMem;
use pci_model::Board;
use rom_builder::{DriverParts, pe_of};
use std::alloc::Global;
use std::process::Abort;
use std::test::Fail;

/// `MOVIqw R7, 0` and `RET`. The image that the image writer makes of this code has 1,024 bytes,
/// and its entry point is at offset 0x200.
const SMALLEST: &[u8] = b"\x77\x37\x00\x00\x04\x00";

/// The offset of the size of image in the file.
const SIZE_OF_IMAGE: usize = 0x90;

/// The file of the smallest driver.
fn driver(alloc: Global, subsystem: u16) -> Result<Vec<u8>, Fail> {
    let parts = DriverParts {
        code: Rows::of(Vec::from_slice(alloc, SMALLEST)?),
        entry: 0,
        relocs: Rows::of(Vec::new(alloc)),
        subsystem,
    };
    Ok(pe_of(alloc, &parts).ok().ok_or("refused")?)
}

/// The smallest driver with another size of image.
fn driver_of(alloc: Global, size: u32) -> Result<Vec<u8>, Fail> {
    let mut file = driver(alloc, BOOT_SERVICE_DRIVER)?;
    for (slot, byte) in file.iter_mut().skip(SIZE_OF_IMAGE).zip(&size.to_le_bytes()) {
        *slot = *byte;
    }
    Ok(file)
}

/// What placing answers, with a handle as its number.
fn number(answer: Result<Handle, PlaceFault>) -> Result<u64, PlaceFault> {
    match answer {
        Ok(image) => Ok(image.get()),
        Err(fault) => Err(fault),
    }
}

/// A size of image, the units that are left before, what placing answers, and the units that are
/// left after it.
#[test]
fn a_unit_is_paid_for_each_64_bytes(rt: HostRuntime) -> Result<(), Fail> {
    let cases: [(u32, u32, Result<u64, PlaceFault>, u64); 7] = [
        (1024, 15, Err(PlaceFault::Units), 15),
        (1024, 16, Ok(3), 0),
        (1024, 17, Ok(3), 1),
        (1025, 16, Err(PlaceFault::Units), 16),
        (1025, 17, Ok(3), 0),
        (1088, 17, Ok(3), 0),
        (1089, 17, Err(PlaceFault::Units), 17),
    ];
    for (size, units, answer, left) in cases {
        let file = driver_of(rt.alloc(), size)?;
        let mut world = World::new(rt.alloc(), Board::empty(rt.alloc()), Vec::new(rt.alloc()))?;
        world.begin_command(units);
        let placed = place(&mut world, file.as_slice(), 0);
        assert_eq!(rt;
            number(placed),
            answer,
            "of {size} bytes with {units} units"
        );
        assert_eq!(rt; world.left(), left, "of {size} bytes with {units} units");
    }
    Ok(())
}

#[test]
fn a_refused_file_changes_nothing(rt: HostRuntime) -> Result<(), Fail> {
    let mut world = World::new(rt.alloc(), Board::empty(rt.alloc()), Vec::new(rt.alloc()))?;
    world.begin_command(100);
    let cases: [(&[u8], PeRefusal); 3] = [
        (b"", PeRefusal::Short),
        (b"MZ", PeRefusal::Short),
        (&[0; 64], PeRefusal::NoMz),
    ];
    for (file, refusal) in cases {
        let placed = place(&mut world, file, 0);
        assert_eq!(rt; number(placed), Err(PlaceFault::Refused(refusal)));
    }
    assert_eq!(rt; world.left(), 100);
    assert_eq!(rt; world.next_image(), 0x200_0000);
    Ok(())
}

/// A boot services driver with no device, and a runtime driver of the device with handle 7.
#[test]
fn images_are_placed_one_after_the_other(rt: HostRuntime) -> Result<(), Fail> {
    let mut world = World::new(rt.alloc(), Board::empty(rt.alloc()), Vec::new(rt.alloc()))?;
    images_are_placed_one_after_the_other_in(&rt, &mut world)
}

fn images_are_placed_one_after_the_other_in(
    rt: &(impl AllocGlobal + Abort),
    world: &mut World,
) -> Result<(), Fail> {
    world.begin_command(100);
    let file = driver(rt.alloc(), BOOT_SERVICE_DRIVER)?;
    assert_eq!(rt; number(place(world, file.as_slice(), 0)), Ok(3));
    let file = driver(rt.alloc(), RUNTIME_DRIVER)?;
    assert_eq!(rt; number(place(world, file.as_slice(), 7)), Ok(4));
    assert_eq!(rt; world.left(), 68);
    assert_eq!(rt; world.entry_of(3), Some(0x200_0200));
    assert_eq!(rt; world.entry_of(4), Some(0x201_0200));
    // An address, a number of bytes, and the number that they have.
    let numbers: [(u64, u8, Option<u64>); 11] = [
        // the code
        (0x200_0200, 8, Some(0x4_0000_3777)),
        (0x201_0200, 8, Some(0x4_0000_3777)),
        // the first loaded image block: device, base and size of the image, types of memory
        (0x1_0000_0018, 8, Some(0)),
        (0x1_0000_0040, 8, Some(0x200_0000)),
        (0x1_0000_0048, 8, Some(0x400)),
        (0x1_0000_0050, 8, Some(0x4_0000_0003)),
        // and the second
        (0x1_0000_0078, 8, Some(7)),
        (0x1_0000_00A0, 8, Some(0x201_0000)),
        (0x1_0000_00A8, 8, Some(0x400)),
        (0x1_0000_00B0, 8, Some(0x6_0000_0005)),
        (0x1_0000_00C0, 1, None),
    ];
    for (at, n, number) in numbers {
        assert_eq!(rt; world.read(at, n), number, "at {at}");
    }
    Ok(())
}

/// An address, and the handle of the image whose code it is.
#[test]
fn an_address_has_an_owner(rt: HostRuntime) -> Result<(), Fail> {
    let mut world = World::new(rt.alloc(), Board::empty(rt.alloc()), Vec::new(rt.alloc()))?;
    world.begin_command(100);
    let file = driver(rt.alloc(), BOOT_SERVICE_DRIVER)?;
    assert_eq!(rt; number(place(&mut world, file.as_slice(), 0)), Ok(3));
    assert_eq!(rt; number(place(&mut world, file.as_slice(), 0)), Ok(4));
    let cases: [(u64, u64); 9] = [
        (0, 0),
        // a table, and a loaded image block
        (0x1_0000, 0),
        (0x1_0000_0000, 0),
        (0x1FF_FFFF, 0),
        (0x200_0000, 3),
        (0x200_03FF, 3),
        (0x200_0400, 0),
        (0x201_0200, 4),
        (0x201_0400, 0),
    ];
    for (at, handle) in cases {
        let owner = match owner_of(&world, at) {
            Some(image) => image.get(),
            None => 0,
        };
        assert_eq!(rt; owner, handle, "at {at}");
    }
    Ok(())
}

/// Four images of 16 MiB are all that fit. The price of the fifth, 262,144 units, stays spent.
#[test]
fn a_limit_leaves_the_price_spent(rt: HostRuntime) -> Result<(), Fail> {
    let file = driver_of(rt.alloc(), MOST_FILE_BYTES as u32)?;
    let mut world = World::new(rt.alloc(), Board::empty(rt.alloc()), Vec::new(rt.alloc()))?;
    world.begin_command(2_000_000);
    let cases: [(Result<u64, PlaceFault>, u64); 5] = [
        (Ok(3), 1_737_856),
        (Ok(4), 1_475_712),
        (Ok(5), 1_213_568),
        (Ok(6), 951_424),
        (Err(PlaceFault::Full), 689_280),
    ];
    for (answer, left) in cases {
        let placed = place(&mut world, file.as_slice(), 0);
        assert_eq!(rt; number(placed), answer);
        assert_eq!(rt; world.left(), left);
    }
    assert_eq!(rt; world.next_image(), 0x600_0000);
    assert_eq!(rt; world.entry_of(7), None);
    Ok(())
}
