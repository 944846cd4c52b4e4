use crate::{RomImage, RomPart, RomWriteFault, images, write};
use fw_types::{RomEnd, Rows};
use std::alloc::{AllocError, Global};
use std::test::Fail;

/// The bytes of an image of 512 bytes that are not 0, each with its place: no EFI image, code type
/// 0.
const PLAIN: [(usize, u8); 14] = [
    (0, 0x55),
    (1, 0xAA),
    (24, 28),
    (28, 0x50),
    (29, 0x43),
    (30, 0x49),
    (31, 0x52),
    (32, 0x86),
    (33, 0x80),
    (34, 0x0E),
    (35, 0x10),
    (38, 24),
    (43, 0x02),
    (44, 1),
];

/// What such an image also has if it is a compressed EBC image.
const COMPRESSED: [(usize, u8); 10] = [
    (4, 0xF1),
    (5, 0x0E),
    (8, 0x0B),
    (10, 0xBC),
    (11, 0x0E),
    (12, 0x01),
    (22, 0x40),
    (41, 0x01),
    (42, 0x02),
    (48, 0x03),
];

/// The bytes of the smallest driver that are not 0, each with its place. It has 1,024 bytes.
const SMALLEST: [(usize, u8); 31] = [
    (0x00, 0x4D),
    (0x01, 0x5A),
    (0x3C, 0x40),
    (0x40, 0x50),
    (0x41, 0x45),
    (0x44, 0xBC),
    (0x45, 0x0E),
    (0x46, 0x01),
    (0x54, 0xA0),
    (0x56, 0x0E),
    (0x58, 0x0B),
    (0x59, 0x02),
    (0x69, 0x02),
    (0x79, 0x02),
    (0x7D, 0x02),
    (0x91, 0x04),
    (0x95, 0x02),
    (0x9C, 0x0B),
    (0xC4, 0x06),
    (0xF8, 0x2E),
    (0xF9, 0x74),
    (0xFA, 0x65),
    (0xFB, 0x78),
    (0xFC, 0x74),
    (0x100, 0x06),
    (0x105, 0x02),
    (0x109, 0x02),
    (0x10D, 0x02),
    (0x200, 0x77),
    (0x201, 0x37),
    (0x204, 0x04),
];

/// The bytes that are not 0 before that driver in the ROM that is written with it alone.
const FRONT: [(usize, u8); 24] = [
    (0, 0x55),
    (1, 0xAA),
    (2, 3),
    (4, 0xF1),
    (5, 0x0E),
    (8, 0x0B),
    (10, 0xBC),
    (11, 0x0E),
    (22, 0x40),
    (24, 0x1C),
    (28, 0x50),
    (29, 0x43),
    (30, 0x49),
    (31, 0x52),
    (32, 0xF4),
    (33, 0x1A),
    (34, 0x00),
    (35, 0x10),
    (38, 0x18),
    (41, 0x03),
    (42, 0x02),
    (43, 0x01),
    (44, 3),
    (48, 3),
];

fn put(bytes: &mut Vec<u8>, at: usize, changes: &[(usize, u8)]) {
    for (place, byte) in changes {
        if at <= bytes.len() && *place < bytes.len() - at {
            bytes[at + *place] = *byte;
        }
    }
}

fn smallest(alloc: Global) -> Result<Vec<u8>, AllocError> {
    let mut bytes = vec![in alloc; 0; 1024]?;
    put(&mut bytes, 0, &SMALLEST);
    Ok(bytes)
}

/// A ROM of an image with code type 0, a compressed EBC image, and the smallest driver as it is
/// written.
fn three_images(alloc: Global) -> Result<Vec<u8>, AllocError> {
    let mut rom = vec![in alloc; 0; 2560]?;
    put(&mut rom, 0, &PLAIN);
    put(&mut rom, 512, &PLAIN);
    put(&mut rom, 512, &COMPRESSED);
    put(&mut rom, 1024, &FRONT);
    put(&mut rom, 1024, &[(49, 0x80)]);
    put(&mut rom, 1088, &SMALLEST);
    Ok(rom)
}

/// How many images a walk gives, and the end that it then reports.
fn walked(bytes: &[u8]) -> (usize, Option<RomEnd>) {
    let mut walk = images(bytes);
    let mut count: usize = 0;
    while let Some(_image) = walk.next() {
        count = count.saturating_add(1);
    }
    (count, walk.end())
}

/// Vendor, device, class, code type, machine and compression.
fn fields(image: &RomImage<'_>) -> (u16, u16, u32, u8, u16, u16) {
    (
        image.vendor,
        image.device,
        image.class,
        image.code_type,
        image.machine,
        image.compression,
    )
}

#[test]
fn three_images_are_walked(rt: HostRuntime) -> Result<(), Fail> {
    let rom = three_images(rt.alloc())?;
    let mut walk = images(&rom);
    let plain = walk.next().ok_or("no first image")?;
    assert_eq!(rt; fields(&plain), (0x8086, 0x100E, 0x020000, 0, 0, 0));
    assert_eq!(rt; Some(plain.body), rom.get(..512));
    assert_eq!(rt; plain.size, 512);
    let compressed = walk.next().ok_or("no second image")?;
    assert_eq!(rt;
        fields(&compressed),
        (0x8086, 0x100E, 0x020201, 3, 0x0EBC, 1)
    );
    assert_eq!(rt; Some(compressed.body), rom.get(576..1024));
    assert_eq!(rt; compressed.size, 512);
    assert_eq!(rt; walk.end(), None);
    let driver = walk.next().ok_or("no third image")?;
    assert_eq!(rt; fields(&driver), (0x1AF4, 0x1000, 0x010203, 3, 0x0EBC, 0));
    assert_eq!(rt; driver.size, 1536);
    assert_eq!(rt;
        driver.body.get(..1024),
        Some(smallest(rt.alloc())?.as_slice())
    );
    assert_eq!(rt; driver.body.get(1024..), Some([0; 448].as_slice()));
    assert_eq!(rt; walk.end(), None);
    assert!(rt; walk.next().is_none());
    assert_eq!(rt; walk.end(), Some(RomEnd::Done));
    assert!(rt; walk.next().is_none());
    assert_eq!(rt; walk.end(), Some(RomEnd::Done));
    Ok(())
}

#[test]
fn every_prefix_has_its_end(rt: HostRuntime) -> Result<(), Fail> {
    let rom = three_images(rt.alloc())?;
    // the lengths from one on and below another, how many images there are, and the end
    let vectors = [
        (0, 26, 0, RomEnd::BadSignature),
        (26, 52, 0, RomEnd::BadPcir),
        (52, 512, 0, RomEnd::PastEnd),
        (512, 538, 1, RomEnd::BadSignature),
        (538, 564, 1, RomEnd::BadPcir),
        (564, 1024, 1, RomEnd::PastEnd),
        (1024, 1050, 2, RomEnd::BadSignature),
        (1050, 1076, 2, RomEnd::BadPcir),
        (1076, 2560, 2, RomEnd::PastEnd),
        (2560, 2561, 3, RomEnd::Done),
    ];
    let mut lengths = 0;
    for (from, until, count, end) in vectors {
        assert_eq!(rt; lengths, from);
        for len in from..until {
            let bytes = rom.get(..len).ok_or("too short")?;
            assert_eq!(rt; walked(bytes), (count, Some(end)), "{len} bytes");
        }
        lengths = until;
    }
    assert_eq!(rt; lengths, rom.len() + 1);
    assert_eq!(rt; walked(&[0x55, 0xAA]), (0, Some(RomEnd::BadSignature)));
    Ok(())
}

#[test]
fn other_bytes_end_the_walk_elsewhere(rt: HostRuntime) -> Result<(), Fail> {
    let vectors = [
        (0, 0x54, 0, RomEnd::BadSignature),
        (1, 0xAB, 0, RomEnd::BadSignature),
        (24, 29, 0, RomEnd::BadPcir),
        (25, 0xFF, 0, RomEnd::BadPcir),
        (28, 0x51, 0, RomEnd::BadPcir),
        (31, 0x53, 0, RomEnd::BadPcir),
        (44, 0, 0, RomEnd::LengthZero),
        // one unit more than the ROM has, all of it, and a length of 256 units
        (44, 6, 0, RomEnd::PastEnd),
        (44, 5, 1, RomEnd::BadSignature),
        (45, 1, 0, RomEnd::PastEnd),
        // bit 7 of the indicator, and all others
        (49, 0x80, 1, RomEnd::Done),
        (49, 0x7F, 3, RomEnd::Done),
        (513, 0, 1, RomEnd::BadSignature),
        (556, 0, 1, RomEnd::LengthZero),
        (1068, 4, 2, RomEnd::PastEnd),
        (1068, 2, 3, RomEnd::Done),
        (1073, 0, 3, RomEnd::BadSignature),
    ];
    for (at, byte, count, end) in vectors {
        let mut rom = three_images(rt.alloc())?;
        put(&mut rom, at, &[(0, byte)]);
        assert_eq!(rt; walked(&rom), (count, Some(end)), "{byte} at {at}");
    }
    Ok(())
}

/// What the second image says if one of its bytes is another.
#[test]
fn efi_images_alone_have_a_machine(rt: HostRuntime) -> Result<(), Fail> {
    let vectors = [
        // no EFI signature, or no EFI code type
        (4, 0xF0, 0, 0, 512..1024),
        (7, 0x01, 0, 0, 512..1024),
        (48, 0x00, 0, 0, 512..1024),
        // the body begins on the first byte, in the middle, and past the end
        (22, 0x00, 0x0EBC, 1, 512..1024),
        (23, 0x01, 0x0EBC, 1, 832..1024),
        (23, 0x02, 0x0EBC, 1, 1024..1024),
        (23, 0xFF, 0x0EBC, 1, 1024..1024),
        (13, 0x80, 0x0EBC, 0x8001, 576..1024),
        (10, 0x64, 0x0E64, 1, 576..1024),
    ];
    for (at, byte, machine, compression, body) in vectors {
        let mut rom = three_images(rt.alloc())?;
        put(&mut rom, 512, &[(at, byte)]);
        let mut walk = images(&rom);
        walk.next().ok_or("no first image")?;
        let image = walk.next().ok_or("no second image")?;
        assert_eq!(rt;
            (image.machine, image.compression),
            (machine, compression),
            "{byte} at {at}"
        );
        assert_eq!(rt; Some(image.body), rom.get(body), "{byte} at {at}");
    }
    Ok(())
}

fn part(alloc: Global, device: u16, class: u32, size: usize) -> Result<RomPart, AllocError> {
    Ok(RomPart {
        vendor: 0x1AF4,
        device,
        class,
        body: Rows::of(vec![in alloc; 0xC3; size]?),
    })
}

#[test]
fn one_driver_is_written(rt: HostRuntime) -> Result<(), Fail> {
    let parts = [RomPart {
        vendor: 0x1AF4,
        device: 0x1000,
        class: 0x010203,
        body: Rows::of(smallest(rt.alloc())?),
    }];
    let rom = write(rt.alloc(), &parts).ok().ok_or("refused")?;
    let whole = three_images(rt.alloc())?;
    assert_eq!(rt; Some(rom.as_slice()), whole.get(1024..));
    Ok(())
}

#[test]
fn parts_that_do_not_fit_are_refused(rt: HostRuntime) -> Result<(), Fail> {
    let none: [RomPart; 0] = [];
    assert_eq!(rt; write(rt.alloc(), &none).err(), Some(RomWriteFault::Empty));
    let vectors = [
        (0x0100_0000, 1, Some(RomWriteFault::TooLong)),
        (0xFFFF_FFFF, 1, Some(RomWriteFault::TooLong)),
        (0x00FF_FFFF, 33_553_857, Some(RomWriteFault::TooLong)),
        (0x00FF_FFFF, 33_553_856, None),
        (0x00FF_FFFF, 0, None),
    ];
    for (class, size, fault) in vectors {
        let parts = [
            part(rt.alloc(), 0, 0, 1)?,
            part(rt.alloc(), 0, class, size)?,
        ];
        assert_eq!(rt;
            write(rt.alloc(), &parts).err(),
            fault,
            "{class} and {size} bytes"
        );
    }
    Ok(())
}
