use crate::{GuestMem, MemRefusal, Memory, SegKind};
use std::alloc::AllocError;
use std::process::Abort;
use std::test::Fail;

/// `len` bytes, all the same.
fn bytes_of(rt: &impl AllocGlobal, len: usize, byte: u8) -> Result<Vec<u8>, AllocError> {
    vec![in rt.alloc(); byte; len]
}

/// What mapping answers, each segment after those before it.
#[test]
fn mapping(rt: HostRuntime) -> Result<(), Fail> {
    let mut memory = Memory::new(rt.alloc());
    let vectors: [(u64, usize, SegKind, Result<(), MemRefusal>); 11] = [
        (0x1000, 0x10, SegKind::Pool, Ok(())),
        // at one base, and one byte over the end
        (0x1000, 0x10, SegKind::Pool, Err(MemRefusal::Overlap)),
        (0x100F, 0x10, SegKind::Table, Err(MemRefusal::Overlap)),
        // up to the beginning, and after the end
        (0x0FF0, 0x10, SegKind::Stack, Ok(())),
        (0x1010, 0, SegKind::Firmware, Ok(())),
        // at a segment of no bytes
        (0x1010, 0, SegKind::Firmware, Err(MemRefusal::Overlap)),
        // up to 2^63, and one byte more
        (
            0x7FFF_FFFF_FFFF_FFF0,
            0x11,
            SegKind::Image,
            Err(MemRefusal::Overlap),
        ),
        (0x7FFF_FFFF_FFFF_FFF0, 0x10, SegKind::Image, Ok(())),
        // the most bytes of all images, and one more
        (
            0x1_0000_0000,
            67_108_849,
            SegKind::Image,
            Err(MemRefusal::Full),
        ),
        (0x1_0000_0000, 67_108_848, SegKind::Image, Ok(())),
        // the most bytes of all blocks, and one more
        (
            0x2_0000_0000,
            67_108_849,
            SegKind::Firmware,
            Err(MemRefusal::Full),
        ),
    ];
    for (base, len, kind, answer) in vectors {
        let bytes = bytes_of(&rt, len, 0)?;
        assert_eq!(rt; memory.map(base, bytes, kind), answer);
    }
    assert_eq!(rt; memory.total(SegKind::Image), 67_108_864);
    assert_eq!(rt; memory.total(SegKind::Pool), 0x10);
    assert_eq!(rt; memory.total(SegKind::Firmware), 0);
    Ok(())
}

/// A pool segment of the bytes 0x11, an image of 0x22 right after it, and a table of 0x33.
fn three_segments(rt: &impl AllocGlobal) -> Result<Memory, Fail> {
    let mut memory = Memory::new(rt.alloc());
    memory.map(0x1000, bytes_of(rt, 0x10, 0x11)?, SegKind::Pool)?;
    memory.map(0x1010, bytes_of(rt, 0x14, 0x22)?, SegKind::Image)?;
    memory.map(0x3000, bytes_of(rt, 0x10, 0x33)?, SegKind::Table)?;
    Ok(memory)
}

#[test]
fn reading_and_writing(rt: HostRuntime) -> Result<(), Fail> {
    let mut memory = three_segments(&rt)?;
    let writes: [(u64, u8, Result<(), MemRefusal>); 7] = [
        (0x1004, 4, Ok(())),
        (0x1008, 8, Ok(())),
        (0x1012, 1, Ok(())),
        // across two segments, after one, and before any
        (0x100C, 8, Err(MemRefusal::NoSegment)),
        (0x1023, 2, Err(MemRefusal::NoSegment)),
        (0, 1, Err(MemRefusal::NoSegment)),
        (0x3000, 2, Err(MemRefusal::ReadOnly)),
    ];
    for (at, n, answer) in writes {
        assert_eq!(rt; memory.write(at, n, 0x8877_6655_4433_2201), answer);
    }
    let reads: [(u64, u8, Option<u64>); 8] = [
        (0x1000, 4, Some(0x1111_1111)),
        (0x1004, 4, Some(0x4433_2201)),
        (0x1006, 4, Some(0x2201_4433)),
        (0x1008, 8, Some(0x8877_6655_4433_2201)),
        (0x1011, 2, Some(0x0122)),
        (0x3000, 2, Some(0x3333)),
        (0x100F, 2, None),
        (0x2000, 1, None),
    ];
    for (at, n, number) in reads {
        assert_eq!(rt; memory.read(at, n), number);
    }
    Ok(())
}

/// Which ranges can be read and written, and how many bytes are read of them.
#[test]
fn ranges(rt: HostRuntime) -> Result<(), Fail> {
    let memory = three_segments(&rt)?;
    let vectors: [(u64, u64, bool, bool); 12] = [
        // at a segment's start, at its end, and all of it
        (0x1000, 4, true, true),
        (0x100C, 4, true, true),
        (0x1010, 0x14, true, true),
        // across two segments that touch, past an end, and after it
        (0x100C, 8, false, false),
        (0x1020, 5, false, false),
        (0x1024, 1, false, false),
        // past 2^64
        (0x1000, u64::MAX, false, false),
        (u64::MAX, 2, false, false),
        // in a table
        (0x3000, 0x10, true, false),
        // no bytes, in a segment and in none
        (0x1008, 0, true, true),
        (0x3000, 0, true, true),
        (0x5000, 0, true, true),
    ];
    for (at, n, reads, writes) in vectors {
        assert_eq!(rt; memory.can_read(at, n), reads);
        assert_eq!(rt; memory.can_write(at, n), writes);
        if memory.can_read(at, n) {
            assert_eq!(rt; memory.bytes(at, n).len() as u64, n);
        }
    }
    Ok(())
}

/// Bytes that are put over one another, one in many places, and none.
#[test]
fn putting(rt: HostRuntime) -> Result<(), Fail> {
    let mut memory = three_segments(&rt)?;
    let puts: [(u64, &[u8]); 5] = [
        (0x1004, &[1, 2, 3, 4]),
        (0x1006, &[5, 6, 7]),
        (0x100F, &[8]),
        (0x1010, &[9, 10]),
        (0x3000, &[]),
    ];
    for (at, bytes) in puts {
        if memory.can_write(at, bytes.len() as u64) {
            memory.put(at, bytes);
        }
    }
    let fills: [(u64, u64, u8); 3] = [(0x1003, 2, 12), (0x1020, 4, 13), (0x3004, 0, 14)];
    for (at, n, byte) in fills {
        if memory.can_write(at, n) {
            memory.fill(at, n, byte);
        }
    }
    let wanted: [(u64, &[u8]); 5] = [
        (0x1000, &[17, 17, 17, 12, 12, 2, 5, 6, 7, 17]),
        (0x100E, &[17, 8]),
        (0x1010, &[9, 10, 34]),
        (0x101F, &[34, 13, 13, 13, 13]),
        (0x3000, &[51, 51, 51, 51, 51, 51]),
    ];
    for (at, bytes) in wanted {
        let n = bytes.len() as u64;
        assert!(rt; memory.can_read(at, n));
        assert_eq!(rt; memory.bytes(at, n), bytes);
    }
    Ok(())
}

/// Which segments begin where, and where images begin.
#[test]
fn places(rt: HostRuntime) -> Result<(), Fail> {
    let memory = three_segments(&rt)?;
    let begins: [(SegKind, u64, bool); 5] = [
        (SegKind::Pool, 0x1000, true),
        (SegKind::Firmware, 0x1000, false),
        (SegKind::Pool, 0x1001, false),
        (SegKind::Image, 0x1010, true),
        (SegKind::Table, 0x3000, true),
    ];
    for (kind, base, wanted) in begins {
        assert_eq!(rt; memory.begins(kind, base), wanted);
    }
    let bases: [(u64, Option<u64>); 5] = [
        (0x100f, None),
        (0x1010, Some(0x1010)),
        (0x1023, Some(0x1010)),
        (0x1024, None),
        (0x3000, None),
    ];
    for (at, base) in bases {
        assert_eq!(rt; memory.image_base(at), base);
    }
    // 16 bytes of blocks and 20 of images are there
    let full: [(SegKind, u64, bool); 6] = [
        (SegKind::Pool, 67_108_848, false),
        (SegKind::Firmware, 67_108_849, true),
        (SegKind::Image, 67_108_844, false),
        (SegKind::Image, 67_108_845, true),
        (SegKind::Stack, 67_108_865, false),
        (SegKind::Table, u64::MAX, false),
    ];
    for (kind, size, wanted) in full {
        assert_eq!(rt; memory.is_full(kind, size), wanted);
    }
    Ok(())
}

#[test]
fn code(rt: HostRuntime) -> Result<(), Fail> {
    let memory = three_segments(&rt)?;
    let vectors: [(u64, u8); 6] = [
        (0x1010, 18),
        (0x1013, 17),
        (0x1023, 1),
        (0x1024, 0),
        // no image
        (0x1000, 0),
        (0x3000, 0),
    ];
    for (at, count) in vectors {
        let mut into = [0xFF; 18];
        assert_eq!(rt; memory.fetch(at, &mut into), count);
        let mut wanted = [0xFF; 18];
        for i in 0..count.min(18) {
            wanted[usize::from(i)] = 0x22;
        }
        assert_eq!(rt; into, wanted);
    }
    Ok(())
}

#[test]
fn unmapping(rt: HostRuntime) -> Result<(), Fail> {
    let mut memory = three_segments(&rt)?;
    assert_eq!(rt; memory.read(0x1010, 1), Some(0x22));
    let image = memory.unmap(0x1010)?;
    assert_eq!(rt; (image.base, image.kind), (0x1010, SegKind::Image));
    assert_eq!(rt; image.bytes.as_slice(), [0x22; 0x14].as_slice());
    assert_eq!(rt; memory.unmap(0x1001).err(), Some(MemRefusal::NoSegment));
    assert_eq!(rt; memory.read(0x1010, 1), None);
    assert_eq!(rt; memory.total(SegKind::Table), 0x10);
    Ok(())
}

/// As many blocks as there may be, and one more. Each is written, and read a hundred times out of
/// order.
#[test]
fn most_blocks(rt: HostRuntime) -> Result<(), Fail> {
    let mut memory = Memory::new(rt.alloc());
    for number in 0..65_536u64 {
        let base = 0x1_0000_0000 + 16 * number;
        memory.map(base, bytes_of(&rt, 16, 0)?, SegKind::Pool)?;
        assert_eq!(rt; memory.write(base, 8, number), Ok(()));
    }
    for _ in 0..100u8 {
        for i in 0..65_536u64 {
            let number = 40_503 * i % 65_536;
            assert_eq!(rt; memory.read(0x1_0000_0000 + 16 * number, 8), Some(number));
        }
    }
    let more = bytes_of(&rt, 16, 0)?;
    assert_eq!(rt;
        memory.map(0x1_0010_0000, more, SegKind::Pool),
        Err(MemRefusal::Full)
    );
    Ok(())
}

/// A `copy` and a `clone` of this test's own.
trait Absent {
    fn copy(&self) -> u64;

    fn clone(&self) -> u64;
}

impl Absent for Memory {
    fn copy(&self) -> u64 {
        1
    }

    fn clone(&self) -> u64 {
        2
    }
}

/// A memory has no call that copies it, and is not Clone: otherwise these would not be the calls of
/// `Absent`.
#[test]
fn no_copies(rt: HostRuntime) -> Result<(), Fail> {
    let memory = Memory::new(rt.alloc());
    assert_eq!(rt; (memory.copy(), memory.clone()), (1, 2));
    Ok(())
}
