use super::*;
use fw_types::PeRefusal;
use std::alloc::{AllocError, Global};
use std::test::Fail;

/// A byte at a place.
type Change = (usize, u8);

/// The bytes of the smallest image that are not 0: headers of 512 bytes, then the code 77 37 00 00
/// 04 00 (`MOVIqw R7, 0` and `RET`) and zeros up to 1,024.
const SMALLEST: [Change; 31] = [
    (0x00, 0x4D),
    (0x01, 0x5A),
    (0x3C, 0x40),
    (0x40, 0x50),
    (0x41, 0x45),
    (0x44, 0xBC),
    (0x45, 0x0E),
    (0x46, 0x01),
    (0x54, 0xA0),
    (0x56, 0x0E),
    (0x58, 0x0B),
    (0x59, 0x02),
    (0x69, 0x02),
    (0x79, 0x02),
    (0x7D, 0x02),
    (0x91, 0x04),
    (0x95, 0x02),
    (0x9C, 0x0B),
    (0xC4, 0x06),
    (0xF8, 0x2E),
    (0xF9, 0x74),
    (0xFA, 0x65),
    (0xFB, 0x78),
    (0xFC, 0x74),
    (0x100, 0x06),
    (0x105, 0x02),
    (0x109, 0x02),
    (0x10D, 0x02),
    (0x200, 0x77),
    (0x201, 0x37),
    (0x204, 0x04),
];

/// What makes a relocation directory in the smallest image: the section has 24 bytes, of which the
/// last ten from 0x208 on are the directory, with one entry in one block at page 0. The entry is
/// for the 8 bytes at 0x3F8, the last of the image.
const DIRECTORY: [Change; 7] = [
    (0x100, 0x18),
    (0xF0, 0x08),
    (0xF1, 0x02),
    (0xF4, 0x0A),
    (0x20C, 0x0A),
    (0x210, 0xF8),
    (0x211, 0xA3),
];

fn put(bytes: &mut Vec<u8>, changes: &[Change]) {
    for (at, byte) in changes {
        if *at < bytes.len() {
            bytes[*at] = *byte;
        }
    }
}

fn smallest(alloc: Global) -> Result<Vec<u8>, AllocError> {
    let mut bytes = vec![in alloc; 0; 1024]?;
    put(&mut bytes, &SMALLEST);
    Ok(bytes)
}

/// The refusal of the smallest image with changes.
fn changed(alloc: Global, changes: &[Change]) -> Result<Option<PeRefusal>, AllocError> {
    let mut bytes = smallest(alloc)?;
    put(&mut bytes, changes);
    Ok(check(&bytes).err())
}

/// The refusal of the smallest image with a relocation directory and changes.
fn relocated(alloc: Global, changes: &[Change]) -> Result<Option<PeRefusal>, AllocError> {
    let mut bytes = smallest(alloc)?;
    put(&mut bytes, &DIRECTORY);
    put(&mut bytes, changes);
    Ok(check(&bytes).err())
}

#[test]
fn smallest_image_is_accepted(rt: HostRuntime) -> Result<(), Fail> {
    let bytes = smallest(rt.alloc())?;
    let view = check(&bytes).ok().ok_or("refused")?;
    assert_eq!(rt; view.size(), 1024);
    assert_eq!(rt; view.entry(), 0x200);
    assert_eq!(rt; view.subsystem(), 11);
    assert_eq!(rt; view.code_end(), Some(0x206));
    let image = lay(rt.alloc(), &view, 0x0200_0000)?;
    assert_eq!(rt; image.len(), 1024);
    assert_eq!(rt; image.get(..0x206), bytes.get(..0x206));
    Ok(())
}

fn refusal_of_length(length: usize) -> Option<PeRefusal> {
    match length {
        0..=63 => Some(PeRefusal::Short),
        64..=87 => Some(PeRefusal::NoPe),
        88..=247 => Some(PeRefusal::Magic),
        248..=511 => Some(PeRefusal::Headers),
        512..=517 => Some(PeRefusal::Section),
        _ => None,
    }
}

#[test]
fn fronts_of_the_smallest_image(rt: HostRuntime) -> Result<(), Fail> {
    let bytes = smallest(rt.alloc())?;
    for length in 0..1025 {
        let front = bytes.get(..length).ok_or("too short")?;
        assert_eq!(rt;
            check(front).err(),
            refusal_of_length(length),
            "{length} bytes"
        );
    }
    Ok(())
}

const RULES: [(&[Change], Option<PeRefusal>); 46] = [
    (&[(0x00, 0x4C)], Some(PeRefusal::NoMz)),
    (&[(0x01, 0x5B)], Some(PeRefusal::NoMz)),
    // the signature, and room for the COFF file header after it
    (&[(0x3C, 0x41)], Some(PeRefusal::NoPe)),
    (&[(0x41, 0x44)], Some(PeRefusal::NoPe)),
    (&[(0x43, 0x01)], Some(PeRefusal::NoPe)),
    (
        &[(0x3C, 0xE8), (0x3D, 0x03), (1000, 0x50), (1001, 0x45)],
        Some(PeRefusal::Machine),
    ),
    (
        &[(0x3C, 0xE9), (0x3D, 0x03), (1001, 0x50), (1002, 0x45)],
        Some(PeRefusal::NoPe),
    ),
    (&[(0x3F, 0xFF)], Some(PeRefusal::NoPe)),
    (&[(0x44, 0xBB)], Some(PeRefusal::Machine)),
    (&[(0x45, 0x0F)], Some(PeRefusal::Machine)),
    // the size of the optional header: at least 112, and up to the end of the file
    (&[(0x54, 0x6F)], Some(PeRefusal::Magic)),
    (&[(0x54, 0x70)], Some(PeRefusal::Section)),
    (&[(0x54, 0xA8), (0x55, 0x03)], Some(PeRefusal::Headers)),
    (&[(0x54, 0xA9), (0x55, 0x03)], Some(PeRefusal::Magic)),
    (&[(0x59, 0x01)], Some(PeRefusal::Magic)),
    // the subsystem, and that the first rule counts
    (&[(0x9C, 0x0A)], Some(PeRefusal::Subsystem)),
    (&[(0x9C, 0x0C)], None),
    (&[(0x9C, 0x0D)], Some(PeRefusal::Subsystem)),
    (&[(0x9C, 0x0A), (0x56, 0x0F)], Some(PeRefusal::Subsystem)),
    (&[(0x56, 0x0F)], Some(PeRefusal::Stripped)),
    // the size of the image: from 1 byte to 16 MiB
    (&[(0x91, 0x00)], Some(PeRefusal::Size)),
    (&[(0x91, 0x00), (0x90, 0x01)], Some(PeRefusal::Headers)),
    (&[(0x91, 0x00), (0x93, 0x01)], None),
    (
        &[(0x90, 0x01), (0x91, 0x00), (0x93, 0x01)],
        Some(PeRefusal::Size),
    ),
    // the size of the headers: at most that of the image and of the file
    (&[(0x90, 0x00), (0x91, 0x02)], Some(PeRefusal::Section)),
    (&[(0x90, 0xFF), (0x91, 0x01)], Some(PeRefusal::Headers)),
    (&[(0x92, 0x01), (0x95, 0x04)], Some(PeRefusal::Section)),
    (
        &[(0x92, 0x01), (0x94, 0x01), (0x95, 0x04)],
        Some(PeRefusal::Headers),
    ),
    // the section table ends in the headers
    (&[(0x94, 0x20), (0x95, 0x01)], None),
    (&[(0x94, 0x1F), (0x95, 0x01)], Some(PeRefusal::Headers)),
    // a section begins after the headers
    (&[(0x104, 0xFF), (0x105, 0x01)], Some(PeRefusal::Section)),
    // its extent, by either size, lies in the image
    (&[(0x100, 0x00), (0x101, 0x02)], None),
    (&[(0x100, 0x01), (0x101, 0x02)], Some(PeRefusal::Section)),
    (&[(0x100, 0x00)], None),
    (&[(0x100, 0x00), (0x108, 0x01)], Some(PeRefusal::Section)),
    // what is copied lies in the file; if nothing is copied, the file offset does not count
    (&[(0x10C, 0xFA), (0x10D, 0x03)], None),
    (&[(0x10C, 0xFB), (0x10D, 0x03)], Some(PeRefusal::Section)),
    (&[(0x109, 0x00), (0x10F, 0xFF)], None),
    // the second section begins after the first
    (&[(0x46, 0x02), (0x12C, 0x06), (0x12D, 0x02)], None),
    (
        &[(0x46, 0x02), (0x12C, 0x05), (0x12D, 0x02)],
        Some(PeRefusal::Section),
    ),
    // the entry point is even and in the image
    (&[(0x68, 0x01)], Some(PeRefusal::Entry)),
    (&[(0x69, 0x00)], None),
    (&[(0x68, 0xFE), (0x69, 0x03)], None),
    (&[(0x68, 0x00), (0x69, 0x04)], Some(PeRefusal::Entry)),
    (&[(0x68, 0xFF), (0x69, 0x03)], Some(PeRefusal::Entry)),
    (&[(0x6B, 0x80)], Some(PeRefusal::Entry)),
];

#[test]
fn rules_at_their_edges(rt: HostRuntime) -> Result<(), Fail> {
    for (changes, refusal) in RULES {
        assert_eq!(rt; changed(rt.alloc(), changes)?, refusal, "{changes:?}");
    }
    Ok(())
}

const RELOCATIONS: [(&[Change], Option<PeRefusal>); 29] = [
    // the last 8 bytes of the image, and the last 4
    (&[], None),
    (&[(0x210, 0xF9)], Some(PeRefusal::Reloc)),
    (&[(0x210, 0xFC), (0x211, 0x33)], None),
    (&[(0x210, 0xFD), (0x211, 0x33)], Some(PeRefusal::Reloc)),
    (&[(0x20B, 0x80)], Some(PeRefusal::Reloc)),
    // padding, and other types
    (&[(0x210, 0xFF), (0x211, 0x0F)], None),
    (&[(0x211, 0x13)], Some(PeRefusal::Reloc)),
    (&[(0x211, 0x23)], Some(PeRefusal::Reloc)),
    (&[(0x211, 0x43)], Some(PeRefusal::Reloc)),
    (&[(0x211, 0x93)], Some(PeRefusal::Reloc)),
    (&[(0x211, 0xB3)], Some(PeRefusal::Reloc)),
    (&[(0x211, 0xF3)], Some(PeRefusal::Reloc)),
    // there is no directory, so the bad entry doesn't count
    (&[(0x210, 0xF9), (0xC4, 0x05)], None),
    (&[(0x210, 0xF9), (0xC4, 0x07)], Some(PeRefusal::Reloc)),
    (&[(0x210, 0xF9), (0xF4, 0x00)], None),
    // the directory lies in what a section has of the file
    (&[(0x100, 0x12)], None),
    (&[(0x100, 0x11)], Some(PeRefusal::Reloc)),
    (&[(0x108, 0x12), (0x109, 0x00)], None),
    (&[(0x108, 0x11), (0x109, 0x00)], Some(PeRefusal::Reloc)),
    (&[(0xF0, 0xFF), (0xF1, 0x01)], Some(PeRefusal::Reloc)),
    (&[(0xF3, 0xFF)], Some(PeRefusal::Reloc)),
    // a block has its header, and an even size that holds it and lies in the directory
    (&[(0xF4, 0x07)], Some(PeRefusal::Reloc)),
    (&[(0xF4, 0x09)], Some(PeRefusal::Reloc)),
    (&[(0x20C, 0x06)], Some(PeRefusal::Reloc)),
    (&[(0x20C, 0x08)], Some(PeRefusal::Reloc)),
    (&[(0x20C, 0x08), (0xF4, 0x08)], None),
    (&[(0x20C, 0x09)], Some(PeRefusal::Reloc)),
    (&[(0x20C, 0x0C)], Some(PeRefusal::Reloc)),
    // a rule on relocations comes before that on the entry point
    (&[(0x210, 0xF9), (0x68, 0x01)], Some(PeRefusal::Reloc)),
];

#[test]
fn relocation_rules_at_their_edges(rt: HostRuntime) -> Result<(), Fail> {
    for (changes, refusal) in RELOCATIONS {
        assert_eq!(rt; relocated(rt.alloc(), changes)?, refusal, "{changes:?}");
    }
    Ok(())
}

/// A file of 1,536 bytes: 16 bytes of code, with the number 0x210 in the last 8, and a section of
/// relocations at 0x400 with one block of two entries: type 10 for the place 0x208, and padding.
const WITH_RELOCATIONS: [Change; 26] = [
    (0x46, 0x02),
    (0x91, 0x06),
    (0xF1, 0x04),
    (0xF4, 0x0C),
    (0x100, 0x10),
    (0x120, 0x2E),
    (0x121, 0x72),
    (0x122, 0x65),
    (0x123, 0x6C),
    (0x124, 0x6F),
    (0x125, 0x63),
    (0x128, 0x0C),
    (0x12D, 0x04),
    (0x131, 0x02),
    (0x135, 0x04),
    (0x200, 0x00),
    (0x201, 0x00),
    (0x204, 0x00),
    (0x208, 0x10),
    (0x209, 0x02),
    (0x404, 0x0C),
    (0x408, 0x08),
    (0x409, 0xA2),
    (0x40A, 0x00),
    (0x40B, 0x00),
    (0x40C, 0x00),
];

/// The 8 bytes at a place of the file with relocations and changes, laid at a base.
fn laid_at(
    alloc: Global,
    changes: &[Change],
    base: u64,
    place: usize,
) -> Result<Option<[u8; 8]>, Fail> {
    let mut bytes = vec![in alloc; 0; 1536]?;
    put(&mut bytes, &SMALLEST);
    put(&mut bytes, &WITH_RELOCATIONS);
    put(&mut bytes, changes);
    let view = check(&bytes).ok().ok_or("refused")?;
    let image = lay(alloc, &view, base)?;
    let Some(field) = image.get(place..place.saturating_add(8)) else {
        return Ok(None);
    };
    Ok(<[u8; 8]>::try_from(field).ok())
}

/// Changes of the file, a base, a place, and the 8 bytes that the laid image has there.
const LAID: [(&[Change], u64, usize, [u8; 8]); 14] = [
    // type 10 adds to 8 bytes, type 3 only to the low 4, and padding to none
    (&[], 0x0200_0000, 0x208, [0x10, 0x02, 0, 0x02, 0, 0, 0, 0]),
    (
        &[(0x409, 0x32)],
        0x0200_0000,
        0x208,
        [0x10, 0x02, 0, 0x02, 0, 0, 0, 0],
    ),
    (
        &[(0x409, 0x02)],
        0x0200_0000,
        0x208,
        [0x10, 0x02, 0, 0, 0, 0, 0, 0],
    ),
    (
        &[(0x20B, 0xFF), (0x20C, 0x01)],
        0x0200_0000,
        0x208,
        [0x10, 0x02, 0, 0x01, 0x02, 0, 0, 0],
    ),
    (
        &[(0x20B, 0xFF), (0x20C, 0x01), (0x409, 0x32)],
        0x0200_0000,
        0x208,
        [0x10, 0x02, 0, 0x01, 0x01, 0, 0, 0],
    ),
    // what is added is the base minus the preferred base, which wraps
    (
        &[(0x73, 0x01)],
        0x0200_0000,
        0x208,
        [0x10, 0x02, 0, 0x01, 0, 0, 0, 0],
    ),
    (
        &[(0x73, 0x01)],
        0,
        0x208,
        [0x10, 0x02, 0, 0xFF, 0xFF, 0xFF, 0xFF, 0xFF],
    ),
    (
        &[(0x73, 0x01), (0x409, 0x32)],
        0,
        0x208,
        [0x10, 0x02, 0, 0xFF, 0, 0, 0, 0],
    ),
    (
        &[(0x73, 0x02)],
        0x0200_0000,
        0x208,
        [0x10, 0x02, 0, 0, 0, 0, 0, 0],
    ),
    // entries at one place, and entries that overlap, in their order
    (
        &[(0x40A, 0x08), (0x40B, 0xA2)],
        0x0200_0000,
        0x208,
        [0x10, 0x02, 0, 0x04, 0, 0, 0, 0],
    ),
    (
        &[(0x40A, 0x0A), (0x40B, 0x32)],
        0x0200_0000,
        0x208,
        [0x10, 0x02, 0, 0x02, 0, 0x02, 0, 0],
    ),
    // a first entry that changes the second one in the image: the one in the file counts
    (
        &[(0x408, 0x08), (0x409, 0x34), (0x40A, 0x08), (0x40B, 0x32)],
        0x0200_0000,
        0x408,
        [0x08, 0x34, 0x08, 0x34, 0, 0, 0, 0],
    ),
    (
        &[(0x408, 0x08), (0x409, 0x34), (0x40A, 0x08), (0x40B, 0x32)],
        0x0200_0000,
        0x208,
        [0x10, 0x02, 0, 0x02, 0, 0, 0, 0],
    ),
    // two blocks of one entry each, the second of page 0xFFFFF000 with padding
    (
        &[
            (0x404, 0x0A),
            (0x40B, 0xF0),
            (0x40C, 0xFF),
            (0x40D, 0xFF),
            (0x40E, 0x0A),
            (0x128, 0x14),
            (0xF4, 0x14),
        ],
        0x0200_0000,
        0x208,
        [0x10, 0x02, 0, 0x02, 0, 0, 0, 0],
    ),
];

#[test]
fn relocations_are_applied(rt: HostRuntime) -> Result<(), Fail> {
    for (changes, base, place, bytes) in LAID {
        assert_eq!(rt;
            laid_at(rt.alloc(), changes, base, place)?,
            Some(bytes),
            "{changes:?}"
        );
    }
    Ok(())
}

/// Changes of the smallest image, a place, and the byte that the laid image has there.
const PLACED: [(&[Change], usize, u8); 8] = [
    // what follows the headers or a section in the file is not in the image
    (&[(0x11F, 0x11), (0x94, 0x20), (0x95, 0x01)], 0x11F, 0x11),
    (&[(0x120, 0x11), (0x94, 0x20), (0x95, 0x01)], 0x120, 0),
    (&[(0x206, 0x11)], 0x206, 0),
    // a section is longer in the image than in the file
    (&[(0x3FF, 0x11), (0x101, 0x03), (0x91, 0x06)], 0x3FF, 0x11),
    (&[(0x101, 0x03), (0x91, 0x06)], 0x400, 0),
    // it is elsewhere in the file
    (&[(0x10C, 0xF8), (0x10D, 0x00)], 0x200, 0x2E),
    (&[(0x10C, 0xF8), (0x10D, 0x00)], 0x204, 0x74),
    // and elsewhere in the image
    (&[(0x104, 0x01)], 0x202, 0x37),
];

#[test]
fn sections_are_placed(rt: HostRuntime) -> Result<(), Fail> {
    for (changes, place, byte) in PLACED {
        let mut bytes = smallest(rt.alloc())?;
        put(&mut bytes, changes);
        let view = check(&bytes).ok().ok_or("refused")?;
        let image = lay(rt.alloc(), &view, 0)?;
        assert_eq!(rt; image.get(place).copied(), Some(byte), "{changes:?}");
    }
    Ok(())
}

/// Changes of the smallest image, and the end of the section that has its entry point.
const CODE_ENDS: [(&[Change], Option<u32>); 7] = [
    (&[(0x68, 0x04)], Some(0x206)),
    (&[(0x68, 0x06)], None),
    (&[(0x69, 0x00)], None),
    (&[(0x100, 0x00)], Some(0x400)),
    (&[(0x100, 0x00), (0x101, 0x02)], Some(0x400)),
    (&[(0x100, 0x00), (0x109, 0x00)], None),
    (
        &[
            (0x46, 0x02),
            (0x128, 0x02),
            (0x12C, 0x08),
            (0x12D, 0x02),
            (0x68, 0x08),
        ],
        Some(0x20A),
    ),
];

#[test]
fn code_ends_with_its_section(rt: HostRuntime) -> Result<(), Fail> {
    for (changes, end) in CODE_ENDS {
        let mut bytes = smallest(rt.alloc())?;
        put(&mut bytes, changes);
        let view = check(&bytes).ok().ok_or("refused")?;
        assert_eq!(rt; view.code_end(), end, "{changes:?}");
    }
    Ok(())
}

/// The refusal of a file with headers of 4,352 bytes and empty sections after them.
fn with_sections(alloc: Global, count: u8) -> Result<Option<PeRefusal>, AllocError> {
    let mut bytes = vec![in alloc; 0; 4352]?;
    put(&mut bytes, &SMALLEST);
    put(&mut bytes, &[(0x46, count), (0x91, 0x11), (0x95, 0x11)]);
    for index in 0..count {
        let header = 0xF8 + 40 * usize::from(index);
        put(
            &mut bytes,
            &[
                (header + 8, 0),
                (header + 9, 0),
                (header + 13, 0x11),
                (header + 17, 0),
            ],
        );
    }
    Ok(check(&bytes).err())
}

#[test]
fn at_most_96_sections(rt: HostRuntime) -> Result<(), Fail> {
    assert_eq!(rt; with_sections(rt.alloc(), 0)?, None);
    assert_eq!(rt; with_sections(rt.alloc(), 96)?, None);
    assert_eq!(rt; with_sections(rt.alloc(), 97)?, Some(PeRefusal::Headers));
    Ok(())
}
