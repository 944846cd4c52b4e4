use super::*;
use fw_types::Rows;
use pe_image::{check, lay};
use std::alloc::{AllocError, Global};
use std::test::Fail;

/// A byte at a place.
type Change = (usize, u8);

/// The bytes that are not 0 of the image of the code 77 37 00 00 04 00 (`MOVIqw R7, 0` and `RET`):
/// headers of 512 bytes, then the code and zeros up to 1,024.
const SMALLEST: [Change; 31] = [
    (0x00, 0x4D),
    (0x01, 0x5A),
    (0x3C, 0x40),
    (0x40, 0x50),
    (0x41, 0x45),
    (0x44, 0xBC),
    (0x45, 0x0E),
    (0x46, 0x01),
    (0x54, 0xA0),
    (0x56, 0x0E),
    (0x58, 0x0B),
    (0x59, 0x02),
    (0x69, 0x02),
    (0x79, 0x02),
    (0x7D, 0x02),
    (0x91, 0x04),
    (0x95, 0x02),
    (0x9C, 0x0B),
    (0xC4, 0x06),
    (0xF8, 0x2E),
    (0xF9, 0x74),
    (0xFA, 0x65),
    (0xFB, 0x78),
    (0xFC, 0x74),
    (0x100, 0x06),
    (0x105, 0x02),
    (0x109, 0x02),
    (0x10D, 0x02),
    (0x200, 0x77),
    (0x201, 0x37),
    (0x204, 0x04),
];

/// The bytes in which the image of 16 bytes of code, with the number 0x210 in the last 8 and a
/// relocation there, differs from the smallest.
const WITH_RELOCATION: [Change; 25] = [
    (0x46, 0x02),
    (0x91, 0x06),
    (0xF1, 0x04),
    (0xF4, 0x0C),
    (0x100, 0x10),
    (0x120, 0x2E),
    (0x121, 0x72),
    (0x122, 0x65),
    (0x123, 0x6C),
    (0x124, 0x6F),
    (0x125, 0x63),
    (0x128, 0x0C),
    (0x12D, 0x04),
    (0x131, 0x02),
    (0x135, 0x04),
    (0x200, 0x00),
    (0x201, 0x00),
    (0x204, 0x00),
    (0x208, 0x10),
    (0x209, 0x02),
    (0x404, 0x0C),
    (0x408, 0x08),
    (0x409, 0xA2),
    (0x40A, 0x00),
    (0x40B, 0x00),
];

fn put(bytes: &mut Vec<u8>, changes: &[Change]) {
    for (at, byte) in changes {
        if *at < bytes.len() {
            bytes[*at] = *byte;
        }
    }
}

fn parts_of(
    alloc: Global,
    code: &[u8],
    entry: u32,
    relocs: &[u32],
    subsystem: u16,
) -> Result<DriverParts, AllocError> {
    Ok(DriverParts {
        code: Rows::of(Vec::from_slice(alloc, code)?),
        entry,
        relocs: Rows::of(Vec::from_slice(alloc, relocs)?),
        subsystem,
    })
}

const MOVE_AND_RETURN: [u8; 6] = [0x77, 0x37, 0x00, 0x00, 0x04, 0x00];

/// 16 bytes that hold the number 0x210 in the last 8.
const WITH_ADDRESS: [u8; 16] = [0, 0, 0, 0, 0, 0, 0, 0, 0x10, 0x02, 0, 0, 0, 0, 0, 0];

#[test]
fn smallest_image_is_made(rt: HostRuntime) -> Result<(), Fail> {
    let mut expected = vec![in rt.alloc(); 0; 1024]?;
    put(&mut expected, &SMALLEST);
    let parts = parts_of(rt.alloc(), &MOVE_AND_RETURN, 0, &[], 11)?;
    let file = pe_of(rt.alloc(), &parts)?;
    assert_eq!(rt; file.as_slice(), expected.as_slice());
    let view = check(&file).ok().ok_or("refused")?;
    assert_eq!(rt; view.code_end(), Some(0x206));
    Ok(())
}

#[test]
fn relocation_is_made_and_applied(rt: HostRuntime) -> Result<(), Fail> {
    let mut expected = vec![in rt.alloc(); 0; 1536]?;
    put(&mut expected, &SMALLEST);
    put(&mut expected, &WITH_RELOCATION);
    let parts = parts_of(rt.alloc(), &WITH_ADDRESS, 0, &[8], 11)?;
    let file = pe_of(rt.alloc(), &parts)?;
    assert_eq!(rt; file.as_slice(), expected.as_slice());
    let view = check(&file).ok().ok_or("refused")?;
    assert_eq!(rt; view.size(), 1536);
    let image = lay(rt.alloc(), &view, 0x0200_0000)?;
    assert_eq!(rt;
        image.get(0x208..0x210),
        Some([0x10, 0x02, 0, 0x02, 0, 0, 0, 0].as_slice())
    );
    Ok(())
}

#[test]
fn a_block_per_page(rt: HostRuntime) -> Result<(), Fail> {
    let code = vec![in rt.alloc(); 0; 8192]?;
    // the places 0x1000, 0xFFC twice, 0x21F8 and 0x200
    let parts = parts_of(rt.alloc(), &code, 8190, &[3584, 3580, 8184, 0, 3580], 12)?;
    let file = pe_of(rt.alloc(), &parts)?;
    assert_eq!(rt; file.len(), 9216);
    let blocks = [
        0x00, 0x00, 0x00, 0x00, 0x0C, 0x00, 0x00, 0x00, 0x00, 0xA2, 0xFC, 0xAF, 0x00, 0x10, 0x00,
        0x00, 0x0C, 0x00, 0x00, 0x00, 0x00, 0xA0, 0x00, 0x00, 0x00, 0x20, 0x00, 0x00, 0x0C, 0x00,
        0x00, 0x00, 0xF8, 0xA1, 0x00, 0x00, 0x00, 0x00, 0x00, 0x00,
    ];
    assert_eq!(rt; file.get(8704..8744), Some(blocks.as_slice()));
    let view = check(&file).ok().ok_or("refused")?;
    assert_eq!(rt; view.entry(), 0x21FE);
    assert_eq!(rt; view.subsystem(), 12);
    Ok(())
}

fn fault_of(
    alloc: Global,
    code: &[u8],
    entry: u32,
    relocs: &[u32],
    subsystem: u16,
) -> Result<Option<BuildFault>, AllocError> {
    let parts = parts_of(alloc, code, entry, relocs, subsystem)?;
    Ok(pe_of(alloc, &parts).err())
}

/// An entry, a relocation and a subsystem of 16 bytes of code, and why no image is made.
const FAULTS: [(u32, u32, u16, Option<BuildFault>); 11] = [
    (14, 8, 11, None),
    (14, 8, 12, None),
    (15, 8, 11, Some(BuildFault::BadEntry)),
    (1, 0, 11, Some(BuildFault::BadEntry)),
    (16, 8, 11, Some(BuildFault::BadEntry)),
    (0, 9, 11, Some(BuildFault::BadReloc)),
    (0, 0xFFFF_FFFF, 11, Some(BuildFault::BadReloc)),
    (0, 8, 10, Some(BuildFault::BadSubsystem)),
    (0, 8, 13, Some(BuildFault::BadSubsystem)),
    (1, 9, 10, Some(BuildFault::BadEntry)),
    (0, 9, 10, Some(BuildFault::BadReloc)),
];

#[test]
fn faults_at_their_edges(rt: HostRuntime) -> Result<(), Fail> {
    for (entry, reloc, subsystem, fault) in FAULTS {
        let answer = fault_of(rt.alloc(), &WITH_ADDRESS, entry, &[reloc], subsystem)?;
        assert_eq!(rt; answer, fault, "{entry} {reloc} {subsystem}");
    }
    assert_eq!(rt;
        fault_of(rt.alloc(), &[], 0, &[], 11)?,
        Some(BuildFault::BadEntry)
    );
    Ok(())
}

#[test]
fn at_most_16_mib(rt: HostRuntime) -> Result<(), Fail> {
    let code = vec![in rt.alloc(); 0; 16_776_705]?;
    let most = code.get(..16_776_704).ok_or("too short")?;
    let less = code.get(..16_776_192).ok_or("too short")?;
    assert_eq!(rt; fault_of(rt.alloc(), most, 0, &[], 11)?, None);
    assert_eq!(rt;
        fault_of(rt.alloc(), &code, 1, &[], 10)?,
        Some(BuildFault::TooLong)
    );
    assert_eq!(rt; fault_of(rt.alloc(), less, 0, &[0], 11)?, None);
    assert_eq!(rt;
        fault_of(rt.alloc(), most, 1, &[0], 10)?,
        Some(BuildFault::TooLong)
    );
    // an offset outside the code counts in the length, and is refused if the file fits
    assert_eq!(rt;
        fault_of(rt.alloc(), most, 0, &[0xFFFF_FFFF], 11)?,
        Some(BuildFault::TooLong)
    );
    assert_eq!(rt;
        fault_of(rt.alloc(), less, 0, &[0xFFFF_FFFF], 11)?,
        Some(BuildFault::BadReloc)
    );
    Ok(())
}
