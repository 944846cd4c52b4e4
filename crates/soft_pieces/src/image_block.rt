//! The blocks that the firmware shows to drivers: loaded image blocks and the bus driver's binding.
ghost use Rattle.std.specs.Prelude.{◌≡◌};
ghost use Rattle.world_model.specs.Images.{block_bytes as bytes_of_block, code_type as code_type_of, data_type as data_type_of};
ghost use Rattle.soft_pieces.specs.Blocks.{contents_of};
ghost use Rattle.world_model.specs.Tables.{bus_binding};

use fw_types::{Handle, RUNTIME_DRIVER, put_u32, put_u64};
use guest_memory::address_map::{BUS_START, BUS_STOP, BUS_SUPPORTED, SYSTEM_TABLE};

/// The revision of the loaded image protocol (UEFI 2.8, 9.1: EFI Loaded Image Protocol).
const REVISION: u32 = 0x1000;

/// What a loaded image block says about an image.
#[derive(Clone, Copy, Debug)]
pub struct ImageInfo {
    /// The handle of the image that loaded it, or 0.
    pub parent: u64,
    /// The handle of the device that it comes from, or 0.
    pub device: u64,
    /// Its address.
    pub base: u64,
    /// How many bytes it has.
    pub size: u64,
    /// The subsystem of its file.
    pub subsystem: u16,
}

/// The types of memory that an image's code and data have (UEFI 2.8, EFI_MEMORY_TYPE).
fn memory_types(subsystem: u16) -> (u32, u32)
    ensures { (result.0 ≡ code_type_of subsystem) × (result.1 ≡ data_type_of subsystem) }
{
    if subsystem == RUNTIME_DRIVER {
        (5, 6)
    } else {
        (3, 4)
    }
}

/// A loaded image block (UEFI 2.8, 9.1: EFI Loaded Image Protocol). Takes no memory.
#[tactic(auto, unfolding(world_model::specs::Images::block_bytes))]
pub fn block_bytes(info: &ImageInfo) -> [u8; 96]
    ensures { result ≡ bytes_of_block (contents_of info.now) }
{
    let (code_type, data_type) = memory_types(info.subsystem);
    let mut block = [0; 96];
    put_u32(&mut block, 0, REVISION);
    put_u64(&mut block, 8, info.parent);
    put_u64(&mut block, 16, SYSTEM_TABLE);
    put_u64(&mut block, 24, info.device);
    put_u64(&mut block, 32, 0);
    put_u64(&mut block, 40, 0);
    put_u32(&mut block, 48, 0);
    put_u64(&mut block, 56, 0);
    put_u64(&mut block, 64, info.base);
    put_u64(&mut block, 72, info.size);
    put_u32(&mut block, 80, code_type);
    put_u32(&mut block, 84, data_type);
    put_u64(&mut block, 88, 0);
    block
}

/// The PCI bus driver's binding (UEFI 2.8, 11.1: EFI Driver Binding Protocol), of Version 10. Takes
/// no memory.
#[tactic(auto, unfolding(world_model::specs::Tables::bus_binding))]
pub(crate) fn binding_bytes() -> [u8; 48]
    ensures { result ≡ bus_binding }
{
    let mut block = [0; 48];
    put_u64(&mut block, 0, BUS_SUPPORTED);
    put_u64(&mut block, 8, BUS_START);
    put_u64(&mut block, 16, BUS_STOP);
    put_u32(&mut block, 24, 10);
    put_u64(&mut block, 32, Handle::firmware().get());
    put_u64(&mut block, 40, Handle::bus_driver().get());
    block
}
