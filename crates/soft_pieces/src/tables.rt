//! The memory of the opening state: the firmware's tables.
ghost use Rattle.std.specs.Prelude.{◌≡◌, IfOk};
ghost use Rattle.world_model.specs.Tables.{tables as all_tables};

use crate::image_block::{ImageInfo, binding_bytes, block_bytes};
use crate::mapping::map_free;
use fw_types::{BOOT_SERVICE_DRIVER, OutOfMemory};
use guest_memory::address_map::{BOOT_TABLE, BUS_BINDING, FIRMWARE_IMAGE, SYSTEM_TABLE};
use guest_memory::{Memory, SegKind};
use service_thunks::{boot_table, system_table};
use std::alloc::Global;

/// The loaded image block of the firmware, which no image loaded and which has no bytes of its own.
const FIRMWARE: ImageInfo = ImageInfo {
    parent: 0,
    device: 0,
    base: 0,
    size: 0,
    subsystem: BOOT_SERVICE_DRIVER,
};

/// Memory with the tables of the firmware.
pub fn tables(alloc: Global) -> Result<Memory, OutOfMemory>
    ensures { IfOk result (λ memory. memory ≡ all_tables) }
{
    let mut memory = Memory::new(alloc);
    let system = Vec::from_slice(alloc, &system_table())?;
    map_free(&mut memory, SYSTEM_TABLE, system, SegKind::Table)?;
    let boot = Vec::from_slice(alloc, &boot_table())?;
    map_free(&mut memory, BOOT_TABLE, boot, SegKind::Table)?;
    let binding = Vec::from_slice(alloc, &binding_bytes())?;
    map_free(&mut memory, BUS_BINDING, binding, SegKind::Table)?;
    let firmware = Vec::from_slice(alloc, &block_bytes(&FIRMWARE))?;
    map_free(&mut memory, FIRMWARE_IMAGE, firmware, SegKind::Table)?;
    Ok(memory)
}
