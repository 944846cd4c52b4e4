//! The blocks of a child of the bus, except its device path.
ghost use Rattle.std.specs.Prelude.{◌≡◌, ◌++◌, IfOk, OnOk, flat_map};
ghost use Rattle.byteorder.specs.Endian.{little_bytes};
ghost use Rattle.world_model.specs.NewChild.{override_block, pci_io_block};

use fw_types::OutOfMemory;
use guest_memory::address_map::{BUS_GET_DRIVER, PCI_IO_FUNCTIONS};
use std::alloc::Global;

/// The addresses of the 18 functions of PCI I/O, and then RomSize and RomImage, which are 0.
const PCI_IO: [u64; 20] = [
    PCI_IO_FUNCTIONS,
    PCI_IO_FUNCTIONS + 8,
    PCI_IO_FUNCTIONS + 16,
    PCI_IO_FUNCTIONS + 24,
    PCI_IO_FUNCTIONS + 32,
    PCI_IO_FUNCTIONS + 40,
    PCI_IO_FUNCTIONS + 48,
    PCI_IO_FUNCTIONS + 56,
    PCI_IO_FUNCTIONS + 64,
    PCI_IO_FUNCTIONS + 72,
    PCI_IO_FUNCTIONS + 80,
    PCI_IO_FUNCTIONS + 88,
    PCI_IO_FUNCTIONS + 96,
    PCI_IO_FUNCTIONS + 104,
    PCI_IO_FUNCTIONS + 112,
    PCI_IO_FUNCTIONS + 120,
    PCI_IO_FUNCTIONS + 128,
    PCI_IO_FUNCTIONS + 136,
    0,
    0,
];

/// Appends a number in 8 bytes.
///
/// # Errors
///
/// `OutOfMemory` if there is no memory.
fn add_number(bytes: &mut Vec<u8>, number: u64) -> Result<(), OutOfMemory>
    ensures { OnOk result (bytes.new.items ≡ bytes.old.items ++ little_bytes 8 number) }
{
    bytes.extend_from_slice(&number.to_le_bytes())?;
    Ok(())
}

/// Numbers in 8 bytes each.
///
/// # Errors
///
/// `OutOfMemory` if there is no memory.
fn number_bytes(alloc: Global, numbers: &[u64]) -> Result<Vec<u8>, OutOfMemory>
    ensures { IfOk result (λ bytes. bytes.items ≡ flat_map (little_bytes 8) numbers.now) }
{
    let mut bytes = Vec::new(alloc);
    for number in numbers {
        add_number(&mut bytes, *number)?;
    }
    Ok(bytes)
}

/// The block of PCI I/O (UEFI 2.8, 14.4: EFI PCI I/O Protocol).
///
/// # Errors
///
/// `OutOfMemory` if there is no memory.
#[tactic(auto, unfolding(world_model::specs::NewChild::pci_io_block))]
pub fn pci_io_block(alloc: Global) -> Result<Vec<u8>, OutOfMemory>
    ensures { IfOk result (λ bytes. bytes.items ≡ pci_io_block) }
{
    number_bytes(alloc, &PCI_IO)
}

/// The block of the bus specific driver override (UEFI 2.8, 11.6): the address of GetDriver.
///
/// # Errors
///
/// `OutOfMemory` if there is no memory.
#[tactic(auto, unfolding(world_model::specs::NewChild::override_block))]
pub fn override_block(alloc: Global) -> Result<Vec<u8>, OutOfMemory>
    ensures { IfOk result (λ bytes. bytes.items ≡ override_block) }
{
    number_bytes(alloc, &[BUS_GET_DRIVER])
}
