ghost use Rattle.std.specs.Prelude.{◌≡◌};
ghost use Rattle.option_rom.specs.declared.part.RomWriteFault.TheVariants.{OutOfMemory};

use fw_types::Rows;
use thiserror::Error;

/// The longest body, in bytes: its image has 65,535 units of 512 bytes.
pub const LONGEST_BODY: usize = 33_553_856;

/// The highest class code, of 24 bits.
pub const HIGHEST_CLASS: u32 = 0x00FF_FFFF;

/// A driver for an option ROM.
#[derive(Debug, Drop)]
pub struct RomPart {
    /// The vendor ID of the device that the driver is for.
    pub vendor: u16,
    /// The device ID of that device.
    pub device: u16,
    /// The class code, of 24 bits: the programming interface in bits 7:0, the sub-class in bits
    /// 15:8 and the base class in bits 23:16.
    pub class: u32,
    /// The driver's file.
    pub body: Rows<u8>,
}

/// Why no option ROM was written.
#[derive(Clone, Copy, Debug, PartialEq, Eq, Error)]
pub enum RomWriteFault {
    /// There is no part.
    #[error("a ROM has at least one image")]
    Empty,
    /// A body is longer than 33,553,856 bytes, so that the length of its image does not fit 16
    /// bits, or a class code has more than 24 bits.
    #[error("a part does not fit the fields of an image")]
    TooLong,
    /// There is no memory for the ROM.
    #[error("out of memory")]
    OutOfMemory,
}

impl From<fw_types::OutOfMemory> for RomWriteFault {
    ghost from_gives = { λ _ fault. fault ≡ OutOfMemory };

    fn from(_error: fw_types::OutOfMemory) -> RomWriteFault {
        RomWriteFault::OutOfMemory
    }
}
