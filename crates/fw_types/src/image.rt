use crate::handle::Handle;
use crate::status::Status;

/// The machine type of EBC (UEFI 2.8, 2.1.1: EFI_IMAGE_MACHINE_EBC).
pub const MACHINE_EBC: u16 = 0x0EBC;

/// The subsystem of EFI boot service drivers (UEFI 2.8, 2.1.1: UEFI Images).
pub const BOOT_SERVICE_DRIVER: u16 = 11;

/// The subsystem of EFI runtime drivers (UEFI 2.8, 2.1.1: UEFI Images).
pub const RUNTIME_DRIVER: u16 = 12;

/// The code type of EFI images in an option ROM (PCI Firmware 3.2, 5.1.2: PCI Data Structure Format).
pub const EFI_CODE: u8 = 3;

/// Why a file is not accepted as an EBC driver: the first of these that applies (PE/COFF: File Headers,
/// Optional Header, Section Table, The .reloc Section).
#[derive(Clone, Copy, Debug, PartialEq, Eq)]
pub enum PeRefusal {
    /// The file is shorter than a DOS header.
    Short,
    /// The file does not begin with the DOS signature.
    NoMz,
    /// There is no PE signature followed by a COFF header where the DOS header says.
    NoPe,
    /// The machine is not EBC.
    Machine,
    /// The optional header is too small, passes the file's end, or is not that of PE32+.
    Magic,
    /// The subsystem is neither a boot service driver nor a runtime driver.
    Subsystem,
    /// The relocations were stripped from the image.
    Stripped,
    /// The size of the image is 0 or over 16 MiB.
    Size,
    /// The headers pass the image's or the file's end, or the section table does not lie in them.
    Headers,
    /// A section overlaps what lies before it or passes the image's end, or its bytes pass the file's
    /// end.
    Section,
    /// The relocation directory or one of its entries is malformed.
    Reloc,
    /// The entry point is odd or lies outside the image.
    Entry,
}

/// How the walk over an option ROM ended (PCI Firmware 3.2, 5.1: PCI expansion ROM header format).
#[derive(Clone, Copy, Debug, PartialEq, Eq)]
pub enum RomEnd {
    /// After the image that is marked as the last.
    Done,
    /// There is no header with its signature where one was expected.
    BadSignature,
    /// There is no PCI data structure where the header says.
    BadPcir,
    /// The length of an image is 0.
    LengthZero,
    /// An image is longer than what is left of the ROM.
    PastEnd,
}

/// What became of one image of a `load` command.
#[derive(Clone, Copy, Debug, PartialEq, Eq)]
pub enum ImageNote {
    /// It stayed loaded, under this handle.
    Loaded(Handle),
    /// It failed with this status and is not loaded.
    Failed(Status),
    /// Its file was not accepted.
    Refused(PeRefusal),
    /// It is a compressed EBC driver in an option ROM, and such images are not loaded.
    Compressed,
    /// It is an image in an option ROM that is not an EBC driver.
    Skipped,
}

/// Why a function of the board has no option ROM although a line of the script names one.
#[derive(Clone, Copy, Debug, PartialEq, Eq)]
pub enum RomNoteKind {
    /// The file is absent.
    Missing,
    /// The file has more than 1,048,576 bytes.
    TooLong,
}

/// A function of the board whose option ROM could not be read.
#[derive(Clone, Copy, Debug, PartialEq, Eq)]
pub struct RomNote {
    /// The function's bus.
    pub bus: u8,
    /// The function's device, 0 to 31.
    pub device: u8,
    /// The function's number, 0 to 7.
    pub function: u8,
    /// Why it has no option ROM.
    pub kind: RomNoteKind,
}
