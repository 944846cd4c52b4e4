use std::marker::Model;

/// An image of an option ROM (PCI Firmware 3.2: PCI Data Structure Format). Contracts see its
/// fields, the body as a list.
#[derive(Debug, Drop)]
pub struct RomImage<'a> {
    /// How many bytes the image has in the ROM, a multiple of 512. The next image follows it.
    pub size: usize,
    /// The vendor ID of the device that the image is for.
    pub vendor: u16,
    /// The device ID of that device.
    pub device: u16,
    /// The class code, of 24 bits.
    pub class: u32,
    /// The code type: 3 is EFI.
    pub code_type: u8,
    /// The machine of an EFI image, 0x0EBC for EBC; 0 if the image is no EFI image.
    pub machine: u16,
    /// How the body of an EFI image is compressed, 0 for not at all; 0 if the image is no EFI
    /// image.
    pub compression: u16,
    /// The driver's file in an EFI image, with what follows it in the image; all bytes of another
    /// image.
    pub body: &'a [u8],
}

impl<'a> Model for RomImage<'a> {
    ghost use Rattle.option_rom.specs.RomGrammar.{Image};

    ghost Value = { Image };

    ghost view = { λ image. record {
      size = image.size;
      vendor = image.vendor;
      device = image.device;
      class = image.class;
      code_type = image.code_type;
      machine = image.machine;
      compression = image.compression;
      body = image.body.now;
    } };
}
