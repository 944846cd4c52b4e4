/// The bytes of a device that drivers read and write by PCI I/O (UEFI 2.8, 14.4: EFI PCI I/O
/// Protocol).
#[derive(Clone, Copy, Debug, PartialEq, Eq)]
pub enum Space {
    /// Configuration space, of 256 bytes.
    Config,
    /// The BAR of an index.
    Bar(u8),
}
