use fw_types::Handle;

/// An image that is loaded.
#[derive(Clone, Copy, Debug, PartialEq, Eq)]
pub struct LoadedImage {
    /// Its handle.
    pub handle: Handle,
    /// The address of its first byte.
    pub base: u64,
    /// The address of its entry point.
    pub entry: u64,
    /// The address of its loaded image block (UEFI 2.8, 9.1: EFI Loaded Image Protocol).
    pub block: u64,
}
