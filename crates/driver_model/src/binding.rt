use fw_types::Handle;

/// How many bytes a driver binding has: three function pointers, a Version and two handles, each at a
/// multiple of its own size (UEFI 2.8, 11.1: EFI_DRIVER_BINDING_PROTOCOL).
pub const BINDING_SIZE: u64 = 48;

/// A driver binding, as it is read from its 48 bytes in guest memory (UEFI 2.8, 11.1: EFI Driver
/// Binding Protocol).
#[derive(Clone, Copy, Debug, PartialEq, Eq)]
pub struct BindingBlock {
    /// The handle that has the binding.
    pub handle: Handle,
    /// The address of its Supported.
    pub supported: u64,
    /// The address of its Start.
    pub start: u64,
    /// The address of its Stop.
    pub stop: u64,
    /// Its Version: of two drivers, the one with the greater Version is asked first.
    pub version: u32,
    /// Its ImageHandle.
    pub image: u64,
    /// The address of its bytes.
    pub at: u64,
}
