/// A thunk: an address by which native code calls EBC code (UEFI 2.8,
/// 22.11: EFI_EBC_PROTOCOL.CreateThunk).
#[derive(Clone, Copy, Debug, PartialEq, Eq)]
pub struct Thunk {
    /// Its number, which gives its address.
    pub number: u32,
    /// The address of the code that it enters.
    pub entry: u64,
}
