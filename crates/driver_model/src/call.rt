use fw_types::Outcome;
use service_thunks::Service;

/// What a driver call calls.
#[derive(Clone, Copy, Debug, PartialEq, Eq)]
pub enum CallKind {
    /// The entry point of an image (UEFI 2.8, 4.1: EFI_IMAGE_ENTRY_POINT).
    Entry,
    /// Supported of a driver binding (UEFI 2.8, 11.1: EFI_DRIVER_BINDING_PROTOCOL.Supported()).
    Supported,
    /// Start of a driver binding (UEFI 2.8, 11.1: EFI_DRIVER_BINDING_PROTOCOL.Start()).
    Start,
    /// Stop of a driver binding (UEFI 2.8, 11.1: EFI_DRIVER_BINDING_PROTOCOL.Stop()).
    Stop,
    /// Unload of an image (UEFI 2.8, 9.1: EFI_LOADED_IMAGE_PROTOCOL.Unload()).
    Unload,
}

/// A driver call: what is called, with which arguments, and what its event says.
#[derive(Clone, Copy, Debug, PartialEq, Eq)]
pub struct Call {
    /// What is called.
    pub kind: CallKind,
    /// The handle of the driver, or of the image.
    pub driver: u64,
    /// The handle of the controller, or 0.
    pub controller: u64,
    /// For Stop, the number of children; otherwise 0.
    pub extra: u64,
    /// The address that is called.
    pub address: u64,
    /// The address of the driver's binding, or 0 if no binding is called.
    pub binding: u64,
    /// The arguments.
    pub slots: [u64; 16],
}

/// How a run of code ends.
#[derive(Clone, Copy, Debug, PartialEq, Eq)]
pub enum RunEnd {
    /// It reached its exit address with this value in R7, which its caller gets.
    Returned(u64),
    /// The driver call in which it runs ends like this.
    Over(Outcome),
}

/// The event inside which something is done.
#[derive(Clone, Copy, Debug, PartialEq, Eq)]
pub struct Scope {
    /// The event, or 0 for the command itself.
    pub event: u64,
}

/// What a native call of an address goes to.
#[derive(Clone, Copy, Debug, PartialEq, Eq)]
pub enum Callee {
    /// A service of the firmware.
    AService(Service),
    /// The EBC code at this address, by a thunk.
    AThunk(u64),
    /// The firmware has nothing there.
    Nothing,
}

/// What a driver call enters.
#[derive(Clone, Copy, Debug, PartialEq, Eq)]
pub enum Code {
    /// EBC code at this address.
    Ebc(u64),
    /// Supported of the PCI bus driver, which is native code.
    BusSupported,
    /// Start of the PCI bus driver.
    BusStart,
    /// Stop of the PCI bus driver.
    BusStop,
    /// A function of the PCI bus driver, by another binding than its own.
    Foreign,
    /// The firmware can't call what is there.
    NoCode,
}
