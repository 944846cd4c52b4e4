use crate::status::Status;

/// Why a driver call was ended before it reached its exit address. UEFI 2.8, chapter 22 'EFI Byte
/// Code Virtual Machine', speaks of exceptions; these causes are this project's own.
#[derive(Clone, Copy, Debug, PartialEq, Eq)]
pub enum Cause {
    /// The bytes at the instruction pointer are no instruction.
    Illegal,
    /// No image has a whole instruction at the instruction pointer, or a thunk was requested with an
    /// entry that lies in no image.
    Fetch,
    /// No one segment has all the bytes that were read or written, or the segment that was written is
    /// not writable.
    Memory,
    /// A jump, a call or a return went to an odd address, or a thunk was requested with an odd entry.
    Align,
    /// A number was divided by 0.
    Divide,
    /// A BREAK has a code that means nothing here.
    Break,
    /// A native call went to an address at which the firmware has no function.
    BadCall,
    /// A thunk was called from the last level of driver calls.
    Nest,
    /// A price was more than the units that were left.
    Budget,
    /// All thunk numbers are handed out.
    Thunks,
}

/// What an event is: a driver call, or one activation of ConnectController or DisconnectController.
#[derive(Clone, Copy, Debug, PartialEq, Eq)]
pub enum EventKind {
    /// The entry point of an image (UEFI 2.8, 4.1: EFI_IMAGE_ENTRY_POINT).
    Entry,
    /// A driver's Supported (UEFI 2.8, 11.1: EFI_DRIVER_BINDING_PROTOCOL.Supported()).
    Supported,
    /// A driver's Start (UEFI 2.8, 11.1: EFI_DRIVER_BINDING_PROTOCOL.Start()).
    Start,
    /// A driver's Stop (UEFI 2.8, 11.1: EFI_DRIVER_BINDING_PROTOCOL.Stop()).
    Stop,
    /// Unload of an image (UEFI 2.8, 9.1: EFI_LOADED_IMAGE_PROTOCOL.Unload()).
    Unload,
    /// Connecting drivers to a controller (UEFI 2.8, 7.3: ConnectController).
    Connect,
    /// Disconnecting drivers from a controller (UEFI 2.8, 7.3: DisconnectController).
    Disconnect,
}

/// How a driver call or an activation ended.
#[derive(Clone, Copy, Debug, PartialEq, Eq)]
pub enum Outcome {
    /// With this value: of a driver call, what R7 held at its exit address.
    Value(Status),
    /// It was ended for this cause.
    Trapped(Cause),
}

/// A driver call or an activation, as the report shows it.
#[derive(Clone, Copy, Debug, PartialEq, Eq)]
pub struct Event {
    /// The number of the event in its command, from 1, in order of beginning.
    pub serial: u64,
    /// The event inside which it began, or 0 for the command itself.
    pub parent: u64,
    /// What was called.
    pub kind: EventKind,
    /// The handle of the driver. For an entry and an unload it is the image's; for Connect it is 0; for
    /// Disconnect it is the driver that was given, or 0.
    pub driver: u64,
    /// The handle of the controller; for an entry and an unload, 0.
    pub controller: u64,
    /// For Connect, 1 if it is recursive; for Disconnect, the child that was given, or 0; for Stop, the
    /// number of children; otherwise 0.
    pub extra: u64,
    /// How it ended.
    pub result: Outcome,
}
