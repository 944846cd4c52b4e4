ghost use Rattle.std.specs.Prelude.{◌≡◌, option_map};
ghost use Rattle.fw_types.specs.Status.{is_error, name_of};

/// What a service, a driver or a command answers: an EFI_STATUS of 64 bits (UEFI 2.8, appendix D).
/// An error has bit 63 set. Any other value counts as success, a warning too.
#[derive(Clone, Copy, Debug, PartialEq, Eq)]
pub struct Status(pub u64);

impl Status {
    /// The operation completed.
    pub const SUCCESS: Status = Status(0);

    /// An image could not be loaded.
    pub const LOAD_ERROR: Status = Status(0x8000_0000_0000_0001);

    /// A parameter was wrong.
    pub const INVALID_PARAMETER: Status = Status(0x8000_0000_0000_0002);

    /// The operation is not supported.
    pub const UNSUPPORTED: Status = Status(0x8000_0000_0000_0003);

    /// A buffer does not have the proper size for the request.
    pub const BAD_BUFFER_SIZE: Status = Status(0x8000_0000_0000_0004);

    /// A buffer is too small to hold what was asked for.
    pub const BUFFER_TOO_SMALL: Status = Status(0x8000_0000_0000_0005);

    /// No data are pending.
    pub const NOT_READY: Status = Status(0x8000_0000_0000_0006);

    /// A device reported an error.
    pub const DEVICE_ERROR: Status = Status(0x8000_0000_0000_0007);

    /// A resource has run out.
    pub const OUT_OF_RESOURCES: Status = Status(0x8000_0000_0000_0009);

    /// An item was not found.
    pub const NOT_FOUND: Status = Status(0x8000_0000_0000_000e);

    /// Access was denied.
    pub const ACCESS_DENIED: Status = Status(0x8000_0000_0000_000f);

    /// The protocol has already been started.
    pub const ALREADY_STARTED: Status = Status(0x8000_0000_0000_0014);

    /// The operation was aborted.
    pub const ABORTED: Status = Status(0x8000_0000_0000_0015);

    /// Whether the status is an error: whether bit 63 is set.
    pub fn is_error(self) -> bool
        ensures { result ≡ is_error self }
    {
        self.0 >= 1 << 63
    }

    /// The name that the status has in this firmware, or `None` exactly if it has none.
    pub fn name(self) -> Option<&'static str>
        ensures { option_map (λ text. text.now) result ≡ name_of self }
    {
        match self.0 {
            0 => Some("SUCCESS"),
            0x8000_0000_0000_0001 => Some("LOAD_ERROR"),
            0x8000_0000_0000_0002 => Some("INVALID_PARAMETER"),
            0x8000_0000_0000_0003 => Some("UNSUPPORTED"),
            0x8000_0000_0000_0004 => Some("BAD_BUFFER_SIZE"),
            0x8000_0000_0000_0005 => Some("BUFFER_TOO_SMALL"),
            0x8000_0000_0000_0006 => Some("NOT_READY"),
            0x8000_0000_0000_0007 => Some("DEVICE_ERROR"),
            0x8000_0000_0000_0009 => Some("OUT_OF_RESOURCES"),
            0x8000_0000_0000_000e => Some("NOT_FOUND"),
            0x8000_0000_0000_000f => Some("ACCESS_DENIED"),
            0x8000_0000_0000_0014 => Some("ALREADY_STARTED"),
            0x8000_0000_0000_0015 => Some("ABORTED"),
            _ => None,
        }
    }
}
