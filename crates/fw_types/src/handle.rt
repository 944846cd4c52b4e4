ghost use Rattle.std.specs.Prelude.{◌≡◌, ◌<◌, ◌+◌, ◌-◌, ◌^◌, SomeIff};

use std::marker::Model;

/// The number of a handle of the handle database, which is never 0 (UEFI 2.8, 7.3: EFI_HANDLE,
/// in which NULL is not a handle).
#[derive(Clone, Copy, Debug, PartialEq, Eq, PartialOrd, Ord)]
pub struct Handle(u64);

impl Model for Handle {
    ghost use Rattle.std.specs.Prelude.{ℕ, ◌<◌};

    ghost Value = { ℕ };

    ghost view = { λ handle. handle.0 };

    ghost invariant = { λ handle. 0 < handle.0 };

    ghost inverse = { λ number. record { 0 = number } };
}

impl Handle {
    /// The handle with the number `n`, or `None` exactly if `n` is 0, the NULL handle.
    pub fn new(n: u64) -> Option<Handle>
        ensures { SomeIff result (0 < n) n }
    {
        if n == 0 { None } else { Some(Handle(n)) }
    }

    /// The number of the handle.
    pub fn get(self) -> u64
        ensures value { result ≡ self }
        ensures never_zero { 0 < result }
    {
        self.0
    }

    /// The handle of the firmware's own image, handle 1.
    pub fn firmware() -> Handle
        ensures { result ≡ 1 }
    {
        Handle(1)
    }

    /// The handle of the PCI bus driver, handle 2.
    pub fn bus_driver() -> Handle
        ensures { result ≡ 2 }
    {
        Handle(2)
    }

    /// The handle with the next number.
    pub fn next(self) -> Handle
        requires { self < 2 ^ 64 - 1 }
        ensures { result ≡ self + 1 }
    {
        Handle(self.0 + 1)
    }
}
