ghost use Rattle.std.specs.Prelude.{⊤, ◌≡◌, [], ◌∷◌, codes, IsTrue, SomeIff, true};
ghost use Rattle.fw_types.specs.Attr.{has_bit_of, is_legal};

use bitflags::{Flag, Flags, bitflag_items};
use std::marker::Model;

/// The bits of `Attributes` (UEFI 2.8, 7.3: OpenProtocol), in any union.
#[derive(Clone, Copy, Debug, PartialEq, Eq)]
struct OpenBits(u32);

bitflag_items! {
    impl OpenBits: u32 {
        const BY_HANDLE_PROTOCOL = 0x01;
        const GET_PROTOCOL = 0x02;
        const TEST_PROTOCOL = 0x04;
        const BY_CHILD_CONTROLLER = 0x08;
        const BY_DRIVER = 0x10;
        const EXCLUSIVE = 0x20;
    }
}

impl Flags for OpenBits {
    type Bits = u32;

    ghost exact = { ⊤ };

    ghost table = { (codes "BY_HANDLE_PROTOCOL", 0x01) ∷ (codes "GET_PROTOCOL", 0x02) ∷ (codes "TEST_PROTOCOL", 0x04) ∷ (codes "BY_CHILD_CONTROLLER", 0x08) ∷ (codes "BY_DRIVER", 0x10) ∷ (codes "EXCLUSIVE", 0x20) ∷ [] };

    ghost set_of = { λ set. set.0 };

    fn flags<'a>() -> &'a [Flag<OpenBits>] {
        OpenBits::FLAGS
    }

    fn bits(&self) -> u32 {
        self.0
    }

    fn from_bits_retain(bits: u32) -> OpenBits {
        OpenBits(bits)
    }
}

/// How an agent has an interface open (UEFI 2.8, 7.3: OpenProtocol, `Attributes`): one of the six
/// bits, or BY_DRIVER and EXCLUSIVE together. A contract sees its bits, a number of 32 bits.
#[derive(Clone, Copy, Debug, PartialEq, Eq)]
pub struct Attr {
    set: OpenBits,
}

impl Model for Attr {
    ghost use Rattle.std.specs.Prelude.{ℕ, ◌≡◌, true};
    ghost use Rattle.fw_types.specs.Attr.{is_legal};

    ghost Value = { ℕ };

    ghost view = { λ inside. inside.set.0 };

    ghost invariant = { λ inside. is_legal inside.set.0 ≡ true };

    ghost inverse = { λ bits. record { set = record { 0 = bits } } };
}

impl Attr {
    /// Opened by HandleProtocol.
    pub const BY_HANDLE_PROTOCOL: u32 = 0x01;

    /// Opened to use the interface; the agent is not asked when the interface is uninstalled.
    pub const GET_PROTOCOL: u32 = 0x02;

    /// Opened to see whether it is there.
    pub const TEST_PROTOCOL: u32 = 0x04;

    /// Opened by a bus driver for the child that it made.
    pub const BY_CHILD_CONTROLLER: u32 = 0x08;

    /// Opened by the driver that manages the controller.
    pub const BY_DRIVER: u32 = 0x10;

    /// Opened by one agent alone.
    pub const EXCLUSIVE: u32 = 0x20;

    /// BY_HANDLE_PROTOCOL, GET_PROTOCOL and TEST_PROTOCOL, which keep no other agent out.
    pub const WEAK_BITS: u32 = 0x07;

    /// BY_CHILD_CONTROLLER and BY_DRIVER, which always name a controller.
    pub const CONTROLLER_BITS: u32 = 0x18;

    /// BY_DRIVER and EXCLUSIVE, of which an interface has at most one record.
    pub const HOLDING_BITS: u32 = 0x30;

    /// BY_CHILD_CONTROLLER, BY_DRIVER and EXCLUSIVE, which always name an agent.
    pub const AGENT_BITS: u32 = 0x38;

    /// All six bits, of which each open record has one.
    pub const ALL_BITS: u32 = 0x3F;

    /// The attribute with these bits, or `None` exactly if an interface can't be opened with them:
    /// if they are none of 0x01, 0x02, 0x04, 0x08, 0x10, 0x20 and 0x30.
    pub fn legal(bits: u32) -> Option<Attr>
        ensures { SomeIff result (IsTrue (is_legal bits)) bits }
    {
        match bits {
            0x01 | 0x02 | 0x04 | 0x08 | 0x10 | 0x20 | 0x30 => Some(Attr {
                set: OpenBits::from_bits_retain(bits),
            }),
            _ => None,
        }
    }

    /// The bits of the attribute.
    pub fn bits(&self) -> u32
        ensures value { result ≡ self.now }
        ensures legal { is_legal result ≡ true }
    {
        self.set.bits()
    }

    /// Whether the attribute has a bit of `mask`.
    pub fn has_bit_of(&self, mask: u32) -> bool
        ensures { result ≡ has_bit_of mask self.now }
    {
        self.set.intersects(OpenBits::from_bits_retain(mask))
    }
}
