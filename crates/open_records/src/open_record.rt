ghost use Rattle.std.specs.Prelude.{◌≡◌};
ghost use Rattle.open_records.specs.Keyed.{is_of};
ghost use Rattle.open_records.specs.Records.{fits, is_asked, is_strong};

use fw_types::{Attr, Guid, Handle};

/// That an agent has an interface open (UEFI 2.8, 7.3: EFI_OPEN_PROTOCOL_INFORMATION_ENTRY).
#[derive(Clone, Copy, Debug, PartialEq, Eq)]
pub struct Rec {
    /// The handle number of the agent that has it open.
    pub agent: u64,
    /// The handle number of the controller for which it is open, or 0 if it is open for none.
    pub controller: u64,
    /// How it is open.
    pub attr: Attr,
    /// How many opens the record counts, at most 4,294,967,295.
    pub count: u32,
}

/// What a record is found by: its agent, its controller, or 0 if it is open for none, and the bits of its
/// attribute. No two records of an interface have the same.
pub type Opener = (u64, u64, u32);

/// Which records are meant: those of an agent, if one is given, and for a controller, if one is given, that
/// have one of some bits.
#[derive(Clone, Copy, Debug)]
pub struct Meant {
    /// The handle number of the agent.
    pub agent: Option<u64>,
    /// The handle number of the controller, or 0 for those that are open for none.
    pub controller: Option<u64>,
    /// The bits, of those of `Attr`.
    pub bits: u32,
}

impl Rec {
    /// Whether it has BY_DRIVER or EXCLUSIVE.
    pub fn is_strong(&self) -> bool
        ensures { result ≡ is_strong self.now }
    {
        self.attr.has_bit_of(Attr::HOLDING_BITS)
    }

    /// Whether it is meant.
    pub fn is_meant(&self, meant: &Meant) -> bool
        ensures { result ≡ is_asked meant.now self.now }
    {
        fits(meant.agent, self.agent)
            && fits(meant.controller, self.controller)
            && self.attr.has_bit_of(meant.bits)
    }
}

/// Whether a number is the one that is given, if one is.
pub fn fits(given: Option<u64>, number: u64) -> bool
    ensures { result ≡ fits given number }
{
    match given {
        None => true,
        Some(wanted) => number == wanted,
    }
}

/// A handle and a protocol that it may have.
pub type Interface = (Handle, Guid);

/// A record with the interface that it is of.
#[derive(Clone, Copy, Debug, PartialEq, Eq)]
pub struct KeyedRecord {
    /// The handle that has the interface.
    pub handle: Handle,
    /// The protocol.
    pub guid: Guid,
    /// The record.
    pub rec: Rec,
}

impl KeyedRecord {
    /// Whether it is of an interface.
    pub fn is_of(&self, handle: Handle, guid: Guid) -> bool
        ensures { result ≡ is_of handle guid self.now }
    {
        self.handle == handle && self.guid == guid
    }
}
