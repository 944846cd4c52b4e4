use crate::guid::Guid;

/// A line of a dump of the handle database.
#[derive(Clone, Copy, Debug, PartialEq, Eq)]
pub enum DumpLine {
    /// A handle; the lines of its interfaces follow.
    Handle(u64),
    /// An interface of the handle before it, with its protocol, its address and the image that owns
    /// it; the lines of its open records follow.
    Proto {
        guid: Guid,
        interface: u64,
        owner: u64,
    },
    /// An open record of the interface before it: who opened it, for which controller, with which
    /// attributes (UEFI 2.8, 7.3: OpenProtocol), and how often.
    Entry {
        agent: u64,
        controller: u64,
        attr: u32,
        count: u32,
    },
}
