//! The memory that a driver sees: segments of bytes at addresses, no two of which meet.
//!
//! `GuestMem` is memory as a driver uses it, by what a contract sees of it: the list of its segments.
//! `Memory` is such a memory. Segments are mapped into it and unmapped, and it gives and takes whole
//! ranges of bytes. Each segment is under a key, with a map from the addresses at which segments begin to
//! their keys (`segments`), and their totals are kept as numbers (`totals`). So no call moves a segment
//! because there are others, and the time to find an address is logarithmic in the number of segments.
//!
//! `address_map` is the map of the addresses that drivers use, and `laws` states what holds of every
//! memory in the words of reads and writes.
#![tactic(auto)]

pub mod address_map;
mod guest;
pub mod laws;
mod memory;
mod segment;
mod segments;
mod totals;

pub use guest::{GuestMem, MemRefusal};
pub use memory::Memory;
pub use segment::{SegKind, Segment};

#[cfg(test)]
mod tests;
