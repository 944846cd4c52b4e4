//! The outside: where files are read and where bytes are written, each with a count of its faults.
//!
//! A [`Shelf`] gives the bytes of a file under a name, a [`Sink`] takes bytes. A contract may know
//! the files of a shelf and the bytes that a sink has taken; if it does not, it still knows that a
//! failure is counted. [`MemShelf`] and [`MemSink`] are in memory, are known completely, and fail
//! at chosen calls; [`DirShelf`] and [`OutSink`] are the runtime's files and standard output, of
//! which only the count is known.
#![tactic(auto)]

mod dir_shelf;
mod mem_shelf;
mod mem_sink;
mod out_sink;
mod shelf;
mod sink;
#[cfg(test)]
mod tests;

pub use dir_shelf::DirShelf;
pub use mem_shelf::MemShelf;
pub use mem_sink::MemSink;
pub use out_sink::OutSink;
pub use shelf::{Shelf, ShelfFault};
pub use sink::{Sink, SinkFailed, write_all};
