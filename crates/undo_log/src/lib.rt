//! The undo log: which changes were made since each open mark, so that they can be taken back from the
//! last to the first.
//!
//! Marks are nested. A contract sees a `Log` as the record `LogView`: its open marks from the newest to
//! the outermost, each with what it carries and with the changes from it to the next newer mark, the last
//! one first. The log does not know what a change is: whoever notes one knows how to take it back.
#![tactic(auto)]

mod laws;
mod log;
mod mark;

pub use laws::{committing_keeps, marking_keeps, noting_keeps, taken_is_marked, taking_keeps};
pub use log::Log;
pub use mark::Mark;

#[cfg(test)]
mod tests;
