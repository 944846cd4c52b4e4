//! The soft part of the world with its undo log.
//!
//! A `SoftLog` has a soft part with the log of its changes, and the open records with a log of their own. A
//! contract sees them as the record `MarkedSoft`: the soft part now, and for each open mark the soft part that it
//! keeps, each with its records. That is no copy: it is the soft part now with the changes since the mark taken
//! back. Each call that makes a change first makes room for its note, then makes the change, and then notes it,
//! for which it needs no more memory.
//!
//! The changes of the soft part are taken back without the records: the database goes back step by step, and
//! between two steps a record may name a handle that is not there.
#![tactic(auto)]

mod mark;
mod moment;
mod soft_log;

pub use mark::Mark;
pub use soft_log::SoftLog;
