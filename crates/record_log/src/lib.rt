//! The open records with their undo log.
//!
//! A `RecordLog` has the open records of all interfaces, as rows. A contract sees it as the record `MarkedRecords`: the
//! records now, and for each open mark the records that it keeps. That is no copy: it is the records now with
//! the changes since the mark taken back. Each call that makes a change first makes room for its note, then makes
//! the change, and then notes it, for which it needs no more memory. A change is taken back without memory.
//!
//! `laws` says that each change is taken back by its note, and that new rows of the records that count give the same
//! table.
#![tactic(auto)]

mod choices;
mod found;
mod fresh_rows;
mod laws;
mod managing;
mod record_change;
mod record_log;
mod row_asking;
mod row_changes;
mod row_finding;
mod tally;

pub use laws::{
    changes_are_taken_back, closed_rows_leave, fresh_rows_give_the_same, only_the_last_counts,
};
pub use record_log::RecordLog;
pub use undo_log::Mark;

#[cfg(test)]
mod record_tests;
#[cfg(test)]
mod tests;
