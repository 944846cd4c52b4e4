//! The open records as rows (UEFI 2.8, 7.3: OpenProtocol, CloseProtocol), in order of their making.
//!
//! No row is moved or taken out when its record goes. A row counts if it is not closed, and was made after the last cut
//! of its agent, of its controller and of its class. A class is the weak records of an interface, or its other records.
//! So a handle that goes takes all records that name it along by one cut, which costs the same however many they are,
//! and the cut from before puts them back.
//!
//! A contract sees `RecordRows` as their lines and cuts. `cutters` has the cuts, and the numbers of what has them;
//! `row_index` has the places of rows by what they are found by; `shown_places` has the places of an interface's rows
//! that count, as long as nothing changes. `laws` says what each change of rows and cuts does to the table of open
//! records.
#![tactic(auto)]

mod cut_list;
mod cutters;
mod interface_places;
mod last_places;
mod laws;
mod named_places;
mod numbers;
mod place_lists;
mod row_index;
mod rows;
mod shown_places;

pub use cut_list::CutList;
pub use cutters::{Cutters, Mark};
pub use last_places::RowKey;
pub use laws::{
    closing_removes, closings_are_undone, counting_counts, counts_are_undone, cuts_are_undone,
    cuts_clear, cuts_sweep, orders_rise, rows_enter,
};
pub use numbers::Numbers;
pub use row_index::RowIndex;
pub use rows::RecordRows;

#[cfg(test)]
mod tests;
