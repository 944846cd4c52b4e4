//! The handle database: which handles are live, and the protocol interfaces of each.
//!
//! A contract sees a `Db` as the record `Database`: the handles by rising number, each with its
//! interfaces in order of installation, the number of the next new handle, and how many handles may be
//! live. `Db`'s calls are those of the database services, and two that take an installation or a removal
//! back. `laws` says what the changes keep, and that taking a change back gives the earlier database.
//! Handles are found by binary search, and those that have a protocol by an index.
#![tactic(auto)]

mod changing;
mod db;
mod handle_entry;
mod laws;
mod owned;
mod places;
mod protocol_index;
mod refusal;

pub use db::Db;
pub use handle_entry::{HandleEntry, Interface};
pub use laws::{
    installing_is_undone, installing_keeps, removing_is_undone, removing_keeps,
    removing_owned_keeps, undoing_install_keeps, undoing_remove_keeps,
};
pub use refusal::{DbRefusal, Removed};

#[cfg(test)]
mod tests;
