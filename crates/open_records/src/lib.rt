//! The open records: which agent has which protocol interface open, for which controller and how
//! (UEFI 2.8, 7.3: OpenProtocol, CloseProtocol, OpenProtocolInformation), and the rules for the opens of
//! drivers and for exclusive opens.
//!
//! A contract sees the records of all interfaces as the record `RecordTable`: one list, by handle, then by GUID,
//! then in order of their making, and how many records there may be. The records of one interface are those
//! in the list that belong to it. `judge` says whether one more open is entered, and if it has to wait,
//! which driver has to be disconnected first. The definitions say what each change of the records is.
//!
//! The records themselves are kept by `record_log`.
#![tactic(auto)]

mod choosing;
mod fault;
mod laws;
mod open_record;
mod verdict;

pub use choosing::Test;
pub use fault::RecFault;
pub use laws::{changes_keep, interfaces_change, records_go, records_stand_apart};
pub use open_record::{Interface, KeyedRecord, Meant, Opener, Rec, fits};
pub use verdict::{Verdict, judge};
