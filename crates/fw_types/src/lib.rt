//! The plain types that every layer uses: handles, statuses, GUIDs, commands and replies.
//!
//! A struct or an enum of this crate is itself the record that the definitions use: clauses see a
//! `Rows` as a list, a `Text` as its bytes, a `Handle` as its number and a `Guid` as its sixteen
//! bytes, so a command in the program and a command in a definition are compared by `≡`.
#![tactic(auto)]

mod attr;
mod command;
mod dump;
mod event;
mod guid;
mod handle;
mod image;
mod layout;
mod limits;
mod memory;
mod reply;
mod rows;
mod status;
mod text;

pub use attr::Attr;
pub use command::{Command, PathArg};
pub use dump::DumpLine;
pub use event::{Cause, Event, EventKind, Outcome};
pub use guid::{Guid, Known};
pub use handle::Handle;
pub use image::{
    BOOT_SERVICE_DRIVER, EFI_CODE, ImageNote, MACHINE_EBC, PeRefusal, RUNTIME_DRIVER, RomEnd,
    RomNote, RomNoteKind,
};
pub use layout::{put_bytes, put_u16, put_u32, put_u64};
pub use limits::{
    CALL_BUDGET, CALL_PRICE, COMMAND_BUDGET, HANDLE_NUMBER_END, LEAST_CALL_BUDGET,
    LEAST_COMMAND_BUDGET, MOST_BLOCKS, MOST_BUDGET, MOST_BYTES, MOST_FILE_BYTES, MOST_HANDLES,
    MOST_INTERFACES, MOST_LEVELS, MOST_LISTED, MOST_MARKS, MOST_RECORDS, MOST_THUNKS,
};
pub use memory::OutOfMemory;
pub use reply::Reply;
pub use rows::Rows;
pub use status::Status;
pub use text::Text;

#[cfg(test)]
mod tests;
