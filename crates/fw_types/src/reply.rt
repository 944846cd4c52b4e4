use crate::dump::DumpLine;
use crate::event::Event;
use crate::image::{ImageNote, RomEnd};
use crate::rows::Rows;
use crate::status::Status;

/// What a command answers.
#[derive(Debug, PartialEq, Drop)]
pub struct Reply {
    /// The status of the command.
    pub status: Status,
    /// The units that it spent: one per instruction, the prices of services and driver calls, and
    /// one per 64 bytes of an image that was laid.
    pub units: u64,
    /// Its driver calls and activations, in order of beginning.
    pub events: Rows<Event>,
    /// What became of each image of its file, in order.
    pub images: Rows<ImageNote>,
    /// How the walk over the file ended, if the file is an option ROM.
    pub rom: Option<RomEnd>,
    /// The lines of a dump.
    pub dump: Rows<DumpLine>,
}
