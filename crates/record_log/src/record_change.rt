//! Changes of the open records.
ghost use Rattle.std.specs.Prelude.{◌≡◌};
ghost use Rattle.record_log.specs.declared.record_change.RecordChange.TheVariants.{Closed as ClosedValue};

use fw_types::{Guid, Handle, Rows};

/// A change of the rows that was made, with what is needed to take it back.
#[derive(Drop)]
pub enum RecordChange {
    /// A row was made.
    Made,
    /// A row's record counts another number of opens.
    Counted {
        /// The place of the row.
        place: usize,
        /// The count from before.
        before: u32,
    },
    /// Rows were closed.
    Closed {
        /// Their places.
        places: Rows<usize>,
    },
    /// Rows were cut.
    Cut {
        /// The handle of the interface, or the one whose number was cut.
        handle: Handle,
        /// The protocol of the interface.
        guid: Guid,
        /// The interface's cuts from before, of its weak records first, if they changed.
        interface: Option<(usize, usize)>,
        /// The cut of the handle's number from before, if it changed.
        name: Option<usize>,
    },
}

impl RecordChange {
    /// That the rows at some places were closed.
    pub(crate) fn closed(places: Vec<usize>) -> RecordChange
        ensures { result ≡ ClosedValue places.items }
    {
        RecordChange::Closed {
            places: Rows::of(places),
        }
    }
}
