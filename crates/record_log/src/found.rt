//! Handles that are found, each listed once.
ghost use Rattle.std.specs.Prelude.{◌≡◌, [], OnOk};
ghost use Rattle.open_records.specs.NumberLists.{with_number};

use fw_types::{Handle, OutOfMemory};
use std::alloc::Global;
use std::collections::BTreeSet;
use std::marker::Model;

/// Handles in the order in which they were found, each once.
#[derive(Drop)]
pub struct Found {
    list: Vec<Handle>,
    seen: BTreeSet<u64>,
}

impl Model for Found {
    ghost use Rattle.std.specs.Prelude.{List, ℕ};
    ghost use Rattle.open_records.specs.NumberLists.{HasSeen};

    ghost Value = { List ℕ };

    ghost view = { λ inside. inside.list.items };

    ghost invariant = { λ inside. HasSeen inside.list.items inside.seen };
}

impl Found {
    /// No handles.
    pub fn new(alloc: Global) -> Found
        ensures { result ≡ [] }
    {
        Found {
            list: Vec::new(alloc),
            seen: BTreeSet::new(alloc),
        }
    }

    /// Puts a handle after the others, if it is new.
    pub fn add(&mut self, handle: Handle) -> Result<(), OutOfMemory>
        ensures { OnOk result (self.new ≡ with_number handle self.old) }
    {
        if !self.seen.insert(handle.get())? {
            return Ok(());
        }
        match self.list.push(handle) {
            Ok(()) => Ok(()),
            Err(error) => {
                self.seen.remove(&handle.get());
                Err(OutOfMemory::from(error))
            }
        }
    }

    /// The handles.
    pub fn into_list(self) -> Vec<Handle>
        ensures { result.items ≡ self }
    {
        let Found { list, seen: _ } = self;
        list
    }
}
