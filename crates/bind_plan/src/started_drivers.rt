//! The drivers that a connect has started, by their handles.
ghost use Rattle.std.specs.Prelude.{◌≡◌, ◌∷◌, [], nat_eq, OnOk};
ghost use Rattle.std.specs.List.{list_any};

use fw_types::OutOfMemory;
use std::alloc::Global;
use std::collections::BTreeSet;
use std::marker::Model;

/// The handles of the drivers that a connect has started, the newest first. Whether a handle is among them is
/// found without a walk over all of them.
#[derive(Drop)]
pub struct StartedDrivers {
    handles: Vec<u64>,
    set: BTreeSet<u64>,
}

impl Model for StartedDrivers {
    ghost use Rattle.std.specs.Prelude.{List, reverse, ℕ};
    ghost use Rattle.bind_plan.specs.HandleSet.{IsSetOf};

    ghost Value = { List ℕ };

    ghost view = { λ inside. reverse inside.handles.items };

    ghost invariant = { λ inside. IsSetOf (reverse inside.handles.items) inside.set };
}

impl StartedDrivers {
    /// No drivers. Takes no memory.
    pub fn new(alloc: Global) -> StartedDrivers
        ensures { result ≡ [] }
    {
        StartedDrivers {
            handles: Vec::new(alloc),
            set: BTreeSet::new(alloc),
        }
    }

    /// Adds a handle, as the newest.
    ///
    /// # Errors
    ///
    /// `OutOfMemory` if there is no memory for one more.
    pub fn add(&mut self, handle: u64) -> Result<(), OutOfMemory>
        ensures { OnOk result (self.new ≡ handle ∷ self.old) }
    {
        self.handles.reserve(1)?;
        self.set.insert(handle)?;
        self.handles.push_reserved(handle);
        Ok(())
    }

    /// Whether a handle is that of a driver that was started. Takes no memory.
    pub fn has(&self, handle: u64) -> bool
        ensures { result ≡ list_any (nat_eq handle) self.now }
    {
        self.set.contains(&handle)
    }
}
