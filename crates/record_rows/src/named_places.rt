//! The places of the rows that name each handle.
ghost use Rattle.std.specs.Prelude.{◌≡◌, OnErr, OnOk, []};
ghost use Rattle.record_rows.specs.Index.{is_key_named, places_of};
ghost use Rattle.record_rows.specs.IndexInside.{AreNamedLonger, AreNamedShorter, AreSame, list_at};

use crate::last_places::RowKey;
use crate::place_lists::PlaceLists;
use fw_types::OutOfMemory;
use std::alloc::Global;
use std::marker::Model;

/// The places of the rows that name a handle as agent or as controller, rising, by the handle's number.
#[derive(Drop)]
pub struct NamedPlaces {
    lists: PlaceLists,
}

impl Model for NamedPlaces {
    ghost use Rattle.std.specs.Prelude.{List, ℕ};

    ghost Value = { List (List ℕ) };

    ghost view = { λ inside. inside.lists };
}

impl NamedPlaces {
    /// No places. `alloc` gives the memory of the later calls.
    pub fn new(alloc: Global) -> NamedPlaces
        ensures { result ≡ [] }
    {
        NamedPlaces {
            lists: PlaceLists::new(alloc),
        }
    }

    /// The places of the rows that name the handle with a number.
    pub fn of(&self, name: u32) -> &[u32]
        ensures { result.now ≡ list_at name self.now }
    {
        self.lists.of(name)
    }

    /// Adds the place of a row that has a key. After an error the lists are as before.
    pub fn push(&mut self, key: RowKey, place: u32) -> Result<(), OutOfMemory>
        ensures ok { OnOk result (AreNamedLonger key place self.old self.new) }
        ensures err { OnErr result (AreSame self.old self.new) }
    {
        let (_, agent, controller, _) = key;
        self.lists.push_if(true, agent, place)?;
        if let Err(error) = self.lists.push_if(controller != agent, controller, place) {
            self.lists.pop_if(true, agent);
            return Err(error);
        }
        Ok(())
    }

    /// Takes out the place of the last row, which has this key.
    pub fn pop(&mut self, key: RowKey)
        ensures { AreNamedShorter key self.old self.new }
    {
        let (_, agent, controller, _) = key;
        self.lists.pop_if(true, agent);
        self.lists.pop_if(controller != agent, controller);
    }
}
