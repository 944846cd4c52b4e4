//! The places of rows, by what they are found by.
ghost use Rattle.std.specs.Prelude.{◌≡◌, ◌-◌, ◌++◌, ◌∷◌, [], IfOk, OnErr, OnOk, length, take};
ghost use Rattle.record_rows.specs.Index.{is_other_on, is_key, is_key_named, is_key_on, is_strong_on, last_key, places_of};

use crate::interface_places::InterfacePlaces;
use crate::last_places::{LastPlaces, RowKey};
use crate::named_places::NamedPlaces;
use fw_types::OutOfMemory;
use std::alloc::Global;
use std::marker::Model;

/// The keys of all rows, in order of their making, with the places by which rows are found. A contract sees the keys.
#[derive(Drop)]
pub struct RowIndex {
    keys: LastPlaces,
    places: InterfacePlaces,
    named: NamedPlaces,
}

impl Model for RowIndex {
    ghost use Rattle.std.specs.Prelude.{List};
    ghost use Rattle.record_rows.specs.Index.{RowKey};
    ghost use Rattle.record_rows.specs.IndexInside.{IsIndexed};

    ghost Value = { List RowKey };

    ghost view = { λ inside. inside.keys };

    ghost invariant = { λ inside. IsIndexed inside.keys inside.places inside.named };
}

/// The place of a row, as a number of rows.
fn as_place(place: Option<u32>) -> Option<usize>
    ensures { result ≡ place }
{
    match place {
        None => None,
        Some(place) => Some(place as usize),
    }
}

impl RowIndex {
    /// No rows. `alloc` gives the memory of the later calls.
    pub fn new(alloc: Global) -> RowIndex
        ensures { result ≡ [] }
    {
        RowIndex {
            keys: LastPlaces::new(alloc),
            places: InterfacePlaces::new(alloc),
            named: NamedPlaces::new(alloc),
        }
    }

    /// How many rows there are.
    pub fn len(&self) -> usize
        ensures { result ≡ length self.now }
    {
        self.keys.len()
    }

    /// Adds a row that has a key, and answers its place. After an error all is as before.
    ///
    /// # Errors
    ///
    /// `OutOfMemory` if there is no memory, or if the place needs more than 32 bits.
    pub fn push(&mut self, key: RowKey) -> Result<u32, OutOfMemory>
        ensures ok { OnOk result (self.new ≡ self.old ++ key ∷ []) }
        ensures place { IfOk result (λ place. place ≡ length self.old) }
        ensures err { OnErr result (self.new ≡ self.old) }
    {
        let place = self.keys.push(key)?;
        if let Err(error) = self.places.push(key, place) {
            let _ = self.keys.pop();
            return Err(error);
        }
        if let Err(error) = self.named.push(key, place) {
            self.places.pop(key);
            let _ = self.keys.pop();
            return Err(error);
        }
        Ok(place)
    }

    /// Takes out the last row, if there is one.
    pub fn pop(&mut self)
        ensures { self.new ≡ take (length self.old - 1) self.old }
    {
        if let Some(key) = self.keys.pop() {
            self.places.pop(key);
            self.named.pop(key);
        }
    }

    /// The place of the last row that has a key.
    pub fn last(&self, key: RowKey) -> Option<usize>
        ensures { result ≡ last_key (is_key key) self.now }
    {
        as_place(self.keys.last(key))
    }

    /// The places of the rows of an interface, rising.
    pub fn places(&self, interface: u32) -> &[u32]
        ensures { result.now ≡ places_of (is_key_on interface) self.now }
    {
        self.places.all.of(interface)
    }

    /// The places of the rows that name a handle, rising.
    pub fn named(&self, name: u32) -> &[u32]
        ensures { result.now ≡ places_of (is_key_named name) self.now }
    {
        self.named.of(name)
    }

    /// The places of those rows of an interface that are not weak, rising.
    pub fn others(&self, interface: u32) -> &[u32]
        ensures { result.now ≡ places_of (is_other_on interface) self.now }
    {
        self.places.others.of(interface)
    }

    /// The place of the last row of an interface that has BY_DRIVER or EXCLUSIVE.
    pub fn last_strong(&self, interface: u32) -> Option<usize>
        ensures { result ≡ last_key (is_strong_on interface) self.now }
    {
        as_place(self.places.strong.last(interface))
    }
}
