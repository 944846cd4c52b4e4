//! The places of the rows that count, by interface, as long as nothing changes.
ghost use Rattle.std.specs.Prelude.{◌≡◌, ◌<◌, ℕ, [], false, true, None, Some, MatchOption, OnErr, OnOk, length};
ghost use Rattle.record_rows.specs.ShownPlaces.{IsAddedOrOld, IsListedAt, listed_at, with_place_if};

use fw_types::OutOfMemory;
use std::alloc::Global;
use std::marker::Model;

/// What was listed of an interface, and at which change.
#[derive(Drop)]
pub struct ShownList {
    /// The number of the last change before it was listed; 0 if it is out of date.
    pub stamp: u64,
    /// The places of its rows that count.
    pub places: Vec<u32>,
}

/// For interfaces, by their numbers, the places of the rows that count. A contract sees what is up to date.
#[derive(Drop)]
pub struct ShownPlaces {
    alloc: Global,
    changes: u64,
    lists: Vec<ShownList>,
}

impl Model for ShownPlaces {
    ghost use Rattle.std.specs.Prelude.{List, Option, map, ℕ};
    ghost use Rattle.record_rows.specs.ShownPlaces.{AreStamped, listed_in};

    ghost Value = { List (Option (List ℕ)) };

    ghost view = { λ inside. map (listed_in inside.changes) inside.lists.items };

    ghost invariant = { λ inside. AreStamped inside.changes inside.lists.items };
}

impl ShownPlaces {
    /// Nothing is listed. `alloc` gives the memory of the later calls.
    pub fn new(alloc: Global) -> ShownPlaces
        ensures { result ≡ [] }
    {
        ShownPlaces {
            alloc,
            changes: 1,
            lists: Vec::new(alloc),
        }
    }

    /// The places of an interface's rows that count, if they are listed.
    pub fn of(&self, number: u32) -> Option<&[u32]>
        ensures { MatchOption result (listed_at number self.now ≡ None) (λ places. listed_at number self.now ≡ Some places.now) }
    {
        let list = self.lists.get(number as usize)?;
        if list.stamp == self.changes && self.changes < u64::MAX {
            Some(list.places.as_slice())
        } else {
            None
        }
    }

    /// Something changed: nothing is listed any more.
    pub fn forget(&mut self)
        ensures { (number : ℕ) → listed_at number self.new ≡ None }
    {
        self.changes = self.changes.saturating_add(1);
    }

    /// Something changed or not.
    pub fn forget_if(&mut self, changed: bool)
        ensures forgotten { changed ≡ true → (number : ℕ) → listed_at number self.new ≡ None }
        ensures same { changed ≡ false → self.new ≡ self.old }
    {
        if changed {
            self.forget();
        }
    }

    /// One more row was made. If there is no memory for its place, nothing is listed of its interface any more.
    pub fn push_if(&mut self, chosen: bool, number: u32, place: u32)
        ensures { IsListedAt number (with_place_if chosen place (listed_at number self.old)) self.old self.new }
    {
        if chosen {
            self.push(number, place);
        }
    }

    /// One more row was made, which counts.
    fn push(&mut self, number: u32, place: u32)
        ensures { IsListedAt number (with_place_if true place (listed_at number self.old)) self.old self.new }
    {
        let number = number as usize;
        if number < self.lists.len() {
            self.lists[number].push(place);
        }
    }

    /// Lists the places of an interface's rows that count. After an error all is as before.
    pub fn set(&mut self, number: u32, places: Vec<u32>) -> Result<(), OutOfMemory>
        ensures ok { OnOk result (IsListedAt number (Some places.items) self.old self.new) }
        ensures err { OnErr result ((other : ℕ) → listed_at other self.new ≡ listed_at other self.old) }
    {
        let number = number as usize;
        self.reach(number)?;
        self.lists[number] = ShownList {
            stamp: self.changes,
            places,
        };
        Ok(())
    }

    /// Makes lists that are out of date until a number has one.
    fn reach(&mut self, number: usize) -> Result<(), OutOfMemory>
        ensures reached { OnOk result (number < length self.new) }
        ensures same { (other : ℕ) → listed_at other self.new ≡ listed_at other self.old }
    {
        while self.lists.len() <= number {
            self.lists.push(ShownList {
                stamp: 0,
                places: Vec::new(self.alloc),
            })?;
        }
        Ok(())
    }
}

impl ShownList {
    /// One more place. If there is no memory for it, the list is out of date.
    fn push(&mut self, place: u32)
        ensures { IsAddedOrOld place self.old self.new }
    {
        if self.places.push(place).is_err() {
            self.stamp = 0;
        }
    }
}
