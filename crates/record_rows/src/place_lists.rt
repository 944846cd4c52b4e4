//! Lists of places, by number.
ghost use Rattle.std.specs.Prelude.{◌≡◌, ◌<◌, [], true, OnErr, OnOk, length, slice_get, ◌-◌};
ghost use Rattle.record_rows.specs.IndexInside.{AreSame, IsLonger, IsShorter, list_at};

use fw_types::OutOfMemory;
use std::alloc::Global;
use std::marker::Model;

/// Lists of places, each with a number. A number of which no list was made has an empty one.
#[derive(Drop)]
pub struct PlaceLists {
    alloc: Global,
    lists: Vec<Vec<u32>>,
}

impl Model for PlaceLists {
    ghost use Rattle.std.specs.Prelude.{ℕ, List, Vec, map};
    ghost use Rattle.std.specs.declared.alloc.Global.{Global};

    ghost Value = { List (List ℕ) };

    ghost view = { λ inside. map (λ (list : Vec ℕ Global). list.items) inside.lists.items };
}

impl PlaceLists {
    /// No lists. `alloc` gives the memory of the later calls.
    pub fn new(alloc: Global) -> PlaceLists
        ensures { result ≡ [] }
    {
        PlaceLists {
            alloc,
            lists: Vec::new(alloc),
        }
    }

    /// The list of a number.
    pub fn of(&self, number: u32) -> &[u32]
        ensures { result.now ≡ list_at number self.now }
    {
        match self.lists.get(number as usize) {
            Some(list) => list.as_slice(),
            None => &[],
        }
    }

    /// The last place in the list of a number.
    pub fn last(&self, number: u32) -> Option<u32>
        ensures { result ≡ slice_get (list_at number self.now) (length (list_at number self.now) - 1) }
    {
        self.of(number).last().copied()
    }

    /// Makes empty lists until a number has one.
    fn reach(&mut self, number: usize) -> Result<(), OutOfMemory>
        ensures reached { OnOk result (number < length self.new) }
        ensures same { AreSame self.old self.new }
    {
        while self.lists.len() <= number {
            self.lists.push(Vec::new(self.alloc))?;
        }
        Ok(())
    }

    /// Adds a place to the list of a number. After an error the lists are as before.
    fn push(&mut self, number: u32, place: u32) -> Result<(), OutOfMemory>
        ensures ok { OnOk result (IsLonger true number place self.old self.new) }
        ensures err { OnErr result (AreSame self.old self.new) }
    {
        self.reach(number as usize)?;
        self.lists[number as usize].push(place)?;
        Ok(())
    }

    /// Adds a place to the list of a number, if it is chosen. After an error the lists are as before.
    pub fn push_if(&mut self, chosen: bool, number: u32, place: u32) -> Result<(), OutOfMemory>
        ensures ok { OnOk result (IsLonger chosen number place self.old self.new) }
        ensures err { OnErr result (AreSame self.old self.new) }
    {
        if chosen {
            self.push(number, place)
        } else {
            Ok(())
        }
    }

    /// Takes the last place out of the list of a number, if it is chosen and has one.
    pub fn pop_if(&mut self, chosen: bool, number: u32)
        ensures { IsShorter chosen number self.old self.new }
    {
        if !chosen {
            return;
        }
        let number = number as usize;
        if number < self.lists.len() {
            let _ = self.lists[number].pop();
        }
    }
}
