//! The places of the rows of each interface.
ghost use Rattle.std.specs.Prelude.{◌≡◌, OnErr, OnOk, []};
ghost use Rattle.record_rows.specs.IndexInside.{EachIsLonger, EachIsSame, EachIsShorter, is_other, is_holding};

use crate::last_places::RowKey;
use crate::place_lists::PlaceLists;
use fw_types::{Attr, OutOfMemory};
use std::alloc::Global;

/// The places of the rows of each interface, rising: of all, of those that are not weak, and of those with BY_DRIVER or
/// EXCLUSIVE.
#[derive(Drop)]
pub struct InterfacePlaces {
    /// Of all.
    pub all: PlaceLists,
    /// Of those that are not weak.
    pub others: PlaceLists,
    /// Of those with BY_DRIVER or EXCLUSIVE.
    pub strong: PlaceLists,
}

/// Whether the bits of an attribute are not those of a weak record.
fn is_other(bits: u32) -> bool
    ensures { result ≡ is_other bits }
{
    (bits & Attr::WEAK_BITS) == 0
}

/// Whether the bits of an attribute have BY_DRIVER or EXCLUSIVE.
fn is_holding(bits: u32) -> bool
    ensures { result ≡ is_holding bits }
{
    (bits & Attr::HOLDING_BITS) != 0
}

impl InterfacePlaces {
    /// No places. `alloc` gives the memory of the later calls.
    pub fn new(alloc: Global) -> InterfacePlaces
        ensures { result ≡ record { all = []; others = []; strong = [] } }
    {
        InterfacePlaces {
            all: PlaceLists::new(alloc),
            others: PlaceLists::new(alloc),
            strong: PlaceLists::new(alloc),
        }
    }

    /// Adds the place of a row that has a key. After an error the lists are as before.
    pub fn push(&mut self, key: RowKey, place: u32) -> Result<(), OutOfMemory>
        ensures ok { OnOk result (EachIsLonger key place self.old self.new) }
        ensures err { OnErr result (EachIsSame self.old self.new) }
    {
        let (number, _, _, bits) = key;
        self.all.push_if(true, number, place)?;
        if let Err(error) = self.others.push_if(is_other(bits), number, place) {
            self.all.pop_if(true, number);
            return Err(error);
        }
        if let Err(error) = self.strong.push_if(is_holding(bits), number, place) {
            self.others.pop_if(is_other(bits), number);
            self.all.pop_if(true, number);
            return Err(error);
        }
        Ok(())
    }

    /// Takes out the place of the last row, which has this key.
    pub fn pop(&mut self, key: RowKey)
        ensures { EachIsShorter key self.old self.new }
    {
        let (number, _, _, bits) = key;
        self.all.pop_if(true, number);
        self.others.pop_if(is_other(bits), number);
        self.strong.pop_if(is_holding(bits), number);
    }
}
