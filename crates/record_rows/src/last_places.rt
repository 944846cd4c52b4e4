//! The last place of each key.
ghost use Rattle.std.specs.Prelude.{◌≡◌, ◌-◌, ◌++◌, ◌∷◌, [], IfOk, IsSome, MatchOption, OnErr, length, take};
ghost use Rattle.std.specs.BTreeMap as tree;
ghost use Rattle.record_rows.specs.Index.{is_key, last_key};
ghost use Rattle.record_rows.specs.IndexInside.{IsChangedAt, key_cmp};

use fw_types::OutOfMemory;
use std::alloc::Global;
use std::collections::BTreeMap;
use std::marker::Model;

/// The numbers of a row's interface, agent and controller, and the bits of its attribute.
pub type RowKey = (u32, u32, u32, u32);

/// A row's key, and the place of the last row before it that has the same key.
#[derive(Clone, Copy, Debug)]
pub struct NotedKey {
    /// The key of the row.
    pub key: RowKey,
    /// The place of the last row before it that has this key.
    pub before: Option<u32>,
}

/// The keys of rows in order of their making, and the place of the last row that has a key. A contract sees the keys.
#[derive(Drop)]
pub struct LastPlaces {
    last: BTreeMap<RowKey, u32>,
    rows: Vec<NotedKey>,
}

impl Model for LastPlaces {
    ghost use Rattle.std.specs.Prelude.{List};
    ghost use Rattle.record_rows.specs.Index.{RowKey};
    ghost use Rattle.record_rows.specs.IndexInside.{AreLast, keys_in};

    ghost Value = { List RowKey };

    ghost view = { λ inside. keys_in inside.rows.items };

    ghost invariant = { λ inside. AreLast inside.last inside.rows.items };
}

/// Gives a key that has a place an earlier one again, or takes it out if there was none.
fn restore(last: &mut BTreeMap<RowKey, u32>, key: RowKey, before: Option<u32>)
    requires { IsSome (tree.get key_cmp last.old key) }
    ensures { IsChangedAt key before last.old last.new }
{
    match before {
        None => {
            let _ = last.remove(&key);
        }
        Some(place) => {
            if let Some(found) = last.get_mut(&key) {
                *found = place;
            }
        }
    }
}

impl LastPlaces {
    /// No rows. `alloc` gives the memory of the later calls.
    pub fn new(alloc: Global) -> LastPlaces
        ensures { result ≡ [] }
    {
        LastPlaces {
            last: BTreeMap::new(alloc),
            rows: Vec::new(alloc),
        }
    }

    /// How many rows there are.
    pub fn len(&self) -> usize
        ensures { result ≡ length self.now }
    {
        self.rows.len()
    }

    /// Adds a row, and answers its place. After an error all is as before.
    ///
    /// # Errors
    ///
    /// `OutOfMemory` if there is no memory, or if the place needs more than 32 bits.
    pub fn push(&mut self, key: RowKey) -> Result<u32, OutOfMemory>
        ensures ok { IfOk result (λ place. self.new ≡ self.old ++ key ∷ []) }
        ensures place { IfOk result (λ place. place ≡ length self.old) }
        ensures err { OnErr result (self.new ≡ self.old) }
    {
        let count = self.rows.len();
        if count >= u32::MAX as usize {
            return Err(OutOfMemory);
        }
        let place = count as u32;
        self.rows.reserve(1)?;
        let before = self.last.insert(key, place)?;
        self.rows.push_reserved(NotedKey { key, before });
        Ok(place)
    }

    /// Takes out the last row, if there is one, and answers its key.
    pub fn pop(&mut self) -> Option<RowKey>
        ensures left { self.new ≡ take (length self.old - 1) self.old }
        ensures gone { MatchOption result (self.old ≡ []) (λ key. self.old ≡ self.new ++ key ∷ []) }
    {
        let row = self.rows.pop()?;
        restore(&mut self.last, row.key, row.before);
        Some(row.key)
    }

    /// The place of the last row that has a key.
    pub fn last(&self, key: RowKey) -> Option<u32>
        ensures { result ≡ last_key (is_key key) self.now }
    {
        self.last.get(&key).copied()
    }
}
