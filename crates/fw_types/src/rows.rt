ghost use Rattle.std.specs.Prelude.{◌≡◌, ◌<◌, ◌≤◌, ◌+◌, ◌++◌, [], ◌∷◌, List, if◌then◌else◌, is_ok, length, remove, slice_index_or, take, drop};
ghost use Rattle.std.specs.Cmp.Lexicographic.{pointwise, lists_per};
ghost use Rattle.std.specs.Fn.{CalledAt};
ghost use Rattle.std.specs.List.Retain.{IsFiltered};

use crate::memory::OutOfMemory;
use std::marker::Model;

/// Values in a row, which a contract sees as a list.
#[derive(Debug, Drop)]
pub struct Rows<T> {
    items: Vec<T>,
}

impl<T> Model for Rows<T> {
    ghost Value = { List T };

    ghost view = { λ rows. rows.items.items };
}

impl<T: PartialEq> PartialEq for Rows<T> {
    ghost eq = { λ x y. pointwise T.eq x y };

    ghost laws = { lists_per T.laws };

    fn eq(&self, other: &Rows<T>) -> bool {
        self.as_slice() == other.as_slice()
    }
}

impl<T> Rows<T> {
    /// The values of a vector, in its order. Takes no memory.
    pub fn of(v: Vec<T>) -> Rows<T>
        ensures { result ≡ v.items }
    {
        Rows { items: v }
    }

    /// The values, in order.
    pub fn as_slice(&self) -> &[T]
        ensures { result.now ≡ self.now }
    {
        self.items.as_slice()
    }

    /// Adds a value after the others.
    ///
    /// # Errors
    ///
    /// `OutOfMemory` if there is no memory for it. The values are then as before.
    pub fn push(&mut self, value: T) -> Result<(), OutOfMemory>
    where
        T: Drop,
        ensures { self.new ≡ (if is_ok result then self.old ++ value ∷ [] else self.old) }
    {
        self.items.push(value)?;
        Ok(())
    }

    /// Takes out the value at a place, and the others close up. Takes no memory.
    pub fn remove(&mut self, place: usize) -> T
        requires { place < length self.old }
        ensures value { result ≡ slice_index_or self.old place result }
        ensures rest { self.new ≡ remove self.old place }
    {
        self.items.remove(place)
    }

    /// Keeps the values that pass a test, in their order. Takes no memory.
    pub fn retain<F: FnMut(&T) -> bool>(&mut self, test: F)
    where
        T: Drop,
        requires { F.IsAlwaysCallable test }
        ensures { IsFiltered (CalledAt F.FnMut) test self.old self.new }
    {
        self.items.retain(test);
    }

    /// Copies values over those from a place on. Takes no memory.
    pub fn replace(&mut self, at: usize, values: &[T])
    where
        T: Copy,
        requires { at + length values.now ≤ length self.old }
        ensures { self.new ≡ take at self.old ++ values.now ++ drop (at + length values.now) self.old }
    {
        let items = self.items.as_mut_slice();
        items[at..at + values.len()].copy_from_slice(values);
    }

    /// The vector of the values, in order. Takes no memory.
    pub fn into_vec(self) -> Vec<T>
        ensures { result.items ≡ self }
    {
        self.items
    }
}
