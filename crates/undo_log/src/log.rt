ghost use Rattle.std.specs.Prelude.{◌≡◌, ◌<◌, [], true, IfOk, OnErr, OnOk, option_copied};
ghost use Rattle.fw_types.specs.declared.limits.TheConstants.{MOST_MARKS as most_marks};
ghost use Rattle.undo_log.specs.Log.{carried, committed, depth, has_room, last_change, marked, noted, without_last};

use crate::mark::{Mark, OpenMark};
use fw_types::{MOST_MARKS, OutOfMemory};
use std::alloc::Global;
use std::marker::Model;

/// The changes since the open marks. `C` is a change with what its inverse needs; `P` is what a mark
/// carries.
///
/// A change takes up its own size and no more, so the size of `C` decides how large a log grows. While the
/// log grows it may take up twice the size of its changes.
#[derive(Drop)]
pub struct Log<C, P> {
    changes: Vec<C>,
    marks: Vec<OpenMark<P>>,
}

impl<C, P> Model for Log<C, P> {
    ghost use Rattle.std.specs.Prelude.{length, nat_lt, reverse, vec_capacity, vec_len};
    ghost use Rattle.undo_log.specs.Log.{LogView};
    ghost use Rattle.undo_log.specs.Sections.{IsInside, sections};

    ghost Value = { LogView C P };

    ghost view = { λ inside. record {
      marks = sections (reverse inside.marks.items) inside.changes.items;
      room = nat_lt (vec_len inside.changes) (vec_capacity inside.changes);
    } };

    ghost invariant = { λ inside. IsInside (length inside.changes.items) (reverse inside.marks.items) (vec_capacity inside.marks) };
}

impl<C, P> Log<C, P> {
    /// A log without open marks and changes. It has room for `MOST_MARKS` open marks. `alloc` gives the
    /// memory of the later calls.
    ///
    /// # Errors
    ///
    /// `OutOfMemory` if there is no memory for the marks.
    pub fn new(alloc: Global) -> Result<Log<C, P>, OutOfMemory>
        ensures { IfOk result (λ log. log.marks ≡ []) }
    {
        let marks = Vec::with_capacity(alloc, MOST_MARKS as usize)?;
        Ok(Log {
            changes: Vec::new(alloc),
            marks,
        })
    }

    /// Opens a mark, which is then the newest, and which carries a value. Fewer than `MOST_MARKS` marks
    /// are open. Takes no memory.
    pub fn mark(&mut self, carried: P) -> Mark
        requires { depth self.old < most_marks }
        ensures mark { result ≡ depth self.new }
        ensures now { self.new ≡ record self.old { marks = marked carried self.old.marks } }
    {
        let start = self.changes.len();
        self.marks.push_reserved(OpenMark { carried, start });
        Mark {
            depth: self.marks.len(),
        }
    }

    /// Makes room for one change, so that `note` takes no memory. If no mark is open, this takes no
    /// memory either.
    ///
    /// # Errors
    ///
    /// `OutOfMemory` if there is no memory for a change.
    pub fn reserve(&mut self) -> Result<(), OutOfMemory>
        ensures marks { self.new.marks ≡ self.old.marks }
        ensures room { OnOk result (has_room self.new ≡ true) }
        ensures unmarked { OnErr result (0 < depth self.old) }
    {
        if !self.marks.is_empty() {
            self.changes.reserve(1)?;
        }
        Ok(())
    }

    /// Notes a change that was made, after those since the newest mark. If no mark is open, the change is
    /// dropped. There is room, as after `reserve`. Takes no memory.
    pub fn note(&mut self, change: C)
    where
        C: Drop,
        requires { has_room self.old ≡ true }
        ensures { self.new.marks ≡ noted change self.old.marks }
    {
        if !self.marks.is_empty() {
            self.changes.push_reserved(change);
        }
    }

    /// Takes out the last change that was noted since a mark, the newest that is open. It is `None` exactly
    /// if nothing was noted since the mark or all of it was taken out. Takes no memory.
    pub fn take_last(&mut self, mark: &Mark) -> Option<C>
        requires newest { mark.now ≡ depth self.old }
        ensures change { result ≡ last_change self.old.marks }
        ensures rest { self.new.marks ≡ without_last self.old.marks }
    {
        let newest = self.marks.as_slice().last()?;
        if self.changes.len() == newest.start {
            return None;
        }
        self.changes.pop()
    }

    /// Closes a mark, the newest that is open. Its changes count as made since the next older mark; those
    /// of the outermost mark are dropped. Takes no memory.
    pub fn commit(&mut self, mark: Mark)
    where
        C: Drop,
        P: Drop,
        requires newest { mark ≡ depth self.old }
        ensures { self.new.marks ≡ committed self.old.marks }
    {
        let _ = self.marks.pop();
        if self.marks.is_empty() {
            self.changes.clear();
        }
    }

    /// Closes all marks and drops all changes, if there is no way back because memory ran out. Takes no
    /// memory.
    pub fn clear(&mut self)
    where
        C: Drop,
        P: Drop,
        ensures { self.new.marks ≡ [] }
    {
        self.marks.clear();
        self.changes.clear();
    }

    /// What the newest open mark carries. It is `None` exactly if no mark is open. Takes no memory.
    pub fn carried(&self) -> Option<&P>
        ensures { option_copied result ≡ carried self.now.marks }
    {
        Some(&self.marks.as_slice().last()?.carried)
    }
}
