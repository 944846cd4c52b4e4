//! The rows and their changes. What is asked of them is in `asking`.
ghost use Rattle.std.specs.Prelude.{◌≡◌, ◌-◌, [], ℕ, List, Some, false, true, IfOk, MatchOption, OnErr, OnOk, length, option_map, slice_get, take};
ghost use Rattle.std.specs.List.{list_any};
ghost use Rattle.open_records.specs.Keyed.{is_of};
ghost use Rattle.record_rows.specs.Asking.{HasClass, HasName, KeepsKeys, both_cuts, closed_where, counts_at, cut_on, passes_at};
ghost use Rattle.record_rows.specs.Inside.{names_line, rows_of};
ghost use Rattle.record_rows.specs.Rows.{Line, closed_at, counted_at, with_both_cuts, with_line, with_name_cut};

mod asking;

use crate::cutters::{Cutters, Mark};
use crate::row_index::RowIndex;
use crate::shown_places::ShownPlaces;
use fw_types::{Attr, Guid, Handle, OutOfMemory};
use open_records::{KeyedRecord, Rec, Test};
use std::alloc::Global;
use std::marker::Model;

/// The open records as rows, in order of their making, with the cuts that say which of them count.
#[derive(Drop)]
pub struct RecordRows {
    alloc: Global,
    records: Vec<KeyedRecord>,
    marks: Vec<Mark>,
    cutters: Cutters,
    index: RowIndex,
    shown: ShownPlaces,
    shown_others: ShownPlaces,
}

impl Model for RecordRows {
    ghost use Rattle.record_rows.specs.Inside.{Kept, lines_of};
    ghost use Rattle.record_rows.specs.RowsKept.{AreRowsKept};

    ghost Value = { Kept };

    ghost view = { λ inside. record {
      lines = lines_of inside.records.items inside.marks.items;
      names = inside.cutters.names;
      classes = inside.cutters.classes;
    } };

    ghost invariant = { λ inside. AreRowsKept inside.cutters.names inside.cutters.classes inside.records.items inside.marks.items inside.index inside.shown inside.shown_others };
}

impl RecordRows {
    /// No rows. `alloc` gives the memory of the later calls.
    pub fn new(alloc: Global) -> RecordRows
        ensures { result ≡ record { lines = []; names = []; classes = [] } }
    {
        RecordRows {
            alloc,
            records: Vec::new(alloc),
            marks: Vec::new(alloc),
            cutters: Cutters::new(alloc),
            index: RowIndex::new(alloc),
            shown: ShownPlaces::new(alloc),
            shown_others: ShownPlaces::new(alloc),
        }
    }

    /// How many rows there are.
    pub fn len(&self) -> usize
        ensures { result ≡ length self.now.lines }
    {
        self.records.len()
    }

    /// Takes out the last row, if there is one.
    pub fn pop(&mut self)
        ensures { self.new ≡ record self.old { lines = take (length self.old.lines - 1) self.old.lines } }
    {
        let left = self.records.len().saturating_sub(1);
        self.records.truncate(left);
        self.marks.truncate(left);
        self.index.pop();
        self.shown.forget();
        self.shown_others.forget();
    }

    /// Makes a row of a record. After an error the rows are as before.
    pub fn push(&mut self, one: KeyedRecord) -> Result<(), OutOfMemory>
        ensures ok { OnOk result (rows_of self.new ≡ with_line one (rows_of self.old)) }
        ensures err { OnErr result (rows_of self.new ≡ rows_of self.old) }
        ensures keys { KeepsKeys self.old self.new }
    {
        let count = self.records.len();
        self.records.reserve(1)?;
        self.marks.reserve(1)?;
        let mark = self.cutters.mark_of(&one)?;
        let counts = self.cutters.counts(count, &mark);
        let place = self.index.push(mark.key())?;
        self.records.push_reserved(one);
        self.marks.push_reserved(mark);
        self.shown.push_if(counts, mark.interface, place);
        let is_other = !mark.attr.has_bit_of(Attr::WEAK_BITS);
        self.shown_others
            .push_if(counts & is_other, mark.interface, place);
        Ok(())
    }

    /// Cuts a handle number: no row that names it counts any more. Answers its last cut, or nothing if no row names it.
    pub fn cut_name(&mut self, name: u64) -> Option<usize>
        ensures cut { MatchOption result ((self.new ≡ self.old) × (list_any (names_line name) self.old.lines ≡ false))
            (λ before. ((rows_of self.old).cuts.name name ≡ before) × HasName name self.new
            × (rows_of self.new ≡ record (rows_of self.old) { cuts = with_name_cut name (length self.old.lines) (rows_of self.old).cuts })) }
        ensures keys { KeepsKeys self.old self.new }
    {
        let place = self.len();
        self.shown.forget();
        self.shown_others.forget();
        self.cutters.cut_name(name, place)
    }

    /// Sets the cut of a handle number back, which it has.
    pub fn restore_name(&mut self, name: u64, before: usize)
        requires { HasName name self.old }
        ensures restored { rows_of self.new ≡ record (rows_of self.old) { cuts = with_name_cut name before (rows_of self.old).cuts } }
        ensures keys { KeepsKeys self.old self.new }
    {
        self.shown.forget();
        self.shown_others.forget();
        let _ = self.cutters.cut_name(name, before);
    }

    /// Cuts the weak records of an interface, and its other records too if all are to go: no row of them counts any more.
    /// Answers its last cuts, of the weak records first, or nothing if no row is of the interface.
    pub fn cut_interface(&mut self, handle: Handle, guid: Guid, all: bool) -> Option<(usize, usize)>
        ensures cut { MatchOption result ((self.new ≡ self.old) × (list_any (λ (line : Line). is_of handle guid line.keyed) self.old.lines ≡ false))
            (λ before. (both_cuts (handle, guid) (rows_of self.old).cuts ≡ before) × HasClass (handle, guid) self.new
            × (rows_of self.new ≡ record (rows_of self.old) { cuts = cut_on all (handle, guid) (length self.old.lines) (rows_of self.old).cuts })) }
        ensures keys { KeepsKeys self.old self.new }
    {
        let place = self.len();
        self.shown.forget();
        self.shown_others.forget_if(all);
        self.cutters
            .cut_interface((handle, guid), place, all.then_some(place))
    }

    /// Sets both cuts of an interface back, which it has.
    pub fn restore_interface(&mut self, handle: Handle, guid: Guid, before: (usize, usize))
        requires { HasClass (handle, guid) self.old }
        ensures restored { rows_of self.new ≡ record (rows_of self.old) { cuts = with_both_cuts (handle, guid) before (rows_of self.old).cuts } }
        ensures keys { KeepsKeys self.old self.new }
    {
        let (weak, other) = before;
        let changed = self.cutters.other_cut((handle, guid)) != other;
        self.shown.forget();
        self.shown_others.forget_if(changed);
        let _ = self
            .cutters
            .cut_interface((handle, guid), weak, Some(other));
    }

    /// Closes the row at a place, or opens it again. If there is none, nothing changes.
    pub fn set_closed(&mut self, place: usize, closed: bool)
        ensures { self.new ≡ record self.old { lines = closed_at place closed self.old.lines } }
    {
        self.shown.forget();
        self.shown_others.forget();
        if place < self.marks.len() {
            self.marks[place].closed = closed;
        }
    }

    /// Protocols of a handle, among them all by which it has rows.
    pub fn protocols_on(&self, handle: Handle) -> Result<Vec<Guid>, OutOfMemory>
        ensures { IfOk result (λ guids. (guid : List ℕ) → list_any (λ (line : Line). is_of handle guid line.keyed) self.now.lines ≡ true → (number : ℕ) × (slice_get guids.items number ≡ Some guid)) }
    {
        self.cutters.protocols_on(self.alloc, handle)
    }

    /// Sets the count of the record at a place. If there is none, nothing changes.
    pub fn set_count(&mut self, place: usize, count: u32)
        ensures { self.new ≡ record self.old { lines = counted_at place count self.old.lines } }
    {
        if place < self.records.len() {
            self.records[place].rec.count = count;
        }
    }

    /// Closes the rows whose records pass a test.
    pub fn close_where<T: Test>(&mut self, test: &T)
        ensures { self.new ≡ record self.old { lines = closed_where (T.chosen test.now) self.old.lines } }
    {
        for place in 0..self.len() {
            if self.passes(place, test) {
                self.set_closed(place, true);
            }
        }
    }

    /// Whether the record at a place passes a test, whether it counts or not.
    fn passes<T: Test>(&self, place: usize, test: &T) -> bool
        ensures { result ≡ passes_at (T.chosen test.now) self.now.lines place }
    {
        match self.records.get(place) {
            None => false,
            Some(one) => test.chooses(one),
        }
    }

    /// Whether the row at a place counts. If there is none, it does not.
    #[inline]
    pub fn counts(&self, place: usize) -> bool
        ensures { result ≡ counts_at (rows_of self.now) place }
    {
        match self.marks.get(place) {
            None => false,
            Some(mark) => self.cutters.counts(place, mark),
        }
    }

    /// The record at a place with its interface, whether it counts or not.
    pub fn keyed(&self, place: usize) -> Option<KeyedRecord>
        ensures { result ≡ option_map (λ (line : Line). line.keyed) (slice_get self.now.lines place) }
    {
        match self.records.get(place) {
            None => None,
            Some(one) => Some(*one),
        }
    }

    /// The record at a place, whether it counts or not.
    pub fn rec(&self, place: usize) -> Option<Rec>
        ensures { result ≡ option_map (λ (line : Line). line.keyed.rec) (slice_get self.now.lines place) }
    {
        match self.records.get(place) {
            None => None,
            Some(one) => Some(one.rec),
        }
    }
}
