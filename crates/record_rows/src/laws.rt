//! Laws of the rows, over the definitions alone. Each is the contract of a function without code.
ghost use Rattle.std.specs.Prelude.{◌≡◌, ℕ, Bool, true, false, not, List, Some, filter, length, map, slice_get};
ghost use Rattle.open_records.specs.Records.{is_named};
ghost use Rattle.open_records.specs.Keyed.{rise};
ghost use Rattle.open_records.specs.declared.open_record.KeyedRecord.{KeyedRecord};
ghost use Rattle.open_records.specs.Changing.{counted, with_new};
ghost use Rattle.open_records.specs.Interfaces.{Interface, is_on};
ghost use Rattle.record_rows.specs.Rows.{AreWithin, Cuts, IsOnlyOne, Line, RowsView, closed_at, counted_at, entries_of, in_order, shown, with_line, with_name_cut, with_other_cut, with_weak_cut};

/// The table that rows give is in order: by handle, then by GUID.
pub fn orders_rise()
    ensures { (records : List KeyedRecord) → rise (in_order records) ≡ true }
{}

/// A cut of a handle number takes the records that name it out of the table.
pub fn cuts_sweep()
    ensures { (rows : RowsView) (name : ℕ)
        → entries_of (record rows { cuts = with_name_cut name (length rows.lines) rows.cuts })
        ≡ filter (λ (one : KeyedRecord). not (is_named name one.rec)) (entries_of rows) }
{}

/// Cuts of both classes of an interface take its records out of the table.
pub fn cuts_clear()
    ensures { (rows : RowsView) (interface : Interface)
        → entries_of (record rows { cuts = with_other_cut interface (length rows.lines) (with_weak_cut interface (length rows.lines) rows.cuts) })
        ≡ filter (λ (one : KeyedRecord). not (is_on interface one)) (entries_of rows) }
{}

/// A cut is taken back by the cut from before.
pub fn cuts_are_undone()
    ensures name { (name place : ℕ) (cuts : Cuts) → with_name_cut name (cuts.name name) (with_name_cut name place cuts) ≡ cuts }
    ensures weak { (interface : Interface) (place : ℕ) (cuts : Cuts) → with_weak_cut interface (cuts.weak interface) (with_weak_cut interface place cuts) ≡ cuts }
    ensures other { (interface : Interface) (place : ℕ) (cuts : Cuts) → with_other_cut interface (cuts.other interface) (with_other_cut interface place cuts) ≡ cuts }
{}

/// The record of a row that is closed leaves the table, if of the rows that count no other passes the test.
pub fn closing_removes()
    ensures { (rows : RowsView) (place : ℕ) (test : KeyedRecord → Bool) → IsOnlyOne rows.cuts 0 place test rows.lines
        → entries_of (record rows { lines = closed_at place true rows.lines }) ≡ filter (λ (one : KeyedRecord). not (test one)) (entries_of rows) }
{}

/// A row that was closed is as before if it is opened again.
pub fn closings_are_undone()
    ensures { (place : ℕ) (lines : List Line) → ((line : Line) → slice_get lines place ≡ Some line → line.closed ≡ false)
        → closed_at place false (closed_at place true lines) ≡ lines }
{}

/// If a row gets another count, so does its record in the table, and no other does.
pub fn counting_counts()
    ensures { (rows : RowsView) (place count : ℕ) (test : KeyedRecord → Bool) → IsOnlyOne rows.cuts 0 place test rows.lines
        → shown (record rows { lines = counted_at place count rows.lines }) ≡ map (counted test count) (shown rows) }
{}

/// A row is as before if it gets the count from before.
pub fn counts_are_undone()
    ensures { (place count before : ℕ) (lines : List Line) → ((line : Line) → slice_get lines place ≡ Some line → line.keyed.rec.count ≡ before)
        → counted_at place before (counted_at place count lines) ≡ lines }
{}

/// The record of a row that is made enters the table as the last of its interface.
pub fn rows_enter()
    ensures { (rows : RowsView) (one : KeyedRecord) → AreWithin rows.cuts (length rows.lines) → entries_of (with_line one rows) ≡ with_new one (entries_of rows) }
{}
