//! Laws of the rows in a log, over the definitions alone.
ghost use Rattle.std.specs.Prelude.{◌≡◌, ℕ, Bool, List, true, filter, not, slice_get};
ghost use Rattle.std.specs.Option.{option_to_list};
ghost use Rattle.open_records.specs.declared.open_record.KeyedRecord.{KeyedRecord};
ghost use Rattle.record_rows.specs.Rows.{RowsView, counted_at, entries_of, with_line};
ghost use Rattle.record_log.specs.SoundRows.{AreChosen, Excludes, IsSoundRows, OlderAreOut, count_in_line, fresh_of, last_counting};
ghost use Rattle.record_log.specs.TakingBack.{back, closed_each};
ghost use Rattle.record_log.specs.declared.record_change.RecordChange.TheVariants.{Closed, Counted, Made};

/// A change is taken back by what is noted of it: a row that was made, another count, and rows that were closed.
pub fn changes_are_taken_back()
    ensures made { (rows : RowsView) (one : KeyedRecord) → back Made (with_line one rows) ≡ rows }
    ensures counted { (rows : RowsView) (place count : ℕ)
        → back (Counted place (count_in_line (slice_get rows.lines place))) (record rows { lines = counted_at place count rows.lines }) ≡ rows }
    ensures closed { (limit : ℕ) (test : KeyedRecord → Bool) (places : List ℕ) (rows : RowsView) → IsSoundRows limit rows → AreChosen test rows places
        → back (Closed places) (record rows { lines = closed_each places true rows.lines }) ≡ rows }
{}

/// If the rows that count and pass a test are closed, their records leave the table, and no others do.
pub fn closed_rows_leave()
    ensures { (limit : ℕ) (test : KeyedRecord → Bool) (places : List ℕ) (rows : RowsView) → IsSoundRows limit rows → AreChosen test rows places
        → entries_of (record rows { lines = closed_each places true rows.lines }) ≡ filter (λ (one : KeyedRecord). not (test one)) (entries_of rows) }
{}

/// Of the rows whose records exclude each other only the last can count.
pub fn only_the_last_counts()
    ensures { (test : KeyedRecord → Bool) (rows : RowsView) → Excludes test → OlderAreOut rows → AreChosen test rows (option_to_list (last_counting test rows)) }
{}

/// New rows of the records that count give the same table.
pub fn fresh_rows_give_the_same()
    ensures { (rows : RowsView) → entries_of (fresh_of rows) ≡ entries_of rows }
{}
