//! New rows, of the records that count.
ghost use Rattle.std.specs.Prelude.{◌≡◌, ◌++◌, ◌⊎◌, IfOk, OnOk, slice_get};
ghost use Rattle.record_rows.specs.Inside.{rows_of};
ghost use Rattle.record_log.specs.Tallies.{IsTallied};
ghost use Rattle.record_log.specs.SoundRows.{copied, fresh_of};

use crate::tally::{Tally, counted};
use fw_types::OutOfMemory;
use record_rows::RecordRows;
use std::alloc::Global;

/// How many rows that don't count are kept, besides an eighth as many as do.
const SPARE_ROWS: usize = 1024;

/// Takes new rows of the records that count, if that pays and there is memory.
pub(crate) fn renew(alloc: Global, rows: &mut RecordRows, tally: &mut Tally)
    requires { IsTallied tally.old (rows_of rows.old) }
    ensures tally { IsTallied tally.new (rows_of rows.old) }
    ensures rows { (rows.new ≡ rows.old) ⊎ (rows_of rows.new ≡ fresh_of (rows_of rows.old)) }
{
    if !pays(rows, tally) {
        return;
    }
    if let Ok(fresh) = fresh_rows(alloc, rows) {
        *rows = fresh;
    }
}

/// Whether so many rows don't count that new rows of the others are worth their making.
fn pays(rows: &RecordRows, tally: &mut Tally) -> bool
    requires { IsTallied tally.old (rows_of rows.now) }
    ensures { IsTallied tally.new (rows_of rows.now) }
{
    if rows.len() <= SPARE_ROWS {
        return false;
    }
    let shown = counted(rows, tally);
    rows.len().saturating_sub(shown) > SPARE_ROWS + shown / 8
}

/// New rows of the records that count, none of which is cut.
fn fresh_rows(alloc: Global, rows: &RecordRows) -> Result<RecordRows, OutOfMemory>
    ensures { IfOk result (λ fresh. rows_of fresh ≡ fresh_of (rows_of rows.now)) }
{
    let mut fresh = RecordRows::new(alloc);
    for place in 0..rows.len() {
        copy_row(&mut fresh, rows, place)?;
    }
    Ok(fresh)
}

/// Makes a row of the record at a place, if it counts.
fn copy_row(fresh: &mut RecordRows, rows: &RecordRows, place: usize) -> Result<(), OutOfMemory>
    ensures { OnOk result (rows_of fresh.new ≡ record (rows_of fresh.old) { lines = fresh.old.lines ++ copied (rows_of rows.now).cuts place (slice_get rows.now.lines place) }) }
{
    if !rows.counts(place) {
        return Ok(());
    }
    match rows.keyed(place) {
        None => Ok(()),
        Some(one) => fresh.push(one),
    }
}
