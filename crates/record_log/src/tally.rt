//! How many records count.
ghost use Rattle.std.specs.Prelude.{◌≡◌, ◌<◌, None, false, length, nat_le};
ghost use Rattle.record_rows.specs.Inside.{rows_of};
ghost use Rattle.record_rows.specs.Rows.{RowsView, shown};
ghost use Rattle.record_log.specs.SoundRows.{AllTallied};
ghost use Rattle.record_log.specs.Tallies.{HasFallen, IsTallied};
ghost use Rattle.undo_log.specs.Log.{last_change};

use crate::record_change::RecordChange;
use record_rows::RecordRows;
use undo_log::Log;

/// How many records count, so that they need not be counted again for each that is made.
#[derive(Clone, Copy, Debug)]
pub struct Tally {
    /// At most so many count.
    pub most: usize,
    /// Whether it is known that so many count.
    pub exact: bool,
}

impl Tally {
    /// Some records went. Of those among which they were, there were so many before, and are so many now, if that is known.
    pub(crate) fn fall(&mut self, before: Option<usize>, after: Option<usize>)
        ensures { (old new : RowsView) → HasFallen before after old new → IsTallied self.old old → IsTallied self.new new }
    {
        if let (Some(before), Some(after)) = (before, after) {
            self.most = self.most.saturating_sub(before.saturating_sub(after));
        } else {
            self.exact = false;
        }
    }
}

/// How many records count.
pub(crate) fn count_of(rows: &RecordRows, tally: &Tally) -> usize
    requires { IsTallied tally.now (rows_of rows.now) }
    ensures { result ≡ length (shown (rows_of rows.now)) }
{
    if tally.exact {
        return tally.most;
    }
    rows.shown_count()
}

/// Whether at least so many records count.
pub(crate) fn is_at_limit(rows: &RecordRows, tally: &Tally, limit: u32) -> bool
    requires { IsTallied tally.now (rows_of rows.now) }
    ensures { result ≡ nat_le limit (length (shown (rows_of rows.now))) }
{
    if tally.most < limit as usize {
        return false;
    }
    count_of(rows, tally) >= limit as usize
}

/// How many records count. If they had to be counted, their number is known from then on.
pub(crate) fn counted(rows: &RecordRows, tally: &mut Tally) -> usize
    requires { IsTallied tally.old (rows_of rows.now) }
    ensures count { result ≡ length (shown (rows_of rows.now)) }
    ensures tally { IsTallied tally.new (rows_of rows.now) }
    ensures most { tally.new.most ≡ result }
{
    if !tally.exact {
        *tally = Tally {
            most: rows.shown_count(),
            exact: true,
        };
    }
    tally.most
}

/// Whether at least so many records count. If they had to be counted, their number is known from then on.
pub(crate) fn meets_limit(rows: &RecordRows, tally: &mut Tally, limit: u32) -> bool
    requires { IsTallied tally.old (rows_of rows.now) }
    ensures limit { result ≡ nat_le limit (length (shown (rows_of rows.now))) }
    ensures tally { IsTallied tally.new (rows_of rows.now) }
    ensures below { result ≡ false → tally.new.most < limit }
{
    if tally.most < limit as usize {
        return false;
    }
    counted(rows, tally) >= limit as usize
}

/// The tally that the newest mark carries. All changes since were taken back.
pub(crate) fn tally_at_mark(log: &Log<RecordChange, Tally>, rows: &RecordRows) -> Tally
    requires taken { last_change log.now.marks ≡ None }
    requires carried { AllTallied log.now.marks (rows_of rows.now) }
    ensures { IsTallied result (rows_of rows.now) }
{
    match log.carried() {
        Some(tally) => *tally,
        None => Tally {
            most: rows.len(),
            exact: false,
        },
    }
}
