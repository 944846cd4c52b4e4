//! Tests of records.
ghost use Rattle.std.specs.Prelude.{◌≡◌, Bool};
ghost use Rattle.open_records.specs.declared.open_record.KeyedRecord.{KeyedRecord as KeyedValue};

use crate::open_record::KeyedRecord;

/// A test of records.
pub trait Test: Drop {
    ghost chosen: { Self → KeyedValue → Bool };

    /// Whether a record passes it.
    fn chooses(&self, one: &KeyedRecord) -> bool
        ensures { result ≡ chosen self.now one.now };
}
