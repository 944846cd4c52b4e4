use std::marker::Model;

/// A mark that was made. A contract sees its depth: how many marks were open with it, itself included.
#[derive(Debug, Drop)]
pub struct Mark {
    /// The mark of the soft part.
    pub(crate) soft: undo_log::Mark,
    /// The mark of the open records, of the same depth.
    pub(crate) records: record_log::Mark,
}

impl Model for Mark {
    ghost use Rattle.std.specs.Prelude.{◌≡◌, ℕ};

    ghost Value = { ℕ };

    ghost view = { λ inside. inside.soft };

    ghost invariant = { λ inside. inside.records ≡ inside.soft };
}
