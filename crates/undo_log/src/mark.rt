use std::marker::Model;

/// A mark that was made. A contract sees its depth: how many marks were open with it, itself included.
#[derive(Debug, Drop)]
pub struct Mark {
    pub(crate) depth: usize,
}

impl Model for Mark {
    ghost use Rattle.std.specs.Prelude.{ℕ};

    ghost Value = { ℕ };

    ghost view = { λ mark. mark.depth };
}

/// A mark as the log keeps it.
#[derive(Drop)]
pub struct OpenMark<P> {
    /// What the mark carries.
    pub carried: P,
    /// How many changes the log held when the mark was made.
    pub start: usize,
}
