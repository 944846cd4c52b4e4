use std::marker::Model;

/// A mark that is open. A contract sees its depth: how many marks were open with it.
#[derive(Debug, Drop)]
pub struct Mark {
    pub(crate) mark: soft_log::Mark,
}

impl Model for Mark {
    ghost use Rattle.std.specs.Prelude.{ℕ};

    ghost Value = { ℕ };

    ghost view = { λ inside. inside.mark };
}
