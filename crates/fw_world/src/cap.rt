use std::marker::Model;

/// The units that a cap has set aside. A contract sees how many.
#[derive(Debug, Drop)]
pub struct Cap {
    pub(crate) aside: u64,
}

impl Model for Cap {
    ghost use Rattle.std.specs.Prelude.{ℕ};

    ghost Value = { ℕ };

    ghost view = { λ cap. cap.aside };
}
