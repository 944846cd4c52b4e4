//! What an open and an uninstall answer after the disconnect before them (UEFI 2.8, 7.3).
ghost use Rattle.std.specs.Prelude.{◌≡◌, IfOk, OnOk};
ghost use Rattle.world_model.specs.Marks.{stacks};
ghost use Rattle.service_model.specs.SecondLook.{looked_again};
ghost use Rattle.driver_model.specs.OpenWithRemoval.{is_passed_on};

use fw_types::{OutOfMemory, Status};
use fw_world::World;
use leaf_services::reopen;
use service_model::laws::{second_looks_end, second_looks_spend_nothing};
use service_model::{Opening, Served};

/// Whether an open or an uninstall passes on the status of its disconnect.
pub fn is_passed_on(status: Status) -> bool
    ensures { result ≡ is_passed_on status }
{
    status == Status::OUT_OF_RESOURCES || status == Status::ABORTED
}

/// Looks at an open again, and answers it.
///
/// # Errors
///
/// `OutOfMemory` if there is no memory for what the service does.
pub fn look_again(world: &mut World, opening: &Opening) -> Result<Served, OutOfMemory>
    ensures now { IfOk result (λ answer.
        looked_again opening.now world.old.now ≡ (answer, world.new.now)) }
    ensures marks { OnOk result (world.new.marks ≡ world.old.marks) }
    ensures stacks { OnOk result (stacks world.new.now.soft ≡ stacks world.old.now.soft) }
    ensures hard { OnOk result (world.new.now.hard ≡ world.old.now.hard) }
{
    second_looks_end();
    second_looks_spend_nothing();
    world.is_kept();
    reopen(world, opening)
}
