//! The end of a driver call: what it did is kept or undone.
ghost use Rattle.std.specs.Prelude.{◌≡◌, ◌<◌, IfOk, OnOk};
ghost use Rattle.world_model.specs.Marks.{depth, marked_stacks, older_marks, put_back, stacks};
ghost use Rattle.driver_model.specs.Moves.{plain};
ghost use Rattle.driver_model.specs.DriverCall.{kept_or_undone};

use crate::driver_calls::commits;
use driver_model::CallKind;
use fw_types::{OutOfMemory, Outcome};
use fw_world::{Mark, World};

/// Keeps what a call did if it commits, or puts back the soft part that its mark keeps.
///
/// # Errors
///
/// `OutOfMemory` if there is no memory for what is put back.
pub fn settle(
    world: &mut World,
    mark: Mark,
    kind: CallKind,
    outcome: Outcome,
) -> Result<Outcome, OutOfMemory>
    requires newest { mark ≡ depth world.old }
    requires stacks { stacks world.old.now.soft ≡ marked_stacks world.old }
    requires open { 0 < depth world.old }
    ensures now { IfOk result (λ last.
        kept_or_undone plain kind (put_back world.old.marks world.old.now).soft
        (outcome, world.old.now)
        ≡ (last, world.new.now)) }
    ensures marks { OnOk result (world.new.marks ≡ older_marks world.old.marks) }
    ensures stacks { OnOk result (stacks world.new.now.soft ≡ stacks world.old.now.soft) }
    ensures hard { OnOk result (world.new.now.hard ≡ world.old.now.hard) }
{
    if commits(kind, outcome) {
        world.commit(mark);
    } else {
        world.rollback(mark)?;
    }
    Ok(outcome)
}
