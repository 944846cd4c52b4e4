//! OpenProtocol with EXCLUSIVE, of an interface that a driver manages (UEFI 2.8, 7.3).
ghost use Rattle.std.specs.Prelude.{◌≡◌, ◌≤◌, IfOk, OnOk, length, true};
ghost use Rattle.fw_types.specs.declared.limits.TheConstants.{MOST_LEVELS as most_levels};
ghost use Rattle.world_model.specs.Levels.{has_marks, is_free};
ghost use Rattle.world_model.specs.Marks.{stacks};
ghost use Rattle.driver_model.specs.Moves.{plain};
ghost use Rattle.driver_model.specs.OpenWithRemoval.{removed};
ghost use Rattle.engine.specs.AtLevel.{level_below};
ghost use Rattle.bind_parts.specs.Events.{NoFewerEvents};

use crate::disconnection::disconnect;
use bind_parts::{is_passed_on, look_again};
use driver_model::{Disconnection, Scope, Settings};
use fw_types::OutOfMemory;
use fw_world::World;
use service_model::{Removal, Served};

/// Disconnects the driver that is in the way of an open, and looks at the open again. If the
/// disconnect answers OUT_OF_RESOURCES or ABORTED, that is the answer. Otherwise the answer is that
/// of the second look.
///
/// # Errors
///
/// `OutOfMemory` if there is no memory for what the driver does.
#[cycle(engine)]
#[tactic(auto, unfolding(driver_model::specs::OpenWithRemoval::removed))]
pub fn remove(
    world: &mut World,
    settings: &Settings,
    room: u8,
    scope: Scope,
    removal: &Removal,
) -> Result<Served, OutOfMemory>
    requires room { room ≤ most_levels }
    requires free { is_free room (stacks world.old.now.soft) world.old.marks ≡ true }
    requires marks { has_marks 0 room world.old.marks ≡ true }
    ensures now { IfOk result (λ last.
        removed plain (level_below settings.now room) scope removal.now world.old.now
        ≡ (last, world.new.now)) }
    ensures marks { OnOk result (world.new.marks ≡ world.old.marks) }
    ensures stacks { OnOk result (stacks world.new.now.soft ≡ stacks world.old.now.soft) }
    ensures units { OnOk result (world.new.now.hard.units ≤ world.old.now.hard.units) }
    ensures events { OnOk result (NoFewerEvents world.old.now world.new.now) }
{
    let d = Disconnection {
        controller: removal.opening.handle.get(),
        driver: removal.victim,
        child: 0,
    };
    let status = disconnect(world, settings, room, scope, &d)?;
    if is_passed_on(status) {
        return Ok(Served::Value(status.0));
    }
    look_again(world, &removal.opening)
}
