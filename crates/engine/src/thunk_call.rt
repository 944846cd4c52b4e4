//! Thunks that a driver's code calls. A thunk is not a driver call: its code runs at the next
//! level, on a stack of its own and in the caller's event.
ghost use Rattle.std.specs.Prelude.{◌≡◌, ◌<◌, ◌≤◌, ◌+◌, IfOk, OnOk, Some, length, true};
ghost use Rattle.fw_types.specs.declared.limits.TheConstants.{MOST_LEVELS as most_levels};
ghost use Rattle.world_model.specs.Levels.{has_marks, is_free};
ghost use Rattle.world_model.specs.Marks.{stacks};
ghost use Rattle.driver_model.specs.Moves.{plain};
ghost use Rattle.driver_model.specs.NativeCalls.{thunk_called, thunk_entered};
ghost use Rattle.engine.specs.AtLevel.{level_at, level_below};
ghost use Rattle.bind_parts.specs.Events.{NoFewerEvents};

use crate::driver_call::run_on_stack;
use bind_parts::{passed_slots, take_end, trapped};
use driver_model::{RunEnd, Scope, Settings};
use ebc_machine::Cpu;
use fw_types::{CALL_PRICE, Cause, OutOfMemory};
use fw_world::World;
use world_model::laws::{levels_are_free, marks_suffice};

/// Calls the code of a thunk. If this ends the caller's run, the answer is how: it traps with
/// `Budget` if fewer units are left than the price, or with `Nest` at the last level, after the
/// price is paid; or it ends as that code ends the driver call.
#[cycle(engine)]
pub fn call_thunk(
    world: &mut World,
    settings: &Settings,
    room: u8,
    scope: Scope,
    entry: u64,
    cpu: &mut Cpu,
) -> Result<Option<RunEnd>, OutOfMemory>
    requires room { room ≤ most_levels }
    requires free { is_free room (stacks world.old.now.soft) world.old.marks ≡ true }
    requires marks { has_marks 2 room world.old.marks ≡ true }
    ensures turn { IfOk result (λ end.
        thunk_called plain (level_below settings.now room) scope entry cpu.old world.old.now
        ≡ record { end = end; cpu = cpu.new; world = world.new.now }) }
    ensures marks { OnOk result (world.new.marks ≡ world.old.marks) }
    ensures stacks { OnOk result (stacks world.new.now.soft ≡ stacks world.old.now.soft) }
    ensures units { OnOk result (world.new.now.hard.units ≤ world.old.now.hard.units) }
    ensures events { OnOk result (NoFewerEvents world.old.now world.new.now) }
{
    if world.left() < CALL_PRICE {
        return Ok(Some(trapped(Cause::Budget)));
    }
    world.spend(CALL_PRICE);
    if room == 0 {
        return Ok(Some(trapped(Cause::Nest)));
    }
    enter_thunk(world, settings, room - 1, scope, entry, cpu)
}

/// Runs the code of a thunk with the caller's arguments.
#[cycle(engine)]
fn enter_thunk(
    world: &mut World,
    settings: &Settings,
    room: u8,
    scope: Scope,
    entry: u64,
    cpu: &mut Cpu,
) -> Result<Option<RunEnd>, OutOfMemory>
    requires room { room < most_levels }
    requires free { is_free (room + 1) (stacks world.old.now.soft) world.old.marks ≡ true }
    requires marks { has_marks 2 (room + 1) world.old.marks ≡ true }
    ensures turn { IfOk result (λ end.
        thunk_entered plain (Some (level_at settings.now room)) scope entry cpu.old world.old.now
        ≡ record { end = end; cpu = cpu.new; world = world.new.now }) }
    ensures marks { OnOk result (world.new.marks ≡ world.old.marks) }
    ensures stacks { OnOk result (stacks world.new.now.soft ≡ stacks world.old.now.soft) }
    ensures units { OnOk result (world.new.now.hard.units ≤ world.old.now.hard.units) }
    ensures events { OnOk result (NoFewerEvents world.old.now world.new.now) }
{
    levels_are_free();
    marks_suffice();
    let slots = passed_slots(world, cpu);
    let end = run_on_stack(world, settings, room, scope, entry, &slots, &[])?;
    Ok(take_end(end, cpu))
}
