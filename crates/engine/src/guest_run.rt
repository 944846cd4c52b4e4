//! Runs of EBC code.
ghost use Rattle.std.specs.Prelude.{◌≡◌, ◌≤◌, IfOk, OnOk, length, true};
ghost use Rattle.fw_types.specs.declared.limits.TheConstants.{MOST_LEVELS as most_levels};
ghost use Rattle.ebc_machine.specs.Step.{stepped};
ghost use Rattle.world_model.specs.World.{on_soft, with_memory};
ghost use Rattle.world_model.specs.Levels.{has_marks, is_free};
ghost use Rattle.world_model.specs.Marks.{stacks};
ghost use Rattle.driver_model.specs.Moves.{changed, plain, steps};
ghost use Rattle.driver_model.specs.GuestRun.{acted, run, turn};
ghost use Rattle.driver_model.specs.Levels.{level_with};
ghost use Rattle.engine.specs.AtLevel.{level_below};
ghost use Rattle.bind_parts.specs.Events.{NoFewerEvents};

use crate::native_call::call_native;
use bind_parts::{exit_of, meet_request, trapped};
use driver_model::fuel_laws::runs_go_on;
use driver_model::laws::levels_can_run;
use driver_model::{RunEnd, Scope, Settings};
use ebc_machine::{Cpu, StepOut, step};
use fw_types::{Cause, OutOfMemory};
use fw_world::World;
use guest_memory::address_map::EXIT;

/// Takes a step on the memory of the world.
#[inline]
fn step_over(cpu: &mut Cpu, world: &mut World) -> Result<StepOut, OutOfMemory>
    ensures out { IfOk result (λ out. (stepped cpu.old world.old.now.soft.memory).out ≡ out) }
    ensures cpu { OnOk result ((stepped cpu.old world.old.now.soft.memory).cpu ≡ cpu.new) }
    ensures now { OnOk result (changed (steps cpu.old) world.old.now ≡ world.new.now) }
    ensures marks { world.new.marks ≡ world.old.marks }
    ensures hard { world.new.now.hard ≡ world.old.now.hard }
{
    step(cpu, world)
}

/// Takes a step on the memory of the world. The step adds no stack and removes none.
#[inline]
fn take_step(cpu: &mut Cpu, world: &mut World) -> Result<StepOut, OutOfMemory>
    ensures out { IfOk result (λ out. (stepped cpu.old world.old.now.soft.memory).out ≡ out) }
    ensures cpu { OnOk result ((stepped cpu.old world.old.now.soft.memory).cpu ≡ cpu.new) }
    ensures now { OnOk result (changed (steps cpu.old) world.old.now ≡ world.new.now) }
    ensures marks { world.new.marks ≡ world.old.marks }
    ensures stacks { OnOk result (stacks world.new.now.soft ≡ stacks world.old.now.soft) }
    ensures hard { world.new.now.hard ≡ world.old.now.hard }
{
    levels_can_run();
    let out = step_over(cpu, world)?;
    Ok(out)
}

/// Does what the instruction at `at` asks for. If that ends the run, the answer is how it ends.
#[inline]
#[cycle(engine)]
fn act(
    world: &mut World,
    settings: &Settings,
    room: u8,
    scope: Scope,
    at: u64,
    out: StepOut,
    cpu: &mut Cpu,
) -> Result<Option<RunEnd>, OutOfMemory>
    requires room { room ≤ most_levels }
    requires free { is_free room (stacks world.old.now.soft) world.old.marks ≡ true }
    requires marks { has_marks 2 room world.old.marks ≡ true }
    ensures turn { IfOk result (λ end.
        acted plain settings.now (level_below settings.now room) scope (level_with room) at out
        cpu.old world.old.now
        ≡ record { end = end; cpu = cpu.new; world = world.new.now }) }
    ensures marks { OnOk result (world.new.marks ≡ world.old.marks) }
    ensures stacks { OnOk result (stacks world.new.now.soft ≡ stacks world.old.now.soft) }
    ensures units { OnOk result (world.new.now.hard.units ≤ world.old.now.hard.units) }
    ensures events { OnOk result (NoFewerEvents world.old.now world.new.now) }
{
    match out {
        StepOut::Next => Ok(None),
        StepOut::Done => Ok(Some(exit_of(cpu))),
        StepOut::Trap(cause) => Ok(Some(trapped(cause))),
        StepOut::Native(target) => call_native(world, settings, room, scope, at, target, cpu),
        StepOut::MakeThunk(place) => meet_request(world, place),
    }
}

/// Takes a turn of a run: at the exit address the run is done; with no unit left it traps; and
/// otherwise a step is taken, and what it asks for is done. If that ends the run, the answer is how
/// it ends.
#[inline]
#[cycle(engine)]
#[tactic(auto, unfolding(driver_model::specs::GuestRun::turn))]
fn take_turn(
    world: &mut World,
    settings: &Settings,
    room: u8,
    scope: Scope,
    cpu: &mut Cpu,
) -> Result<Option<RunEnd>, OutOfMemory>
    requires room { room ≤ most_levels }
    requires free { is_free room (stacks world.old.now.soft) world.old.marks ≡ true }
    requires marks { has_marks 2 room world.old.marks ≡ true }
    ensures turn { IfOk result (λ end.
        turn plain settings.now (level_below settings.now room) scope (level_with room) cpu.old
        world.old.now
        ≡ record { end = end; cpu = cpu.new; world = world.new.now }) }
    ensures marks { OnOk result (world.new.marks ≡ world.old.marks) }
    ensures stacks { OnOk result (stacks world.new.now.soft ≡ stacks world.old.now.soft) }
    ensures units { OnOk result (world.new.now.hard.units ≤ world.old.now.hard.units) }
    ensures events { OnOk result (NoFewerEvents world.old.now world.new.now) }
{
    if cpu.ip == EXIT {
        return Ok(Some(exit_of(cpu)));
    }
    if !world.spend(1) {
        return Ok(Some(trapped(Cause::Budget)));
    }
    let at = cpu.ip;
    let out = take_step(cpu, world)?;
    act(world, settings, room, scope, at, out, cpu)
}

/// Runs code with the units that are left, and answers how the run ends (UEFI 2.8, chapter 22 'EFI
/// Byte Code Virtual Machine'). Each instruction costs one unit, even one that traps.
#[cycle(engine)]
pub fn run_code(
    world: &mut World,
    settings: &Settings,
    room: u8,
    scope: Scope,
    start: Cpu,
) -> Result<RunEnd, OutOfMemory>
    requires room { room ≤ most_levels }
    requires free { is_free room (stacks world.old.now.soft) world.old.marks ≡ true }
    requires marks { has_marks 2 room world.old.marks ≡ true }
    ensures now { IfOk result (λ end.
        run plain settings.now (level_below settings.now room) scope (level_with room) start
        world.old.now
        ≡ (end, world.new.now)) }
    ensures marks { OnOk result (world.new.marks ≡ world.old.marks) }
    ensures stacks { OnOk result (stacks world.new.now.soft ≡ stacks world.old.now.soft) }
    ensures units { OnOk result (world.new.now.hard.units ≤ world.old.now.hard.units) }
    ensures events { OnOk result (NoFewerEvents world.old.now world.new.now) }
{
    runs_go_on();
    let mut cpu = start;
    'turns: loop {
        if let Some(end) = take_turn(world, settings, room, scope, &mut cpu)? {
            return Ok(end);
        }
    }
}
