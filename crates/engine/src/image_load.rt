//! The load of an image, whose entry point is called (UEFI 2.8, 7.4: LoadImage and StartImage, as
//! one step).
ghost use Rattle.std.specs.Prelude.{◌≡◌, ◌<◌, ◌≤◌, ◌+◌, false, IfOk, OnOk, true};
ghost use Rattle.fw_types.specs.declared.limits.TheConstants.{MOST_LEVELS as most_levels};
ghost use Rattle.world_model.specs.Levels.{has_marks, is_free};
ghost use Rattle.world_model.specs.Marks.{stacks};
ghost use Rattle.driver_model.specs.Moves.{plain};
ghost use Rattle.driver_model.specs.ImageLife.{accepted, image_loaded, laid_and_entered};
ghost use Rattle.engine.specs.AtLevel.{level_at};
ghost use Rattle.bind_parts.specs.Events.{NoFewerEvents};

use crate::driver_call::call_driver;
use bind_parts::{ImageLoad, entry_call, failed, refused, settle_load};
use driver_model::{Scope, Settings};
use fw_types::{OutOfMemory, Status};
use fw_world::World;
use image_table::{lay_image, pay};
use pe_image::{PeView, check};
use world_model::laws::{levels_are_free, marks_suffice, stacks_stand};

/// Lays the image of an accepted file that is paid for, and calls its entry point at the level with
/// this room. If the entry point fails, the soft part is as before. At a limit nothing is done.
#[cycle(engine)]
fn lay_and_enter(
    world: &mut World,
    settings: &Settings,
    room: u8,
    scope: Scope,
    view: &PeView<'_>,
    device: u64,
) -> Result<ImageLoad, OutOfMemory>
    requires room { room < most_levels }
    requires free { is_free (room + 1) (stacks world.old.now.soft) world.old.marks ≡ true }
    requires marks { has_marks 2 (room + 1) world.old.marks ≡ true }
    ensures now { IfOk result (λ load.
        laid_and_entered plain (level_at settings.now room) scope view.now device world.old.now
        ≡ record { note = load.note; status = load.status; world = world.new.now }) }
    ensures marks { OnOk result (world.new.marks ≡ world.old.marks) }
    ensures stacks { OnOk result (stacks world.new.now.soft ≡ stacks world.old.now.soft) }
    ensures units { OnOk result (world.new.now.hard.units ≤ world.old.now.hard.units) }
    ensures events { OnOk result (NoFewerEvents world.old.now world.new.now) }
{
    if world.is_image_full(u64::from(view.size())) {
        return Ok(failed(Status::OUT_OF_RESOURCES));
    }
    levels_are_free();
    marks_suffice();
    stacks_stand();
    let entry = world.next_image() + u64::from(view.entry());
    let mark = world.mark();
    let image = lay_image(world, view, device)?;
    let call = entry_call(image, entry);
    let outcome = call_driver(world, settings, room, scope, &call, &[])?;
    settle_load(world, mark, image, outcome)
}

/// Pays for laying the image of an accepted file, lays it, and calls its entry point. No mark is
/// made before it is paid for.
#[cycle(engine)]
fn pay_and_enter(
    world: &mut World,
    settings: &Settings,
    room: u8,
    scope: Scope,
    view: &PeView<'_>,
    device: u64,
) -> Result<ImageLoad, OutOfMemory>
    requires room { room < most_levels }
    requires free { is_free (room + 1) (stacks world.old.now.soft) world.old.marks ≡ true }
    requires marks { has_marks 2 (room + 1) world.old.marks ≡ true }
    ensures now { IfOk result (λ load.
        accepted plain (level_at settings.now room) scope view.now device world.old.now
        ≡ record { note = load.note; status = load.status; world = world.new.now }) }
    ensures marks { OnOk result (world.new.marks ≡ world.old.marks) }
    ensures stacks { OnOk result (stacks world.new.now.soft ≡ stacks world.old.now.soft) }
    ensures units { OnOk result (world.new.now.hard.units ≤ world.old.now.hard.units) }
    ensures events { OnOk result (NoFewerEvents world.old.now world.new.now) }
{
    if !pay(world, view) {
        return Ok(failed(Status::ABORTED));
    }
    lay_and_enter(world, settings, room, scope, view, device)
}

/// Loads the image of a file (UEFI 2.8, 7.4: LoadImage and StartImage): checks the file, pays for
/// laying its image, lays it, and calls its entry point at the level with this room. `device` is
/// the handle of the device that the file comes from, or 0. If the entry point fails, the soft part
/// is as before. A file that is refused costs nothing. No mark is made before the image is paid
/// for, nor at a limit.
///
/// # Errors
///
/// `OutOfMemory` if there is no memory for the image, or for what the entry point does.
#[cycle(engine)]
#[tactic(auto, unfolding(driver_model::specs::ImageLife::image_loaded))]
pub fn load_image(
    world: &mut World,
    settings: &Settings,
    room: u8,
    scope: Scope,
    file: &[u8],
    device: u64,
) -> Result<ImageLoad, OutOfMemory>
    requires room { room < most_levels }
    requires free { is_free (room + 1) (stacks world.old.now.soft) world.old.marks ≡ true }
    requires marks { has_marks 2 (room + 1) world.old.marks ≡ true }
    ensures now { IfOk result (λ load.
        image_loaded plain (level_at settings.now room) scope file.now device world.old.now
        ≡ record { note = load.note; status = load.status; world = world.new.now }) }
    ensures marks { OnOk result (world.new.marks ≡ world.old.marks) }
    ensures stacks { OnOk result (stacks world.new.now.soft ≡ stacks world.old.now.soft) }
    ensures units { OnOk result (world.new.now.hard.units ≤ world.old.now.hard.units) }
    ensures events { OnOk result (NoFewerEvents world.old.now world.new.now) }
{
    match check(file) {
        Err(refusal) => Ok(refused(refusal)),
        Ok(view) => pay_and_enter(world, settings, room, scope, &view, device),
    }
}
