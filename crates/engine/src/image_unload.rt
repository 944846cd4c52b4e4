//! The unload of an image, whose handler is called (UEFI 2.8, 7.4: UnloadImage; 9.1: EFI Loaded
//! Image Protocol).
ghost use Rattle.std.specs.Prelude.{◌≡◌, ◌<◌, ◌≤◌, ◌+◌, [], IfOk, OnOk, true};
ghost use Rattle.fw_types.specs.declared.limits.TheConstants.{MOST_LEVELS as most_levels};
ghost use Rattle.world_model.specs.Levels.{has_marks, is_free};
ghost use Rattle.world_model.specs.Marks.{stacks};
ghost use Rattle.driver_model.specs.Moves.{plain};
ghost use Rattle.driver_model.specs.Unloading.{handled, unloaded};
ghost use Rattle.engine.specs.AtLevel.{level_at};
ghost use Rattle.bind_parts.specs.Events.{NoFewerEvents};

use crate::driver_call::call_driver;
use bind_parts::{handler_of, settle_unload, unload_call};
use driver_model::{Scope, Settings};
use fw_types::{Handle, OutOfMemory, Status};
use fw_world::{LoadedImage, World};
use world_model::laws::{levels_are_free, marks_suffice};

/// Calls the handler of a loaded image at the level with this room, and drops the image if the
/// handler succeeds and the image is not in use after it. An address of 0 means that there is no
/// handler.
fn call_handler(
    world: &mut World,
    settings: &Settings,
    room: u8,
    scope: Scope,
    image: &LoadedImage,
    handler: u64,
) -> Result<Status, OutOfMemory>
    requires room { room < most_levels }
    requires unmarked { world.old.marks ≡ [] }
    requires free { is_free (room + 1) (stacks world.old.now.soft) world.old.marks ≡ true }
    requires marks { has_marks 2 (room + 1) world.old.marks ≡ true }
    ensures now { IfOk result (λ status.
        handled plain (level_at settings.now room) scope image.now handler world.old.now
        ≡ (status, world.new.now)) }
    ensures marks { OnOk result (world.new.marks ≡ world.old.marks) }
    ensures stacks { OnOk result (stacks world.new.now.soft ≡ stacks world.old.now.soft) }
    ensures units { OnOk result (world.new.now.hard.units ≤ world.old.now.hard.units) }
    ensures events { OnOk result (NoFewerEvents world.old.now world.new.now) }
{
    if handler == 0 {
        return Ok(Status::UNSUPPORTED);
    }
    levels_are_free();
    marks_suffice();
    let mark = world.mark();
    let call = unload_call(image.handle, handler);
    let outcome = call_driver(world, settings, room, scope, &call, &[])?;
    settle_unload(world, mark, image.handle, outcome)
}

/// Unloads the image of a handle (UEFI 2.8, 7.4: UnloadImage), and answers the status:
///
/// - INVALID_PARAMETER if no image with that handle is loaded.
/// - UNSUPPORTED for the image of the firmware, and for one whose loaded image block names no
///   handler (UEFI 2.8, 9.1: EFI_LOADED_IMAGE_PROTOCOL.Unload()).
/// - What the handler answers if that is an error, or ABORTED if it traps. It is called at the level
///   with this room.
/// - ACCESS_DENIED if the image is in use after that.
/// - SUCCESS. The image is gone with all that belongs to it.
///
/// If the status is not SUCCESS, the soft part is as before. No mark is open.
///
/// # Errors
///
/// `OutOfMemory` if there is no memory for what the handler does.
#[tactic(auto, unfolding(driver_model::specs::Unloading::unloaded))]
pub fn unload_image(
    world: &mut World,
    settings: &Settings,
    room: u8,
    scope: Scope,
    handle: u64,
) -> Result<Status, OutOfMemory>
    requires room { room < most_levels }
    requires unmarked { world.old.marks ≡ [] }
    requires free { is_free (room + 1) (stacks world.old.now.soft) world.old.marks ≡ true }
    requires marks { has_marks 2 (room + 1) world.old.marks ≡ true }
    ensures now { IfOk result (λ status.
        unloaded plain (level_at settings.now room) scope handle world.old.now
        ≡ (status, world.new.now)) }
    ensures marks { OnOk result (world.new.marks ≡ world.old.marks) }
    ensures stacks { OnOk result (stacks world.new.now.soft ≡ stacks world.old.now.soft) }
    ensures units { OnOk result (world.new.now.hard.units ≤ world.old.now.hard.units) }
    ensures events { OnOk result (NoFewerEvents world.old.now world.new.now) }
{
    if handle == Handle::firmware().get() {
        return Ok(Status::UNSUPPORTED);
    }
    match world.loaded_image(handle) {
        None => Ok(Status::INVALID_PARAMETER),
        Some(image) => {
            let handler = handler_of(world, &image);
            call_handler(world, settings, room, scope, &image, handler)
        }
    }
}
