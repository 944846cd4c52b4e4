//! The `unload` command (UEFI 2.8, 7.4: UnloadImage).
ghost use Rattle.std.specs.Prelude.{◌≡◌, IfOk, OnOk};
ghost use Rattle.driver_model.specs.Spending.{Spends};
ghost use Rattle.bind_engine.specs.Commands.{command_unloaded};
ghost use Rattle.bind_engine.specs.Machine.{IsIdle};

use crate::levels::{FIRST_ROOM, OUTSIDE};
use driver_model::Settings;
use driver_model::laws::{command_paths_stay, levels_can_run};
use driver_model::unload_laws::{unloads_spend, unloads_stay};
use engine::unload_image;
use fw_types::{OutOfMemory, Status};
use fw_world::World;
use world_model::laws::rest_is_free;

/// Unloads the image of a handle, as a command asks for it.
///
/// # Errors
///
/// `OutOfMemory` if there is no memory for what the handler of the image does.
pub fn unload(world: &mut World, settings: &Settings, image: u64) -> Result<Status, OutOfMemory>
    requires { IsIdle world.old }
    ensures done { IfOk result (λ status.
        command_unloaded settings.now image world.old.now ≡ (status, world.new.now)) }
    ensures spends { OnOk result (Spends world.old.now.hard world.new.now.hard) }
    ensures idle { OnOk result (IsIdle world.new) }
{
    world.is_kept();
    rest_is_free();
    levels_can_run();
    unloads_stay();
    unloads_spend();
    command_paths_stay();
    unload_image(world, settings, FIRST_ROOM, OUTSIDE, image)
}
