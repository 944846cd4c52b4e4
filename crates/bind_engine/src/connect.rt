//! The `connect` and `disconnect` commands (UEFI 2.8, 7.3: ConnectController, DisconnectController).
ghost use Rattle.std.specs.Prelude.{◌≡◌, ◌≤◌, Some, IfOk, OnOk, length};
ghost use Rattle.world_model.specs.CommandPath.{path_room};
ghost use Rattle.world_model.specs.Levels.{IsAtRest};
ghost use Rattle.driver_model.specs.Moves.{plain};
ghost use Rattle.driver_model.specs.Connect.{connect};
ghost use Rattle.driver_model.specs.Spending.{Spends};
ghost use Rattle.driver_model.specs.Staying.{Stays};
ghost use Rattle.bind_engine.specs.CommandPaths.{with_path};
ghost use Rattle.bind_engine.specs.Commands.{command_connected, command_disconnected};
ghost use Rattle.bind_engine.specs.Levels.{all_levels, outside};
ghost use Rattle.bind_engine.specs.Machine.{IsIdle};

use crate::command_path::{connection, path_bytes};
use crate::levels::{OUTSIDE, ROOM};
use driver_model::call_laws::all_is_paid;
use driver_model::laws::{activations_stay, command_paths_stay, levels_can_run};
use driver_model::{Connection, Disconnection, Settings};
use fw_types::{OutOfMemory, PathArg, Status};
use fw_world::World;
use world_model::laws::{command_paths_fit, rest_is_free};

/// Calls ConnectController outside all events, with all levels below the command.
///
/// # Errors
///
/// `OutOfMemory` if there is no memory for what the drivers do.
fn connect_at_rest(
    world: &mut World,
    settings: &Settings,
    c: &Connection,
    context: &[u64],
) -> Result<Status, OutOfMemory>
    requires { IsAtRest world.old }
    ensures done { IfOk result (λ status.
        connect plain settings.now (all_levels settings.now) outside c.now context.now world.old.now
        ≡ (status, world.new.now)) }
    ensures spends { OnOk result (Spends world.old.now.hard world.new.now.hard) }
    ensures stays { OnOk result (Stays world.old.now.soft world.new.now.soft) }
    ensures rest { OnOk result (IsAtRest world.new) }
{
    world.is_kept();
    rest_is_free();
    levels_can_run();
    activations_stay();
    all_is_paid();
    engine::connect(world, settings, ROOM, OUTSIDE, c, context)
}

/// Calls ConnectController with a path in memory. The path is removed afterwards.
///
/// # Errors
///
/// `OutOfMemory` if there is no memory for the path or for what the drivers do.
fn connect_with_path(
    world: &mut World,
    settings: &Settings,
    c: &Connection,
    context: &[u64],
    bytes: Vec<u8>,
) -> Result<Status, OutOfMemory>
    requires idle { IsIdle world.old }
    requires few { length bytes.items ≤ path_room }
    ensures done { IfOk result (λ status.
        with_path (Some bytes.items)
        (connect plain settings.now (all_levels settings.now) outside c.now context.now)
        world.old.now
        ≡ (status, world.new.now)) }
    ensures spends { OnOk result (Spends world.old.now.hard world.new.now.hard) }
    ensures idle { OnOk result (IsIdle world.new) }
{
    world.is_kept();
    command_paths_fit();
    command_paths_stay();
    world.set_path(bytes)?;
    let status = connect_at_rest(world, settings, c, context)?;
    world.clear_path();
    Ok(status)
}

/// Connects drivers to a controller, as a command asks for it.
///
/// # Errors
///
/// `OutOfMemory` if there is no memory for the path or for what the drivers do.
pub fn connect(
    world: &mut World,
    settings: &Settings,
    controller: u64,
    recursive: bool,
    path: PathArg,
    context: &[u64],
) -> Result<Status, OutOfMemory>
    requires { IsIdle world.old }
    ensures done { IfOk result (λ status.
        command_connected settings.now controller recursive path context.now world.old.now
        ≡ (status, world.new.now)) }
    ensures spends { OnOk result (Spends world.old.now.hard world.new.now.hard) }
    ensures idle { OnOk result (IsIdle world.new) }
{
    command_paths_stay();
    let c = connection(controller, recursive, path);
    match path_bytes(world.alloc(), path)? {
        Some(bytes) => connect_with_path(world, settings, &c, context, bytes),
        None => connect_at_rest(world, settings, &c, context),
    }
}

/// Disconnects drivers from a controller, as a command asks for it.
///
/// # Errors
///
/// `OutOfMemory` if there is no memory for what the drivers do.
pub fn disconnect(
    world: &mut World,
    settings: &Settings,
    d: &Disconnection,
) -> Result<Status, OutOfMemory>
    requires { IsIdle world.old }
    ensures done { IfOk result (λ status.
        command_disconnected settings.now d.now world.old.now ≡ (status, world.new.now)) }
    ensures spends { OnOk result (Spends world.old.now.hard world.new.now.hard) }
    ensures idle { OnOk result (IsIdle world.new) }
{
    world.is_kept();
    rest_is_free();
    levels_can_run();
    activations_stay();
    command_paths_stay();
    all_is_paid();
    engine::disconnect(world, settings, ROOM, OUTSIDE, d)
}
