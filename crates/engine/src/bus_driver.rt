//! Start and Stop of the firmware's PCI bus driver (UEFI 2.8, 11.1: EFI Driver Binding Protocol;
//! 14.3.2: PCI Bus Drivers).
ghost use Rattle.std.specs.Prelude.{ℕ, ◌≡◌, ◌<◌, ◌≤◌, ◌+◌, ◌∷◌, [], List, IfOk, OnOk, Option, length, true};
ghost use Rattle.fw_types.specs.declared.limits.TheConstants.{MOST_LEVELS as most_levels};
ghost use Rattle.world_model.specs.Levels.{has_marks, is_free};
ghost use Rattle.world_model.specs.Marks.{stacks};
ghost use Rattle.driver_model.specs.Moves.{plain};
ghost use Rattle.driver_model.specs.BusDriver.{below_last, bus_started, bus_stopped, images_loaded, rom_processed, roms_processed};
ghost use Rattle.engine.specs.AtLevel.{level_at, level_below};
ghost use Rattle.bind_parts.specs.BusTurns.{others_or_end};
ghost use Rattle.bind_parts.specs.Events.{NoFewerEvents};

use crate::image_load::load_image;
use crate::uninstallation::uninstall_each;
use bind_parts::{
    add_loaded, begin_start, child_of_root, drivers_to_load, free_blocks, interfaces_to_go,
};
use driver_model::{CHILD_PRICE, NewChild, Remover, Scope, Settings};
use fw_types::{Cause, Handle, OutOfMemory, Outcome, Rows, Status};
use fw_world::World;
use world_model::laws::{levels_are_free, marks_suffice};

/// Start of the bus driver: it opens root bridge I/O of the controller, makes a child for each
/// function that the path chooses, and loads the drivers that the option ROMs of these functions
/// bring. The answer is the first of these that applies: what Supported answers, if that is not a
/// success; OUT_OF_RESOURCES if a limit is met; `Budget` if too few units are left for a child; and
/// otherwise SUCCESS.
///
/// # Errors
///
/// `OutOfMemory` if there is no memory for the children, or for what the drivers do.
#[cycle(engine)]
pub fn start_bus(
    world: &mut World,
    settings: &Settings,
    room: u8,
    scope: Scope,
    controller: u64,
    path: u64,
) -> Result<Outcome, OutOfMemory>
    requires room { room ≤ most_levels }
    requires free { is_free room (stacks world.old.now.soft) world.old.marks ≡ true }
    requires marks { has_marks 2 room world.old.marks ≡ true }
    ensures now { IfOk result (λ outcome.
        bus_started plain (level_below settings.now room) scope controller path world.old.now
        ≡ (outcome, world.new.now)) }
    ensures marks { OnOk result (world.new.marks ≡ world.old.marks) }
    ensures stacks { OnOk result (stacks world.new.now.soft ≡ stacks world.old.now.soft) }
    ensures units { OnOk result (world.new.now.hard.units ≤ world.old.now.hard.units) }
    ensures events { OnOk result (NoFewerEvents world.old.now world.new.now) }
{
    match begin_start(world, controller, path)? {
        Ok(children) => {
            process_below_last(world, settings, room, scope, children.as_slice())?;
            Ok(Outcome::Value(Status::SUCCESS))
        }
        Err(outcome) => Ok(outcome),
    }
}

/// Processes the option ROMs of new children, except at the last level, where no driver is loaded.
#[cycle(engine)]
fn process_below_last(
    world: &mut World,
    settings: &Settings,
    room: u8,
    scope: Scope,
    children: &[NewChild],
) -> Result<(), OutOfMemory>
    requires room { room ≤ most_levels }
    requires free { is_free room (stacks world.old.now.soft) world.old.marks ≡ true }
    requires marks { has_marks 2 room world.old.marks ≡ true }
    ensures now { OnOk result (
        below_last plain (level_below settings.now room) scope children.now world.old.now
        ≡ world.new.now) }
    ensures marks { OnOk result (world.new.marks ≡ world.old.marks) }
    ensures stacks { OnOk result (stacks world.new.now.soft ≡ stacks world.old.now.soft) }
    ensures units { OnOk result (world.new.now.hard.units ≤ world.old.now.hard.units) }
    ensures events { OnOk result (NoFewerEvents world.old.now world.new.now) }
{
    if room == 0 {
        return Ok(());
    }
    process_roms(world, settings, room - 1, scope, children)
}

/// Processes the option ROMs of new children in turn.
#[cycle(engine)]
fn process_roms(
    world: &mut World,
    settings: &Settings,
    room: u8,
    scope: Scope,
    children: &[NewChild],
) -> Result<(), OutOfMemory>
    requires room { room < most_levels }
    requires free { is_free (room + 1) (stacks world.old.now.soft) world.old.marks ≡ true }
    requires marks { has_marks 2 (room + 1) world.old.marks ≡ true }
    ensures now { OnOk result (
        roms_processed plain (level_at settings.now room) scope children.now world.old.now
        ≡ world.new.now) }
    ensures marks { OnOk result (world.new.marks ≡ world.old.marks) }
    ensures stacks { OnOk result (stacks world.new.now.soft ≡ stacks world.old.now.soft) }
    ensures units { OnOk result (world.new.now.hard.units ≤ world.old.now.hard.units) }
    ensures events { OnOk result (NoFewerEvents world.old.now world.new.now) }
{
    for new_child in children {
        process_rom(world, settings, room, scope, new_child)?;
    }
    Ok(())
}

/// Loads the drivers in the option ROM of a new child, if the child is live and its function has an
/// option ROM that was not processed. The images that stay loaded become the bus list of the
/// function.
#[cycle(engine)]
fn process_rom(
    world: &mut World,
    settings: &Settings,
    room: u8,
    scope: Scope,
    child: &NewChild,
) -> Result<(), OutOfMemory>
    requires room { room < most_levels }
    requires free { is_free (room + 1) (stacks world.old.now.soft) world.old.marks ≡ true }
    requires marks { has_marks 2 (room + 1) world.old.marks ≡ true }
    ensures now { OnOk result (
        rom_processed plain (level_at settings.now room) scope child.now world.old.now
        ≡ world.new.now) }
    ensures marks { OnOk result (world.new.marks ≡ world.old.marks) }
    ensures stacks { OnOk result (stacks world.new.now.soft ≡ stacks world.old.now.soft) }
    ensures units { OnOk result (world.new.now.hard.units ≤ world.old.now.hard.units) }
    ensures events { OnOk result (NoFewerEvents world.old.now world.new.now) }
{
    let Some(files) = drivers_to_load(world, child)? else {
        return Ok(());
    };
    let images = load_drivers(world, settings, room, scope, child.handle, files.as_slice())?;
    world.set_bus_list(child.function, images)
}

/// Loads drivers in order, and answers the images that stay loaded.
#[cycle(engine)]
fn load_drivers(
    world: &mut World,
    settings: &Settings,
    room: u8,
    scope: Scope,
    device: Handle,
    files: &[Rows<u8>],
) -> Result<Vec<Handle>, OutOfMemory>
    requires room { room < most_levels }
    requires free { is_free (room + 1) (stacks world.old.now.soft) world.old.marks ≡ true }
    requires marks { has_marks 2 (room + 1) world.old.marks ≡ true }
    ensures now { IfOk result (λ images.
        images_loaded plain (level_at settings.now room) scope device files.now [] world.old.now
        ≡ (images.items, world.new.now)) }
    ensures marks { OnOk result (world.new.marks ≡ world.old.marks) }
    ensures stacks { OnOk result (stacks world.new.now.soft ≡ stacks world.old.now.soft) }
    ensures units { OnOk result (world.new.now.hard.units ≤ world.old.now.hard.units) }
    ensures events { OnOk result (NoFewerEvents world.old.now world.new.now) }
{
    let mut images = Vec::new(world.alloc());
    for file in files {
        let load = load_image(world, settings, room, scope, file.as_slice(), device.get())?;
        add_loaded(&mut images, load.note)?;
    }
    Ok(images)
}

/// Stop of the bus driver: it removes the children of a root bridge, in turn. The answer is that of
/// the first child that ends it (`take_child`), and otherwise SUCCESS.
///
/// # Errors
///
/// `OutOfMemory` if there is no memory for what the drivers of the children do.
#[cycle(engine)]
pub fn stop_bus(
    world: &mut World,
    settings: &Settings,
    room: u8,
    scope: Scope,
    controller: u64,
    children: &[u64],
) -> Result<Outcome, OutOfMemory>
    requires room { room ≤ most_levels }
    requires free { is_free room (stacks world.old.now.soft) world.old.marks ≡ true }
    requires marks { has_marks 0 room world.old.marks ≡ true }
    ensures now { IfOk result (λ outcome.
        bus_stopped plain settings.now (level_below settings.now room) scope controller children.now
        world.old.now
        ≡ (outcome, world.new.now)) }
    ensures marks { OnOk result (world.new.marks ≡ world.old.marks) }
    ensures stacks { OnOk result (stacks world.new.now.soft ≡ stacks world.old.now.soft) }
    ensures units { OnOk result (world.new.now.hard.units ≤ world.old.now.hard.units) }
    ensures events { OnOk result (NoFewerEvents world.old.now world.new.now) }
{
    for child in children {
        if let Some(outcome) = take_child(world, settings, room, scope, controller, *child)? {
            return Ok(outcome);
        }
    }
    Ok(Outcome::Value(Status::SUCCESS))
}

/// Removes a child of the bus: its PCI I/O, its device path and its bus specific driver override are
/// uninstalled, and then their blocks are freed. If this ends Stop, the answer is how: by `Budget`
/// if too few units are left for the child; with DEVICE_ERROR if the handle is not a child below
/// this root bridge, or at the first interface that is not uninstalled.
#[cycle(engine)]
fn take_child(
    world: &mut World,
    settings: &Settings,
    room: u8,
    scope: Scope,
    controller: u64,
    child: u64,
) -> Result<Option<Outcome>, OutOfMemory>
    requires room { room ≤ most_levels }
    requires free { is_free room (stacks world.old.now.soft) world.old.marks ≡ true }
    requires marks { has_marks 0 room world.old.marks ≡ true }
    ensures now { (children : List ℕ) → IfOk result (λ end.
        bus_stopped plain settings.now (level_below settings.now room) scope controller
        (child ∷ children) world.old.now
        ≡ others_or_end end
        (bus_stopped plain settings.now (level_below settings.now room) scope controller children)
        world.new.now) }
    ensures marks { OnOk result (world.new.marks ≡ world.old.marks) }
    ensures stacks { OnOk result (stacks world.new.now.soft ≡ stacks world.old.now.soft) }
    ensures units { OnOk result (world.new.now.hard.units ≤ world.old.now.hard.units) }
    ensures events { OnOk result (NoFewerEvents world.old.now world.new.now) }
{
    if world.left() < CHILD_PRICE {
        return Ok(Some(Outcome::Trapped(Cause::Budget)));
    }
    world.spend(CHILD_PRICE);
    let Some(handle) = child_of_root(world, controller, child) else {
        return Ok(Some(Outcome::Value(Status::DEVICE_ERROR)));
    };
    let interfaces = interfaces_to_go(world, handle)?;
    let firmware = Remover::TheFirmware;
    if !uninstall_each(world, settings, room, scope, firmware, &interfaces)? {
        return Ok(Some(Outcome::Value(Status::DEVICE_ERROR)));
    }
    free_blocks(world, &interfaces)?;
    Ok(None)
}
