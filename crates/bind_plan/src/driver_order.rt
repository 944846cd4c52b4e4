//! The order in which drivers are asked for a controller.
ghost use Rattle.std.specs.Prelude.{◌≡◌, ◌++◌, ◌∷◌, [], not, nat_eq, true, filter, flat_map, map, IfOk, OnOk};
ghost use Rattle.driver_model.specs.Bindings.{all_bindings as all_bindings_value};
ghost use Rattle.driver_model.specs.Connect.{unmarked};
ghost use Rattle.driver_model.specs.DriverOrder.{bus_group, by_version, drivers_by, first_places as first_places_value, order as order_value};
ghost use Rattle.driver_model.specs.OrderLaws.{chosen_first as chosen_first_value, is_among as is_among_value, is_by_handle};
ghost use Rattle.driver_model.specs.declared.binding.BindingBlock.{BindingBlock as BlockValue};

use crate::bindings::{all_bindings, binding, bindings_of};
use crate::handle_set::{add_unseen, drivers_without};
use crate::numbers::numbers_of;
use crate::started_drivers::StartedDrivers;
use driver_model::BindingBlock;
use driver_model::order_laws::{lists_of_drivers, order_of_drivers};
use fw_types::{Handle, OutOfMemory};
use fw_world::World;
use std::alloc::Global;
use std::cmp::Reverse;
use std::collections::BTreeSet;

/// The drivers that ConnectController asks for `controller`, in their order (UEFI 2.8, 7.3:
/// ConnectController, its rules of precedence). First come the drivers of `context`, the handles that the
/// caller gives. Then come those of `platform`, the platform driver override's list for the controller, and
/// then those of the bus specific driver override. Last come all handles that have a driver binding, the
/// highest Version first, and of equal Versions the lowest handle. Each driver is listed once, at its first
/// place, and only if its binding can be read (`binding`).
///
/// A handle in `platform` that has no binding means the drivers whose ImageHandle it is, by rising handle. In
/// `context` such a handle means no driver. The bus specific driver override's list is that of the function
/// of which the controller is a child (`World::bus_list`), and a handle in it means what it means in
/// `platform`.
///
/// # Errors
///
/// `OutOfMemory` if there is no memory for the list.
#[tactic(auto, using(crate::proofs::LeftOut::none_marked))]
pub fn order(
    world: &World,
    controller: Handle,
    context: &[u64],
    platform: &[u64],
) -> Result<Vec<BindingBlock>, OutOfMemory>
    ensures { IfOk result (λ blocks.
        blocks.items ≡ order_value controller context.now platform.now world.now.now.soft) }
{
    let marked = StartedDrivers::new(world.alloc());
    order_of_unmarked(world, controller, context, platform, &marked)
}

/// The drivers of the order that are not marked. The binding of a marked handle is read only if the platform
/// list or the bus specific list names it.
///
/// # Errors
///
/// `OutOfMemory` if there is no memory for the list.
#[tactic(auto, using(crate::proofs::LeftOut::rising_left))]
pub fn order_of_unmarked(
    world: &World,
    controller: Handle,
    context: &[u64],
    platform: &[u64],
    marked: &StartedDrivers,
) -> Result<Vec<BindingBlock>, OutOfMemory>
    ensures { IfOk result (λ blocks. blocks.items ≡ unmarked marked.now
        (order_value controller context.now platform.now world.now.now.soft)) }
{
    world.is_kept();
    order_of_drivers();
    lists_of_drivers();
    let mut all = all_bindings(world, marked)?;
    let chosen = chosen_first(world, controller, context, platform, marked, all.as_slice())?;
    sort_by_version(&mut all)?;
    with_others(world.alloc(), chosen, all)
}

/// The unmarked drivers that come before those ordered by Version, each once.
#[tactic(auto, using(crate::proofs::LeftOut::chosen_left))]
fn chosen_first(
    world: &World,
    controller: Handle,
    context: &[u64],
    platform: &[u64],
    marked: &StartedDrivers,
    all: &[BindingBlock],
) -> Result<Vec<BindingBlock>, OutOfMemory>
    requires { all.now ≡ unmarked marked.now (all_bindings_value world.now.now.soft) }
    ensures { IfOk result (λ blocks.
        blocks.items ≡ unmarked marked.now
        (chosen_first_value controller context.now platform.now world.now.now.soft)) }
{
    let mut groups = bindings_of(world, context, marked)?;
    let platform_group = drivers_of(world, platform, marked, all)?;
    groups.extend_from_slice(platform_group.as_slice())?;
    let bus_group = bus_drivers_of(world, controller, marked, all)?;
    groups.extend_from_slice(bus_group.as_slice())?;
    first_places(world.alloc(), groups.as_slice())
}

/// The unmarked drivers of the bus specific driver override for a controller: none if the controller is not a
/// child of the bus.
fn bus_drivers_of(
    world: &World,
    controller: Handle,
    marked: &StartedDrivers,
    all: &[BindingBlock],
) -> Result<Vec<BindingBlock>, OutOfMemory>
    requires { all.now ≡ unmarked marked.now (all_bindings_value world.now.now.soft) }
    ensures { IfOk result (λ blocks.
        blocks.items ≡ unmarked marked.now (bus_group controller world.now.now.soft)) }
{
    let Some(function) = world.child_function(controller.get()) else {
        return Ok(Vec::new(world.alloc()));
    };
    let images = numbers_of(world.alloc(), world.bus_list(function))?;
    drivers_of(world, images.as_slice(), marked, all)
}

/// The unmarked drivers that the handles of a list mean.
#[tactic(auto, using(crate::proofs::LeftOut::unmarked_append))]
fn drivers_of(
    world: &World,
    handles: &[u64],
    marked: &StartedDrivers,
    all: &[BindingBlock],
) -> Result<Vec<BindingBlock>, OutOfMemory>
    requires { all.now ≡ unmarked marked.now (all_bindings_value world.now.now.soft) }
    ensures { IfOk result (λ blocks.
        blocks.items ≡ unmarked marked.now (flat_map (drivers_by world.now.now.soft) handles.now)) }
{
    let mut blocks = Vec::new(world.alloc());
    for handle in handles {
        add_drivers(&mut blocks, world, *handle, marked, all)?;
    }
    Ok(blocks)
}

/// Puts the unmarked drivers that a handle means after others.
#[tactic(auto, using(crate::proofs::LeftOut::filter_swap))]
fn add_drivers(
    blocks: &mut Vec<BindingBlock>,
    world: &World,
    handle: u64,
    marked: &StartedDrivers,
    all: &[BindingBlock],
) -> Result<(), OutOfMemory>
    requires { all.now ≡ unmarked marked.now (all_bindings_value world.now.now.soft) }
    ensures { OnOk result (blocks.new.items ≡
        blocks.old.items ++ unmarked marked.now (drivers_by world.now.now.soft handle)) }
{
    match binding(world, handle) {
        Some(block) => add_unmarked(blocks, block, marked),
        None => add_of_image(blocks, all, handle),
    }
}

/// Puts a driver after others if it is not marked.
fn add_unmarked(
    blocks: &mut Vec<BindingBlock>,
    block: BindingBlock,
    marked: &StartedDrivers,
) -> Result<(), OutOfMemory>
    ensures { OnOk result (blocks.new.items ≡
        blocks.old.items ++ unmarked marked.now (block ∷ [])) }
{
    if !marked.has(block.handle.get()) {
        blocks.push(block)?;
    }
    Ok(())
}

/// Puts the drivers of an image after others.
fn add_of_image(
    blocks: &mut Vec<BindingBlock>,
    all: &[BindingBlock],
    image: u64,
) -> Result<(), OutOfMemory>
    ensures { OnOk result (blocks.new.items ≡
        blocks.old.items ++ filter (λ (block : BlockValue). nat_eq block.image image) all.now) }
{
    for block in all {
        if block.image == image {
            blocks.push(*block)?;
        }
    }
    Ok(())
}

/// Each driver of a list once, at its first place.
fn first_places(alloc: Global, blocks: &[BindingBlock]) -> Result<Vec<BindingBlock>, OutOfMemory>
    ensures { IfOk result (λ places. places.items ≡ first_places_value blocks.now) }
{
    lists_of_drivers();
    let mut places = Vec::new(alloc);
    let mut handles = BTreeSet::new(alloc);
    for block in blocks {
        add_unseen(&mut places, &mut handles, block)?;
    }
    Ok(places)
}

/// Sorts drivers that are listed by rising handle: the highest Version comes first, and of equal Versions the
/// lowest handle.
fn sort_by_version(blocks: &mut Vec<BindingBlock>) -> Result<(), OutOfMemory>
    requires { is_by_handle blocks.old.items ≡ true }
    ensures { OnOk result (blocks.new.items ≡ by_version blocks.old.items) }
{
    lists_of_drivers();
    blocks.sort_by_key(|block| Reverse(block.version))?;
    Ok(())
}

/// The chosen drivers, and after them those of the others that are not among them, in their order.
fn with_others(
    alloc: Global,
    chosen: Vec<BindingBlock>,
    others: Vec<BindingBlock>,
) -> Result<Vec<BindingBlock>, OutOfMemory>
    ensures { IfOk result (λ blocks. blocks.items ≡
        chosen.items ++
        filter (λ block. not (is_among_value chosen.items block)) others.items) }
{
    if chosen.is_empty() {
        return Ok(others);
    }
    let left = without(alloc, others.as_slice(), chosen.as_slice())?;
    let mut blocks = chosen;
    blocks.extend_from_slice(left.as_slice())?;
    Ok(blocks)
}

/// The drivers of a list that are not among the chosen ones, in their order.
fn without(
    alloc: Global,
    blocks: &[BindingBlock],
    chosen: &[BindingBlock],
) -> Result<Vec<BindingBlock>, OutOfMemory>
    ensures { IfOk result (λ others.
        others.items ≡ filter (λ block. not (is_among_value chosen.now block)) blocks.now) }
{
    let handles = handles_of(alloc, chosen)?;
    drivers_without(alloc, blocks, handles.as_slice())
}

/// The handles of drivers.
fn handles_of(alloc: Global, blocks: &[BindingBlock]) -> Result<Vec<u64>, OutOfMemory>
    ensures { IfOk result (λ handles. handles.items ≡
        map (λ (block : BlockValue). block.handle) blocks.now) }
{
    let handles = blocks
        .iter()
        .map(|block| block.handle.get())
        .collect(alloc)?;
    Ok(handles)
}
