//! The drivers that are stopped for a controller.
ghost use Rattle.std.specs.Prelude.{◌≡◌, ◌++◌, ◌∷◌, [], nat_eq, filter, option_map, IfOk, OnOk, if◌then◌else◌};
ghost use Rattle.driver_model.specs.StopOrder.{has_child as has_child_value, only_driver, stop_list as stop_list_value};

use crate::agent_records::has_record_on;
use fw_types::{Attr, Handle, OutOfMemory};
use fw_world::World;
use std::alloc::Global;

/// The drivers that DisconnectController stops for `controller`, in their order (UEFI 2.8, 7.3:
/// DisconnectController): those that manage it. If `driver` is not 0, all others are left out. If `child`
/// is not 0, all drivers that do not have the child open there by BY_CHILD_CONTROLLER are left out. The
/// answer is `None` exactly if some drivers remain before the child is looked at, and none of them has the
/// child. DisconnectController answers NOT_FOUND then.
///
/// # Errors
///
/// `OutOfMemory` if there is no memory for the list.
#[tactic(auto, unfolding(driver_model::specs::StopOrder::stop_list))]
pub fn stop_list(
    world: &World,
    controller: Handle,
    driver: u64,
    child: u64,
) -> Result<Option<Vec<u64>>, OutOfMemory>
    ensures { IfOk result (λ agents. option_map (λ agents. agents.items) agents ≡
        stop_list_value controller driver child world.now.now.soft) }
{
    let managers = world.entries().managers_of(world.db(), controller)?;
    let drivers = drivers_meant(world.alloc(), managers, driver)?;
    if child == 0 || drivers.is_empty() {
        return Ok(Some(drivers));
    }
    let parents = parents_of(world, controller, child, drivers.as_slice())?;
    if parents.is_empty() {
        return Ok(None);
    }
    Ok(Some(parents))
}

/// Only the driver that is given, if one is.
fn drivers_meant(alloc: Global, managers: Vec<u64>, driver: u64) -> Result<Vec<u64>, OutOfMemory>
    ensures { IfOk result (λ drivers. drivers.items ≡ only_driver driver managers.items) }
{
    if driver == 0 {
        return Ok(managers);
    }
    equal_to(alloc, managers.as_slice(), driver)
}

/// The numbers of a list that are equal to a number.
fn equal_to(alloc: Global, numbers: &[u64], number: u64) -> Result<Vec<u64>, OutOfMemory>
    ensures { IfOk result (λ equal. equal.items ≡ filter (nat_eq number) numbers.now) }
{
    let equal = numbers
        .iter()
        .copied()
        .filter(|one| number == *one)
        .collect(alloc)?;
    Ok(equal)
}

/// The agents that have the child open on the controller, in their order.
fn parents_of(
    world: &World,
    controller: Handle,
    child: u64,
    agents: &[u64],
) -> Result<Vec<u64>, OutOfMemory>
    ensures { IfOk result (λ parents.
        parents.items ≡ filter (has_child_value controller child world.now.now.soft) agents.now) }
{
    let mut parents = Vec::new(world.alloc());
    for agent in agents {
        add_parent(&mut parents, world, controller, child, *agent)?;
    }
    Ok(parents)
}

/// Puts an agent after others if it has the child open on the controller.
fn add_parent(
    parents: &mut Vec<u64>,
    world: &World,
    controller: Handle,
    child: u64,
    agent: u64,
) -> Result<(), OutOfMemory>
    ensures { OnOk result (parents.new.items ≡ parents.old.items ++
        (if has_child_value controller child world.now.now.soft agent then agent ∷ [] else [])) }
{
    if has_child(world, controller, child, agent)? {
        parents.push(agent)?;
    }
    Ok(())
}

/// Whether an agent has the child open on the controller. The handle 0 is not a child.
fn has_child(world: &World, controller: Handle, child: u64, agent: u64) -> Result<bool, OutOfMemory>
    ensures { IfOk result (λ has. has ≡ has_child_value controller child world.now.now.soft agent) }
{
    world.is_kept();
    if child == 0 {
        return Ok(false);
    }
    has_record_on(
        world,
        controller,
        agent,
        Some(child),
        Attr::BY_CHILD_CONTROLLER,
    )
}
