//! Handles that are live, and lists of handles.
ghost use Rattle.std.specs.Prelude.{◌≡◌, ◌≤◌, IfOk, None, Some, if◌then◌else◌, length};
ghost use Rattle.fw_types.specs.declared.limits.TheConstants.{MOST_LISTED as most_listed};
ghost use Rattle.handle_db.specs.Database.{is_live};
ghost use Rattle.driver_model.specs.StopOrder.{children_of};

use fw_types::{Handle, OutOfMemory};
use fw_world::World;
use world_model::laws::children_are_few;

/// The live handle with this number, if there is one.
pub fn live_handle(world: &World, number: u64) -> Option<Handle>
    ensures { result ≡ (if is_live number world.now.now.soft.database then Some number else None) }
{
    world.is_kept();
    if !world.db().is_live(number) {
        return None;
    }
    Handle::new(number)
}

/// The children of a controller: those of one agent, or those of all.
///
/// # Errors
///
/// `OutOfMemory` if there is no memory for the list.
pub fn children_of(
    world: &World,
    controller: Handle,
    agent: Option<u64>,
) -> Result<Vec<Handle>, OutOfMemory>
    ensures children { IfOk result (λ children.
        children_of controller agent world.now.now.soft ≡ children.items) }
    ensures few { IfOk result (λ children. length children.items ≤ most_listed) }
{
    children_are_few();
    world.is_kept();
    world.entries().children_of(world.db(), controller, agent)
}
