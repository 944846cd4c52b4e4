//! Which drivers ConnectController asks, how it calls them, what it answers, and how it connects a
//! child (UEFI 2.8, 7.3 and 11.1).
ghost use Rattle.std.specs.Prelude.{◌≡◌, IfOk};
ghost use Rattle.driver_model.specs.Connect.{address_in, child_connection, driver_call, status_of, unmarked};
ghost use Rattle.driver_model.specs.DriverOrder.{order, platform_list};

use bind_plan::{StartedDrivers, order_of_unmarked};
use driver_model::{BindingBlock, Call, CallKind, Connection, Settings};
use fw_types::{Handle, OutOfMemory, Status};
use fw_world::World;

/// The platform driver override's list for a controller, or an empty one.
fn platform_list(settings: &Settings, controller: Handle) -> &[u64]
    ensures { result.now ≡ platform_list settings.now controller }
{
    let lists = settings.platform.as_slice();
    for list in lists {
        if list.controller == controller.get() {
            return list.drivers.as_slice();
        }
    }
    &[]
}

/// The drivers to ask, in their order, without the marked ones.
///
/// # Errors
///
/// `OutOfMemory` if there is no memory for the list.
pub fn drivers_to_ask(
    world: &World,
    settings: &Settings,
    controller: Handle,
    context: &[u64],
    marked: &StartedDrivers,
) -> Result<Vec<BindingBlock>, OutOfMemory>
    ensures { IfOk result (λ blocks. blocks.items ≡ unmarked marked.now
        (order controller context.now (platform_list settings.now controller) world.now.now.soft)) }
{
    let platform = platform_list(settings, controller);
    order_of_unmarked(world, controller, context, platform, marked)
}

/// The field of a binding that is called.
fn address_in(kind: CallKind, block: &BindingBlock) -> u64
    ensures { result ≡ address_in kind block.now }
{
    match kind {
        CallKind::Supported => block.supported,
        CallKind::Start => block.start,
        CallKind::Stop => block.stop,
        CallKind::Entry | CallKind::Unload => 0,
    }
}

/// The call of Supported or of Start: its arguments are the binding, the controller and the
/// remaining path.
pub fn driver_call(kind: CallKind, block: &BindingBlock, c: &Connection) -> Call
    ensures { result ≡ driver_call kind block.now c.now }
{
    let mut slots = [0; 16];
    slots[0] = block.at;
    slots[1] = c.controller;
    slots[2] = c.path;
    Call {
        kind,
        driver: block.handle.get(),
        controller: c.controller,
        extra: 0,
        address: address_in(kind, block),
        binding: block.at,
        slots,
    }
}

/// How a child is connected: with no path, and with its own children.
pub fn child_connection(controller: u64) -> Connection
    ensures { result ≡ child_connection controller }
{
    Connection {
        controller,
        path: 0,
        at_end: false,
        recursive: true,
    }
}

/// What ConnectController answers in the end: SUCCESS if a Start succeeded or the path is an End
/// node, and otherwise NOT_FOUND.
pub fn connect_status(c: &Connection, any: bool) -> Status
    ensures { result ≡ status_of c.now any }
{
    if any || c.at_end {
        Status::SUCCESS
    } else {
        Status::NOT_FOUND
    }
}
