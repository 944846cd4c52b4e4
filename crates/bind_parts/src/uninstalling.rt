//! What the uninstall of an interface looks at and removes (UEFI 2.8, 7.3:
//! UninstallProtocolInterface and UninstallMultipleProtocolInterfaces).
ghost use Rattle.std.specs.Prelude.{◌≡◌, ◌<◌, IfOk, IfSome, None, OnOk, Some, false, if◌then◌else◌, is_ok, true};
ghost use Rattle.world_model.specs.Interfaces.{is_lasting, uninstall_answer};
ghost use Rattle.world_model.specs.Marks.{depth, marked_stacks, older_marks, put_back, stacks};
ghost use Rattle.driver_model.specs.Allowed.{may_go};
ghost use Rattle.driver_model.specs.Moves.{changed, plain, uninstalls};
ghost use Rattle.driver_model.specs.UninstallWithReconnection.{all_or_none, interface_on, is_first_there, is_kept_from, is_still_there, manager_on};

use driver_model::Remover;
use fw_types::{Guid, Handle, OutOfMemory, Status};
use fw_world::{Mark, World};
use handle_db::DbRefusal;
use service_model::HandleInterface;
use service_model::laws::images_do_not_last;

/// Whether the handle has the interface. If the firmware asks, an interface of another owner does
/// not count.
pub fn is_first_there(world: &World, remover: Remover, i: &HandleInterface) -> bool
    ensures { result ≡
        is_first_there remover i.now.interface (interface_on i.now world.now.now.soft) }
{
    let Some((address, owner)) = world.db().interface(i.handle, i.guid) else {
        return false;
    };
    match remover {
        Remover::TheFirmware => address == i.interface && owner == Handle::firmware(),
        Remover::ADriver => address == i.interface,
    }
}

/// Whether a driver asks and the firmware owns the interface, so that it must stay.
pub fn is_kept_from(world: &World, remover: Remover, i: &HandleInterface) -> bool
    ensures { result ≡ is_kept_from remover (interface_on i.now world.now.now.soft) }
{
    let Some((_, owner)) = world.db().interface(i.handle, i.guid) else {
        return false;
    };
    match remover {
        Remover::TheFirmware => false,
        Remover::ADriver => owner == Handle::firmware(),
    }
}

/// Whether the handle still has the interface, and the remover may uninstall it.
fn is_still_there(world: &World, remover: Remover, i: &HandleInterface) -> bool
    ensures { result ≡
        is_still_there remover i.now.interface (interface_on i.now world.now.now.soft) }
{
    let Some((address, owner)) = world.db().interface(i.handle, i.guid) else {
        return false;
    };
    match remover {
        Remover::TheFirmware => address == i.interface && owner == Handle::firmware(),
        Remover::ADriver => address == i.interface && owner != Handle::firmware(),
    }
}

/// The handle of the interface, if it still has the interface and the remover may uninstall it.
/// The firmware uninstalls no interface of a protocol that has lasting interfaces.
pub fn handle_to_clear(world: &World, remover: Remover, i: &HandleInterface) -> Option<Handle>
    requires { may_go remover i.now ≡ true }
    ensures there { result ≡
        (if is_still_there remover i.now.interface (interface_on i.now world.now.now.soft)
        then Some i.now.handle else None) }
    ensures same { IfSome result (λ handle. i.now.handle ≡ handle) }
    ensures lasting { IfSome result (λ handle.
        is_lasting handle i.now.guid world.now.now.soft ≡ false) }
    ensures answer { IfSome result (λ handle.
        is_ok (uninstall_answer handle i.now.guid world.now.now.soft) ≡ true) }
{
    images_do_not_last();
    world.is_kept();
    if is_still_there(world, remover, i) {
        Some(i.handle)
    } else {
        None
    }
}

/// The driver that manages the handle through the interface, if there is one. Takes no memory.
pub fn manager_on(world: &World, i: &HandleInterface) -> Option<u64>
    ensures { result ≡ manager_on i.now world.now.now.soft }
{
    world.entries().manager_on(i.handle, i.guid)
}

/// Removes an interface of a handle that has it, with its records.
///
/// # Errors
///
/// `OutOfMemory` if there is no memory.
pub fn remove_interface(world: &mut World, handle: Handle, guid: Guid) -> Result<(), OutOfMemory>
    requires lasting { is_lasting handle guid world.old.now.soft ≡ false }
    requires answer { is_ok (uninstall_answer handle guid world.old.now.soft) ≡ true }
    ensures now { OnOk result (changed (uninstalls handle guid) world.old.now ≡ world.new.now) }
    ensures marks { OnOk result (world.new.marks ≡ world.old.marks) }
    ensures stacks { OnOk result (stacks world.new.now.soft ≡ stacks world.old.now.soft) }
    ensures hard { OnOk result (world.new.now.hard ≡ world.old.now.hard) }
{
    match world.uninstall(handle, guid) {
        Ok(()) => Ok(()),
        Err(DbRefusal::OutOfMemory) => Err(OutOfMemory),
        Err(_) => unreachable!(),
    }
}

/// Keeps what several uninstalls did if all succeeded, or puts back the soft part that their mark
/// keeps.
///
/// # Errors
///
/// `OutOfMemory` if there is no memory for what is put back.
pub fn settle_all(world: &mut World, mark: Mark, all: bool) -> Result<Status, OutOfMemory>
    requires newest { mark ≡ depth world.old }
    requires stacks { stacks world.old.now.soft ≡ marked_stacks world.old }
    requires open { 0 < depth world.old }
    ensures now { IfOk result (λ status.
        all_or_none plain (put_back world.old.marks world.old.now).soft (all, world.old.now)
        ≡ (status, world.new.now)) }
    ensures marks { OnOk result (world.new.marks ≡ older_marks world.old.marks) }
    ensures stacks { OnOk result (stacks world.new.now.soft ≡ stacks world.old.now.soft) }
    ensures hard { OnOk result (world.new.now.hard ≡ world.old.now.hard) }
{
    if all {
        world.commit(mark);
        return Ok(Status::SUCCESS);
    }
    world.rollback(mark)?;
    Ok(Status::INVALID_PARAMETER)
}
