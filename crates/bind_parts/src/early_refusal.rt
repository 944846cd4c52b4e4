//! Which uninstalls of several interfaces are refused before anything is removed (UEFI 2.8, 7.3:
//! UninstallMultipleProtocolInterfaces).
ghost use Rattle.std.specs.Prelude.{◌≡◌};
ghost use Rattle.driver_model.specs.EarlyRefusal.{is_in_use, is_listed, is_refused_after, refused_early};

use crate::uninstalling::{is_first_there, is_kept_from};
use driver_model::Remover;
use fw_types::Attr;
use fw_world::World;
use service_model::HandleInterface;

/// Whether an uninstall of several interfaces comes to a pair that is refused, and no interface
/// before that pair has a record with BY_CHILD_CONTROLLER, BY_DRIVER or EXCLUSIVE. Takes no
/// memory.
pub fn is_refused_early(world: &World, interfaces: &[HandleInterface]) -> bool
    ensures { result ≡ refused_early interfaces.now world.now.now.soft }
{
    for at in 0..interfaces.len() {
        let i = &interfaces[at];
        if is_refused_after(world, &interfaces[..at], i) {
            return true;
        }
        if is_in_use(world, i) {
            return false;
        }
    }
    false
}

/// Whether a pair is refused after those before it are gone: the handle does not have it, or the
/// firmware owns it.
fn is_refused_after(world: &World, before: &[HandleInterface], i: &HandleInterface) -> bool
    ensures { result ≡ is_refused_after before.now i.now world.now.now.soft }
{
    is_listed(i, before)
        || !is_first_there(world, Remover::ADriver, i)
        || is_kept_from(world, Remover::ADriver, i)
}

/// Whether one of these pairs has the handle and the protocol of a pair.
fn is_listed(i: &HandleInterface, pairs: &[HandleInterface]) -> bool
    ensures { result ≡ is_listed i.now pairs.now }
{
    pairs
        .iter()
        .any(|one| one.handle == i.handle && one.guid == i.guid)
}

/// Whether an interface has a record with BY_CHILD_CONTROLLER, BY_DRIVER or EXCLUSIVE. Takes no
/// memory.
fn is_in_use(world: &World, i: &HandleInterface) -> bool
    ensures { result ≡ is_in_use i.now world.now.now.soft }
{
    world
        .entries()
        .has_meant(i.handle, i.guid, None, None, Attr::AGENT_BITS)
}
