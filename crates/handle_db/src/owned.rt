//! The interfaces that are removed with an image (UEFI 2.8, 7.4: UnloadImage).
ghost use Rattle.std.specs.Prelude.{◌≡◌, filter, map};
ghost use Rattle.handle_db.specs.Database.{has_any};
ghost use Rattle.handle_db.specs.OwnedInterfaces.{goes_with, without_interfaces_of};

use crate::handle_entry::{HandleEntry, Interface};
use fw_types::{Guid, Handle};

/// Whether a handle's interface is removed with an image: the image owns it, or it is the interface
/// of the protocol `own` on the image's own handle.
fn goes_with(image: Handle, own: Guid, handle: Handle, one: &Interface) -> bool
    ensures { result ≡ goes_with image own handle one.now }
{
    one.owner == image || (handle == image && one.guid == own)
}

/// Takes out the interfaces of a handle that are removed with an image.
fn drop_interfaces(entry: &mut HandleEntry, image: Handle, own: Guid)
    ensures { entry.new ≡ without_interfaces_of image own entry.old }
{
    let handle = entry.handle;
    entry
        .interfaces
        .retain(|one| !goes_with(image, own, handle, one));
}

/// Takes out the interfaces of all handles that are removed with an image.
pub fn drop_owned(entries: &mut Vec<HandleEntry>, image: Handle, own: Guid)
    ensures { entries.new.items ≡ map (without_interfaces_of image own) entries.old.items }
{
    for entry in entries.iter_mut() {
        drop_interfaces(entry, image, own);
    }
}

/// Whether a handle has an interface.
fn has_any(entry: &HandleEntry) -> bool
    ensures { result ≡ has_any entry.now }
{
    !entry.interfaces.as_slice().is_empty()
}

/// Takes out the handles without interfaces.
pub fn drop_empty(entries: &mut Vec<HandleEntry>)
    ensures { entries.new.items ≡ filter has_any entries.old.items }
{
    entries.retain(|entry| has_any(entry));
}
