//! The handle database of the opening state.
ghost use Rattle.std.specs.Prelude.{◌≡◌, None, IfOk, OnErr, OnOk, is_ok, true};
ghost use Rattle.handle_db.specs.Installing.{install_answer, installed};
ghost use Rattle.world_model.specs.Interfaces.{firmware, interface as interface_value};
ghost use Rattle.world_model.specs.Opening.{firmware_database};

use fw_types::{Guid, Handle, Known, MOST_HANDLES, OutOfMemory};
use guest_memory::address_map::{BUS_BINDING, FIRMWARE_IMAGE};
use handle_db::{Db, DbRefusal};
use std::alloc::Global;

/// Installs an interface of the firmware on a new handle, for which there is room.
///
/// # Errors
///
/// `OutOfMemory` if there is no memory; the database is then as before.
pub(crate) fn add_handle(db: &mut Db, guid: Guid, interface: u64) -> Result<Handle, OutOfMemory>
    requires { is_ok (install_answer None guid db.old) ≡ true }
    ensures handle { IfOk result (λ handle. handle ≡ db.old.next) }
    ensures ok { OnOk result (db.new ≡
        installed None (interface_value guid interface firmware) db.old) }
    ensures err { OnErr result (db.new ≡ db.old) }
{
    match db.install(None, guid, interface, Handle::firmware()) {
        Ok(handle) => Ok(handle),
        Err(DbRefusal::OutOfMemory) => Err(OutOfMemory),
        Err(_) => unreachable!(),
    }
}

/// Handle 1 with the loaded image of the firmware, and handle 2 with the binding of the PCI bus
/// driver.
pub fn opening(alloc: Global) -> Result<Db, OutOfMemory>
    ensures { IfOk result (λ db. db ≡ firmware_database) }
{
    let mut db = Db::new(alloc, MOST_HANDLES);
    add_handle(&mut db, Guid::known(Known::LoadedImage), FIRMWARE_IMAGE)?;
    add_handle(&mut db, Guid::known(Known::DriverBinding), BUS_BINDING)?;
    Ok(db)
}
