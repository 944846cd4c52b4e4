//! The records of an agent on a controller.
ghost use Rattle.std.specs.Prelude.{◌≡◌, IfOk, Some};
ghost use Rattle.std.specs.List.{list_any};
ghost use Rattle.handle_db.specs.Database.{protocols_of};
ghost use Rattle.open_records.specs.Leaving.{is_meant};
ghost use Rattle.open_records.specs.Managing.{records_on};

use fw_types::{Guid, Handle, OutOfMemory};
use fw_world::World;
use record_log::RecordLog;

/// Whether an agent has a record with one of these bits on the interfaces of some protocols of a handle.
/// If a controller is given, the record must be for it.
fn is_among_records(
    records: &RecordLog,
    handle: Handle,
    protocols: &[(Guid, u64, Handle)],
    agent: u64,
    controller: Option<u64>,
    bits: u32,
) -> bool
    ensures { result ≡ list_any (is_meant (Some agent) controller bits)
        (records_on records.now.now.entries handle protocols.now) }
{
    for (guid, _, _) in protocols {
        if records.has_meant(handle, *guid, Some(agent), controller, bits) {
            return true;
        }
    }
    false
}

/// Whether an agent has a record with one of these bits on a handle (UEFI 2.8, 7.3: OpenProtocol). If a
/// controller is given, the record must be for it.
///
/// # Errors
///
/// `OutOfMemory` if there is no memory for the list of the protocols.
pub fn has_record_on(
    world: &World,
    handle: Handle,
    agent: u64,
    controller: Option<u64>,
    bits: u32,
) -> Result<bool, OutOfMemory>
    ensures { let soft = world.now.now.soft in
        IfOk result (λ has. has ≡ list_any (is_meant (Some agent) controller bits)
        (records_on soft.records.entries handle (protocols_of handle soft.database))) }
{
    let protocols = world.db().protocols_of(handle)?;
    let records = world.entries();
    Ok(is_among_records(
        records,
        handle,
        protocols.as_slice(),
        agent,
        controller,
        bits,
    ))
}
