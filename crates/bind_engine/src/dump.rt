//! The `dump` command: the handle database, line by line.
ghost use Rattle.std.specs.Prelude.{◌≡◌, ◌++◌, IfOk, OnOk, flat_map, map};
ghost use Rattle.bind_engine.specs.Dump.{dump_of, handle_lines, interface_lines, protocol_lines, record_line};

use fw_types::{DumpLine, Guid, Handle, OutOfMemory};
use fw_world::World;
use open_records::Rec;

/// The line of an open record.
fn record_line(rec: &Rec) -> DumpLine
    ensures { result ≡ record_line rec.now }
{
    DumpLine::Entry {
        agent: rec.agent,
        controller: rec.controller,
        attr: rec.attr.bits(),
        count: rec.count,
    }
}

/// Adds the lines of open records.
fn add_records(lines: &mut Vec<DumpLine>, records: &[Rec]) -> Result<(), OutOfMemory>
    ensures { OnOk result (lines.new.items ≡ lines.old.items ++ map record_line records.now) }
{
    for rec in records {
        lines.push(record_line(rec))?;
    }
    Ok(())
}

/// Adds the lines of an interface: its own, and those of its open records.
fn add_interface(
    world: &World,
    lines: &mut Vec<DumpLine>,
    handle: Handle,
    guid: Guid,
    interface: u64,
    owner: Handle,
) -> Result<(), OutOfMemory>
    ensures { OnOk result (lines.new.items ≡
        lines.old.items ++ interface_lines world.now.now.soft handle guid interface owner) }
{
    lines.push(DumpLine::Proto {
        guid,
        interface,
        owner: owner.get(),
    })?;
    let records = world.entries().list(handle, guid)?;
    add_records(lines, records.as_slice())
}

/// Adds the lines of a handle's interfaces, each with its protocol, its address and its owner.
fn add_interfaces(
    world: &World,
    lines: &mut Vec<DumpLine>,
    handle: Handle,
    protocols: &[(Guid, u64, Handle)],
) -> Result<(), OutOfMemory>
    ensures { OnOk result (lines.new.items ≡ lines.old.items
        ++ flat_map (protocol_lines world.now.now.soft handle) protocols.now) }
{
    for protocol in protocols {
        let (guid, interface, owner) = *protocol;
        add_interface(world, lines, handle, guid, interface, owner)?;
    }
    Ok(())
}

/// Adds the lines of a handle: its own, and those of its interfaces.
fn add_handle(world: &World, lines: &mut Vec<DumpLine>, handle: Handle) -> Result<(), OutOfMemory>
    ensures { OnOk result (lines.new.items ≡
        lines.old.items ++ handle_lines world.now.now.soft handle) }
{
    lines.push(DumpLine::Handle(handle.get()))?;
    let protocols = world.db().protocols_of(handle)?;
    add_interfaces(world, lines, handle, protocols.as_slice())
}

/// Adds the lines of handles.
fn add_handles(
    world: &World,
    lines: &mut Vec<DumpLine>,
    handles: &[Handle],
) -> Result<(), OutOfMemory>
    ensures { OnOk result (lines.new.items ≡
        lines.old.items ++ flat_map (handle_lines world.now.now.soft) handles.now) }
{
    for handle in handles {
        add_handle(world, lines, *handle)?;
    }
    Ok(())
}

/// The lines of all handles, by rising number.
///
/// # Errors
///
/// `OutOfMemory` if there is no memory for the lines.
pub fn dump(world: &World) -> Result<Vec<DumpLine>, OutOfMemory>
    ensures { IfOk result (λ lines. lines.items ≡ dump_of world.now.now.soft) }
{
    let handles = world.db().handles_with(None)?;
    let mut lines = Vec::new(world.alloc());
    add_handles(world, &mut lines, handles.as_slice())?;
    Ok(lines)
}
