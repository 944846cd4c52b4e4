//! What services write into buffers and into blocks of the pool: handles, open records, protocols.
ghost use Rattle.std.specs.Prelude.{◌≡◌, ◌≤◌, ◌++◌, ◌*◌, ◌<◌, ◌^◌, IfOk, OnOk, length, true};
ghost use Rattle.byteorder.specs.Endian.{little_bytes};
ghost use Rattle.uuid.specs.Parts.{swap_fields};
ghost use Rattle.guest_memory.specs.GuestMemory.{is_writable_range};
ghost use Rattle.service_model.specs.Allowed.{is_allowed};
ghost use Rattle.service_model.specs.Changes.{block_allotted, both_stored, applied};
ghost use Rattle.service_model.specs.Contents.{contents_bytes, contents_count, names_bytes, number_bytes, name_places, record_bytes, records_bytes};
ghost use Rattle.handle_db.specs.Database.{protocols_of};
ghost use Rattle.leaf_services.specs.Names.{names_alone, names_in};
ghost use Rattle.leaf_services.specs.Sizes.{item_size};
ghost use Rattle.leaf_services.specs.Writable.{StaysWritable};

use crate::storing::{allot, store, with_status};
use fw_types::{Guid, Handle, MOST_INTERFACES, OutOfMemory, Status};
use fw_world::World;
use guest_memory::address_map::BLOCK_END;
use open_records::Rec;
use service_model::laws::puts_leave_writable;
use service_model::{Change, Contents, Served};
use std::alloc::Global;

/// Appends a number in 8 bytes.
fn add_number(bytes: &mut Vec<u8>, number: u64) -> Result<(), OutOfMemory>
    ensures { OnOk result (bytes.new.items ≡ bytes.old.items ++ little_bytes 8 number) }
{
    bytes.extend_from_slice(&number.to_le_bytes())?;
    Ok(())
}

/// Appends a number in 4 bytes.
fn add_half(bytes: &mut Vec<u8>, number: u32) -> Result<(), OutOfMemory>
    ensures { OnOk result (bytes.new.items ≡ bytes.old.items ++ little_bytes 4 number) }
{
    bytes.extend_from_slice(&number.to_le_bytes())?;
    Ok(())
}

/// Appends handles in 8 bytes each.
fn add_handles(bytes: &mut Vec<u8>, handles: &[Handle]) -> Result<(), OutOfMemory>
    ensures { OnOk result (bytes.new.items ≡ bytes.old.items ++ number_bytes handles.now) }
{
    for handle in handles {
        add_number(bytes, handle.get())?;
    }
    Ok(())
}

/// Handles in 8 bytes each.
#[tactic(auto, using(crate::proofs::BlockContents::length_of_numbers))]
fn handle_bytes(alloc: Global, handles: &[Handle]) -> Result<Vec<u8>, OutOfMemory>
    requires { length handles.now < 2 ^ 32 }
    ensures bytes { IfOk result (λ bytes. bytes.items ≡ number_bytes handles.now) }
    ensures size { IfOk result (λ bytes. length bytes.items ≡ 8 * length handles.now) }
{
    let mut bytes = Vec::with_capacity(alloc, 8 * handles.len())?;
    add_handles(&mut bytes, handles)?;
    Ok(bytes)
}

/// Appends a record in 24 bytes.
fn add_record(bytes: &mut Vec<u8>, rec: &Rec) -> Result<(), OutOfMemory>
    ensures { OnOk result (bytes.new.items ≡ bytes.old.items ++ record_bytes rec.now) }
{
    add_number(bytes, rec.agent)?;
    add_number(bytes, rec.controller)?;
    add_half(bytes, rec.attr.bits())?;
    add_half(bytes, rec.count)
}

/// Appends records in 24 bytes each.
fn add_records(bytes: &mut Vec<u8>, records: &[Rec]) -> Result<(), OutOfMemory>
    ensures { OnOk result (bytes.new.items ≡ bytes.old.items ++ records_bytes records.now) }
{
    for rec in records {
        add_record(bytes, rec)?;
    }
    Ok(())
}

/// Appends pointers to `n` GUIDs that lie after the pointers, in a block at the address `at`.
fn add_places(bytes: &mut Vec<u8>, at: u64, n: u64) -> Result<(), OutOfMemory>
    requires few { n ≤ MOST_INTERFACES }
    requires low { at ≤ BLOCK_END }
    ensures { OnOk result (bytes.new.items ≡ bytes.old.items ++ number_bytes (name_places at n)) }
{
    for i in 0..n {
        add_number(bytes, at + 8 * n + 16 * i)?;
    }
    Ok(())
}

/// Appends a GUID in 16 bytes.
fn add_name(bytes: &mut Vec<u8>, name: &Guid) -> Result<(), OutOfMemory>
    ensures { OnOk result (bytes.new.items ≡ bytes.old.items ++ swap_fields name.now) }
{
    bytes.extend_from_slice(&name.to_guest())?;
    Ok(())
}

/// Appends the GUIDs of protocols.
fn add_names(bytes: &mut Vec<u8>, protocols: &[(Guid, u64, Handle)]) -> Result<(), OutOfMemory>
    ensures { OnOk result (bytes.new.items ≡ bytes.old.items ++ names_alone protocols.now) }
{
    for protocol in protocols {
        add_name(bytes, &protocol.0)?;
    }
    Ok(())
}

/// Appends pointers to the GUIDs of protocols and then the GUIDs, for a block at an address.
#[tactic(auto, using(crate::proofs::BlockContents::names_after))]
fn add_protocols(
    bytes: &mut Vec<u8>,
    at: u64,
    protocols: &[(Guid, u64, Handle)],
) -> Result<(), OutOfMemory>
    requires few { length protocols.now ≤ MOST_INTERFACES }
    requires low { at ≤ BLOCK_END }
    ensures { OnOk result (bytes.new.items ≡ bytes.old.items ++ names_bytes at (names_in protocols.now)) }
{
    add_places(bytes, at, protocols.len() as u64)?;
    add_names(bytes, protocols)
}

/// Makes it fast to count the open records of an interface, and to list them.
fn make_ready(contents: &Contents, w: &mut World)
    ensures { w.new ≡ w.old }
{
    if let Contents::Opens { handle, guid } = *contents {
        w.make_ready(handle, guid);
    }
}

/// How many items a block has.
fn item_count(contents: &Contents, w: &World) -> u64
    ensures count { result ≡ contents_count contents.now w.now.now }
    ensures few { result < 2 ^ 32 }
{
    match *contents {
        Contents::Handles(name) => u64::from(w.db().count_with(name)),
        Contents::Opens { handle, guid } => u64::from(w.entries().count_on(handle, guid)),
        Contents::Protocols(handle) => protocol_count(handle, w),
    }
}

/// How many protocols a handle has.
fn protocol_count(handle: Handle, w: &World) -> u64
    ensures count { result ≡ length (protocols_of handle w.now.now.soft.database) }
    ensures few { result < 2 ^ 32 }
{
    w.is_kept();
    w.db().interface_count(handle) as u64
}

/// How many bytes each item of a block takes.
fn item_size(contents: &Contents) -> u64
    ensures value { result ≡ item_size contents.now }
    ensures small { result ≤ 24 }
{
    match contents {
        Contents::Handles(_) => 8,
        Contents::Opens { .. } | Contents::Protocols(_) => 24,
    }
}

/// Appends the contents of a block that will be at the next address of the pool.
fn add_contents(bytes: &mut Vec<u8>, contents: &Contents, w: &World) -> Result<(), OutOfMemory>
    ensures { OnOk result (bytes.new.items ≡ bytes.old.items ++ contents_bytes contents.now w.now.now) }
{
    match *contents {
        Contents::Handles(name) => {
            let handles = w.db().handles_with(name)?;
            add_handles(bytes, &handles)
        }
        Contents::Opens { handle, guid } => {
            let records = w.entries().list(handle, guid)?;
            add_records(bytes, &records)
        }
        Contents::Protocols(handle) => {
            w.is_kept();
            let protocols = w.db().protocols_of(handle)?;
            add_protocols(bytes, w.next_block(), &protocols)
        }
    }
}

/// Makes a block of the pool with `n` items. Answers its address, or `None` if a limit is met. The
/// limits are checked before the contents are made.
#[tactic(auto, using(crate::proofs::BlockContents::length_of_contents))]
fn allot_contents(contents: &Contents, n: u64, w: &mut World) -> Result<Option<u64>, OutOfMemory>
    requires all { n ≡ contents_count contents.now w.old.now }
    requires few { n < 2 ^ 32 }
    ensures now { IfOk result (λ at. block_allotted (contents_bytes contents.now w.old.now) w.old.now ≡ (at, w.new.now)) }
    ensures marks { OnOk result (w.new.marks ≡ w.old.marks) }
    ensures writable { OnOk result (StaysWritable w.old.now w.new.now) }
{
    let size = item_size(contents) * n;
    if w.is_block_full(size) {
        return Ok(None);
    }
    let mut bytes = Vec::with_capacity(w.alloc(), size as usize)?;
    add_contents(&mut bytes, contents, w)?;
    allot(bytes, w)
}

/// Stores the address of a block and the number of its items in 8 bytes each. Those bytes can be
/// written.
fn store_both(
    count_first: bool,
    buffer: u64,
    at: u64,
    count: u64,
    n: u64,
    w: &mut World,
) -> Result<(), OutOfMemory>
    requires buffer { is_writable_range w.old.now.soft.memory buffer 8 ≡ true }
    requires count { is_writable_range w.old.now.soft.memory count 8 ≡ true }
    ensures now { OnOk result (w.new.now ≡ both_stored count_first buffer at count n w.old.now) }
    ensures marks { OnOk result (w.new.marks ≡ w.old.marks) }
{
    puts_leave_writable();
    if count_first {
        store(count, n, w)?;
        store(buffer, at, w)
    } else {
        store(buffer, at, w)?;
        store(count, n, w)
    }
}

/// Makes a block of the pool, and stores its address and the number of its items.
pub fn return_block(
    contents: Contents,
    buffer: u64,
    count: u64,
    count_first: bool,
    w: &mut World,
) -> Result<Served, OutOfMemory>
    requires { is_allowed (Change.Block contents buffer count count_first) w.old.now ≡ true }
    ensures now { IfOk result (λ served. applied (Change.Block contents buffer count count_first) w.old.now ≡ (served, w.new.now)) }
    ensures marks { OnOk result (w.new.marks ≡ w.old.marks) }
{
    make_ready(&contents, w);
    let n = item_count(&contents, w);
    match allot_contents(&contents, n, w)? {
        None => Ok(with_status(Status::OUT_OF_RESOURCES)),
        Some(at) => {
            store_both(count_first, buffer, at, count, n, w)?;
            Ok(with_status(Status::SUCCESS))
        }
    }
}

/// Stores the handles that have a protocol, or all handles, and how many bytes they take.
pub fn store_handles(
    guid: Option<Guid>,
    size: u64,
    buffer: u64,
    w: &mut World,
) -> Result<Served, OutOfMemory>
    requires { is_allowed (Change.Handles guid size buffer) w.old.now ≡ true }
    ensures now { IfOk result (λ served. applied (Change.Handles guid size buffer) w.old.now ≡ (served, w.new.now)) }
    ensures marks { OnOk result (w.new.marks ≡ w.old.marks) }
{
    puts_leave_writable();
    w.is_kept();
    let handles = w.db().handles_with(guid)?;
    let bytes = handle_bytes(w.alloc(), &handles)?;
    store(size, 8 * handles.len() as u64, w)?;
    w.put(buffer, &bytes)?;
    Ok(with_status(Status::SUCCESS))
}
