//! Driver bindings, read from their bytes in guest memory.
ghost use Rattle.std.specs.Prelude.{◌≡◌, length, IfOk};
ghost use Rattle.driver_model.specs.Bindings.{all_bindings, binding as binding_value, bindings_of, block_at as block_value, block_of};
ghost use Rattle.driver_model.specs.Connect.{unmarked};
ghost use Rattle.bind_plan.specs.Unmarked.{unmarked_binding, unmarked_bindings};

use crate::started_drivers::StartedDrivers;
use byteorder::{ByteOrder, LittleEndian};
use driver_model::{BINDING_SIZE, BindingBlock};
use fw_types::{Guid, Handle, Known, OutOfMemory};
use fw_world::World;

/// The driver binding of a handle, or `None` exactly if no live handle has the number `handle`, the
/// handle has no driver binding, or the binding's 48 bytes can't be read (UEFI 2.8, 11.1: EFI Driver
/// Binding Protocol). The bytes are read at each call. Takes no memory.
pub fn binding(world: &World, handle: u64) -> Option<BindingBlock>
    ensures { result ≡ binding_value handle world.now.now.soft }
{
    world.is_kept();
    let handle = Handle::new(handle)?;
    let (at, _) = world
        .db()
        .interface(handle, Guid::known(Known::DriverBinding))?;
    block_at(world, handle, at)
}

/// The binding of a handle, if all its bytes can be read.
fn block_at(world: &World, handle: Handle, at: u64) -> Option<BindingBlock>
    ensures { result ≡ block_value handle at world.now.now.soft }
{
    if !world.can_read(at, BINDING_SIZE) {
        return None;
    }
    Some(block_of(handle, at, world.bytes(at, BINDING_SIZE)))
}

/// The binding that these bytes hold.
#[tactic(auto, unfolding(fw_types::specs::Layout::uint32_at, fw_types::specs::Layout::uint64_at))]
fn block_of(handle: Handle, at: u64, bytes: &[u8]) -> BindingBlock
    requires { length bytes.now ≡ BINDING_SIZE }
    ensures { result ≡ block_of handle at bytes.now }
{
    BindingBlock {
        handle,
        supported: LittleEndian::read_u64(bytes),
        start: LittleEndian::read_u64(&bytes[8..]),
        stop: LittleEndian::read_u64(&bytes[16..]),
        version: LittleEndian::read_u32(&bytes[24..]),
        image: LittleEndian::read_u64(&bytes[32..]),
        at,
    }
}

/// The binding of a handle, if the handle is not marked. The binding of a marked handle is not read.
fn unmarked_binding(world: &World, handle: u64, marked: &StartedDrivers) -> Option<BindingBlock>
    ensures { result ≡ unmarked_binding marked.now handle world.now.now.soft }
{
    if marked.has(handle) {
        return None;
    }
    binding(world, handle)
}

/// The bindings of handles that are not marked, in the order of the handles.
pub fn bindings_of(
    world: &World,
    handles: &[u64],
    marked: &StartedDrivers,
) -> Result<Vec<BindingBlock>, OutOfMemory>
    ensures { IfOk result (λ blocks.
        blocks.items ≡ unmarked marked.now (bindings_of handles.now world.now.now.soft)) }
{
    bindings_of_numbers(world, handles, marked)
}

/// The bindings of handles that are not marked, given by their numbers.
fn bindings_of_numbers(
    world: &World,
    numbers: &[u64],
    marked: &StartedDrivers,
) -> Result<Vec<BindingBlock>, OutOfMemory>
    ensures { IfOk result (λ blocks.
        blocks.items ≡ unmarked_bindings marked.now numbers.now world.now.now.soft) }
{
    let blocks = numbers
        .iter()
        .filter_map(|handle| unmarked_binding(world, *handle, marked))
        .collect(world.alloc())?;
    Ok(blocks)
}

/// All bindings of handles that are not marked, by rising handle.
pub fn all_bindings(
    world: &World,
    marked: &StartedDrivers,
) -> Result<Vec<BindingBlock>, OutOfMemory>
    ensures { IfOk result (λ blocks.
        blocks.items ≡ unmarked marked.now (all_bindings world.now.now.soft)) }
{
    let handles = world
        .db()
        .handles_with(Some(Guid::known(Known::DriverBinding)))?;
    bindings_of_handles(world, handles.as_slice(), marked)
}

/// The bindings of live handles that are not marked.
fn bindings_of_handles(
    world: &World,
    handles: &[Handle],
    marked: &StartedDrivers,
) -> Result<Vec<BindingBlock>, OutOfMemory>
    ensures { IfOk result (λ blocks.
        blocks.items ≡ unmarked_bindings marked.now handles.now world.now.now.soft) }
{
    let blocks = handles
        .iter()
        .filter_map(|handle| unmarked_binding(world, handle.get(), marked))
        .collect(world.alloc())?;
    Ok(blocks)
}
