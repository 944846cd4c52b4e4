//! What a driver call finds on its stack, and the list of children that a Stop is given.
ghost use Rattle.fw_types.specs.declared.limits.TheConstants.{MOST_LEVELS as most_levels};
ghost use Rattle.std.specs.Prelude.{◌≡◌, ◌≤◌, ◌++◌, ℕ, false, slice_index_or, IfOk, OnErr, OnOk, Ok, flat_map, replicate};
ghost use Rattle.byteorder.specs.Endian.{little_bytes};
ghost use Rattle.guest_memory.specs.GuestMemory.{map_answer, mapped, unmapped};
ghost use Rattle.world_model.specs.Stacks.{frame as frame_value, has_stack, list_base as list_base_of, list_mapped, list_segment, stack_base as stack_base_of, stack_bytes as stack_value};

use crate::mapping::map_free;
use ebc_machine::Cpu;
use fw_types::OutOfMemory;
use guest_memory::address_map::{CHILD_LISTS, EXIT, LIST_ROOM, STACK_SIZE, STACKS};
use guest_memory::{Memory, SegKind};
use std::alloc::Global;

/// The offset of the frame in the stack: 144 bytes before its end.
const FRAME_PLACE: u16 = 0xff70;

/// Where the stack of a level lies.
fn stack_base(level: u8) -> u64
    ensures { result ≡ stack_base_of level }
{
    STACKS + STACK_SIZE * u64::from(level)
}

/// Where the list of children of a level lies.
fn list_base(level: u8) -> u64
    ensures { result ≡ list_base_of level }
{
    CHILD_LISTS + LIST_ROOM * u64::from(level)
}

/// The registers as a call of a level begins: R0 is at the frame, and everything else is 0.
pub fn frame(level: u8) -> Cpu
    ensures { result ≡ frame_value level }
{
    Cpu {
        r: [
            stack_base(level) + u64::from(FRAME_PLACE),
            0,
            0,
            0,
            0,
            0,
            0,
            0,
        ],
        flags: 0,
        ip: 0,
    }
}

/// The stack as a call begins: zeros except for the return address and the arguments.
///
/// # Errors
///
/// `OutOfMemory` if there is no memory.
#[tactic(auto, unfolding(world_model::specs::Stacks::stack_bytes))]
pub fn stack_bytes(alloc: Global, slots: &[u64; 16]) -> Result<Vec<u8>, OutOfMemory>
    ensures { IfOk result (λ bytes. bytes.items ≡ stack_value slots.now) }
{
    let mut bytes = Vec::with_capacity(alloc, STACK_SIZE as usize)?;
    add_zeros(&mut bytes, FRAME_PLACE)?;
    add_number(&mut bytes, EXIT)?;
    add_zeros(&mut bytes, 8)?;
    add_numbers(&mut bytes, slots)?;
    Ok(bytes)
}

/// Maps the list of children of a level, if there are any. Nothing refuses it.
///
/// # Errors
///
/// `OutOfMemory` if there is no memory; the memory of drivers is then as before.
fn map_list(
    alloc: Global,
    memory: &mut Memory,
    level: u8,
    handles: &[u64],
) -> Result<(), OutOfMemory>
    requires { map_answer memory.old (list_segment level handles.now) ≡ Ok tt }
    ensures ok { OnOk result (memory.new ≡ list_mapped level handles.now memory.old) }
    ensures err { OnErr result (memory.new ≡ memory.old) }
{
    if handles.is_empty() {
        return Ok(());
    }
    let mut bytes = Vec::new(alloc);
    add_numbers(&mut bytes, handles)?;
    map_free(memory, list_base(level), bytes, SegKind::Table)
}

/// Maps a stack of a level and its list of children, if there are any. Nothing refuses them.
///
/// # Errors
///
/// `OutOfMemory` if there is no memory; the memory of drivers is then as before.
pub fn map_level(
    alloc: Global,
    memory: &mut Memory,
    level: u8,
    stack: Vec<u8>,
    handles: &[u64],
) -> Result<(), OutOfMemory>
    requires stack { map_answer memory.old
        (record { base = stack_base_of level; bytes = stack.items; kind = SegKind.Stack }) ≡ Ok tt }
    requires list { map_answer
        (mapped (record { base = stack_base_of level; bytes = stack.items; kind = SegKind.Stack }) memory.old)
        (list_segment level handles.now) ≡ Ok tt }
    ensures ok { OnOk result (memory.new ≡ list_mapped level handles.now
        (mapped (record { base = stack_base_of level; bytes = stack.items; kind = SegKind.Stack }) memory.old)) }
    ensures err { OnErr result (memory.new ≡ memory.old) }
{
    let base = stack_base(level);
    map_free(memory, base, stack, SegKind::Stack)?;
    match map_list(alloc, memory, level, handles) {
        Ok(()) => Ok(()),
        Err(OutOfMemory) => {
            let _ = memory.unmap(base);
            Err(OutOfMemory)
        }
    }
}

/// Whether each level has a stack, by its number from 0 on.
pub fn levels_with_stack(memory: &Memory) -> [bool; 33]
    ensures { (level : ℕ) → level ≤ most_levels →
        slice_index_or result level false ≡ has_stack level memory.now }
{
    let mut has_stack = [false; 33];
    for level in 0..33 {
        has_stack[usize::from(level)] = memory.begins(SegKind::Stack, stack_base(level));
    }
    has_stack
}

/// Unmaps the stack of a level and its list of children, if they are there.
pub fn unmap_level(memory: &mut Memory, level: u8)
    ensures { memory.new ≡
        unmapped (unmapped memory.old (stack_base_of level)) (list_base_of level) }
{
    let _ = memory.unmap(stack_base(level));
    let _ = memory.unmap(list_base(level));
}

/// Adds so many zeros at the end.
fn add_zeros(bytes: &mut Vec<u8>, n: u16) -> Result<(), OutOfMemory>
    ensures { OnOk result (bytes.new.items ≡ bytes.old.items ++ replicate n 0) }
{
    bytes.resize(bytes.len() + usize::from(n), 0)?;
    Ok(())
}

/// Adds the 8 bytes of a number at the end, lowest byte first.
fn add_number(bytes: &mut Vec<u8>, number: u64) -> Result<(), OutOfMemory>
    ensures { OnOk result (bytes.new.items ≡ bytes.old.items ++ little_bytes 8 number) }
{
    bytes.extend_from_slice(&number.to_le_bytes())?;
    Ok(())
}

/// Adds the 8 bytes of each number at the end.
fn add_numbers(bytes: &mut Vec<u8>, numbers: &[u64]) -> Result<(), OutOfMemory>
    ensures { OnOk result (bytes.new.items ≡
        bytes.old.items ++ flat_map (little_bytes 8) numbers.now) }
{
    for number in numbers {
        add_number(bytes, *number)?;
    }
    Ok(())
}
