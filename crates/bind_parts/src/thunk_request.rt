//! Thunks that a driver's code asks for.
ghost use Rattle.std.specs.Prelude.{◌≡◌, ◌<◌, ◌≤◌, ◌^◌, IfOk, OnOk, is_some, length, true};
ghost use Rattle.guest_memory.specs.GuestMemory.{is_writable_range};
ghost use Rattle.ebc_machine.specs.declared.cpu.Cpu.{Cpu};
ghost use Rattle.world_model.specs.Images.{image_at};
ghost use Rattle.world_model.specs.Marks.{stacks};
ghost use Rattle.world_model.specs.Thunks.{thunk_answer};
ghost use Rattle.driver_model.specs.Moves.{plain};
ghost use Rattle.driver_model.specs.ThunkRequests.{entry_from, requested_entry, thunk_by, thunk_requested};

use crate::run_end::trapped;
use driver_model::RunEnd;
use fw_types::{Cause, OutOfMemory};
use fw_world::{World, WorldFault};
use guest_memory::GuestMem;
use world_model::laws::stacks_stand;

/// The entry that the 4 bytes at a place name: a signed offset from the address after them.
fn entry_from(place: u64, number: u64) -> u64
    requires { number < 256 ^ 4 }
    ensures { result ≡ entry_from place number }
{
    let signed = i64::from((number as u32).cast_signed());
    place.wrapping_add(4).wrapping_add_signed(signed)
}

/// The entry that the 4 bytes at a place name, or why the code traps: `Memory` if those 4 bytes
/// can't be read or the 8 bytes there can't be written, `Align` if the entry is odd, or `Fetch` if
/// it is in no image.
fn requested_entry(world: &World, place: u64) -> Result<u64, Cause>
    ensures value { result ≡ requested_entry place world.now.now.soft }
    ensures place { IfOk result (λ entry.
        is_writable_range world.now.now.soft.memory place 8 ≡ true) }
    ensures image { IfOk result (λ entry. is_some (image_at entry world.now.now.soft) ≡ true) }
{
    let Some(number) = world.read(place, 4) else {
        return Err(Cause::Memory);
    };
    if !world.can_write(place, 8) {
        return Err(Cause::Memory);
    }
    let entry = entry_from(place, number);
    if entry % 2 != 0 {
        return Err(Cause::Align);
    }
    if world.image_at(entry).is_none() {
        return Err(Cause::Fetch);
    }
    Ok(entry)
}

/// Makes a thunk and stores its address in the 8 bytes at a place, or traps with `Thunks`.
fn store_thunk(world: &mut World, place: u64, entry: u64) -> Result<Option<RunEnd>, OutOfMemory>
    requires place { is_writable_range world.old.now.soft.memory place 8 ≡ true }
    requires image { is_some (image_at entry world.old.now.soft) ≡ true }
    ensures turn { (cpu : Cpu) → IfOk result (λ end.
        thunk_by plain (thunk_answer world.old.now.soft) place entry cpu world.old.now
        ≡ record { end = end; cpu = cpu; world = world.new.now }) }
    ensures marks { OnOk result (world.new.marks ≡ world.old.marks) }
    ensures stacks { OnOk result (stacks world.new.now.soft ≡ stacks world.old.now.soft) }
    ensures hard { OnOk result (world.new.now.hard ≡ world.old.now.hard) }
{
    stacks_stand();
    match world.make_thunk(entry) {
        Ok(at) => {
            world.put(place, &at.to_le_bytes())?;
            Ok(None)
        }
        Err(WorldFault::OutOfMemory) => Err(OutOfMemory),
        Err(_) => Ok(Some(trapped(Cause::Thunks))),
    }
}

/// Makes the thunk that the code asks for by the bytes at a place (UEFI 2.8, chapter 22, 'BREAK',
/// code 5). If the run ends with this, the answer is how: it traps with `Memory`, `Align`, `Fetch`
/// or `Thunks`, which are checked in this order. The registers stay as they are.
///
/// # Errors
///
/// `OutOfMemory` if there is no memory for the thunk.
pub fn meet_request(world: &mut World, place: u64) -> Result<Option<RunEnd>, OutOfMemory>
    ensures turn { (cpu : Cpu) → IfOk result (λ end.
        thunk_requested plain place cpu world.old.now
        ≡ record { end = end; cpu = cpu; world = world.new.now }) }
    ensures marks { OnOk result (world.new.marks ≡ world.old.marks) }
    ensures stacks { OnOk result (stacks world.new.now.soft ≡ stacks world.old.now.soft) }
    ensures hard { OnOk result (world.new.now.hard ≡ world.old.now.hard) }
{
    match requested_entry(world, place) {
        Ok(entry) => store_thunk(world, place, entry),
        Err(cause) => Ok(Some(trapped(cause))),
    }
}
