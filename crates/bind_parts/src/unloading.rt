//! The unload of an image, around the call of its handler (UEFI 2.8, 7.4: UnloadImage; 9.1: EFI
//! Loaded Image Protocol).
ghost use Rattle.std.specs.Prelude.{◌≡◌, ◌<◌, [], IfOk, OnOk, length, true};
ghost use Rattle.fw_types.specs.Layout.{uint64_at};
ghost use Rattle.guest_memory.specs.GuestMemory.{is_readable};
ghost use Rattle.world_model.specs.Images.{block_size};
ghost use Rattle.world_model.specs.ImageSweep.{is_in_use};
ghost use Rattle.world_model.specs.Marks.{depth, marked_stacks, older_marks, put_back, stacks};
ghost use Rattle.driver_model.specs.Moves.{plain};
ghost use Rattle.driver_model.specs.ImageLife.{failure_of};
ghost use Rattle.driver_model.specs.Unloading.{gone_or_in_use, handler_of, handler_place, unless_failed, unload_call};

use crate::loading::failure;
use byteorder::{ByteOrder, LittleEndian};
use driver_model::{Call, CallKind};
use fw_types::{Handle, OutOfMemory, Outcome, Status};
use fw_world::{LoadedImage, Mark, World};
use image_table::{drop_all, in_use};
use world_model::laws::stacks_stand;

/// The size of a loaded image block.
const BLOCK_SIZE: u64 = 96;

/// The offset of Unload in a loaded image block.
const HANDLER: usize = 88;

/// The handler that these bytes of a loaded image block name.
#[tactic(auto, unfolding(fw_types::specs::Layout::uint64_at))]
fn handler_in(block: &[u8]) -> u64
    requires { length block.now ≡ block_size }
    ensures { result ≡ uint64_at handler_place block.now }
{
    LittleEndian::read_u64(&block[HANDLER..])
}

/// The handler that the loaded image block of an image names, or 0. The block can be read.
pub fn handler_of(world: &World, image: &LoadedImage) -> u64
    requires { is_readable world.now.now.soft.memory image.now.block block_size ≡ true }
    ensures { result ≡ handler_of image.now world.now.now.soft }
{
    handler_in(world.bytes(image.block, BLOCK_SIZE))
}

/// The call of the handler of an image: its argument is the image.
pub fn unload_call(image: Handle, handler: u64) -> Call
    ensures { result ≡ unload_call image handler }
{
    let mut slots = [0; 16];
    slots[0] = image.get();
    Call {
        kind: CallKind::Unload,
        driver: image.get(),
        controller: 0,
        extra: 0,
        address: handler,
        binding: 0,
        slots,
    }
}

/// Puts back the soft part that the mark keeps if an image is in use, and otherwise drops the image.
///
/// # Errors
///
/// `OutOfMemory` if there is no memory for what is put back.
fn drop_unless_in_use(world: &mut World, mark: Mark, image: Handle) -> Result<Status, OutOfMemory>
    requires newest { mark ≡ depth world.old }
    requires stacks { stacks world.old.now.soft ≡ marked_stacks world.old }
    requires open { 0 < depth world.old }
    requires only { older_marks world.old.marks ≡ [] }
    ensures now { IfOk result (λ status.
        gone_or_in_use plain (is_in_use image world.old.now.soft) image
        (put_back world.old.marks world.old.now).soft world.old.now
        ≡ (status, world.new.now)) }
    ensures marks { OnOk result (world.new.marks ≡ older_marks world.old.marks) }
    ensures stacks { OnOk result (stacks world.new.now.soft ≡ stacks world.old.now.soft) }
    ensures hard { OnOk result (world.new.now.hard ≡ world.old.now.hard) }
{
    if in_use(world, image) {
        world.rollback(mark)?;
        return Ok(Status::ACCESS_DENIED);
    }
    stacks_stand();
    world.commit(mark);
    world.is_kept();
    // If the image is no longer loaded, there is nothing to drop.
    let _ = drop_all(world, image);
    Ok(Status::SUCCESS)
}

/// Ends the unload of an image whose handler ended like this. If the handler failed, the status is
/// its value, or ABORTED, and its call has already undone what it did. If the image is in use, the
/// soft part that the mark keeps is put back, and the status is ACCESS_DENIED. Otherwise the image
/// is dropped. No other mark is open.
///
/// # Errors
///
/// `OutOfMemory` if there is no memory for what is put back.
pub fn settle_unload(
    world: &mut World,
    mark: Mark,
    image: Handle,
    outcome: Outcome,
) -> Result<Status, OutOfMemory>
    requires newest { mark ≡ depth world.old }
    requires stacks { stacks world.old.now.soft ≡ marked_stacks world.old }
    requires open { 0 < depth world.old }
    requires only { older_marks world.old.marks ≡ [] }
    ensures now { IfOk result (λ status.
        unless_failed plain (failure_of outcome) image
        (put_back world.old.marks world.old.now).soft world.old.now
        ≡ (status, world.new.now)) }
    ensures marks { OnOk result (world.new.marks ≡ older_marks world.old.marks) }
    ensures stacks { OnOk result (stacks world.new.now.soft ≡ stacks world.old.now.soft) }
    ensures hard { OnOk result (world.new.now.hard ≡ world.old.now.hard) }
{
    match failure(outcome) {
        Some(status) => {
            world.commit(mark);
            Ok(status)
        }
        None => drop_unless_in_use(world, mark, image),
    }
}
