//! What a rollback puts back, and what a commit leaves.
ghost use Rattle.std.specs.Prelude.{◌≡◌, [], OnOk};
ghost use Rattle.world_model.specs.Marks.{stacks};

use crate::record_tests::uninstall_pci;
use crate::tests::{bytes_of, opened};
use crate::{World, WorldFault};
use fw_types::{Guid, Handle, Known};
use guest_memory::{GuestMem, MemRefusal, SegKind};
use std::process::Abort;
use std::test::Fail;
use world_model::Change;
use world_model::laws::stacks_stand;

/// Makes a block of the pool.
pub(crate) fn allot_bytes(world: &mut World, bytes: Vec<u8>) -> Result<u64, WorldFault>
    ensures marks { OnOk result (world.new.marks ≡ world.old.marks) }
    ensures stacks { OnOk result (stacks world.new.now.soft ≡ stacks world.old.now.soft) }
{
    stacks_stand();
    let at = world.allot(bytes, SegKind::Pool)?;
    Ok(at)
}

/// Frees a block of the pool.
pub(crate) fn free_block(world: &mut World, at: u64) -> Result<(), WorldFault>
    ensures marks { OnOk result (world.new.marks ≡ world.old.marks) }
    ensures stacks { OnOk result (stacks world.new.now.soft ≡ stacks world.old.now.soft) }
{
    stacks_stand();
    world.is_kept();
    world.free(at, SegKind::Pool)?;
    Ok(())
}

/// Writes two bytes.
pub(crate) fn write_two(world: &mut World, at: u64, value: u64) -> Result<(), MemRefusal>
    ensures marks { OnOk result (world.new.marks ≡ world.old.marks) }
    ensures stacks { OnOk result (stacks world.new.now.soft ≡ stacks world.old.now.soft) }
{
    stacks_stand();
    world.write(at, 2, value)?;
    Ok(())
}

/// A free and an uninstall, undone in the order of their marks. What was spent stays spent.
#[test]
fn undone(rt: HostRuntime) -> Result<(), Fail> {
    let mut world = opened(&rt)?;
    undone_in(&rt, &mut world)
}

fn undone_in(rt: &(impl AllocGlobal + Abort), world: &mut World) -> Result<(), Fail>
    requires { world.old.marks ≡ [] }
{
    let handle = world.install(None, Guid::known(Known::PciIo), 5, Handle::firmware())?;
    let block = allot_bytes(world, bytes_of(rt, 24, 0x11)?)?;
    world.begin_command(100);
    let outer = world.mark();
    free_block(world, block)?;
    world.set_tpl(8)?;
    let inner = world.mark();
    uninstall_pci(world, handle)?;
    world.set_tpl(16)?;
    assert_eq!(rt; world.spend(40), true);
    assert_eq!(rt;
        (world.db().is_live(3), world.read(block, 1), world.tpl()),
        (false, None, 16)
    );
    world.rollback(inner)?;
    assert_eq!(rt;
        (world.db().is_live(3), world.read(block, 1), world.tpl()),
        (true, None, 8)
    );
    world.rollback(outer)?;
    assert_eq!(rt;
        (world.db().is_live(3), world.read(block, 1), world.tpl()),
        (true, Some(0x11), 4)
    );
    assert_eq!(rt; world.left(), 60);
    Ok(())
}

/// A mark that is committed inside another is undone with the outer one. The next address is then
/// as it was.
#[test]
fn committed(rt: HostRuntime) -> Result<(), Fail> {
    let mut world = opened(&rt)?;
    committed_in(&rt, &mut world)
}

fn committed_in(rt: &(impl AllocGlobal + Abort), world: &mut World) -> Result<(), Fail>
    requires { world.old.marks ≡ [] }
{
    let outer = world.mark();
    let inner = world.mark();
    let block = allot_bytes(world, bytes_of(rt, 24, 0x11)?)?;
    assert_eq!(rt; write_two(world, block, 0x2222), Ok(()));
    world.commit(inner);
    assert_eq!(rt; world.read(block, 4), Some(0x1111_2222));
    world.rollback(outer)?;
    assert_eq!(rt; world.read(block, 1), None);
    assert_eq!(rt; allot_bytes(world, bytes_of(rt, 8, 0)?), Ok(block));
    Ok(())
}

/// A `copy` and a `clone` of this test's own.
trait Absent {
    fn copy(&self) -> u64;

    fn clone(&self) -> u64;
}

impl Absent for World {
    fn copy(&self) -> u64 {
        1
    }

    fn clone(&self) -> u64 {
        2
    }
}

/// A world has no call that copies it, and is not Clone: otherwise these would not be the calls of
/// `Absent`.
#[test]
fn no_copies(rt: HostRuntime) -> Result<(), Fail> {
    let world = opened(&rt)?;
    assert_eq!(rt; (world.copy(), world.clone()), (1, 2));
    Ok(())
}

/// A log uses as much memory for each change as the largest kind needs.
#[test]
fn changes_are_small(rt: HostRuntime) {
    assert_eq!(rt; std::mem::size_of::<Change>(), 48);
}
