//! A table of the calls that an undo takes back, and what each leaves: a world that shows the same as before.
ghost use Rattle.std.specs.Prelude.{◌≡◌, ◌<◌, [], ◌∷◌, false, OnOk};
ghost use Rattle.fw_types.specs.declared.limits.TheConstants.{MOST_MARKS as most_marks};
ghost use Rattle.world_model.specs.Marks.{depth, stacks};
ghost use Rattle.world_model.specs.Stacks.{is_marked_stack, stack_base};

use crate::World;
use crate::board_tests::on_two_roots;
use crate::record_tests::{Open, leave_all, open, open_all, uninstall_pci};
use crate::tests::{bytes_of, fill_at, put_at, thunk_into};
use crate::undo_tests::{allot_bytes, free_block, write_two};
use fw_types::{BOOT_SERVICE_DRIVER, Guid, Handle, Known, OutOfMemory, RUNTIME_DRIVER};
use guest_memory::GuestMem;
use std::alloc::AllocError;
use std::fmt::Write;
use std::process::Abort;
use std::test::Fail;
use world_model::laws::stacks_stand;

/// What the calls of the table are made on: an image, the disk that it drives, which is a child of the bus,
/// another handle with PCI I/O, and a block of 24 bytes.
#[derive(Clone, Copy)]
struct Parts {
    image: Handle,
    disk: Handle,
    other: Handle,
    block: u64,
}

/// Opens of the disk, of the other handle and of the image's loaded image interface, whose handles are 6, 7
/// and 5.
const OPENS: [Open; 9] = [
    (6, Known::PciIo, (5, 6, 0x10)),
    (6, Known::PciIo, (1, 0, 0x02)),
    (6, Known::PciIo, (5, 7, 0x08)),
    (6, Known::PciIo, (7, 0, 0x04)),
    (6, Known::DevicePath, (5, 7, 0x08)),
    (6, Known::DevicePath, (5, 0, 0x01)),
    (7, Known::PciIo, (6, 0, 0x01)),
    (7, Known::PciIo, (1, 0, 0x02)),
    (5, Known::LoadedImage, (1, 0, 0x02)),
];

/// The addresses at which memory is looked at, and how many bytes there: the path of the first root bridge,
/// the image's loaded image block, the block, what would be made after it, the image, and one after it.
const PLACES: [(u64, u64); 6] = [
    (0x1_0000_0000, 16),
    (0x1_0000_0020, 96),
    (0x1_0000_0080, 24),
    (0x1_0000_00a0, 8),
    (0x200_0000, 64),
    (0x201_0000, 64),
];

/// The addresses of the thunk that there is, and of the next one.
const THUNKS: [u64; 2] = [0x40_0000, 0x40_0010];

/// Makes function 0 that of a handle with PCI I/O of the firmware that is no child yet, and says whether it
/// did so.
fn note(world: &mut World, handle: Handle) -> Result<bool, Fail>
    ensures marks { OnOk result (world.new.marks ≡ world.old.marks) }
    ensures stacks { OnOk result (stacks world.new.now.soft ≡ stacks world.old.now.soft) }
{
    let Some((_, owner)) = world.db().interface(handle, Guid::known(Known::PciIo)) else {
        return Ok(false);
    };
    if owner.get() != 1 || world.child_function(handle.get()).is_some() {
        return Ok(false);
    }
    world.note_child(handle, 0)?;
    Ok(true)
}

/// Adds an image of 64 bytes.
fn add_image(rt: &impl AllocGlobal, world: &mut World, subsystem: u16) -> Result<Handle, Fail>
    ensures marks { OnOk result (world.new.marks ≡ world.old.marks) }
    ensures stacks { OnOk result (stacks world.new.now.soft ≡ stacks world.old.now.soft) }
{
    stacks_stand();
    let bytes = bytes_of(rt, 64, 0x11)?;
    let handle = world.add_image(bytes, 0x20, subsystem, 3)?;
    Ok(handle)
}

/// Drops an image.
fn drop_image(world: &mut World, image: Handle) -> Result<(), Fail>
    ensures marks { OnOk result (world.new.marks ≡ world.old.marks) }
    ensures stacks { OnOk result (stacks world.new.now.soft ≡ stacks world.old.now.soft) }
{
    stacks_stand();
    world.is_kept();
    world.drop_image(image)?;
    Ok(())
}

/// Sets the bus list of function 0.
fn set_bus_list(rt: &impl AllocGlobal, world: &mut World, image: Handle) -> Result<(), Fail>
    ensures marks { OnOk result (world.new.marks ≡ world.old.marks) }
    ensures stacks { OnOk result (stacks world.new.now.soft ≡ stacks world.old.now.soft) }
{
    world.set_bus_list(0, vec![in rt.alloc(); image]?)?;
    Ok(())
}

/// Makes the parts in a world with two root bridges.
fn parts_in(rt: &(impl AllocGlobal + Abort), world: &mut World) -> Result<Parts, Fail>
    ensures marks { OnOk result (world.new.marks ≡ world.old.marks) }
    ensures stacks { OnOk result (stacks world.new.now.soft ≡ stacks world.old.now.soft) }
{
    let (pci, path) = (Guid::known(Known::PciIo), Guid::known(Known::DevicePath));
    let firmware = Handle::firmware();
    let image = add_image(rt, world, BOOT_SERVICE_DRIVER)?;
    let disk = world.install(None, pci, 0x66, firmware)?;
    let _ = world.install(Some(disk), path, 0x99, image)?;
    let other = world.install(None, pci, 0x77, firmware)?;
    let block = allot_bytes(world, bytes_of(rt, 24, 0x22)?)?;
    let _ = note(world, disk)?;
    let _ = thunk_into(world, 0x200_0020)?;
    open_all(rt, world, &OPENS)?;
    Ok(Parts {
        image,
        disk,
        other,
        block,
    })
}

/// The calls that are taken back. Each can be made after those before it.
#[derive(Clone, Copy, Debug)]
enum Call {
    SetTpl,
    Write,
    Put,
    Fill,
    Allot,
    Free,
    InstallOnNew,
    InstallOnOther,
    NoteChild,
    SetBusList,
    MakeThunk,
    AddImage,
    EnterNew,
    EnterAgain,
    Leave,
    LeaveChild,
    LeaveAll,
    DropWeak,
    UninstallFromDisk,
    UninstallFromOther,
    DropImage,
}

const CALLS: [Call; 21] = [
    Call::SetTpl,
    Call::Write,
    Call::Put,
    Call::Fill,
    Call::Allot,
    Call::Free,
    Call::InstallOnNew,
    Call::InstallOnOther,
    Call::NoteChild,
    Call::SetBusList,
    Call::MakeThunk,
    Call::AddImage,
    Call::EnterNew,
    Call::EnterAgain,
    Call::Leave,
    Call::LeaveChild,
    Call::LeaveAll,
    Call::DropWeak,
    Call::UninstallFromDisk,
    Call::UninstallFromOther,
    Call::DropImage,
];

/// Makes a call, and says whether it could be made.
fn make(rt: &impl AllocGlobal, world: &mut World, call: Call, parts: Parts) -> Result<bool, Fail>
    ensures marks { OnOk result (world.new.marks ≡ world.old.marks) }
    ensures stacks { OnOk result (stacks world.new.now.soft ≡ stacks world.old.now.soft) }
{
    let Parts {
        image,
        disk,
        other,
        block,
    } = parts;
    let (pci, path) = (Guid::known(Known::PciIo), Guid::known(Known::DevicePath));
    let before = world.entries().len();
    match call {
        Call::SetTpl => done(world.set_tpl(16)?),
        Call::Write => done(write_two(world, block, 0x3333)?),
        Call::Put => Ok(put_at(world, block.saturating_add(2), &[1, 2, 3])?),
        Call::Fill => Ok(fill_at(world, block, 24, 9)?),
        Call::Allot => Ok(allot_bytes(world, bytes_of(rt, 8, 0x44)?)? != 0),
        Call::Free => done(free_block(world, block)?),
        Call::InstallOnNew => Ok(world.install(None, pci, 0x88, image)?.get() != 0),
        Call::InstallOnOther => Ok(world.install(Some(other), path, 0x88, image)? == other),
        Call::NoteChild => note(world, other),
        Call::SetBusList => done(set_bus_list(rt, world, image)?),
        Call::MakeThunk => Ok(thunk_into(world, 0x200_0000)?.is_some()),
        Call::AddImage => Ok(add_image(rt, world, RUNTIME_DRIVER)?.get() != 0),
        Call::EnterNew => Ok(open(world, (6, Known::PciIo, (2, 7, 0x04)))?),
        Call::EnterAgain => Ok(open(world, (6, Known::PciIo, (1, 0, 0x02)))?),
        Call::Leave => {
            world.leave(disk, pci, 5, 6)?;
            Ok(gone_since(world, before) == 1)
        }
        Call::LeaveChild => {
            world.leave_child(disk, 5, other)?;
            Ok(gone_since(world, before) == 2)
        }
        Call::LeaveAll => {
            leave_all(world, other, 6)?;
            Ok(gone_since(world, before) == 1)
        }
        Call::DropWeak => {
            world.drop_weak(disk, pci)?;
            Ok(gone_since(world, before) > 1)
        }
        Call::UninstallFromDisk => done(uninstall_pci(world, disk)?),
        Call::UninstallFromOther => done(uninstall_pci(world, other)?),
        Call::DropImage => done(drop_image(world, image)?),
    }
}

/// How many records there are fewer than before.
fn gone_since(world: &World, before: u32) -> u32 {
    before.saturating_sub(world.entries().len())
}

/// A call without an answer was made.
fn done(_answer: ()) -> Result<bool, Fail> {
    Ok(true)
}

/// What a world shows of what is undone, as text.
fn seen(rt: &impl AllocGlobal, world: &World) -> Result<String, Fail> {
    let mut text = String::new(rt.alloc());
    see_numbers(&mut text, world)?;
    see_handles(&mut text, world)?;
    see_memory(&mut text, world)?;
    Ok(text)
}

/// Its numbers, and what it knows of function 0 and of thunks.
fn see_numbers(text: &mut String, world: &World) -> Result<(), AllocError> {
    let next = (world.db().next(), world.next_image(), world.next_block());
    let (tpl, records) = (world.tpl(), world.entries().len());
    writeln!(text, "{tpl} {next:?} {records}")?;
    let (child, done, images) = (world.child_of(0), world.rom_done(0), world.bus_list(0));
    writeln!(text, "{child:?} {done} {images:?}")?;
    for thunk in THUNKS {
        let entry = world.thunk_at(thunk);
        writeln!(text, "{entry:?}")?;
    }
    Ok(())
}

/// Its live handles, each with its image, its function and its interfaces, and these with their open
/// records.
fn see_handles(text: &mut String, world: &World) -> Result<(), OutOfMemory> {
    for handle in &world.db().handles_with(None)? {
        let image = world.loaded_image(handle.get());
        let function = world.child_function(handle.get());
        writeln!(text, "{handle:?} {image:?} {function:?}")?;
        for (guid, interface, owner) in &world.db().protocols_of(*handle)? {
            let records = world.entries().list(*handle, *guid)?;
            writeln!(text, "{guid:?} {interface} {owner:?} {records:?}")?;
        }
    }
    Ok(())
}

/// Its bytes at the places of the table.
fn see_memory(text: &mut String, world: &World) -> Result<(), AllocError> {
    for (at, n) in PLACES {
        if world.can_read(at, n) {
            let bytes = world.bytes(at, n);
            writeln!(text, "{bytes:?}")?;
        } else {
            writeln!(text, "nothing")?;
        }
    }
    Ok(())
}

/// Makes a call under a mark, and takes it back.
fn make_and_undo(
    rt: &(impl AllocGlobal + Abort),
    world: &mut World,
    call: Call,
    parts: Parts,
    before: &str,
) -> Result<(), Fail>
    requires { world.old.marks ≡ [] }
    ensures { OnOk result (world.new.marks ≡ []) }
{
    let mark = world.mark();
    assert!(rt; make(rt, world, call, parts)?, "{call:?} can be made");
    assert_ne!(rt; seen(rt, world)?.as_str(), before, "{call:?} shows");
    world.rollback(mark)?;
    Ok(())
}

/// Each call of the table, made and taken back, leaves a world that shows the same as before.
#[test]
fn each_call_is_undone(rt: HostRuntime) -> Result<(), Fail> {
    let mut world = on_two_roots(&rt)?;
    each_call_is_undone_in(&rt, &mut world)
}

fn each_call_is_undone_in(rt: &(impl AllocGlobal + Abort), world: &mut World) -> Result<(), Fail>
    requires { world.old.marks ≡ [] }
{
    let parts = parts_in(rt, world)?;
    let before = seen(rt, world)?;
    for call in CALLS {
        make_and_undo(rt, world, call, parts, before.as_str())?;
        assert_eq!(rt; seen(rt, world)?, before, "after {call:?}");
    }
    assert_eq!(rt; thunk_into(world, 0x200_0000)?, Some(0x40_0010));
    Ok(())
}

/// Makes a call under a mark of its own, which is committed.
fn make_and_commit(
    rt: &(impl AllocGlobal + Abort),
    world: &mut World,
    call: Call,
    parts: Parts,
) -> Result<(), Fail>
    requires { depth world.old < most_marks }
    ensures marks { OnOk result (world.new.marks ≡ world.old.marks) }
    ensures stacks { OnOk result (stacks world.new.now.soft ≡ stacks world.old.now.soft) }
{
    let mark = world.mark();
    assert!(rt; make(rt, world, call, parts)?, "{call:?} can be made");
    world.commit(mark);
    Ok(())
}

/// All calls of the table, one after another, each under a mark that is committed, are taken back by the mark
/// around them.
#[test]
fn all_calls_are_undone(rt: HostRuntime) -> Result<(), Fail> {
    let mut world = on_two_roots(&rt)?;
    all_calls_are_undone_in(&rt, &mut world)
}

fn all_calls_are_undone_in(rt: &(impl AllocGlobal + Abort), world: &mut World) -> Result<(), Fail>
    requires { world.old.marks ≡ [] }
{
    let parts = parts_in(rt, world)?;
    let before = seen(rt, world)?;
    let outer = world.mark();
    for call in CALLS {
        make_and_commit(rt, world, call, parts)?;
    }
    world.rollback(outer)?;
    assert_eq!(rt; seen(rt, world)?, before);
    assert_eq!(rt; thunk_into(world, 0x200_0000)?, Some(0x40_0010));
    Ok(())
}

/// Pushes the first stack.
fn push_first(world: &mut World) -> Result<(), OutOfMemory>
    requires { stacks world.old.now.soft ≡ [] }
    ensures marks { OnOk result (world.new.marks ≡ world.old.marks) }
    ensures stacks { OnOk result (stacks world.new.now.soft ≡ stack_base 1 ∷ []) }
{
    stacks_stand();
    world.is_kept();
    let _ = world.push_stack(1, &[0; 16], &[])?;
    Ok(())
}

/// Pops the first stack.
fn pop_first(world: &mut World) -> Result<(), OutOfMemory>
    requires there { stacks world.old.now.soft ≡ stack_base 1 ∷ [] }
    requires older { is_marked_stack 1 world.old.marks ≡ false }
    ensures marks { OnOk result (world.new.marks ≡ world.old.marks) }
    ensures stacks { OnOk result (stacks world.new.now.soft ≡ []) }
{
    stacks_stand();
    world.is_kept();
    world.pop_stack(1)?;
    Ok(())
}

/// Pushes a stack, writes to it and to a block under a mark of its own, and pops it. Answers what was read of
/// the stack before.
fn write_on_stack(world: &mut World, block: u64) -> Result<Option<u64>, Fail>
    requires few { depth world.old < most_marks }
    requires older { is_marked_stack 1 world.old.marks ≡ false }
    requires none { stacks world.old.now.soft ≡ [] }
    ensures marks { OnOk result (world.new.marks ≡ world.old.marks) }
    ensures stacks { OnOk result (stacks world.new.now.soft ≡ []) }
{
    push_first(world)?;
    let mark = world.mark();
    write_two(world, 0x81_0000, 0x3333)?;
    write_two(world, block, 0x3333)?;
    world.commit(mark);
    let written = world.read(0x81_0000, 2);
    pop_first(world)?;
    Ok(written)
}

/// A write to a stack that has been popped since is passed over, and the other write is taken back.
#[test]
fn popped_stack(rt: HostRuntime) -> Result<(), Fail> {
    let mut world = on_two_roots(&rt)?;
    popped_stack_in(&rt, &mut world)
}

fn popped_stack_in(rt: &(impl AllocGlobal + Abort), world: &mut World) -> Result<(), Fail>
    requires marks { world.old.marks ≡ [] }
    requires stacks { stacks world.old.now.soft ≡ [] }
{
    stacks_stand();
    let parts = parts_in(rt, world)?;
    let before = seen(rt, world)?;
    let outer = world.mark();
    assert_eq!(rt; write_on_stack(world, parts.block)?, Some(0x3333));
    assert_eq!(rt;
        (world.read(0x81_0000, 1), world.read(parts.block, 2)),
        (None, Some(0x3333))
    );
    world.rollback(outer)?;
    assert_eq!(rt; world.read(0x81_0000, 1), None);
    assert_eq!(rt; seen(rt, world)?, before);
    Ok(())
}
