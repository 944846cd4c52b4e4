//! Mapping that nothing refuses, of an image too, with its handle.
ghost use Rattle.std.specs.Prelude.{◌≡◌, Ok, None, IfOk, OnErr, OnOk, false, true};
ghost use Rattle.fw_types.specs.Guid.{known_guid};
ghost use Rattle.fw_types.specs.declared.guid.Known.TheVariants.{LoadedImage as LoadedImageProtocol};
ghost use Rattle.handle_db.specs.Database.{IsSound};
ghost use Rattle.handle_db.specs.Installing.{installed, is_full};
ghost use Rattle.world_model.specs.Interfaces.{firmware, interface as interface_value};
ghost use Rattle.guest_memory.specs.GuestMemory.{lie_from, map_answer, mapped};

use crate::database::add_handle;
use fw_types::{Guid, Handle, Known, OutOfMemory};
use guest_memory::{MemRefusal, Memory, SegKind, Segment};
use handle_db::{Db, installing_is_undone};

/// Maps a segment that nothing refuses: it meets no other, and no limit is passed.
///
/// # Errors
///
/// `OutOfMemory` if there is no memory; the memory of drivers is then as before.
pub fn map_free(
    memory: &mut Memory,
    base: u64,
    bytes: Vec<u8>,
    kind: SegKind,
) -> Result<(), OutOfMemory>
    requires { map_answer memory.old (record { base = base; bytes = bytes.items; kind = kind }) ≡
        Ok tt }
    ensures ok { OnOk result (memory.new ≡
        mapped (record { base = base; bytes = bytes.items; kind = kind }) memory.old) }
    ensures err { OnErr result (memory.new ≡ memory.old) }
{
    match memory.map(base, bytes, kind) {
        Ok(()) => Ok(()),
        Err(MemRefusal::OutOfMemory) => Err(OutOfMemory),
        Err(_) => unreachable!(),
    }
}

/// Maps a loaded image block and an image, which nothing refuses.
///
/// # Errors
///
/// `OutOfMemory` if there is no memory; the memory of drivers is then as before.
fn map_image(
    memory: &mut Memory,
    block: u64,
    contents: Vec<u8>,
    base: u64,
    bytes: Vec<u8>,
) -> Result<(), OutOfMemory>
    requires block { map_answer memory.old
        (record { base = block; bytes = contents.items; kind = SegKind.Pool }) ≡ Ok tt }
    requires image { map_answer
        (mapped (record { base = block; bytes = contents.items; kind = SegKind.Pool }) memory.old)
        (record { base = base; bytes = bytes.items; kind = SegKind.Image }) ≡ Ok tt }
    ensures ok { OnOk result (memory.new ≡
        mapped (record { base = base; bytes = bytes.items; kind = SegKind.Image })
        (mapped (record { base = block; bytes = contents.items; kind = SegKind.Pool }) memory.old)) }
    ensures err { OnErr result (memory.new ≡ memory.old) }
{
    map_free(memory, block, contents, SegKind::Pool)?;
    match map_free(memory, base, bytes, SegKind::Image) {
        Ok(()) => Ok(()),
        Err(OutOfMemory) => {
            let _ = memory.unmap(block);
            Err(OutOfMemory)
        }
    }
}

/// Maps a loaded image block and an image, each with its address, and installs the block as the
/// interface of a new handle, which it answers. Nothing refuses any of it.
///
/// # Errors
///
/// `OutOfMemory` if there is no memory; the memory of drivers and the database are then as before.
pub fn add_loaded(
    memory: &mut Memory,
    db: &mut Db,
    block: (u64, Vec<u8>),
    image: (u64, Vec<u8>),
) -> Result<Handle, OutOfMemory>
    requires handle { is_full db.old ≡ false }
    requires sound { IsSound db.old }
    requires block { map_answer memory.old
        (record { base = block.0; bytes = block.1.items; kind = SegKind.Pool }) ≡ Ok tt }
    requires image { map_answer
        (mapped (record { base = block.0; bytes = block.1.items; kind = SegKind.Pool }) memory.old)
        (record { base = image.0; bytes = image.1.items; kind = SegKind.Image }) ≡ Ok tt }
    ensures handle { IfOk result (λ handle. handle ≡ db.old.next) }
    ensures memory { OnOk result (memory.new ≡
        mapped (record { base = image.0; bytes = image.1.items; kind = SegKind.Image })
        (mapped (record { base = block.0; bytes = block.1.items; kind = SegKind.Pool }) memory.old)) }
    ensures database { OnOk result (db.new ≡ installed None
        (interface_value (known_guid LoadedImageProtocol) block.0 firmware) db.old) }
    ensures err { OnErr result ((memory.new ≡ memory.old) × (db.new ≡ db.old)) }
{
    installing_is_undone();
    let (at, contents) = block;
    let (base, bytes) = image;
    let guid = Guid::known(Known::LoadedImage);
    let handle = add_handle(db, guid, at)?;
    match map_image(memory, at, contents, base, bytes) {
        Ok(()) => Ok(handle),
        Err(OutOfMemory) => {
            db.undo_install(handle, guid, true);
            Err(OutOfMemory)
        }
    }
}

/// Maps two segments again, both or none.
///
/// # Errors
///
/// `OutOfMemory` if there is no memory; the memory is then as before.
pub(crate) fn map_again(
    memory: &mut Memory,
    first: Segment,
    second: Segment,
) -> Result<(), OutOfMemory>
    requires { lie_from 0 (mapped second (mapped first memory.old)) ≡ true }
    ensures ok { OnOk result (memory.new ≡ mapped second (mapped first memory.old)) }
    ensures err { OnErr result (memory.new ≡ memory.old) }
{
    let base = first.base;
    memory.put_back(first)?;
    let mapped = memory.put_back(second);
    if mapped.is_err() {
        let _ = memory.unmap(base);
    }
    mapped
}
