//! Taking changes back.
ghost use Rattle.std.specs.Prelude.{◌≡◌, true, OnOk};
ghost use Rattle.fw_types.specs.Guid.{known_guid};
ghost use Rattle.fw_types.specs.declared.guid.Known.TheVariants.{LoadedImage as LoadedImageProtocol};
ghost use Rattle.handle_db.specs.Undoing.{HasRoomFor, IsInstalledLast};
ghost use Rattle.world_model.specs.World.{with_memory};
ghost use Rattle.world_model.specs.Kept.{IsKept};
ghost use Rattle.world_model.specs.Undo.{put_if_there, taken_back};
ghost use Rattle.world_model.specs.UndoLaws.{CanTakeBack};

use crate::soft_part::SoftPart;
use fw_types::{Guid, Handle, Known, OutOfMemory};
use guest_memory::Segment;
use soft_pieces::bus_children::{BusList, put_child, replace_list};
use soft_pieces::images::{remap, with_image, with_thunks_of};
use std::mem;
use world_model::{Change, DroppedImage, LoadedImage, Uninstalled};

impl SoftPart {
    /// Takes a change back that was noted as it was made, the last that is not taken back yet.
    ///
    /// # Errors
    ///
    /// `OutOfMemory` if there is no memory.
    #[tactic(auto, unfolding(world_model::specs::Undo::taken_back))]
    pub fn take_back(&mut self, change: Change) -> Result<(), OutOfMemory>
        requires { CanTakeBack change self.old }
        ensures { OnOk result (self.new ≡ taken_back change self.old) }
    {
        match change {
            Change::SetTpl { before } => {
                self.set_tpl(before);
                Ok(())
            }
            Change::Write { at, n, before } => {
                self.put_if_there(at, &before[..usize::from(n.min(8))]);
                Ok(())
            }
            Change::Put { at, before } => {
                self.put_if_there(at, before.as_slice());
                Ok(())
            }
            Change::Allot { at } => {
                self.unmake_block(at);
                Ok(())
            }
            Change::Free { segment } => self.put_back(segment),
            Change::Install { handle, guid, made } => {
                self.uninstall_last(handle, guid, made);
                Ok(())
            }
            Change::Uninstall { went } => self.reinstall(went.unboxed()),
            Change::DropImage { dropped } => self.remap_image(dropped.unboxed()),
            Change::AddImage { image } => {
                self.unmake_image(image);
                Ok(())
            }
            Change::MakeThunk => {
                self.unmake_thunk();
                Ok(())
            }
            Change::NoteChild { count } => {
                self.keep_children(count);
                Ok(())
            }
            Change::SetBusList { function, before } => {
                self.put_list_back(function, before);
                Ok(())
            }
        }
    }

    /// Puts the earlier bytes back in their place, if it is there and can be written.
    fn put_if_there(&mut self, at: u64, before: &[u8])
        ensures { self.new ≡ with_memory (put_if_there at before.now self.old.memory) self.old }
    {
        if self.memory.can_write(at, before.len() as u64) {
            self.put(at, before);
        }
    }

    /// Takes back that the last block was made, at an address.
    fn unmake_block(&mut self, at: u64)
        requires { IsKept (taken_back (Change.Allot at) self.old) }
        ensures { self.new ≡ taken_back (Change.Allot at) self.old }
    {
        let _ = self.memory.unmap(at);
        self.plain.next_block = at;
    }

    /// Maps again what was unmapped.
    ///
    /// # Errors
    ///
    /// `OutOfMemory` if there is no memory.
    fn put_back(&mut self, segment: Segment) -> Result<(), OutOfMemory>
        requires { IsKept (taken_back (Change.Free segment) self.old) }
        ensures { OnOk result (self.new ≡ taken_back (Change.Free segment) self.old) }
    {
        self.memory.put_back(segment)?;
        Ok(())
    }

    /// Takes back that an interface was installed, the last one on its handle.
    fn uninstall_last(&mut self, handle: Handle, guid: Guid, made: bool)
        requires kept { IsKept (taken_back (Change.Install handle guid made) self.old) }
        requires last { IsInstalledLast handle guid made self.old.database }
        ensures { self.new ≡ taken_back (Change.Install handle guid made) self.old }
    {
        self.database.undo_install(handle, guid, made);
    }

    /// Takes back that an interface was uninstalled.
    ///
    /// # Errors
    ///
    /// `OutOfMemory` if there is no memory. The children of the bus are then given up.
    fn reinstall(&mut self, went: Uninstalled) -> Result<(), OutOfMemory>
        requires kept { IsKept (taken_back (Change.Uninstall went) self.old) }
        requires room { HasRoomFor went.handle went.guid went.removed self.old.database }
        ensures { OnOk result (self.new ≡ taken_back (Change.Uninstall went) self.old) }
    {
        let mut children = mem::replace(&mut self.plain.bus_children, Vec::new(self.alloc));
        put_child(&mut children, went.child)?;
        self.database
            .undo_remove(went.handle, went.guid, &went.removed)?;
        self.plain.bus_children = children;
        Ok(())
    }

    /// Takes back that an image was dropped.
    ///
    /// # Errors
    ///
    /// `OutOfMemory` if there is no memory.
    fn remap_image(&mut self, dropped: DroppedImage) -> Result<(), OutOfMemory>
        requires kept { IsKept (taken_back (Change.DropImage dropped) self.old) }
        requires room { HasRoomFor dropped.image.handle (known_guid LoadedImageProtocol)
            dropped.removed self.old.database }
        ensures { OnOk result (self.new ≡ taken_back (Change.DropImage dropped) self.old) }
    {
        let images = with_image(self.alloc, self.plain.images.as_slice(), &dropped)?;
        let thunks = with_thunks_of(self.alloc, self.plain.thunks.as_slice(), &dropped)?;
        remap(
            &mut self.memory,
            &mut self.database,
            dropped.segment,
            dropped.block,
            dropped.image.handle,
            dropped.removed,
        )?;
        self.plain.images = images;
        self.plain.thunks = thunks;
        Ok(())
    }

    /// Takes back that the last image was added.
    fn unmake_image(&mut self, image: LoadedImage)
        requires kept { IsKept (taken_back (Change.AddImage image) self.old) }
        requires last { IsInstalledLast image.handle (known_guid LoadedImageProtocol) true
            self.old.database }
        ensures { self.new ≡ taken_back (Change.AddImage image) self.old }
    {
        let _ = self.memory.unmap(image.base);
        let _ = self.memory.unmap(image.block);
        self.database
            .undo_install(image.handle, Guid::known(Known::LoadedImage), true);
        let others = self.plain.images.len().saturating_sub(1);
        self.plain.images.truncate(others);
        self.plain.next_image = image.base;
        self.plain.next_block = image.block;
    }

    /// Takes back that the last thunk was made.
    fn unmake_thunk(&mut self)
        requires { IsKept (taken_back Change.MakeThunk self.old) }
        ensures { self.new ≡ taken_back Change.MakeThunk self.old }
    {
        let others = self.plain.thunks.len().saturating_sub(1);
        self.plain.thunks.truncate(others);
        self.plain.next_thunk = self.plain.next_thunk.saturating_sub(1);
    }

    /// Keeps so many children of the bus, the first ones.
    fn keep_children(&mut self, count: usize)
        requires { IsKept (taken_back (Change.NoteChild count) self.old) }
        ensures { self.new ≡ taken_back (Change.NoteChild count) self.old }
    {
        self.plain.bus_children.truncate(count);
    }

    /// Puts the earlier bus list back in its place.
    fn put_list_back(&mut self, function: u32, before: BusList)
        requires { IsKept (taken_back (Change.SetBusList function before) self.old) }
        ensures { self.new ≡ taken_back (Change.SetBusList function before) self.old }
    {
        let _ = replace_list(&mut self.plain.bus_lists, function, before);
    }
}
