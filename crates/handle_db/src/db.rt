ghost use Rattle.std.specs.Prelude.{◌≡◌, ◌≤◌, [], IfOk, IfErr, OnOk, OnErr, None, Some, Ok, Err, length};
ghost use Rattle.handle_db.specs.Database.{Gives, IsSound, first_with, handles_with, has, interface_of, interfaces_of, is_live, protocols_of};
ghost use Rattle.handle_db.specs.Installing.{install_answer, installed, is_full};
ghost use Rattle.handle_db.specs.OwnedInterfaces.{is_owned_by, without_owned};
ghost use Rattle.handle_db.specs.Removing.{remove_answer, removed};
ghost use Rattle.handle_db.specs.Undoing.{HasRoomFor, IsInstalledLast, install_undone, remove_undone};
ghost use Rattle.handle_db.specs.Places.{IsPlaceOf};
ghost use Rattle.handle_db.specs.declared.handle_entry.Interface.{Interface as InterfaceValue};

use crate::changing::{append_at, drop_at, entry_with, put_back, removal, take_at};
use crate::handle_entry::{HandleEntry, Interface};
use crate::owned::{drop_empty, drop_owned};
use crate::places::{
    all_handles, entry_of, has_guid, has_no_room, interface_in, interface_place, place_of,
    protocols_in,
};
use crate::protocol_index::{ProtocolIndex, count_named, first_named, keep_named, named_handles};
use crate::refusal::{DbRefusal, Removed};
use fw_types::{Guid, HANDLE_NUMBER_END, Handle, MOST_INTERFACES, OutOfMemory};
use std::alloc::Global;
use std::collections::BTreeSet;
use std::marker::Model;

/// The handles that are live, by rising number, each with its interfaces in order of installation
/// (UEFI 2.8, 7.3: Protocol Handler Services).
///
/// New handles get rising numbers from 1, and the number of a handle that is removed is not given to
/// another. A handle's number is used again only after a rollback, which puts an earlier database back
/// together with its next number.
#[derive(Drop)]
pub struct Db {
    alloc: Global,
    handles: Vec<HandleEntry>,
    // names each handle with each of its protocols
    index: ProtocolIndex,
    next: Handle,
    limit: u32,
}

impl Model for Db {
    ghost use Rattle.handle_db.specs.Database.{Database};
    ghost use Rattle.handle_db.specs.ProtocolIndex.{IsInside};

    ghost Value = { Database };

    ghost view = { λ inside. record {
      handles = inside.handles.items;
      next = inside.next;
      limit = inside.limit;
    } };

    ghost invariant = { λ inside. IsInside inside.index (record {
      handles = inside.handles.items;
      next = inside.next;
      limit = inside.limit;
    }) };
}

impl Db {
    /// A database without handles, in which at most `limit` handles may be live. Its first handle will
    /// be handle 1. Takes no memory. `alloc` gives the memory of the later calls.
    pub fn new(alloc: Global, limit: u32) -> Db
        ensures { result ≡ record { handles = []; next = 1; limit = limit } }
    {
        Db {
            alloc,
            handles: Vec::new(alloc),
            index: BTreeSet::new(alloc),
            next: Handle::firmware(),
            limit,
        }
    }

    /// Installs an interface of a protocol and answers the handle that has it now (UEFI 2.8, 7.3:
    /// InstallProtocolInterface). If a handle is given, the interface becomes the last of its
    /// interfaces; if none is given, it becomes the first interface of a new handle. `interface` is an
    /// address in guest memory and may be 0. `owner` is the handle of the image that installs it.
    ///
    /// # Errors
    ///
    /// The first of these that applies. The database is then as before.
    ///
    /// - `BadHandle` if the handle that is given is not live.
    /// - `Already` if the handle that is given has the protocol.
    /// - `Full` if the handle that is given has `MOST_INTERFACES` interfaces. For a new handle, `Full` if
    ///   as many handles are live as may be, or if the next handle number is `HANDLE_NUMBER_END`.
    /// - `OutOfMemory` if there is no memory for the interface.
    pub fn install(
        &mut self,
        handle: Option<Handle>,
        guid: Guid,
        interface: u64,
        owner: Handle,
    ) -> Result<Handle, DbRefusal>
        ensures answer { Gives result (install_answer handle guid self.old) }
        ensures ok { let new : InterfaceValue = record { guid = guid; interface = interface; owner = owner } in
            OnOk result (self.new ≡ installed handle new self.old) }
        ensures err { OnErr result (self.new ≡ self.old) }
    {
        let interface = Interface {
            guid,
            interface,
            owner,
        };
        match handle {
            Some(handle) => self.add_interface(handle, interface),
            None => self.add_handle(interface),
        }
    }

    /// Removes a handle's interface of a protocol and answers what it was (UEFI 2.8, 7.3:
    /// UninstallProtocolInterface). If it was the handle's last interface, the handle is removed too. Takes
    /// no memory.
    ///
    /// # Errors
    ///
    /// The first of these that applies. The database is then as before.
    ///
    /// - `BadHandle` if the handle is not live.
    /// - `NotThere` if the handle does not have the protocol.
    pub fn remove(&mut self, handle: Handle, guid: Guid) -> Result<Removed, DbRefusal>
        ensures answer { result ≡ remove_answer handle guid self.old }
        ensures ok { OnOk result (self.new ≡ removed handle guid self.old) }
        ensures err { OnErr result (self.new ≡ self.old) }
    {
        let Some(at) = place_of(self.handles.as_slice(), handle.get()) else {
            return Err(DbRefusal::BadHandle);
        };
        let interfaces = self.handles[at].interfaces.as_slice();
        let Some(place) = interface_place(interfaces, guid) else {
            return Err(DbRefusal::NotThere);
        };
        let count = interfaces.len();
        let interface = take_at(&mut self.handles, at, place);
        drop_at(&mut self.handles, at);
        self.index.remove(&(guid, handle));
        Ok(removal(&interface, place, count))
    }

    /// Takes an installation back: removes the last of a handle's interfaces, which is of this protocol.
    /// `made` says whether the handle was made for it. If so, it is the handle's only one, the handle is
    /// the newest, and it is removed too, so that its number is the next one again. Otherwise the handle
    /// has others. Takes no memory.
    pub fn undo_install(&mut self, handle: Handle, guid: Guid, made: bool)
        requires { IsInstalledLast handle guid made self.old }
        ensures { self.new ≡ install_undone handle guid made self.old }
    {
        self.soundness();
        let _removed = self.remove(handle, guid);
        if made {
            self.next = handle;
        }
    }

    /// Takes a removal back: the interface of a protocol that was removed from a handle is at its place
    /// again. If the handle was removed with it, the handle is live again, with its number. The database is
    /// as the removal left it.
    ///
    /// # Errors
    ///
    /// `OutOfMemory` if there is no memory for the interface. The database is then as before.
    pub fn undo_remove(
        &mut self,
        handle: Handle,
        guid: Guid,
        removed: &Removed,
    ) -> Result<(), OutOfMemory>
        requires { HasRoomFor handle guid removed.now self.old }
        ensures ok { OnOk result (self.new ≡ remove_undone handle guid removed.now self.old) }
        ensures err { OnErr result (self.new ≡ self.old) }
    {
        let interface = Interface {
            guid,
            interface: removed.interface,
            owner: removed.owner,
        };
        let naming = (guid, handle);
        self.index.insert(naming)?;
        let place = removed.place as usize;
        if put_back(self.alloc, &mut self.handles, handle, place, interface).is_err() {
            self.index.remove(&naming);
            return Err(OutOfMemory);
        }
        Ok(())
    }

    /// Removes the interfaces that belong to an image (UEFI 2.8, 7.4: UnloadImage): those that it owns, and
    /// the interface of the protocol `own` on its own handle, whoever owns that. A handle whose last
    /// interface is removed is no longer live. Takes no memory.
    pub fn remove_owned(&mut self, image: Handle, own: Guid)
        ensures { self.new ≡ without_owned image own self.old }
    {
        drop_owned(&mut self.handles, image, own);
        drop_empty(&mut self.handles);
        keep_named(&mut self.index, self.handles.as_slice());
    }

    /// Whether a number is that of a live handle. No live handle has the number 0. Takes no memory.
    pub fn is_live(&self, handle: u64) -> bool
        ensures { result ≡ is_live handle self.now }
    {
        entry_of(self.handles.as_slice(), handle).is_some()
    }

    /// The address in guest memory and the owner of a handle's interface of a protocol (UEFI 2.8, 7.3:
    /// HandleProtocol). It is `None` exactly if the handle is not live or does not have the protocol.
    /// Takes no memory.
    pub fn interface(&self, handle: Handle, guid: Guid) -> Option<(u64, Handle)>
        ensures { result ≡ interface_of handle guid self.now }
    {
        let entry = entry_of(self.handles.as_slice(), handle.get())?;
        let found = interface_in(entry.interfaces.as_slice(), guid)?;
        Some((found.interface, found.owner))
    }

    /// Whether a handle is live and has a protocol. Takes no memory.
    pub fn has(&self, handle: Handle, guid: Guid) -> bool
        ensures { result ≡ has handle guid self.now }
    {
        match entry_of(self.handles.as_slice(), handle.get()) {
            Some(entry) => has_guid(entry.interfaces.as_slice(), guid),
            None => false,
        }
    }

    /// Whether an image owns the interface of a protocol on the handle with a number. It does not if there
    /// is no such interface. Takes no memory.
    pub fn is_owned(&self, handle: u64, guid: Guid, image: Handle) -> bool
        ensures { result ≡ is_owned_by image (interface_of handle guid self.now) }
    {
        let Some(entry) = entry_of(self.handles.as_slice(), handle) else {
            return false;
        };
        match interface_in(entry.interfaces.as_slice(), guid) {
            Some(found) => found.owner == image,
            None => false,
        }
    }

    /// The live handles that have a protocol, by rising number (UEFI 2.8, 7.3: LocateHandle). If no
    /// protocol is given, they are all live handles.
    ///
    /// # Errors
    ///
    /// `OutOfMemory` if there is no memory for the list.
    #[tactic(auto, using(crate::proofs::Changes::few_numbers))]
    pub fn handles_with(&self, guid: Option<Guid>) -> Result<Vec<Handle>, OutOfMemory>
        ensures handles { IfOk result (λ handles. handles.items ≡ handles_with guid self.now) }
        ensures few { IfOk result (λ handles. length handles.items ≤ self.now.limit) }
    {
        match guid {
            Some(guid) => named_handles(self.alloc, &self.index, guid, self.next),
            None => all_handles(self.alloc, self.handles.as_slice()),
        }
    }

    /// How many handles `handles_with` lists. Takes no memory.
    pub fn count_with(&self, guid: Option<Guid>) -> u32
        ensures { result ≡ length (handles_with guid self.now) }
    {
        // reading the limit shows that it fits in 32 bits
        let _most = self.limit;
        match guid {
            Some(guid) => count_named(&self.index, guid, self.next) as u32,
            None => self.handles.len() as u32,
        }
    }

    /// The address in guest memory and the owner of the interface of a protocol on the handle with the
    /// least number that has it (UEFI 2.8, 7.3: LocateProtocol). It is `None` exactly if no handle has
    /// the protocol. Takes no memory.
    pub fn first_with(&self, guid: Guid) -> Option<(u64, Handle)>
        ensures { result ≡ first_with guid self.now }
    {
        let handle = first_named(&self.index, guid, self.next)?;
        let entry = entry_of(self.handles.as_slice(), handle.get())?;
        let found = interface_in(entry.interfaces.as_slice(), guid)?;
        Some((found.interface, found.owner))
    }

    /// How many interfaces a handle has: 0 if it is not live, and at most `MOST_INTERFACES`. Takes no
    /// memory.
    pub fn interface_count(&self, handle: Handle) -> usize
        ensures { result ≡ length (interfaces_of handle self.now) }
    {
        match entry_of(self.handles.as_slice(), handle.get()) {
            Some(entry) => entry.interfaces.as_slice().len(),
            None => 0,
        }
    }

    /// The handle that the next new one will be. Takes no memory.
    pub fn next(&self) -> Handle
        ensures { result ≡ self.now.next }
    {
        self.next
    }

    /// Whether there is no room for a new handle: whether as many handles are live as may be, or the next
    /// handle number is `HANDLE_NUMBER_END`. Takes no memory.
    pub fn is_full(&self) -> bool
        ensures { result ≡ is_full self.now }
    {
        self.handles.len() >= self.limit as usize || self.next.get() >= HANDLE_NUMBER_END
    }

    /// The protocols of a handle in order of installation, each with its interface's address in guest
    /// memory and its owner (UEFI 2.8, 7.3: ProtocolsPerHandle). A handle that is not live has none, and
    /// a live one has at most `MOST_INTERFACES`.
    ///
    /// # Errors
    ///
    /// `OutOfMemory` if there is no memory for the list.
    pub fn protocols_of(&self, handle: Handle) -> Result<Vec<(Guid, u64, Handle)>, OutOfMemory>
        ensures protocols { IfOk result (λ protocols. protocols.items ≡ protocols_of handle self.now) }
        ensures few { IfOk result (λ protocols. length protocols.items ≤ MOST_INTERFACES) }
    {
        match entry_of(self.handles.as_slice(), handle.get()) {
            Some(entry) => protocols_in(self.alloc, entry.interfaces.as_slice()),
            None => Ok(Vec::new(self.alloc)),
        }
    }

    /// Says what holds of every database and does nothing: handle numbers rise and lie below the next
    /// one, each handle has an interface and no protocol twice, and no limit is passed.
    pub fn soundness(&self)
        ensures { IsSound self.now }
    {
        let _handles = &self.handles;
    }

    /// Installs an interface on a new handle.
    fn add_handle(&mut self, interface: Interface) -> Result<Handle, DbRefusal>
        ensures answer { Gives result (install_answer None interface.guid self.old) }
        ensures ok { OnOk result (self.new ≡ installed None interface self.old) }
        ensures err { OnErr result (self.new ≡ self.old) }
    {
        if self.is_full() {
            return Err(DbRefusal::Full);
        }
        let handle = self.next;
        let naming = (interface.guid, handle);
        let entry = entry_with(self.alloc, handle, interface)?;
        self.handles.reserve(1)?;
        self.index.insert(naming)?;
        self.handles.push_reserved(entry);
        self.next = handle.next();
        Ok(handle)
    }

    /// Installs an interface on a handle that is given.
    fn add_interface(&mut self, handle: Handle, interface: Interface) -> Result<Handle, DbRefusal>
        ensures answer { Gives result (install_answer (Some handle) interface.guid self.old) }
        ensures ok { OnOk result (self.new ≡ installed (Some handle) interface self.old) }
        ensures err { OnErr result (self.new ≡ self.old) }
    {
        let place = self.room_at(handle, interface.guid)?;
        let naming = (interface.guid, handle);
        self.index.insert(naming)?;
        if append_at(&mut self.handles, place, interface).is_err() {
            self.index.remove(&naming);
            return Err(DbRefusal::OutOfMemory);
        }
        Ok(handle)
    }

    /// The place of a handle on which an interface of this protocol may be installed, or why it may not.
    fn room_at(&self, handle: Handle, guid: Guid) -> Result<usize, DbRefusal>
        ensures refused { IfErr result (λ refusal. install_answer (Some handle) guid self.now ≡ Err refusal) }
        ensures accepted { OnOk result (install_answer (Some handle) guid self.now ≡ Ok handle) }
        ensures place { IfOk result (IsPlaceOf handle self.now.handles) }
    {
        let Some(place) = place_of(self.handles.as_slice(), handle.get()) else {
            return Err(DbRefusal::BadHandle);
        };
        let interfaces = self.handles[place].interfaces.as_slice();
        if has_guid(interfaces, guid) {
            return Err(DbRefusal::Already);
        }
        if has_no_room(interfaces) {
            return Err(DbRefusal::Full);
        }
        Ok(place)
    }
}
