ghost use Rattle.std.specs.Prelude.{◌≡◌, ◌+◌, ◌^◌, ◌<◌, ◌≤◌, [], false, true, nat_le, IfOk, IfSome, OnErr, OnOk, Ok, is_some, length, option_copied, replicate, if◌then◌else◌, None, is_ok};
ghost use Rattle.guest_memory.specs.Segment.{is_block};
ghost use Rattle.guest_memory.specs.GuestMemory.{bytes_of, is_readable, is_writable_range, put_bytes};
ghost use Rattle.handle_db.specs.Database.{Gives as GivesDb, interface_of, is_live};
ghost use Rattle.open_records.specs.OpenRecords.{records_of};
ghost use Rattle.open_records.specs.Adding.{Gives as GivesRecord, is_full as is_table_full};
ghost use Rattle.open_records.specs.Verdicts.{judge, may_enter};
ghost use Rattle.world_model.specs.Records.{all_left, child_left, is_none_or_live, record_entered, records_left, weak_dropped};
ghost use Rattle.fw_types.specs.declared.limits.TheConstants.{MOST_LEVELS as most_levels, MOST_LISTED as most_listed, MOST_MARKS as most_marks};
ghost use Rattle.world_model.specs.World.{on_hard, on_soft, with_memory, with_tpl};
ghost use Rattle.world_model.specs.Faults.{Gives};
ghost use Rattle.world_model.specs.Blocks.{allot_answer, block_added, block_freed, free_answer, is_block_full};
ghost use Rattle.world_model.specs.Interfaces.{install_answer, interface as interface_value, interface_added, interface_removed, is_lasting, uninstall_answer};
ghost use Rattle.world_model.specs.Images.{add_answer, block_size, drop_answer, entry_of as entry_value, image_added, image_at as image_value, image_dropped, image_of, is_image_full};
ghost use Rattle.world_model.specs.ImageSweep.{image_swept};
ghost use Rattle.world_model.specs.Thunks.{thunk_answer, thunk_at as thunk_value, thunk_made};
ghost use Rattle.world_model.specs.Stacks.{frame, has_stack, is_marked_stack, stack_popped, stack_pushed};
ghost use Rattle.world_model.specs.Units.{units_aside, units_capped, units_returned, units_spent};
ghost use Rattle.world_model.specs.Events.{command_begun, event_begun, event_ended, events_taken, next_serial};
ghost use Rattle.world_model.specs.Marks.{committed, depth, marked_stacks, marked, rolled_back, stacks};
ghost use Rattle.world_model.specs.CommandPath.{has_no_path, path_cleared, path_room, path_set};
ghost use Rattle.world_model.specs.BusChildren.{bus_list, child_function, child_noted, child_of, pci_at, rom_done, with_bus_list};
ghost use Rattle.world_model.specs.NewChild.{is_child_full};
ghost use Rattle.world_model.specs.Kept.{IsKept, has_pci_io};
ghost use Rattle.world_model.specs.Opening.{opening};
ghost use Rattle.world_model.specs.Boards.{first_root, has_root_bridge_io, rom_of, roms_in, root_at, root_bus, with_board};
ghost use Rattle.byteorder.specs.Endian.{little_bytes};
ghost use Rattle.pci_model.specs.BoardLines.{functions};
ghost use Rattle.pci_model.specs.Devices.{config_refusal, config_written, is_access, ok_unless};
ghost use Rattle.pci_model.specs.Spaces.{has_range, space_of, space_written};
ghost use Rattle.soft_part.specs.Answers.{AsBefore, AsBeforeFull, AsBeforeRefusal};

use crate::cap::Cap;
use crate::mark::Mark;
use ebc_machine::Cpu;
use fw_types::{Attr, Event, EventKind, Guid, Handle, Known, OutOfMemory, Outcome, Status};
use guest_memory::{GuestMem, MemRefusal, SegKind};
use handle_db::{Db, DbRefusal};
use open_records::RecFault;
use pci_model::laws::boards_are_small;
use pci_model::{Board, DevRefusal, Space};
use record_log::RecordLog;
use soft_log::SoftLog;
use std::alloc::Global;
use std::marker::Model;
use world_model::{LoadedImage, WorldFault};

/// The handle of the first root bridge.
const FIRST_ROOT: u64 = 3;

/// The one state of the firmware: a soft part, which a mark keeps and a rollback puts back, and also
/// the units that may still be spent, the events of the command, the board with its devices and the
/// option ROMs of its functions, which no rollback touches.
///
/// After `OutOfMemory` nothing is promised of a world except that it can be dropped.
#[derive(Drop)]
pub struct World {
    alloc: Global,
    soft: SoftLog,
    units: u64,
    events: Vec<Event>,
    board: Board,
    roms: Vec<Option<Vec<u8>>>,
}

impl Model for World {
    ghost use Rattle.std.specs.Prelude.{◌≡◌, true};
    ghost use Rattle.world_model.specs.World.{WorldView};
    ghost use Rattle.world_model.specs.Boards.{roms_in};
    ghost use Rattle.world_model.specs.Events.{are_numbered};

    ghost Value = { WorldView };

    ghost view = { λ inside. record {
      now = record {
        soft = inside.soft.now;
        hard = record {
          units = inside.units;
          events = inside.events.items;
          board = inside.board;
          roms = roms_in inside.roms.items;
        };
      };
      marks = inside.soft.marks;
    } };

    ghost invariant = { λ inside. are_numbered 1 inside.events.items ≡ true };
}

impl World {
    /// The opening state of a board: handle 1 is the firmware with its loaded image, handle 2 the
    /// PCI bus driver with its binding, and from handle 3 on there is one for each root bridge, in
    /// the order of the board's lines, with its device path and then with root bridge I/O. The
    /// firmware's tables are mapped. No command has begun. `roms` has the option ROM of each
    /// function of the board, by number, or `None` if the function has none.
    ///
    /// # Errors
    ///
    /// `OutOfMemory` if there is no memory.
    pub fn new(
        alloc: Global,
        board: Board,
        roms: Vec<Option<Vec<u8>>>,
    ) -> Result<World, OutOfMemory>
        requires { length roms.items ≡ length (functions board.lines) }
        ensures { IfOk result (λ world. world ≡ opening board (roms_in roms.items)) }
    {
        board.soundness();
        boards_are_small();
        let soft = SoftLog::new(alloc, roms.len(), board.roots())?;
        Ok(World {
            alloc,
            soft,
            units: 0,
            events: Vec::new(alloc),
            board,
            roms,
        })
    }

    /// The allocator of the world.
    pub fn alloc(&self) -> Global {
        self.alloc
    }

    /// What holds of every world. No two segments meet, each lies in the region of its kind, the
    /// firmware's tables are there with their bytes, and a list of children is there only if its
    /// level has a stack. Each image has its segment, its loaded image block and its interface. The
    /// database is sound and has the interfaces of the firmware and of the bus driver. Each thunk
    /// enters an image, and no two have the same number. The open records are sound and name
    /// interfaces and handles that are there. Each child of the bus has PCI I/O of the firmware and
    /// a function of the board, and no two are the same handle. The next addresses and the next
    /// number are within their ranges.
    pub fn is_kept(&self)
        ensures { IsKept self.now.now.soft }
    {
        self.soft.is_kept();
    }

    // ---- the board

    /// The board, with its devices. Takes no memory.
    pub fn board(&self) -> &Board
        ensures { result.now ≡ self.now.now.hard.board }
    {
        &self.board
    }

    /// Writes the lowest `n` bytes of a number to configuration space of function `f` of the board
    /// from `at` on, as `Board::config_write` does. No undo takes it back. Takes no memory.
    ///
    /// # Errors
    ///
    /// `NoFunction` if there is no such function; otherwise `PastEnd` if a byte lies past the 256 of
    /// configuration space. After them the world is as before.
    pub fn write_config(&mut self, f: u32, at: u64, n: u8, value: u64) -> Result<(), DevRefusal>
        requires { is_access n ≡ true }
        ensures answer { result
            ≡ ok_unless (config_refusal self.old.now.hard.board.lines f at n) tt }
        ensures now { self.new.now ≡ (if is_ok result
            then on_hard (with_board (config_written f at (little_bytes n value)
            self.old.now.hard.board)) self.old.now
            else self.old.now) }
        ensures marks { self.new.marks ≡ self.old.marks }
    {
        self.board.config_write(f, at, n, value)
    }

    /// Writes bytes to configuration space of function `f` of the board, or to one of its BARs,
    /// from `at` on, as `Board::write_space` does. All of them lie in it. No undo takes it back.
    /// Takes no memory.
    pub fn write_space(&mut self, f: u32, space: Space, at: u64, bytes: &[u8])
        requires { has_range (space_of self.old.now.hard.board f space)
            (at + length bytes.now) ≡ true }
        ensures now { self.new.now ≡
            on_hard (with_board (space_written f space at bytes.now self.old.now.hard.board))
            self.old.now }
        ensures marks { self.new.marks ≡ self.old.marks }
    {
        self.board.write_space(f, space, at, bytes);
    }

    /// The bus below the root bridge of a handle (PCI Firmware 3.2). `None` exactly if the handle
    /// is not that of a root bridge, or has no root bridge I/O of the firmware any more. Takes no
    /// memory.
    pub fn root_bus(&self, h: u64) -> Option<u8>
        ensures { result ≡ root_bus h self.now.now }
    {
        let bridge = bridge_at(self.board.roots(), h)?;
        let handle = Handle::new(h)?;
        if !has_root_bridge_io(self.db(), handle) {
            return None;
        }
        Some(bridge.1)
    }

    /// The option ROM of function `f`. `None` exactly if the function has none, or if there is no
    /// such function. Takes no memory.
    pub fn rom_bytes(&self, f: u32) -> Option<&[u8]>
        ensures { option_copied result ≡ rom_of f self.now.now.hard }
    {
        match self.roms.get(f as usize) {
            Some(Some(rom)) => Some(rom.as_slice()),
            _ => None,
        }
    }

    // ---- children of the bus

    /// Whether one more child of the bus passes a limit: that of handles, or one of blocks. Its
    /// device path has `path_size` bytes; `has_rom` says whether its function has an option ROM.
    /// Takes no memory.
    pub fn is_child_full(&self, path_size: u64, has_rom: bool) -> bool
        ensures { result ≡ is_child_full path_size has_rom self.now.now.soft }
    {
        self.soft.soft().is_child_full(path_size, has_rom)
    }

    /// The function of a child of the bus; `None` exactly if the number is not that of a handle
    /// with PCI I/O of the firmware for which `note_child` was called. Takes no memory.
    pub fn child_function(&self, h: u64) -> Option<u32>
        ensures { result ≡ child_function h self.now.now.soft }
    {
        self.soft.soft().child_function(h)
    }

    /// The child of function `f` with the least handle; `None` exactly if there is none. Takes no
    /// memory.
    pub fn child_of(&self, f: u32) -> Option<Handle>
        ensures { result ≡ child_of f self.now.now.soft }
    {
        self.soft.soft().child_of(f)
    }

    /// The function of the child of the bus whose PCI I/O of the firmware is at an address (UEFI
    /// 2.8, 14.4: EFI PCI I/O Protocol); `None` exactly if there is none. Takes no memory.
    pub fn pci_at(&self, this: u64) -> Option<u32>
        ensures { result ≡ pci_at this self.now.now.soft }
    {
        self.soft.soft().pci_at(this)
    }

    /// Makes `f` the function of a handle with PCI I/O of the firmware, until that interface is
    /// removed. The handle is no child of the bus yet. A number that is not that of a function of
    /// the board changes nothing.
    ///
    /// # Errors
    ///
    /// `OutOfMemory` if there is no memory.
    pub fn note_child(&mut self, h: Handle, f: u32) -> Result<(), OutOfMemory>
        requires there { has_pci_io h self.old.now.soft.database ≡ true }
        requires new { child_function h self.old.now.soft ≡ None }
        ensures now { OnOk result (self.new.now ≡ on_soft (child_noted h f) self.old.now) }
        ensures marks { OnOk result (self.new.marks ≡ self.old.marks) }
    {
        self.soft.note_child(h, f)
    }

    /// Whether the option ROM of function `f` was processed. Takes no memory.
    pub fn rom_done(&self, f: u32) -> bool
        ensures { result ≡ rom_done f self.now.now.soft }
    {
        self.soft.soft().rom_done(f)
    }

    /// The bus list of function `f`: the images that its option ROM brought, in order, and none
    /// before it is processed. Takes no memory.
    pub fn bus_list(&self, f: u32) -> &[Handle]
        ensures { result.now ≡ bus_list f self.now.now.soft }
    {
        self.soft.soft().bus_list(f)
    }

    /// Sets the bus list of function `f`, whose option ROM then counts as processed.
    ///
    /// # Errors
    ///
    /// `OutOfMemory` if there is no memory.
    pub fn set_bus_list(&mut self, f: u32, images: Vec<Handle>) -> Result<(), OutOfMemory>
        ensures now { OnOk result (self.new.now ≡
            on_soft (with_bus_list f images.items) self.old.now) }
        ensures marks { OnOk result (self.new.marks ≡ self.old.marks) }
    {
        self.soft.set_bus_list(f, images)
    }

    // ---- the task priority level

    /// The task priority level (UEFI 2.8, 7.1: Event, Timer, and Task Priority Services).
    pub fn tpl(&self) -> u8
        ensures { result ≡ self.now.now.soft.tpl }
    {
        self.soft.soft().tpl()
    }

    /// Sets the task priority level.
    ///
    /// # Errors
    ///
    /// `OutOfMemory` if there is no memory.
    pub fn set_tpl(&mut self, tpl: u8) -> Result<(), OutOfMemory>
        ensures now { OnOk result (self.new.now ≡ on_soft (with_tpl tpl) self.old.now) }
        ensures marks { OnOk result (self.new.marks ≡ self.old.marks) }
    {
        self.soft.set_tpl(tpl)
    }

    // ---- blocks of the pool and of the firmware

    /// Makes a block of these bytes at the next address, and answers its address. `kind` is `Pool`
    /// or `Firmware`. The block takes up as many addresses as it has bytes, rounded up to a multiple
    /// of 16, and at least 16.
    ///
    /// # Errors
    ///
    /// `Full` if all blocks would have more than 67,108,864 bytes or be more than 65,536, or the
    /// block would pass 2^62; `OutOfMemory` if there is no memory.
    pub fn allot(&mut self, bytes: Vec<u8>, kind: SegKind) -> Result<u64, WorldFault>
        requires { is_block kind ≡ true }
        ensures answer { Gives result (allot_answer (length bytes.items) self.old.now.soft) }
        ensures now { OnOk result (self.new.now ≡
            on_soft (block_added bytes.items kind) self.old.now) }
        ensures marks { OnOk result (self.new.marks ≡ self.old.marks) }
        ensures refused { AsBefore result self.old self.new }
    {
        self.soft.allot(bytes, kind)
    }

    /// Whether one more block of so many bytes passes a limit: the error `Full` of `allot`. Takes no
    /// memory.
    pub fn is_block_full(&self, size: u64) -> bool
        ensures { result ≡ is_block_full size self.now.now.soft }
    {
        self.soft.soft().is_block_full(size)
    }

    /// Removes the block of the kind that begins at an address. `kind` is `Pool` or `Firmware`.
    ///
    /// # Errors
    ///
    /// `NotThere` if no segment of that kind begins there, or a loaded image block does;
    /// `OutOfMemory` if there is no memory.
    pub fn free(&mut self, at: u64, kind: SegKind) -> Result<(), WorldFault>
        requires { is_block kind ≡ true }
        ensures answer { Gives result (free_answer at kind self.old.now.soft) }
        ensures now { OnOk result (self.new.now ≡ on_soft (block_freed at) self.old.now) }
        ensures marks { OnOk result (self.new.marks ≡ self.old.marks) }
        ensures refused { AsBefore result self.old self.new }
    {
        self.soft.free(at, kind)
    }

    // ---- ranges of bytes

    /// Whether `n` bytes from an address on can be read: one segment has them all, whatever its
    /// kind. No bytes always can. Takes no memory.
    pub fn can_read(&self, at: u64, n: u64) -> bool
        ensures { result ≡ is_readable self.now.now.soft.memory at n }
    {
        self.soft.soft().can_read(at, n)
    }

    /// Whether `n` bytes from an address on can be written: one segment has them all, and drivers
    /// may write it. No bytes always can. Takes no memory.
    pub fn can_write(&self, at: u64, n: u64) -> bool
        ensures { result ≡ is_writable_range self.now.now.soft.memory at n }
    {
        self.soft.soft().can_write(at, n)
    }

    /// The `n` bytes from an address on, which can be read (`can_read`). Takes no memory.
    pub fn bytes(&self, at: u64, n: u64) -> &[u8]
        requires { is_readable self.now.now.soft.memory at n ≡ true }
        ensures bytes { result.now ≡ bytes_of self.now.now.soft.memory at n }
        ensures size { length result.now ≡ n }
    {
        self.soft.soft().bytes(at, n)
    }

    /// Puts bytes in place of those from an address on, which can be written (`can_write`).
    ///
    /// # Errors
    ///
    /// `OutOfMemory` if there is no memory.
    pub fn put(&mut self, at: u64, bytes: &[u8]) -> Result<(), OutOfMemory>
        requires { is_writable_range self.old.now.soft.memory at (length bytes.now) ≡ true }
        ensures now { OnOk result (self.new.now ≡
            on_soft (with_memory (put_bytes self.old.now.soft.memory at bytes.now)) self.old.now) }
        ensures marks { OnOk result (self.new.marks ≡ self.old.marks) }
    {
        self.soft.put(at, bytes)
    }

    /// Puts a byte in place of each of the `n` from an address on, which can be written
    /// (`can_write`).
    ///
    /// # Errors
    ///
    /// `OutOfMemory` if there is no memory.
    pub fn fill(&mut self, at: u64, n: u64, byte: u8) -> Result<(), OutOfMemory>
        requires { is_writable_range self.old.now.soft.memory at n ≡ true }
        ensures now { OnOk result (self.new.now ≡
            on_soft (with_memory (put_bytes self.old.now.soft.memory at (replicate n byte)))
            self.old.now) }
        ensures marks { OnOk result (self.new.marks ≡ self.old.marks) }
    {
        self.soft.fill(at, n, byte)
    }

    // ---- the handle database

    /// The handle database.
    pub fn db(&self) -> &Db
        ensures { result.now ≡ self.now.now.soft.database }
    {
        self.soft.soft().db()
    }

    /// The open records: which agent has which interface open, for which controller and how (UEFI
    /// 2.8, 7.3: OpenProtocol). Each names an interface and handles that are there.
    pub fn entries(&self) -> &RecordLog
        ensures { result.now.now ≡ self.now.now.soft.records }
    {
        self.soft.entries()
    }

    /// Changes nothing that can be seen, and makes it fast to ask which open records an interface has.
    pub fn make_ready(&mut self, handle: Handle, guid: Guid)
        ensures { self.new ≡ self.old }
    {
        self.soft.make_ready(handle, guid);
    }

    /// Installs an interface of a protocol on a handle, or on a new one if none is named, and
    /// answers the handle (UEFI 2.8, 7.3: InstallProtocolInterface). `owner` is the image that
    /// installs it.
    ///
    /// # Errors
    ///
    /// In this order: `BadHandle` if the handle that is named is not live; `Already` if it has the
    /// protocol; `Full` if a limit of the database is met; `OutOfMemory` if there is no memory.
    pub fn install(
        &mut self,
        handle: Option<Handle>,
        guid: Guid,
        interface: u64,
        owner: Handle,
    ) -> Result<Handle, DbRefusal>
        ensures answer { GivesDb result (install_answer handle guid self.old.now.soft) }
        ensures now { OnOk result (self.new.now ≡
            on_soft (interface_added handle (interface_value guid interface owner)) self.old.now) }
        ensures marks { OnOk result (self.new.marks ≡ self.old.marks) }
        ensures refused { AsBeforeRefusal result self.old self.new }
    {
        self.soft.install(handle, guid, interface, owner)
    }

    /// Uninstalls a handle's interface of a protocol with its open records. A handle without
    /// interfaces is no longer live, and the records that name it are removed (UEFI 2.8, 7.3:
    /// UninstallProtocolInterface). This uninstalls neither the loaded image protocol of the
    /// firmware or of an image that is loaded, nor the bus driver's binding.
    ///
    /// # Errors
    ///
    /// `BadHandle` if the handle is not live; `NotThere` if it does not have the protocol;
    /// `OutOfMemory` if there is no memory.
    pub fn uninstall(&mut self, handle: Handle, guid: Guid) -> Result<(), DbRefusal>
        requires { is_lasting handle guid self.old.now.soft ≡ false }
        ensures answer { GivesDb result (uninstall_answer handle guid self.old.now.soft) }
        ensures now { OnOk result (self.new.now ≡
            on_soft (interface_removed handle guid) self.old.now) }
        ensures marks { OnOk result (self.new.marks ≡ self.old.marks) }
        ensures refused { AsBeforeRefusal result self.old self.new }
    {
        self.soft.uninstall(handle, guid)
    }

    // ---- open records

    /// Enters an open of an interface (UEFI 2.8, 7.3: OpenProtocol): a record after those of the
    /// interface, or one more in the count of the record with the same agent, controller and
    /// attribute. The interface is there (`Db::interface`), the agent is live, and so is the
    /// controller, or it is 0 if the open is for none. `RecordLog::judged` answers `Add` or `Count`
    /// for it.
    ///
    /// # Errors
    ///
    /// `Full` if there is no such record and there are 65,536 records; `OutOfMemory` if there is no
    /// memory.
    pub fn enter(
        &mut self,
        handle: Handle,
        guid: Guid,
        agent: u64,
        controller: u64,
        attr: Attr,
    ) -> Result<(), RecFault>
        requires there { is_some (interface_of handle guid self.old.now.soft.database) ≡ true }
        requires agent { is_live agent self.old.now.soft.database ≡ true }
        requires controller { is_none_or_live controller self.old.now.soft.database ≡ true }
        requires verdict { may_enter (judge
            (records_of self.old.now.soft.records.entries handle guid) agent controller attr) ≡ true }
        ensures answer { GivesRecord result
            (is_table_full handle guid agent controller attr self.old.now.soft.records) }
        ensures now { OnOk result (self.new.now ≡
            on_soft (record_entered handle guid agent controller attr) self.old.now) }
        ensures marks { OnOk result (self.new.marks ≡ self.old.marks) }
        ensures refused { AsBeforeFull result self.old self.new }
    {
        self.soft.enter(handle, guid, agent, controller, attr)
    }

    /// Removes an agent's records for a controller, which may be 0, on an interface (UEFI 2.8, 7.3:
    /// CloseProtocol).
    ///
    /// # Errors
    ///
    /// `OutOfMemory` if there is no memory.
    pub fn leave(
        &mut self,
        handle: Handle,
        guid: Guid,
        agent: u64,
        controller: u64,
    ) -> Result<(), OutOfMemory>
        ensures now { OnOk result (self.new.now ≡
            on_soft (records_left handle guid agent controller) self.old.now) }
        ensures marks { OnOk result (self.new.marks ≡ self.old.marks) }
    {
        self.soft.leave(handle, guid, agent, controller)
    }

    /// Removes an agent's records on all interfaces of a handle.
    ///
    /// # Errors
    ///
    /// `OutOfMemory` if there is no memory.
    pub fn leave_all(&mut self, handle: Handle, agent: u64) -> Result<(), OutOfMemory>
        ensures now { OnOk result (self.new.now ≡ on_soft (all_left handle agent) self.old.now) }
        ensures marks { OnOk result (self.new.marks ≡ self.old.marks) }
    {
        self.soft.leave_all(handle, agent)
    }

    /// Removes an agent's BY_CHILD_CONTROLLER records for a child on all interfaces of a handle.
    ///
    /// # Errors
    ///
    /// `OutOfMemory` if there is no memory.
    pub fn leave_child(
        &mut self,
        handle: Handle,
        agent: u64,
        child: Handle,
    ) -> Result<(), OutOfMemory>
        ensures now { OnOk result (self.new.now ≡
            on_soft (child_left handle agent child) self.old.now) }
        ensures marks { OnOk result (self.new.marks ≡ self.old.marks) }
    {
        self.soft.leave_child(handle, agent, child)
    }

    /// Removes the records BY_HANDLE_PROTOCOL, GET_PROTOCOL and TEST_PROTOCOL of an interface.
    ///
    /// # Errors
    ///
    /// `OutOfMemory` if there is no memory.
    pub fn drop_weak(&mut self, handle: Handle, guid: Guid) -> Result<(), OutOfMemory>
        ensures now { OnOk result (self.new.now ≡ on_soft (weak_dropped handle guid) self.old.now) }
        ensures marks { OnOk result (self.new.marks ≡ self.old.marks) }
    {
        self.soft.drop_weak(handle, guid)
    }

    // ---- images

    /// Maps an image's bytes at the next image address, makes its loaded image block, installs that
    /// on a new handle, and answers the handle (UEFI 2.8, 9.1: EFI Loaded Image Protocol). `entry`
    /// is the offset of its entry point in the bytes, `subsystem` that of its file, 11 for a boot
    /// service driver and 12 for a runtime driver, and `device` the handle of the device that it
    /// comes from, or 0.
    ///
    /// # Errors
    ///
    /// `Full` if 4,096 handles are live or the next handle number is 2^62, if all images would have
    /// more than 67,108,864 bytes or this one would pass 0x80000000, or if a limit on blocks is
    /// met; `OutOfMemory` if there is no memory.
    pub fn add_image(
        &mut self,
        bytes: Vec<u8>,
        entry: u32,
        subsystem: u16,
        device: u64,
    ) -> Result<Handle, WorldFault>
        requires { entry < length bytes.items }
        ensures answer { Gives result (add_answer (length bytes.items) self.old.now.soft) }
        ensures now { OnOk result (self.new.now ≡
            on_soft (image_added bytes.items entry subsystem device) self.old.now) }
        ensures marks { OnOk result (self.new.marks ≡ self.old.marks) }
        ensures refused { AsBefore result self.old self.new }
    {
        self.soft.add_image(bytes, entry, subsystem, device)
    }

    /// Uninstalls the loaded image interface of an image that `add_image` added, as `uninstall`
    /// does, and removes its bytes, its loaded image block, and the thunks that enter its bytes.
    ///
    /// # Errors
    ///
    /// `NotThere` if the handle is no such image's; `OutOfMemory` if there is no memory.
    pub fn drop_image(&mut self, image: Handle) -> Result<(), WorldFault>
        ensures answer { Gives result (drop_answer image self.old.now.soft) }
        ensures now { OnOk result (self.new.now ≡ on_soft (image_dropped image) self.old.now) }
        ensures marks { OnOk result (self.new.marks ≡ self.old.marks) }
        ensures refused { AsBefore result self.old self.new }
    {
        self.soft.drop_image(image)
    }

    /// Removes an image that `add_image` added, with all that belongs to it, in one sweep (UEFI 2.8,
    /// 7.4: UnloadImage). These are removed:
    ///
    /// - its bytes, its loaded image block, and the thunks that enter its bytes;
    /// - its loaded image interface, and all interfaces that it owns, and so the handles whose last
    ///   interface is removed;
    /// - the open records of its agents, which are its handle and the handles whose driver binding
    ///   it owns, and those of interfaces and with handles that are removed.
    ///
    /// The blocks that its driver allocated stay. If the handle is no such image's, nothing changes.
    /// No mark is open, so no rollback has to put the image back. Takes no memory.
    ///
    /// # Errors
    ///
    /// `NotThere` if the handle is no such image's.
    pub fn sweep_image(&mut self, image: Handle) -> Result<(), WorldFault>
        requires unmarked { self.old.marks ≡ [] }
        ensures answer { result ≡ drop_answer image self.old.now.soft }
        ensures now { self.new.now ≡ on_soft (image_swept image) self.old.now }
        ensures marks { self.new.marks ≡ self.old.marks }
        ensures refused { OnErr result (self.new ≡ self.old) }
    {
        self.soft.sweep_image(image)
    }

    /// The image of a handle, of those that `add_image` added; `None` exactly if the number is no
    /// handle of such an image. Its loaded image block can be read (`can_read`). Takes no memory.
    pub fn loaded_image(&self, handle: u64) -> Option<LoadedImage>
        ensures image { result ≡ image_of handle self.now.now.soft.images }
        ensures block { IfSome result
            (λ image. is_readable self.now.now.soft.memory image.block block_size ≡ true) }
    {
        self.soft.soft().loaded_image(handle)
    }

    /// Whether one more image of `size` bytes passes a limit: the errors `Full` of `add_image`.
    /// Takes no memory.
    pub fn is_image_full(&self, size: u64) -> bool
        ensures { result ≡ is_image_full size self.now.now.soft }
    {
        self.soft.soft().is_image_full(size)
    }

    /// The address at which the next image would be mapped. Takes no memory.
    pub fn next_image(&self) -> u64
        ensures { result ≡ self.now.now.soft.next_image }
    {
        self.soft.soft().next_image()
    }

    /// The address at which the next block would be made. Takes no memory.
    pub fn next_block(&self) -> u64
        ensures { result ≡ self.now.now.soft.next_block }
    {
        self.soft.soft().next_block()
    }

    /// The image whose bytes an address lies in, of those that `add_image` added; `None` exactly if
    /// it lies in none. Takes no memory.
    pub fn image_at(&self, at: u64) -> Option<Handle>
        ensures { result ≡ image_value at self.now.now.soft }
    {
        self.soft.soft().image_at(at)
    }

    /// The address of an image's entry point; `None` exactly if the number is no handle of an image
    /// that `add_image` added. Takes no memory.
    pub fn entry_of(&self, handle: u64) -> Option<u64>
        ensures { result ≡ entry_value handle self.now.now.soft }
    {
        self.soft.soft().entry_of(handle)
    }

    // ---- thunks

    /// Makes a thunk, by which native code calls the EBC code at `entry`, and answers its address
    /// (UEFI 2.8, 22.11: EFI_EBC_PROTOCOL.CreateThunk). The entry lies in the bytes of an image.
    ///
    /// # Errors
    ///
    /// `Full` if 65,536 numbers of thunks were handed out; `OutOfMemory` if there is no memory.
    pub fn make_thunk(&mut self, entry: u64) -> Result<u64, WorldFault>
        requires { is_some (image_value entry self.old.now.soft) ≡ true }
        ensures answer { Gives result (thunk_answer self.old.now.soft) }
        ensures now { OnOk result (self.new.now ≡ on_soft (thunk_made entry) self.old.now) }
        ensures marks { OnOk result (self.new.marks ≡ self.old.marks) }
        ensures refused { AsBefore result self.old self.new }
    {
        self.soft.make_thunk(entry)
    }

    /// Where the live thunk of an address enters EBC code; `None` exactly if the address is no live
    /// thunk's. Takes no memory.
    pub fn thunk_at(&self, at: u64) -> Option<u64>
        ensures { result ≡ thunk_value at self.now.now.soft }
    {
        self.soft.soft().thunk_at(at)
    }

    // ---- stacks

    /// Maps the stack of a level, from 1 to 32, with a frame of these arguments at its end, and the
    /// list of child handles if there are any, at most 16,384. Answers the registers as the call
    /// begins: R0 is at the frame, and everything else is 0. The level has no stack yet.
    ///
    /// # Errors
    ///
    /// `OutOfMemory` if there is no memory.
    pub fn push_stack(
        &mut self,
        level: u8,
        slots: &[u64; 16],
        list: &[u64],
    ) -> Result<Cpu, OutOfMemory>
        requires from { 0 < level }
        requires to { level ≤ most_levels }
        requires none { has_stack level self.old.now.soft.memory ≡ false }
        requires few { length list.now ≤ most_listed }
        ensures frame { IfOk result (λ cpu. cpu ≡ frame level) }
        ensures now { OnOk result (self.new.now ≡
            on_soft (stack_pushed level slots.now list.now) self.old.now) }
        ensures marks { OnOk result (self.new.marks ≡ self.old.marks) }
    {
        self.soft.push_stack(level, slots, list)
    }

    /// Takes out the stack of a level and its list of child handles. The stack is there, and no
    /// mark that is open is newer than it.
    ///
    /// # Errors
    ///
    /// `OutOfMemory` if there is no memory.
    pub fn pop_stack(&mut self, level: u8) -> Result<(), OutOfMemory>
        requires from { 0 < level }
        requires to { level ≤ most_levels }
        requires there { has_stack level self.old.now.soft.memory ≡ true }
        requires older { is_marked_stack level self.old.marks ≡ false }
        ensures now { OnOk result (self.new.now ≡ on_soft (stack_popped level) self.old.now) }
        ensures marks { OnOk result (self.new.marks ≡ self.old.marks) }
    {
        self.soft.pop_stack(level);
        Ok(())
    }

    // ---- the path of a command

    /// Maps the device path of a command at its address, where drivers can read it and not write
    /// it. No path is there yet, and no mark is open. A path has at most 45,056 bytes.
    ///
    /// # Errors
    ///
    /// `OutOfMemory` if there is no memory.
    pub fn set_path(&mut self, bytes: Vec<u8>) -> Result<(), OutOfMemory>
        requires none { has_no_path self.old.now.soft.memory ≡ true }
        requires few { length bytes.items ≤ path_room }
        requires unmarked { self.old.marks ≡ [] }
        ensures now { OnOk result (self.new.now ≡ on_soft (path_set bytes.items) self.old.now) }
        ensures marks { OnOk result (self.new.marks ≡ self.old.marks) }
    {
        self.soft.set_path(bytes)
    }

    /// Removes the device path of a command. If there is none, all is as before. No mark is open.
    pub fn clear_path(&mut self)
        requires unmarked { self.old.marks ≡ [] }
        ensures now { self.new.now ≡ on_soft path_cleared self.old.now }
        ensures marks { self.new.marks ≡ self.old.marks }
    {
        self.soft.clear_path();
    }

    // ---- units

    /// The units that may still be spent.
    pub fn left(&self) -> u64
        ensures { result ≡ self.now.now.hard.units }
    {
        self.units
    }

    /// Spends units; false exactly if fewer are left, and then nothing is spent.
    #[inline]
    pub fn spend(&mut self, n: u64) -> bool
        ensures enough { result ≡ nat_le n self.old.now.hard.units }
        ensures now { self.new.now ≡
            (if result then on_hard (units_spent n) self.old.now else self.old.now) }
        ensures marks { self.new.marks ≡ self.old.marks }
        ensures falls { self.new.now.hard.units ≤ self.old.now.hard.units }
    {
        if n > self.units {
            return false;
        }
        self.units -= n;
        true
    }

    /// Leaves at most so many units, until the cap is given back: the others are set aside in it.
    pub fn cap(&mut self, most: u64) -> Cap
        ensures aside { result ≡ units_aside most self.old.now.hard }
        ensures now { self.new.now ≡ on_hard (units_capped most) self.old.now }
        ensures marks { self.new.marks ≡ self.old.marks }
        // So what was set aside can be added to what will be left of the rest.
        ensures whole { self.new.now.hard.units + result ≡ self.old.now.hard.units }
        ensures small { self.old.now.hard.units < 2 ^ 64 }
    {
        let left = self.units.min(most);
        let aside = self.units - left;
        self.units = left;
        Cap { aside }
    }

    /// Gives back the units that a cap has set aside, which can be added to those that are left.
    /// This holds for the newest cap of a command, since units are only spent until it is given
    /// back.
    pub fn uncap(&mut self, c: Cap)
        requires { self.old.now.hard.units + c < 2 ^ 64 }
        ensures now { self.new.now ≡ on_hard (units_returned c) self.old.now }
        ensures marks { self.new.marks ≡ self.old.marks }
    {
        self.units += c.aside;
    }

    // ---- events

    /// Gives a command its units, and forgets the events of the command before. Between commands no
    /// mark is open, so what is still kept of open records that were removed is given up. Takes no
    /// memory.
    pub fn begin_command(&mut self, units: u32)
        ensures now { self.new.now ≡ on_hard (command_begun units) self.old.now }
        ensures marks { self.new.marks ≡ self.old.marks }
    {
        self.soft.tidy();
        self.units = u64::from(units);
        self.events = Vec::new(self.alloc);
    }

    /// Begins an event and answers its serial number, which is one more than there are events.
    /// Until it ends its result is the value SUCCESS.
    ///
    /// # Errors
    ///
    /// `OutOfMemory` if there is no memory.
    pub fn begin_event(
        &mut self,
        parent: u64,
        kind: EventKind,
        driver: u64,
        controller: u64,
        extra: u64,
    ) -> Result<u64, OutOfMemory>
        ensures serial { IfOk result (λ serial. serial ≡ next_serial self.old.now.hard) }
        ensures last { IfOk result (λ serial. serial ≡ length self.new.now.hard.events) }
        ensures now { OnOk result (self.new.now ≡
            on_hard (event_begun parent kind driver controller extra) self.old.now) }
        ensures marks { OnOk result (self.new.marks ≡ self.old.marks) }
    {
        let serial = self.events.len() as u64 + 1;
        self.events.push(Event {
            serial,
            parent,
            kind,
            driver,
            controller,
            extra,
            result: Outcome::Value(Status::SUCCESS),
        })?;
        Ok(serial)
    }

    /// Ends the event with a serial number, which has begun in this command.
    pub fn end_event(&mut self, serial: u64, outcome: Outcome)
        requires from { 0 < serial }
        requires to { serial ≤ length self.old.now.hard.events }
        ensures now { self.new.now ≡ on_hard (event_ended serial outcome) self.old.now }
        ensures marks { self.new.marks ≡ self.old.marks }
        ensures count { length self.new.now.hard.events ≡ length self.old.now.hard.events }
    {
        let event = &mut self.events[serial as usize - 1];
        event.result = outcome;
    }

    /// The events of the command, which are taken out of the world. Takes no memory.
    pub fn take_events(&mut self) -> Vec<Event>
        ensures events { result.items ≡ self.old.now.hard.events }
        ensures now { self.new.now ≡ on_hard events_taken self.old.now }
        ensures marks { self.new.marks ≡ self.old.marks }
    {
        std::mem::replace(&mut self.events, Vec::new(self.alloc))
    }

    // ---- marks

    /// Keeps the soft part as it is now, so that `rollback` can put it back. Fewer than 65,536
    /// marks are open. Takes no memory.
    pub fn mark(&mut self) -> Mark
        requires { depth self.old < most_marks }
        ensures depth { result ≡ depth self.new }
        ensures marked { self.new ≡ marked self.old }
    {
        Mark {
            mark: self.soft.mark(),
        }
    }

    /// Puts the soft part back that a mark keeps, and spends the mark. It is the newest that is
    /// open, and the same levels have stacks as when it was made. The units and the events stay.
    ///
    /// # Errors
    ///
    /// `OutOfMemory` if there is no memory.
    pub fn rollback(&mut self, m: Mark) -> Result<(), OutOfMemory>
        requires newest { m ≡ depth self.old }
        requires stacks { stacks self.old.now.soft ≡ marked_stacks self.old }
        ensures { OnOk result (self.new ≡ rolled_back self.old) }
    {
        self.soft.rollback(m.mark)
    }

    /// Spends a mark, and leaves the soft part as it is. It is the newest that is open. Takes no
    /// memory.
    pub fn commit(&mut self, m: Mark)
        requires newest { m ≡ depth self.old }
        ensures { self.new ≡ committed self.old }
    {
        self.soft.commit(m.mark);
    }
}

/// The root bridge of a handle. Their handles follow that of the PCI bus driver.
fn bridge_at(bridges: &[(u32, u8)], handle: u64) -> Option<(u32, u8)>
    ensures { result ≡ root_at handle bridges.now }
{
    let place = handle.checked_sub(FIRST_ROOT)?;
    bridges.get(place as usize).copied()
}

/// Whether a handle has root bridge I/O of the firmware (UEFI 2.8, 14.2: PCI Root Bridge I/O
/// Protocol).
fn has_root_bridge_io(db: &Db, handle: Handle) -> bool
    ensures { result ≡ has_root_bridge_io handle db.now }
{
    match db.interface(handle, Guid::known(Known::RootBridgeIo)) {
        Some((_interface, owner)) => owner.get() == Handle::firmware().get(),
        None => false,
    }
}

/// What drivers see of the world's memory.
impl GuestMem for World {
    ghost use Rattle.std.specs.Prelude.{refl};
    ghost use Rattle.world_model.specs.World.{on_soft, with_memory};

    ghost segments = { λ w. w.now.soft.memory };

    ghost with_segments = { λ w segments. record w { now = on_soft (with_memory segments) w.now } };

    ghost may_run_out = { Unit {0} };

    ghost same = { λ w. refl };

    #[inline]
    fn read(&self, at: u64, n: u8) -> Option<u64> {
        self.soft.soft().read(at, n)
    }

    #[inline]
    fn write(&mut self, at: u64, n: u8, value: u64) -> Result<(), MemRefusal> {
        self.soft.write(at, n, value)
    }

    #[inline]
    fn fetch(&self, at: u64, into: &mut [u8; 18]) -> u8 {
        self.soft.soft().fetch(at, into)
    }
}
