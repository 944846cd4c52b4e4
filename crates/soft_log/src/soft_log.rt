ghost use Rattle.std.specs.Prelude.{◌≡◌, ◌<◌, ◌≤◌, [], ◌∷◌, false, true, IfOk, OnErr, OnOk, Ok, is_ok, is_some, length, replicate, if◌then◌else◌};
ghost use Rattle.fw_types.specs.declared.limits.TheConstants.{MOST_LEVELS as most_levels, MOST_LISTED as most_listed, MOST_MARKS as most_marks, MOST_RECORDS as most_records};
ghost use Rattle.guest_memory.specs.Segment.{is_access, is_block};
ghost use Rattle.guest_memory.specs.GuestMemory.{Gives as GivesWrite, bytes_of, is_writable_range, put_bytes, write_answer, written};
ghost use Rattle.pci_model.specs.declared.numbers.TheConstants.{MOST_ROOTS as most_roots};
ghost use Rattle.soft_part.specs.Answers.{AsBefore, AsBeforeRefusal};
ghost use Rattle.world_model.specs.Blocks.{allot_answer, block_added, block_freed, free_answer};
ghost use Rattle.world_model.specs.BusChildren.{child_function, child_noted, with_bus_list};
ghost use Rattle.world_model.specs.CommandPath.{has_no_path, path_cleared, path_room, path_set};
ghost use Rattle.world_model.specs.Faults.{Gives};
ghost use Rattle.handle_db.specs.Database.{Gives as GivesDb, interface_of, is_live};
ghost use Rattle.open_records.specs.OpenRecords.{records_of};
ghost use Rattle.open_records.specs.Adding.{Gives as GivesRecord, is_full as is_table_full};
ghost use Rattle.open_records.specs.Verdicts.{judge, may_enter};
ghost use Rattle.world_model.specs.Records.{all_left, child_left, is_none_or_live, no_records, record_entered, records_left, records_removed, weak_dropped, with_records};
ghost use Rattle.world_model.specs.ImageSweep.{image_swept};
ghost use Rattle.world_model.specs.Images.{add_answer, drop_answer, image_added, image_at as image_value, image_dropped};
ghost use Rattle.world_model.specs.Interfaces.{install_answer, interface as interface_value, interface_added, interface_removed, is_lasting, uninstall_answer};
ghost use Rattle.world_model.specs.Kept.{IsKept, has_pci_io};
ghost use Rattle.world_model.specs.Marks.{older_marks, stacks};
ghost use Rattle.world_model.specs.Opening.{opening_soft};
ghost use Rattle.world_model.specs.Stacks.{frame as frame_value, has_stack, is_marked_stack, stack_popped, stack_pushed};
ghost use Rattle.world_model.specs.Thunks.{thunk_answer, thunk_made};
ghost use Rattle.world_model.specs.World.{with_memory, with_tpl};
ghost use Rattle.record_log.specs.MarkedRecords.{newest_of as newest_records, older_marks as older_records};
ghost use Rattle.undo_log.specs.Log.{depth};
ghost use Rattle.soft_log.specs.Keeping.{AreKept, IsInside, is_new_block, kept_from, newest_of, segment_noted};

use crate::mark::Mark;
use crate::moment::Moment;
use ebc_machine::Cpu;
use fw_types::{Attr, Guid, Handle, Known, MOST_RECORDS, OutOfMemory, Rows};
use guest_memory::{GuestMem, MemRefusal, SegKind, Segment};
use handle_db::DbRefusal;
use open_records::RecFault;
use record_log::RecordLog;
use soft_part::SoftPart;
use std::alloc::Global;
use std::marker::Model;
use undo_log::Log;
use world_model::{Change, LoadedImage, WorldFault};

/// How many bytes a loaded image block has.
const IMAGE_BLOCK_SIZE: usize = 96;

/// A soft part and its open records, each with the changes since the open marks.
///
/// After `OutOfMemory` nothing is promised of it except that it can be dropped.
#[derive(Drop)]
pub struct SoftLog {
    alloc: Global,
    soft: SoftPart,
    records: RecordLog,
    log: Log<Change, Moment>,
}

impl Model for SoftLog {
    ghost use Rattle.soft_log.specs.Keeping.{IsInside, MarkedSoft, marked_soft};

    ghost Value = { MarkedSoft };

    ghost view = { λ inside. marked_soft inside.soft inside.log.marks inside.records };

    ghost invariant = { λ inside. IsInside inside.soft inside.log.marks inside.records };
}

impl SoftLog {
    /// The soft part of the opening state, for a board with so many functions, and with at most 16 root
    /// bridges with their _UID and bus. No mark is open, and there is room for as many as there may be.
    ///
    /// # Errors
    ///
    /// `OutOfMemory` if there is no memory.
    pub fn new(
        alloc: Global,
        functions: usize,
        bridges: &[(u32, u8)],
    ) -> Result<SoftLog, OutOfMemory>
        requires { length bridges.now ≤ most_roots }
        ensures { IfOk result (λ soft. soft ≡
            record { now = opening_soft functions bridges.now; marks = [] }) }
    {
        let log = Log::new(alloc)?;
        let records = RecordLog::new(alloc, MOST_RECORDS)?;
        let soft = SoftPart::new(alloc, functions, bridges)?;
        soft.has_no_records();
        Ok(SoftLog {
            alloc,
            soft,
            records,
            log,
        })
    }

    /// The soft part now, without the open records.
    #[inline]
    pub fn soft(&self) -> &SoftPart
        ensures { result.now ≡ with_records no_records self.now.now }
    {
        self.soft.has_no_records();
        &self.soft
    }

    /// The open records now.
    #[inline]
    pub fn entries(&self) -> &RecordLog
        ensures { result.now.now ≡ self.now.now.records }
    {
        &self.records
    }

    /// What holds of every soft part, with its open records.
    pub fn is_kept(&self)
        ensures { IsKept self.now.now }
    {
        self.soft.is_kept();
    }

    /// Sets the task priority level.
    ///
    /// # Errors
    ///
    /// `OutOfMemory` if there is no memory; all is then as before.
    pub fn set_tpl(&mut self, tpl: u8) -> Result<(), OutOfMemory>
        ensures now { OnOk result (self.new.now ≡ with_tpl tpl self.old.now) }
        ensures marks { self.new.marks ≡ self.old.marks }
        ensures err { OnErr result (self.new ≡ self.old) }
    {
        self.log.reserve()?;
        self.soft.is_kept();
        let before = self.soft.tpl();
        self.soft.set_tpl(tpl);
        self.soft.is_kept();
        self.log.note(Change::SetTpl { before });
        Ok(())
    }

    // ---- memory

    /// Writes the lowest `n` bytes of a number at an address. `n` is 1, 2, 4 or 8.
    ///
    /// # Errors
    ///
    /// Those of `GuestMem::write`; all is then as before.
    #[inline]
    pub fn write(&mut self, at: u64, n: u8, value: u64) -> Result<(), MemRefusal>
        requires { is_access n ≡ true }
        ensures answer { GivesWrite result (write_answer self.old.now.memory at n) }
        ensures now { self.new.now ≡ (if is_ok result
            then with_memory (written self.old.now.memory at n value) self.old.now
            else self.old.now) }
        ensures marks { self.new.marks ≡ self.old.marks }
    {
        if self.log.reserve().is_err() {
            return Err(MemRefusal::OutOfMemory);
        }
        self.soft.is_kept();
        let before = self.soft.word(at, n);
        self.soft.write(at, n, value)?;
        self.soft.is_kept();
        self.log.note(Change::Write { at, n, before });
        Ok(())
    }

    /// Puts bytes in place of those from an address on.
    ///
    /// # Errors
    ///
    /// `OutOfMemory` if there is no memory; all is then as before.
    pub fn put(&mut self, at: u64, bytes: &[u8]) -> Result<(), OutOfMemory>
        requires { is_writable_range self.old.now.memory at (length bytes.now) ≡ true }
        ensures now { OnOk result (self.new.now ≡
            with_memory (put_bytes self.old.now.memory at bytes.now) self.old.now) }
        ensures marks { self.new.marks ≡ self.old.marks }
        ensures err { OnErr result (self.new ≡ self.old) }
    {
        self.log.reserve()?;
        self.soft.is_kept();
        let before = bytes_before(self.alloc, &self.soft, at, bytes.len() as u64)?;
        self.soft.put(at, bytes);
        self.soft.is_kept();
        self.log.note(Change::Put { at, before });
        Ok(())
    }

    /// Puts a byte in place of each of so many from an address on.
    ///
    /// # Errors
    ///
    /// `OutOfMemory` if there is no memory; all is then as before.
    pub fn fill(&mut self, at: u64, n: u64, byte: u8) -> Result<(), OutOfMemory>
        requires { is_writable_range self.old.now.memory at n ≡ true }
        ensures now { OnOk result (self.new.now ≡
            with_memory (put_bytes self.old.now.memory at (replicate n byte)) self.old.now) }
        ensures marks { self.new.marks ≡ self.old.marks }
        ensures err { OnErr result (self.new ≡ self.old) }
    {
        self.log.reserve()?;
        self.soft.is_kept();
        let before = bytes_before(self.alloc, &self.soft, at, n)?;
        self.soft.fill(at, n, byte);
        self.soft.is_kept();
        self.log.note(Change::Put { at, before });
        Ok(())
    }

    // ---- blocks

    /// Makes a block at the next address.
    ///
    /// # Errors
    ///
    /// `Full` if a limit is met, `OutOfMemory` if there is no memory; all is then as before.
    pub fn allot(&mut self, bytes: Vec<u8>, kind: SegKind) -> Result<u64, WorldFault>
        requires { is_block kind ≡ true }
        ensures answer { Gives result (allot_answer (length bytes.items) self.old.now) }
        ensures now { OnOk result (self.new.now ≡ block_added bytes.items kind self.old.now) }
        ensures marks { self.new.marks ≡ self.old.marks }
        ensures err { OnErr result (self.new ≡ self.old) }
    {
        self.log.reserve()?;
        self.soft.is_kept();
        let at = self.soft.allot(bytes, kind)?;
        self.soft.is_kept();
        self.log.note(Change::Allot { at });
        Ok(at)
    }

    /// Removes a block of the kind, but no loaded image block.
    ///
    /// # Errors
    ///
    /// `NotThere` if no such block begins at the address, `OutOfMemory` if there is no memory; all
    /// is then as before.
    pub fn free(&mut self, at: u64, kind: SegKind) -> Result<(), WorldFault>
        requires { is_block kind ≡ true }
        ensures answer { Gives result (free_answer at kind self.old.now) }
        ensures now { OnOk result (self.new.now ≡ block_freed at self.old.now) }
        ensures marks { self.new.marks ≡ self.old.marks }
        ensures err { OnErr result (self.new ≡ self.old) }
    {
        self.log.reserve()?;
        self.soft.is_kept();
        let freed = self.soft.free(at, kind)?;
        self.soft.is_kept();
        let segment = noted_segment(self.alloc, &self.log, freed);
        self.log.note(Change::Free { segment });
        Ok(())
    }

    // ---- interfaces and images

    /// Installs an interface on a handle or on a new one.
    ///
    /// # Errors
    ///
    /// Those of `Db::install`; all is then as before.
    pub fn install(
        &mut self,
        handle: Option<Handle>,
        guid: Guid,
        interface: u64,
        owner: Handle,
    ) -> Result<Handle, DbRefusal>
        ensures answer { GivesDb result (install_answer handle guid self.old.now) }
        ensures now { OnOk result (self.new.now ≡
            interface_added handle (interface_value guid interface owner) self.old.now) }
        ensures marks { self.new.marks ≡ self.old.marks }
        ensures err { OnErr result (self.new ≡ self.old) }
    {
        self.log.reserve()?;
        self.soft.is_kept();
        let on = self.soft.install(handle, guid, interface, owner)?;
        self.soft.is_kept();
        let made = handle.is_none();
        self.log.note(Change::Install {
            handle: on,
            guid,
            made,
        });
        Ok(on)
    }

    /// Uninstalls an interface that does not last as long as an image, with its records.
    ///
    /// # Errors
    ///
    /// `BadHandle` if the handle is not live, `NotThere` if it does not have the protocol; all is then as
    /// before. `OutOfMemory` if there is no memory.
    pub fn uninstall(&mut self, handle: Handle, guid: Guid) -> Result<(), DbRefusal>
        requires { is_lasting handle guid self.old.now ≡ false }
        ensures answer { GivesDb result (uninstall_answer handle guid self.old.now) }
        ensures now { OnOk result (self.new.now ≡ interface_removed handle guid self.old.now) }
        ensures marks { OnOk result (self.new.marks ≡ self.old.marks) }
        ensures refused { AsBeforeRefusal result self.old self.new }
    {
        self.log.reserve()?;
        self.soft.is_kept();
        match self.soft.uninstall(handle, guid) {
            Ok(change) => {
                self.soft.is_kept();
                self.log.note(change);
                match remove_records(&self.soft, &mut self.records, handle, guid) {
                    Ok(()) => Ok(()),
                    Err(OutOfMemory) => {
                        give_up(&self.soft, &mut self.records, &mut self.log);
                        Err(DbRefusal::OutOfMemory)
                    }
                }
            }
            Err(DbRefusal::OutOfMemory) => {
                give_up(&self.soft, &mut self.records, &mut self.log);
                Err(DbRefusal::OutOfMemory)
            }
            Err(refusal) => Err(refusal),
        }
    }

    // ---- open records

    /// Enters an open of an interface that is there, by a live agent, for no controller or for a live one.
    ///
    /// # Errors
    ///
    /// `Full` if there is no room for one more record, `OutOfMemory` if there is no memory; all is then
    /// as before.
    pub fn enter(
        &mut self,
        handle: Handle,
        guid: Guid,
        agent: u64,
        controller: u64,
        attr: Attr,
    ) -> Result<(), RecFault>
        requires there { is_some (interface_of handle guid self.old.now.database) ≡ true }
        requires agent { is_live agent self.old.now.database ≡ true }
        requires controller { is_none_or_live controller self.old.now.database ≡ true }
        requires verdict { may_enter (judge
            (records_of self.old.now.records.entries handle guid) agent controller attr) ≡ true }
        ensures answer { GivesRecord result
            (is_table_full handle guid agent controller attr self.old.now.records) }
        ensures now { OnOk result (self.new.now ≡
            record_entered handle guid agent controller attr self.old.now) }
        ensures marks { self.new.marks ≡ self.old.marks }
        ensures err { OnErr result (self.new ≡ self.old) }
    {
        // The bits of an attribute are legal; its contract says so only of `bits`.
        let _ = attr.bits();
        self.soft.is_kept();
        self.records.enter(handle, guid, agent, controller, attr)
    }

    /// Removes an agent's records for a controller on an interface.
    ///
    /// # Errors
    ///
    /// `OutOfMemory` if there is no memory; all is then as before.
    pub fn leave(
        &mut self,
        handle: Handle,
        guid: Guid,
        agent: u64,
        controller: u64,
    ) -> Result<(), OutOfMemory>
        ensures now { OnOk result (self.new.now ≡
            records_left handle guid agent controller self.old.now) }
        ensures marks { self.new.marks ≡ self.old.marks }
        ensures err { OnErr result (self.new ≡ self.old) }
    {
        self.records.leave(handle, guid, agent, controller)
    }

    /// Removes an agent's records on all interfaces of a handle.
    ///
    /// # Errors
    ///
    /// `OutOfMemory` if there is no memory; all is then as before.
    pub fn leave_all(&mut self, handle: Handle, agent: u64) -> Result<(), OutOfMemory>
        ensures now { OnOk result (self.new.now ≡ all_left handle agent self.old.now) }
        ensures marks { self.new.marks ≡ self.old.marks }
        ensures err { OnErr result (self.new ≡ self.old) }
    {
        self.records.leave_all(handle, agent)
    }

    /// Removes an agent's records for a child on a handle.
    ///
    /// # Errors
    ///
    /// `OutOfMemory` if there is no memory; all is then as before.
    pub fn leave_child(
        &mut self,
        handle: Handle,
        agent: u64,
        child: Handle,
    ) -> Result<(), OutOfMemory>
        ensures now { OnOk result (self.new.now ≡ child_left handle agent child self.old.now) }
        ensures marks { self.new.marks ≡ self.old.marks }
        ensures err { OnErr result (self.new ≡ self.old) }
    {
        self.records.leave_child(handle, agent, child)
    }

    /// Removes the records on an interface that keep nobody out.
    ///
    /// # Errors
    ///
    /// `OutOfMemory` if there is no memory; all is then as before.
    pub fn drop_weak(&mut self, handle: Handle, guid: Guid) -> Result<(), OutOfMemory>
        ensures now { OnOk result (self.new.now ≡ weak_dropped handle guid self.old.now) }
        ensures marks { self.new.marks ≡ self.old.marks }
        ensures err { OnErr result (self.new ≡ self.old) }
    {
        self.records.drop_weak(handle, guid)
    }

    /// Changes nothing that can be seen, and gives up memory for open records that are no longer there.
    /// For a moment in which no mark is open. Takes no memory.
    pub fn tidy(&mut self)
        ensures { self.new ≡ self.old }
    {
        self.records.tidy();
    }

    /// Changes nothing that can be seen, and makes it fast to ask which open records an interface has.
    pub fn make_ready(&mut self, handle: Handle, guid: Guid)
        ensures { self.new ≡ self.old }
    {
        self.records.make_ready(handle, guid);
    }

    // ---- images

    /// Removes an image with its loaded image block, its interface with the records, and its thunks.
    ///
    /// # Errors
    ///
    /// `NotThere` if the handle is not that of an image; all is then as before. `OutOfMemory` if there is
    /// no memory.
    pub fn drop_image(&mut self, handle: Handle) -> Result<(), WorldFault>
        ensures answer { Gives result (drop_answer handle self.old.now) }
        ensures now { OnOk result (self.new.now ≡ image_dropped handle self.old.now) }
        ensures marks { OnOk result (self.new.marks ≡ self.old.marks) }
        ensures refused { AsBefore result self.old self.new }
    {
        self.log.reserve()?;
        self.soft.is_kept();
        let Some(image) = self.soft.loaded_image(handle.get()) else {
            return Err(WorldFault::NotThere);
        };
        match self.soft.drop_image(handle) {
            Ok(change) => {
                self.soft.is_kept();
                self.log.note(change);
                let guid = Guid::known(Known::LoadedImage);
                match remove_records(&self.soft, &mut self.records, image.handle, guid) {
                    Ok(()) => Ok(()),
                    Err(OutOfMemory) => {
                        give_up(&self.soft, &mut self.records, &mut self.log);
                        Err(WorldFault::OutOfMemory)
                    }
                }
            }
            Err(WorldFault::OutOfMemory) => {
                give_up(&self.soft, &mut self.records, &mut self.log);
                Err(WorldFault::OutOfMemory)
            }
            Err(fault) => Err(fault),
        }
    }

    /// Removes an image with all that belongs to it, in one sweep. No mark is open, so nothing has to be
    /// noted.
    ///
    /// # Errors
    ///
    /// `NotThere` if the handle is not that of an image; all is then as before.
    pub fn sweep_image(&mut self, handle: Handle) -> Result<(), WorldFault>
        requires unmarked { self.old.marks ≡ [] }
        ensures answer { result ≡ drop_answer handle self.old.now }
        ensures now { self.new.now ≡ image_swept handle self.old.now }
        ensures marks { self.new.marks ≡ self.old.marks }
        ensures err { OnErr result (self.new ≡ self.old) }
    {
        let Some(image) = self.soft.loaded_image(handle.get()) else {
            return Err(WorldFault::NotThere);
        };
        self.soft.is_kept();
        let guid = Guid::known(Known::DriverBinding);
        self.records.drop_agents(self.soft.db(), image.handle, guid);
        let swept = self.soft.sweep_image(handle);
        self.records.drop_dead(self.soft.db());
        swept
    }

    /// Maps an image and its loaded image block, which becomes the interface of a new handle.
    ///
    /// # Errors
    ///
    /// `Full` if a limit is met, `OutOfMemory` if there is no memory; all is then as before.
    pub fn add_image(
        &mut self,
        bytes: Vec<u8>,
        entry: u32,
        subsystem: u16,
        device: u64,
    ) -> Result<Handle, WorldFault>
        requires { entry < length bytes.items }
        ensures answer { Gives result (add_answer (length bytes.items) self.old.now) }
        ensures now { OnOk result (self.new.now ≡
            image_added bytes.items entry subsystem device self.old.now) }
        ensures marks { self.new.marks ≡ self.old.marks }
        ensures err { OnErr result (self.new ≡ self.old) }
    {
        self.log.reserve()?;
        self.soft.is_kept();
        let base = self.soft.next_image();
        let block = self.soft.next_block();
        let handle = self.soft.add_image(bytes, entry, subsystem, device)?;
        self.soft.is_kept();
        let image = LoadedImage {
            handle,
            base,
            entry: base + u64::from(entry),
            block,
        };
        self.log.note(Change::AddImage { image });
        Ok(handle)
    }

    // ---- thunks, children of the bus and bus lists

    /// Makes a thunk of the next number.
    ///
    /// # Errors
    ///
    /// `Full` if all numbers are handed out, `OutOfMemory` if there is no memory; all is then as
    /// before.
    pub fn make_thunk(&mut self, entry: u64) -> Result<u64, WorldFault>
        requires { is_some (image_value entry self.old.now) ≡ true }
        ensures answer { Gives result (thunk_answer self.old.now) }
        ensures now { OnOk result (self.new.now ≡ thunk_made entry self.old.now) }
        ensures marks { self.new.marks ≡ self.old.marks }
        ensures err { OnErr result (self.new ≡ self.old) }
    {
        self.log.reserve()?;
        self.soft.is_kept();
        let at = self.soft.make_thunk(entry)?;
        self.soft.is_kept();
        self.log.note(Change::MakeThunk);
        Ok(at)
    }

    /// Makes a function that of a handle with PCI I/O of the firmware, which is no child yet. A number that
    /// is not that of a function of the board changes nothing.
    ///
    /// # Errors
    ///
    /// `OutOfMemory` if there is no memory; all is then as before.
    pub fn note_child(&mut self, handle: Handle, function: u32) -> Result<(), OutOfMemory>
        requires there { has_pci_io handle self.old.now.database ≡ true }
        requires new { child_function handle self.old.now ≡ None }
        ensures now { OnOk result (self.new.now ≡ child_noted handle function self.old.now) }
        ensures marks { self.new.marks ≡ self.old.marks }
        ensures err { OnErr result (self.new ≡ self.old) }
    {
        self.log.reserve()?;
        self.soft.is_kept();
        let count = self.soft.child_count();
        self.soft.note_child(handle, function)?;
        self.soft.is_kept();
        self.log.note(Change::NoteChild { count });
        Ok(())
    }

    /// The option ROM of a function was processed, and brought these images.
    ///
    /// # Errors
    ///
    /// `OutOfMemory` if there is no memory; all is then as before.
    pub fn set_bus_list(&mut self, function: u32, images: Vec<Handle>) -> Result<(), OutOfMemory>
        ensures now { OnOk result (self.new.now ≡
            with_bus_list function images.items self.old.now) }
        ensures marks { self.new.marks ≡ self.old.marks }
        ensures err { OnErr result (self.new ≡ self.old) }
    {
        self.log.reserve()?;
        self.soft.is_kept();
        let before = self.soft.set_bus_list(function, images);
        self.soft.is_kept();
        self.log.note(Change::SetBusList { function, before });
        Ok(())
    }

    // ---- stacks and the path of a command, which no log notes

    /// Maps the stack of a level that has none, and its list of children, and answers the
    /// registers.
    ///
    /// # Errors
    ///
    /// `OutOfMemory` if there is no memory.
    pub fn push_stack(
        &mut self,
        level: u8,
        slots: &[u64; 16],
        list: &[u64],
    ) -> Result<Cpu, OutOfMemory>
        requires from { 0 < level }
        requires to { level ≤ most_levels }
        requires none { has_stack level self.old.now.memory ≡ false }
        requires few { length list.now ≤ most_listed }
        ensures frame { IfOk result (λ cpu. cpu ≡ frame_value level) }
        ensures now { OnOk result (self.new.now ≡
            stack_pushed level slots.now list.now self.old.now) }
        ensures marks { self.new.marks ≡ self.old.marks }
    {
        self.soft.is_kept();
        self.soft.push_stack(level, slots, list)
    }

    /// Removes the stack of a level and its list of children. No open mark keeps it.
    pub fn pop_stack(&mut self, level: u8)
        requires from { 0 < level }
        requires to { level ≤ most_levels }
        requires older { is_marked_stack level self.old.marks ≡ false }
        ensures now { self.new.now ≡ stack_popped level self.old.now }
        ensures marks { self.new.marks ≡ self.old.marks }
    {
        self.soft.pop_stack(level);
    }

    /// Maps the device path of a command. No path is there yet, it has at most 45,056 bytes, and no
    /// mark is open.
    ///
    /// # Errors
    ///
    /// `OutOfMemory` if there is no memory; all is then as before.
    pub fn set_path(&mut self, bytes: Vec<u8>) -> Result<(), OutOfMemory>
        requires none { has_no_path self.old.now.memory ≡ true }
        requires few { length bytes.items ≤ path_room }
        requires unmarked { self.old.marks ≡ [] }
        ensures now { OnOk result (self.new.now ≡ path_set bytes.items self.old.now) }
        ensures marks { self.new.marks ≡ self.old.marks }
        ensures err { OnErr result (self.new ≡ self.old) }
    {
        self.soft.set_path(bytes)
    }

    /// Removes the device path of a command. If there is none, all is as before. No mark is open.
    pub fn clear_path(&mut self)
        requires unmarked { self.old.marks ≡ [] }
        ensures now { self.new.now ≡ path_cleared self.old.now }
        ensures marks { self.new.marks ≡ self.old.marks }
    {
        self.soft.clear_path();
    }

    // ---- marks

    /// Opens a mark, which keeps the soft part as it is now. Fewer than 65,536 marks are open. Takes
    /// no memory.
    pub fn mark(&mut self) -> Mark
        requires { length self.old.marks < most_marks }
        ensures mark { result ≡ length self.new.marks }
        ensures now { self.new ≡
            record self.old { marks = self.old.now ∷ self.old.marks } }
    {
        self.soft.is_kept();
        let levels = self.soft.levels();
        let next_block = self.soft.next_block();
        let soft = self.log.mark(Moment { levels, next_block });
        let records = self.records.mark();
        Mark { soft, records }
    }

    /// Puts the soft part back that a mark keeps, and spends the mark. It is the newest that is
    /// open, and the same levels have stacks as when it was made.
    ///
    /// # Errors
    ///
    /// `OutOfMemory` if there is no memory.
    pub fn rollback(&mut self, mark: Mark) -> Result<(), OutOfMemory>
        requires newest { mark ≡ length self.old.marks }
        requires stacks { stacks self.old.now ≡ stacks (newest_of self.old.marks self.old.now) }
        ensures now { OnOk result (self.new.now ≡ newest_of self.old.marks self.old.now) }
        ensures marks { OnOk result (self.new.marks ≡ older_marks self.old.marks) }
    {
        let Mark { soft, records } = mark;
        match put_back(
            &mut self.soft,
            &mut self.records,
            &mut self.log,
            soft,
            records,
        ) {
            Ok(()) => Ok(()),
            Err(OutOfMemory) => {
                give_up(&self.soft, &mut self.records, &mut self.log);
                Err(OutOfMemory)
            }
        }
    }

    /// Spends a mark, and leaves the soft part as it is. The mark is the newest that is open. Takes no
    /// memory.
    pub fn commit(&mut self, mark: Mark)
        requires newest { mark ≡ length self.old.marks }
        ensures now { self.new.now ≡ self.old.now }
        ensures marks { self.new.marks ≡ older_marks self.old.marks }
    {
        let Mark { soft, records } = mark;
        self.log.commit(soft);
        self.records.commit(records);
    }
}

/// So many bytes from an address on.
///
/// # Errors
///
/// `OutOfMemory` if there is no memory.
fn bytes_before(alloc: Global, soft: &SoftPart, at: u64, n: u64) -> Result<Rows<u8>, OutOfMemory>
    requires { is_writable_range soft.now.memory at n ≡ true }
    ensures { IfOk result (λ bytes. bytes ≡ bytes_of soft.now.memory at n) }
{
    Ok(Rows::of(Vec::from_slice(alloc, soft.bytes(at, n))?))
}

/// What is noted of a block that was freed: what was mapped there, without its bytes if it is a large block
/// of the pool that was made since the newest mark. An undo also takes back that the block was made, so
/// nothing reads the bytes, and a driver that makes and frees blocks in one call does not fill the log.
fn noted_segment(alloc: Global, log: &Log<Change, Moment>, freed: Segment) -> Segment
    ensures { result ≡ segment_noted log.now.marks freed }
{
    let Some(moment) = log.carried() else {
        return freed;
    };
    if is_new_block(&freed, moment.next_block) {
        Segment {
            base: freed.base,
            bytes: Rows::of(Vec::new(alloc)),
            kind: freed.kind,
        }
    } else {
        freed
    }
}

/// Whether a segment is a large block of the pool that was made when the next block lay at an address,
/// or later.
fn is_new_block(segment: &Segment, next_block: u64) -> bool
    ensures { result ≡ is_new_block next_block segment.now }
{
    next_block <= segment.base
        && matches!(segment.kind, SegKind::Pool)
        && segment.bytes.as_slice().len() > IMAGE_BLOCK_SIZE
}

/// Removes the records of an interface that has been removed, and if its handle is no longer live, those that
/// name the handle.
///
/// # Errors
///
/// `OutOfMemory` if there is no memory; the records are then as before.
fn remove_records(
    soft: &SoftPart,
    records: &mut RecordLog,
    handle: Handle,
    guid: Guid,
) -> Result<(), OutOfMemory>
    ensures now { OnOk result (records.new.now ≡
        records_removed handle guid soft.now.database records.old.now) }
    ensures marks { records.new.marks ≡ records.old.marks }
    ensures err { OnErr result (records.new ≡ records.old) }
{
    let goes = !soft.db().is_live(handle.get());
    records.remove_interface(handle, guid, goes)
}

/// Gives up all marks, and the records of interfaces and handles that are not there, if there is no way back
/// because memory ran out.
fn give_up(soft: &SoftPart, records: &mut RecordLog, log: &mut Log<Change, Moment>)
    requires { records.old.now.limit ≡ most_records }
    ensures { IsInside soft.now log.new.marks records.new }
{
    log.clear();
    records.clear();
    records.soundness();
    records.drop_dead(soft.db());
}

/// Takes back all changes since the newest mark.
///
/// # Errors
///
/// `OutOfMemory` if there is no memory.
fn take_all_back(
    soft: &mut SoftPart,
    log: &mut Log<Change, Moment>,
    mark: &undo_log::Mark,
) -> Result<(), OutOfMemory>
    requires kept { AreKept [] log.old.marks soft.old }
    requires newest { mark.now ≡ depth log.old }
    requires stacks { stacks soft.old ≡
        stacks (newest_of (kept_from [] log.old.marks soft.old) soft.old) }
    ensures now { OnOk result (soft.new ≡
        newest_of (kept_from [] log.old.marks soft.old) soft.old) }
    ensures kept { OnOk result (AreKept [] log.new.marks soft.new) }
    ensures marks { OnOk result (kept_from [] log.new.marks soft.new ≡
        kept_from [] log.old.marks soft.old) }
{
    'back: while let Some(change) = log.take_last(mark) {
        soft.is_kept();
        soft.take_back(change)?;
    }
    soft.is_kept();
    Ok(())
}

/// Puts back what the newest marks keep, and spends the marks.
///
/// # Errors
///
/// `OutOfMemory` if there is no memory.
fn put_back(
    soft: &mut SoftPart,
    records: &mut RecordLog,
    log: &mut Log<Change, Moment>,
    mark: undo_log::Mark,
    records_mark: record_log::Mark,
) -> Result<(), OutOfMemory>
    requires kept { AreKept [] log.old.marks soft.old }
    requires newest { mark ≡ depth log.old }
    requires newest_records { records_mark ≡ length records.old.marks }
    requires stacks { stacks soft.old ≡
        stacks (newest_of (kept_from [] log.old.marks soft.old) soft.old) }
    ensures now { OnOk result (soft.new ≡
        newest_of (kept_from [] log.old.marks soft.old) soft.old) }
    ensures kept { OnOk result (AreKept [] log.new.marks soft.new) }
    ensures marks { OnOk result (kept_from [] log.new.marks soft.new ≡
        older_marks (kept_from [] log.old.marks soft.old)) }
    ensures records { OnOk result (records.new.now ≡
        newest_records records.old.marks records.old.now) }
    ensures older_records { OnOk result (records.new.marks ≡ older_records records.old.marks) }
    ensures limit { records.new.now.limit ≡ records.old.now.limit }
{
    take_all_back(soft, log, &mark)?;
    records.rollback(records_mark);
    log.commit(mark);
    Ok(())
}

#[cfg(test)]
mod tests;
