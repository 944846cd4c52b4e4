ghost use Rattle.std.specs.Prelude.{◌≡◌, ◌<◌, [], ◌∷◌, None, Some, true, IfOk, OnErr, OnOk, find, length, option_map};
ghost use Rattle.std.specs.List.{list_any};
ghost use Rattle.fw_types.specs.declared.attr.TheConstants.Attr.{ALL_BITS as all_bits, BY_CHILD_CONTROLLER as by_child_controller, WEAK_BITS as weak_bits};
ghost use Rattle.fw_types.specs.declared.limits.TheConstants.{MOST_MARKS as most_marks};
ghost use Rattle.open_records.specs.declared.open_record.Rec.{Rec as RecValue};
ghost use Rattle.open_records.specs.Adding.{Gives, added, is_full};
ghost use Rattle.open_records.specs.Leaving.{cut, cut_on, is_meant};
ghost use Rattle.open_records.specs.Managing.{children, is_managing, managers};
ghost use Rattle.open_records.specs.OpenRecords.{IsSound, records_of};
ghost use Rattle.open_records.specs.Parties.{has_use_of, with_live_parties, without_agents_of};
ghost use Rattle.open_records.specs.Verdicts.{judge, may_enter};
ghost use Rattle.record_log.specs.MarkedRecords.{interface_cut, newest_of, older_marks};

use crate::choices::{AgentsOf, Dead, UsesOf};
use crate::fresh_rows::renew;
use crate::managing::{children_on, manager_on, managers_on};
use crate::record_change::RecordChange;
use crate::row_asking::{has_meant, is_open, judged};
use crate::row_changes::{close_rows, cut_all, cut_weak, enter_row, take_back};
use crate::row_finding::{places_left, places_of_agent, places_of_child};
use crate::tally::{Tally, count_of, is_at_limit, tally_at_mark};
use fw_types::{Attr, Guid, Handle, OutOfMemory};
use handle_db::Db;
use open_records::{Meant, Rec, RecFault, Verdict};
use record_rows::RecordRows;
use std::alloc::Global;
use std::marker::Model;
use undo_log::{Log, Mark};

/// The open records of all interfaces (UEFI 2.8, 7.3: OpenProtocol), and the changes since the open marks.
///
/// The caller makes sure that the interface of a record is installed and that its agent and its controller are
/// live.
#[derive(Drop)]
pub struct RecordLog {
    alloc: Global,
    limit: u32,
    tally: Tally,
    rows: RecordRows,
    log: Log<RecordChange, Tally>,
}

impl Model for RecordLog {
    ghost use Rattle.record_rows.specs.Inside.{rows_of};
    ghost use Rattle.record_log.specs.MarkedRecords.{MarkedRecords};
    ghost use Rattle.record_log.specs.SoundRows.{IsInside};
    ghost use Rattle.record_log.specs.TakingBack.{table_of, tables_at};

    ghost Value = { MarkedRecords };

    ghost view = { λ inside. record {
      now = table_of inside.limit (rows_of inside.rows);
      marks = tables_at inside.limit inside.log.marks (rows_of inside.rows);
    } };

    ghost invariant = { λ inside. IsInside inside.limit inside.tally inside.rows inside.log.marks };
}

impl RecordLog {
    /// No records, of which there may be at most `limit`. No mark is open, and there is room for as many as there
    /// may be. `alloc` gives the memory of the later calls.
    ///
    /// # Errors
    ///
    /// `OutOfMemory` if there is no memory for the marks.
    pub fn new(alloc: Global, limit: u32) -> Result<RecordLog, OutOfMemory>
        ensures { IfOk result (λ log. log ≡
            record { now = record { entries = []; limit = limit }; marks = [] }) }
    {
        let log = Log::new(alloc)?;
        Ok(RecordLog {
            alloc,
            limit,
            tally: Tally {
                most: 0,
                exact: true,
            },
            rows: RecordRows::new(alloc),
            log,
        })
    }

    // ---- marks

    /// Opens a mark, which keeps the records as they are now. Fewer than `MOST_MARKS` marks are open. Takes no
    /// memory.
    pub fn mark(&mut self) -> Mark
        requires { length self.old.marks < most_marks }
        ensures mark { result ≡ length self.new.marks }
        ensures now { self.new ≡ record self.old { marks = self.old.now ∷ self.old.marks } }
    {
        self.log.mark(self.tally)
    }

    /// Puts the records back that a mark keeps, and spends the mark. It is the newest that is open. Takes no memory.
    pub fn rollback(&mut self, mark: Mark)
        requires newest { mark ≡ length self.old.marks }
        ensures now { self.new.now ≡ newest_of self.old.marks self.old.now }
        ensures marks { self.new.marks ≡ older_marks self.old.marks }
        ensures limit { self.new.now.limit ≡ self.old.now.limit }
    {
        'back: while let Some(change) = self.log.take_last(&mark) {
            take_back(&mut self.rows, change);
        }
        self.tally = tally_at_mark(&self.log, &self.rows);
        self.log.commit(mark);
    }

    /// Spends a mark, and leaves the records as they are. The mark is the newest that is open. Takes no memory.
    pub fn commit(&mut self, mark: Mark)
        requires newest { mark ≡ length self.old.marks }
        ensures now { self.new.now ≡ self.old.now }
        ensures marks { self.new.marks ≡ older_marks self.old.marks }
    {
        self.log.commit(mark);
    }

    /// Closes all marks, if there is no way back because memory ran out, and leaves the records as they are. Takes
    /// no memory.
    pub fn clear(&mut self)
        ensures now { self.new.now ≡ self.old.now }
        ensures marks { self.new.marks ≡ [] }
    {
        self.log.clear();
    }

    // ---- changes

    /// Enters an open of an interface (UEFI 2.8, 7.3: OpenProtocol). If the interface has a record of the same
    /// agent, controller and attribute, its count rises by one, and stays at 4,294,967,295. Otherwise a record
    /// with count 1 becomes the last of the interface's records. `controller` is 0 if the open is for none. The
    /// verdict of `judged` on this open must be `Add` or `Count`.
    ///
    /// # Errors
    ///
    /// All is then as before.
    ///
    /// - `Full` if there is no such record and there are as many records as there may be.
    /// - `OutOfMemory` if there is no memory.
    pub fn enter(
        &mut self,
        handle: Handle,
        guid: Guid,
        agent: u64,
        controller: u64,
        attr: Attr,
    ) -> Result<(), RecFault>
        requires { may_enter (judge
            (records_of self.old.now.entries handle guid) agent controller attr) ≡ true }
        ensures answer { Gives result (is_full handle guid agent controller attr self.old.now) }
        ensures now { OnOk result (self.new.now ≡
            added handle guid agent controller attr self.old.now) }
        ensures marks { self.new.marks ≡ self.old.marks }
        ensures err { OnErr result (self.new ≡ self.old) }
    {
        self.log.reserve()?;
        let rows = &mut self.rows;
        let tally = &mut self.tally;
        let change = enter_row(
            rows, tally, self.limit, handle, guid, agent, controller, attr,
        )?;
        self.log.note(change);
        Ok(())
    }

    /// Removes an agent's records for a controller on an interface (UEFI 2.8, 7.3: CloseProtocol).
    ///
    /// # Errors
    ///
    /// `OutOfMemory` if there is no memory; all is then as before.
    pub fn leave(
        &mut self,
        handle: Handle,
        guid: Guid,
        agent: u64,
        controller: u64,
    ) -> Result<(), OutOfMemory>
        ensures now { OnOk result (self.new.now ≡
            cut handle guid (is_meant (Some agent) (Some controller) all_bits) self.old.now) }
        ensures marks { self.new.marks ≡ self.old.marks }
        ensures err { OnErr result (self.new ≡ self.old) }
    {
        self.log.reserve()?;
        let places = places_left(self.alloc, &self.rows, handle, guid, agent, controller)?;
        let change = close_rows(&mut self.rows, &mut self.tally, places);
        self.log.note(change);
        Ok(())
    }

    /// Removes an agent's records on all interfaces of a handle.
    ///
    /// # Errors
    ///
    /// `OutOfMemory` if there is no memory; all is then as before.
    pub fn leave_all(&mut self, handle: Handle, agent: u64) -> Result<(), OutOfMemory>
        ensures now { OnOk result (self.new.now ≡
            cut_on handle (is_meant (Some agent) None all_bits) self.old.now) }
        ensures marks { self.new.marks ≡ self.old.marks }
        ensures err { OnErr result (self.new ≡ self.old) }
    {
        self.log.reserve()?;
        let places = places_of_agent(self.alloc, &self.rows, handle, agent)?;
        let change = close_rows(&mut self.rows, &mut self.tally, places);
        self.log.note(change);
        Ok(())
    }

    /// Removes an agent's records for a child on all interfaces of a handle.
    ///
    /// # Errors
    ///
    /// `OutOfMemory` if there is no memory; all is then as before.
    pub fn leave_child(
        &mut self,
        handle: Handle,
        agent: u64,
        child: Handle,
    ) -> Result<(), OutOfMemory>
        ensures now { OnOk result (self.new.now ≡
            cut_on handle (is_meant (Some agent) (Some child) by_child_controller) self.old.now) }
        ensures marks { self.new.marks ≡ self.old.marks }
        ensures err { OnErr result (self.new ≡ self.old) }
    {
        self.log.reserve()?;
        let places = places_of_child(self.alloc, &self.rows, handle, agent, child)?;
        let change = close_rows(&mut self.rows, &mut self.tally, places);
        self.log.note(change);
        Ok(())
    }

    /// Removes the records on an interface that keep nobody out.
    ///
    /// # Errors
    ///
    /// `OutOfMemory` if there is no memory; all is then as before.
    pub fn drop_weak(&mut self, handle: Handle, guid: Guid) -> Result<(), OutOfMemory>
        ensures now { OnOk result (self.new.now ≡
            cut handle guid (is_meant None None weak_bits) self.old.now) }
        ensures marks { self.new.marks ≡ self.old.marks }
        ensures err { OnErr result (self.new ≡ self.old) }
    {
        self.log.reserve()?;
        let change = cut_weak(&mut self.rows, &mut self.tally, handle, guid);
        self.log.note(change);
        Ok(())
    }

    /// Removes all records of an interface that has been removed, and if its handle has been removed with it
    /// (`goes`), those that name the handle.
    ///
    /// # Errors
    ///
    /// `OutOfMemory` if there is no memory; all is then as before.
    pub fn remove_interface(
        &mut self,
        handle: Handle,
        guid: Guid,
        goes: bool,
    ) -> Result<(), OutOfMemory>
        ensures now { OnOk result (self.new.now ≡ interface_cut handle guid goes self.old.now) }
        ensures marks { self.new.marks ≡ self.old.marks }
        ensures err { OnErr result (self.new ≡ self.old) }
    {
        self.log.reserve()?;
        let change = cut_all(&mut self.rows, &mut self.tally, handle, guid, goes);
        self.log.note(change);
        Ok(())
    }

    // ---- without a mark

    /// Removes the records whose agents belong to an image (UEFI 2.8, 7.4: UnloadImage): the image's own handle, and
    /// the handles on which it owns the interface of a protocol. No mark is open. Takes no memory.
    pub fn drop_agents(&mut self, db: &Db, image: Handle, guid: Guid)
        requires unmarked { self.old.marks ≡ [] }
        ensures now { self.new.now ≡ without_agents_of image guid db.now self.old.now }
        ensures marks { self.new.marks ≡ [] }
    {
        self.rows.close_where(&AgentsOf { image, guid, db });
        self.tally.exact = false;
    }

    /// Removes the records whose interface is not installed, whose agent is not live, or whose controller is neither
    /// 0 nor live. No mark is open. Takes no memory.
    pub fn drop_dead(&mut self, db: &Db)
        requires unmarked { self.old.marks ≡ [] }
        ensures now { self.new.now ≡ with_live_parties db.now self.old.now }
        ensures marks { self.new.marks ≡ [] }
    {
        self.rows.close_where(&Dead(db));
        self.tally.exact = false;
    }

    /// Changes nothing that can be seen. If no mark is open, and the rows that do not count are more than 1,024 and an eighth
    /// of the records together, the memory of those rows is given up.
    pub fn tidy(&mut self)
        ensures { self.new ≡ self.old }
    {
        if self.log.carried().is_none() {
            renew(self.alloc, &mut self.rows, &mut self.tally);
        }
    }

    /// Changes nothing that can be seen: finds out which records of an interface are there, so that what is asked of the
    /// interface next does not look at those that are not. It pays before an interface is asked several times.
    pub fn make_ready(&mut self, handle: Handle, guid: Guid)
        ensures { self.new ≡ self.old }
    {
        self.rows.make_ready(handle, guid);
    }

    // ---- looking

    /// Says what holds of all records and does nothing: their interfaces rise; an interface has at most one record
    /// with BY_DRIVER or EXCLUSIVE, and no two of the same agent, controller and attribute; each record has one of
    /// the seven attributes and a count from 1; there are no more than there may be.
    pub fn soundness(&self)
        ensures { IsSound self.now.now }
    {
        let _rows = &self.rows;
    }

    /// How many records there are. Takes no memory.
    pub fn len(&self) -> u32
        ensures { result ≡ length self.now.now.entries }
    {
        // reading the limit shows that it fits in 32 bits
        let _most = self.limit;
        count_of(&self.rows, &self.tally) as u32
    }

    /// How many records an interface has: the length of `list`. Takes no memory.
    pub fn count_on(&self, handle: Handle, guid: Guid) -> u32
        ensures { result ≡ length (records_of self.now.now.entries handle guid) }
    {
        // reading the limit shows that it fits in 32 bits
        let _most = self.limit;
        self.rows.count_on(handle, guid) as u32
    }

    /// The records of an interface in order of their making (UEFI 2.8, 7.3: OpenProtocolInformation).
    ///
    /// # Errors
    ///
    /// `OutOfMemory` if there is no memory for the list.
    pub fn list(&self, handle: Handle, guid: Guid) -> Result<Vec<Rec>, OutOfMemory>
        ensures { IfOk result (λ records. records.items ≡
            records_of self.now.now.entries handle guid) }
    {
        self.rows.list(handle, guid)
    }

    /// Whether an interface has a record of `agent`, if it is given, and for `controller`, if it is given, with a
    /// bit of `bits`. Takes no memory.
    pub fn has_meant(
        &self,
        handle: Handle,
        guid: Guid,
        agent: Option<u64>,
        controller: Option<u64>,
        bits: u32,
    ) -> bool
        ensures { let records = records_of self.now.now.entries handle guid in
            result ≡ list_any (is_meant agent controller bits) records }
    {
        let meant = Meant {
            agent,
            controller,
            bits,
        };
        has_meant(&self.rows, handle, guid, &meant)
    }

    /// What the records of an interface say about an open by an agent for a controller, as `judge` does. Takes no
    /// memory.
    pub fn judged(
        &self,
        handle: Handle,
        guid: Guid,
        agent: u64,
        controller: u64,
        attr: Attr,
    ) -> Verdict
        ensures { result ≡
            judge (records_of self.now.now.entries handle guid) agent controller attr }
    {
        judged(&self.rows, handle, guid, agent, controller, attr)
    }

    /// Whether an open by an agent for a controller would need a record when there are already as many as there may
    /// be: the error `Full` of `enter`. Takes no memory.
    pub fn is_full(
        &self,
        handle: Handle,
        guid: Guid,
        agent: u64,
        controller: u64,
        attr: Attr,
    ) -> bool
        ensures { result ≡ is_full handle guid agent controller attr self.now.now }
    {
        if is_open(&self.rows, handle, guid, agent, controller, attr) {
            return false;
        }
        is_at_limit(&self.rows, &self.tally, self.limit)
    }

    /// The children of a handle: the controllers, except 0, of the BY_CHILD_CONTROLLER records on it, of `agent` if
    /// it is given. Each is listed once, by the handle's interfaces in order of installation, then by their records
    /// in order of their making.
    ///
    /// # Errors
    ///
    /// `OutOfMemory` if there is no memory for the list.
    pub fn children_of(
        &self,
        db: &Db,
        handle: Handle,
        agent: Option<u64>,
    ) -> Result<Vec<Handle>, OutOfMemory>
        ensures { IfOk result (λ found. found.items ≡
            children self.now.now.entries db.now handle agent) }
    {
        let protocols = db.protocols_of(handle)?;
        children_on(self.alloc, &self.rows, handle, protocols.as_slice(), agent)
    }

    /// The agents that manage a handle: those of the records with BY_DRIVER on it. Each is listed once, in the order
    /// of `children_of`.
    ///
    /// # Errors
    ///
    /// `OutOfMemory` if there is no memory for the list.
    pub fn managers_of(&self, db: &Db, handle: Handle) -> Result<Vec<u64>, OutOfMemory>
        ensures { IfOk result (λ found. found.items ≡
            managers self.now.now.entries db.now handle) }
    {
        let protocols = db.protocols_of(handle)?;
        managers_on(self.alloc, &self.rows, handle, protocols.as_slice())
    }

    /// The agent that manages a handle by one of its interfaces: that of the interface's record with BY_DRIVER, if
    /// there is one. Takes no memory.
    pub fn manager_on(&self, handle: Handle, guid: Guid) -> Option<u64>
        ensures { let records = records_of self.now.now.entries handle guid in
            result ≡ option_map (λ (rec : RecValue). rec.agent) (find is_managing records) }
    {
        manager_on(&self.rows, handle, guid)
    }

    /// Whether an image is in use (UEFI 2.8, 7.4: UnloadImage): an agent that belongs to it, as `drop_agents` says,
    /// has a record with BY_DRIVER, EXCLUSIVE or BY_CHILD_CONTROLLER, or there is such a record of an interface that
    /// the image owns. Takes no memory.
    pub fn has_use_of(&self, db: &Db, image: Handle, guid: Guid) -> bool
        ensures { result ≡ has_use_of image guid db.now self.now.now }
    {
        self.rows.any(&UsesOf { image, guid, db })
    }
}
