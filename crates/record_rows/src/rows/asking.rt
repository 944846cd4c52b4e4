//! What is asked of the rows.
ghost use Rattle.std.specs.Prelude.{◌≡◌, ◌&&◌, ◌++◌, IfOk, IfSome, OnOk, filter, length, map, nat_eq, ℕ};
ghost use Rattle.std.specs.List.{list_any};
ghost use Rattle.open_records.specs.Records.{is_for_child, is_named, is_strong};
ghost use Rattle.open_records.specs.Changing.{is_open};
ghost use Rattle.open_records.specs.Keyed.{is_of};
ghost use Rattle.open_records.specs.declared.open_record.KeyedRecord.{KeyedRecord as KeyedValue};
ghost use Rattle.record_rows.specs.Asking.{AreCutBefore, ArePlacesOf, Rise, counts_at, is_other_record_on, last_line, passes_at, shown_among, shown_at, shown_on};
ghost use Rattle.open_records.specs.Interfaces.{Interface as InterfaceValue, is_on};
ghost use Rattle.record_rows.specs.Inside.{HasNumber, rows_of};
ghost use Rattle.record_rows.specs.Rows.{shown};

use crate::rows::RecordRows;
use fw_types::{Attr, Guid, Handle, OutOfMemory};
use open_records::{Opener, Rec, Test};

/// How many rows are few: so many are looked at each time, whether they count or not.
const FEW: usize = 32;

impl RecordRows {
    /// Changes nothing that can be seen: finds out which rows of an interface count, so that what is asked of the interface
    /// does not look at the others, until a row is closed or something is cut. Few rows are not worth it.
    pub fn make_ready(&mut self, handle: Handle, guid: Guid)
        ensures { self.new ≡ self.old }
    {
        let Some(number) = self.cutters.number_of_interface((handle, guid)) else {
            return;
        };
        self.list_others(number);
        if !self.cutters.is_weak_cut(number, self.len()) {
            self.list_all(number);
        }
    }

    /// Lists the rows of the interface with a number that count and are not weak.
    fn list_others(&mut self, number: u32)
        ensures { self.new ≡ self.old }
    {
        if self.index.others(number).len() < FEW || self.shown_others.of(number).is_some() {
            return;
        }
        if let Ok(places) = self.counting(self.index.others(number)) {
            let _ = self.shown_others.set(number, places);
        }
    }

    /// Lists all rows of the interface with a number that count.
    fn list_all(&mut self, number: u32)
        ensures { self.new ≡ self.old }
    {
        if self.index.places(number).len() < FEW || self.shown.of(number).is_some() {
            return;
        }
        if let Ok(places) = self.counting(self.index.places(number)) {
            let _ = self.shown.set(number, places);
        }
    }

    /// The place of the last row of an interface with an opener, whether it counts or not.
    pub fn last_by(&self, handle: Handle, guid: Guid, opener: Opener) -> Option<usize>
        ensures { result ≡ last_line (is_open handle guid opener.0 opener.1 opener.2) self.now.lines }
    {
        self.cutters.soundness();
        let (agent, controller, bits) = opener;
        let interface = self.cutters.number_of_interface((handle, guid))?;
        let agent = self.cutters.number_of_name(agent)?;
        let controller = self.cutters.number_of_name(controller)?;
        self.index.last((interface, agent, controller, bits))
    }

    /// The place of the last row of an interface with BY_DRIVER or EXCLUSIVE, whether it counts or not.
    pub fn last_strong(&self, handle: Handle, guid: Guid) -> Option<usize>
        ensures { result ≡ last_line (λ (one : KeyedValue). is_of handle guid one && is_strong one.rec) self.now.lines }
    {
        self.cutters.soundness();
        let interface = self.cutters.number_of_interface((handle, guid))?;
        self.index.last_strong(interface)
    }

    /// The records of an interface that count, in order of their making.
    pub fn list(&self, handle: Handle, guid: Guid) -> Result<Vec<Rec>, OutOfMemory>
        ensures { IfOk result (λ records. records.items ≡ map (λ (one : KeyedValue). one.rec) (shown_on (handle, guid) (rows_of self.now))) }
    {
        match self.cutters.number_of_interface((handle, guid)) {
            None => Ok(Vec::new(self.alloc)),
            Some(interface) => self.records_at(self.places_on(interface)),
        }
    }

    /// Those of an interface's records that count and are BY_CHILD_CONTROLLER, in order of their making.
    pub fn children(&self, handle: Handle, guid: Guid) -> Result<Vec<Rec>, OutOfMemory>
        ensures { IfOk result (λ records. records.items ≡ filter is_for_child (map (λ (one : KeyedValue). one.rec) (shown_on (handle, guid) (rows_of self.now)))) }
    {
        match self.cutters.number_of_interface((handle, guid)) {
            None => Ok(Vec::new(self.alloc)),
            Some(interface) => self.children_at(self.other_places_on(interface)),
        }
    }

    /// How many records of an interface count.
    pub fn count_on(&self, handle: Handle, guid: Guid) -> usize
        ensures { result ≡ length (shown_on (handle, guid) (rows_of self.now)) }
    {
        match self.cutters.number_of_interface((handle, guid)) {
            None => 0,
            Some(interface) => self.count_by_number(interface),
        }
    }

    /// How many records of an interface count, if few were made since its last cut.
    pub fn few_on(&self, handle: Handle, guid: Guid) -> Option<usize>
        ensures { IfSome result (λ count. count ≡ length (shown_on (handle, guid) (rows_of self.now))) }
    {
        self.cutters.soundness();
        match self.cutters.number_of_interface((handle, guid)) {
            None => Some(0),
            Some(interface) => {
                let cut = self.cutters.earlier_cut(interface);
                self.few_at(self.index.places(interface), cut)
            }
        }
    }

    /// How many records count that name a handle, if few were made since the last cut of its number.
    pub fn few_named(&self, name: u64) -> Option<usize>
        ensures { IfSome result (λ count. count ≡ length (filter (λ (one : KeyedValue). is_named name one.rec) (shown (rows_of self.now)))) }
    {
        self.cutters.soundness();
        match self.cutters.number_of_name(name) {
            None => Some(0),
            Some(number) => {
                let cut = self.cutters.name_cut(number);
                self.few_at(self.index.named(number), cut)
            }
        }
    }

    /// Whether a record of an interface counts that is BY_CHILD_CONTROLLER.
    pub fn has_child(&self, handle: Handle, guid: Guid) -> bool
        ensures { result ≡ list_any (λ (one : KeyedValue). is_for_child one.rec) (shown_on (handle, guid) (rows_of self.now)) }
    {
        match self.cutters.number_of_interface((handle, guid)) {
            None => false,
            Some(interface) => self.any_child_at(self.other_places_on(interface)),
        }
    }

    /// The places of the records of an interface that count and are of an agent.
    pub fn places_by(
        &self,
        handle: Handle,
        guid: Guid,
        agent: u64,
    ) -> Result<Vec<usize>, OutOfMemory>
        ensures { IfOk result (λ places. ArePlacesOf (λ (one : KeyedValue). is_of handle guid one && nat_eq one.rec.agent agent) (rows_of self.now) places.items) }
    {
        match self.cutters.number_of_interface((handle, guid)) {
            None => Ok(Vec::new(self.alloc)),
            Some(interface) => self.places_among(self.places_on(interface), agent),
        }
    }

    // ---- all rows

    /// How many records count.
    pub fn shown_count(&self) -> usize
        ensures { result ≡ length (shown (rows_of self.now)) }
    {
        let mut count = 0;
        for place in 0..self.len() {
            if self.counts(place) {
                count += 1;
            }
        }
        count
    }

    /// Whether a record counts that passes a test.
    pub fn any<T: Test>(&self, test: &T) -> bool
        ensures { result ≡ list_any (T.chosen test.now) (shown (rows_of self.now)) }
    {
        for place in 0..self.len() {
            if self.counts(place) && self.passes(place, test) {
                return true;
            }
        }
        false
    }

    // ---- some rows

    /// The places of the rows of the interface with a number that count, and perhaps of others that do not count.
    fn places_on(&self, number: u32) -> &[u32]
        ensures shown { (interface : InterfaceValue) → HasNumber self.now.classes interface number
            → shown_among (rows_of self.now) result.now ≡ shown_on interface (rows_of self.now) }
        ensures places { (interface : InterfaceValue) → HasNumber self.now.classes interface number
            → ArePlacesOf (is_on interface) (rows_of self.now) (filter (counts_at (rows_of self.now)) result.now) }
    {
        self.cutters.soundness();
        if let Some(places) = self.shown.of(number) {
            return places;
        }
        if self.cutters.is_weak_cut(number, self.len()) {
            return self.other_places_on(number);
        }
        self.index.places(number)
    }

    /// The same of those that are not weak.
    fn other_places_on(&self, number: u32) -> &[u32]
        ensures shown { (interface : InterfaceValue) → HasNumber self.now.classes interface number
            → shown_among (rows_of self.now) result.now ≡ filter (is_other_record_on interface) (shown (rows_of self.now)) }
        ensures places { (interface : InterfaceValue) → HasNumber self.now.classes interface number
            → ArePlacesOf (is_other_record_on interface) (rows_of self.now) (filter (counts_at (rows_of self.now)) result.now) }
    {
        self.cutters.soundness();
        match self.shown_others.of(number) {
            Some(places) => places,
            None => self.index.others(number),
        }
    }

    /// How many records of the interface with a number count.
    fn count_by_number(&self, number: u32) -> usize
        ensures { (interface : InterfaceValue) → HasNumber self.now.classes interface number
            → result ≡ length (shown_on interface (rows_of self.now)) }
    {
        self.cutters.soundness();
        if let Some(places) = self.shown.of(number) {
            return places.len();
        }
        if self.cutters.is_weak_cut(number, self.len()) {
            return self.count_others(number);
        }
        self.count_at(self.index.places(number))
    }

    /// How many records of the interface with a number count and are not weak.
    fn count_others(&self, number: u32) -> usize
        ensures { (interface : InterfaceValue) → HasNumber self.now.classes interface number
            → result ≡ length (filter (is_other_record_on interface) (shown (rows_of self.now))) }
    {
        self.cutters.soundness();
        match self.shown_others.of(number) {
            Some(places) => places.len(),
            None => self.count_at(self.index.others(number)),
        }
    }

    /// Those records of some rows that count and are BY_CHILD_CONTROLLER.
    fn children_at(&self, places: &[u32]) -> Result<Vec<Rec>, OutOfMemory>
        ensures { IfOk result (λ records. records.items ≡ filter is_for_child (map (λ (one : KeyedValue). one.rec) (shown_among (rows_of self.now) places.now))) }
    {
        let mut found = Vec::new(self.alloc);
        for place in places {
            if self.is_child(*place as usize) {
                self.push_shown(&mut found, *place as usize)?;
            }
        }
        Ok(found)
    }

    /// Whether the record at a place is BY_CHILD_CONTROLLER.
    fn is_child(&self, place: usize) -> bool
        ensures { result ≡ passes_at (λ (one : KeyedValue). is_for_child one.rec) self.now.lines place }
    {
        match self.rec(place) {
            None => false,
            Some(rec) => rec.attr.bits() == Attr::BY_CHILD_CONTROLLER,
        }
    }

    /// Whether one of some rows counts and is BY_CHILD_CONTROLLER.
    fn any_child_at(&self, places: &[u32]) -> bool
        ensures { result ≡ list_any (λ (one : KeyedValue). is_for_child one.rec) (shown_among (rows_of self.now) places.now) }
    {
        for place in places {
            if self.counts(*place as usize) && self.is_child(*place as usize) {
                return true;
            }
        }
        false
    }

    /// Those of some rows that count.
    fn counting(&self, places: &[u32]) -> Result<Vec<u32>, OutOfMemory>
        ensures { IfOk result (λ found. found.items ≡ filter (counts_at (rows_of self.now)) places.now) }
    {
        let mut found = Vec::new(self.alloc);
        for place in places {
            if self.counts(*place as usize) {
                found.push(*place)?;
            }
        }
        Ok(found)
    }

    /// Those records of some rows that count.
    fn records_at(&self, places: &[u32]) -> Result<Vec<Rec>, OutOfMemory>
        ensures { IfOk result (λ records. records.items ≡ map (λ (one : KeyedValue). one.rec) (shown_among (rows_of self.now) places.now)) }
    {
        let mut found = Vec::new(self.alloc);
        for place in places {
            self.push_shown(&mut found, *place as usize)?;
        }
        Ok(found)
    }

    /// Puts the record of a row after others, if the row counts.
    fn push_shown(&self, found: &mut Vec<Rec>, place: usize) -> Result<(), OutOfMemory>
        ensures { OnOk result (found.new.items ≡ found.old.items ++ map (λ (one : KeyedValue). one.rec) (shown_at (rows_of self.now) place)) }
    {
        if !self.counts(place) {
            return Ok(());
        }
        if let Some(rec) = self.rec(place) {
            found.push(rec)?;
        }
        Ok(())
    }

    /// How many of some rows count.
    fn count_at(&self, places: &[u32]) -> usize
        ensures { result ≡ length (filter (counts_at (rows_of self.now)) places.now) }
    {
        places
            .iter()
            .filter(|place| self.counts(**place as usize))
            .count()
    }

    /// How many of some rows count, if few of them were made since a cut of all of them.
    fn few_at(&self, places: &[u32], cut: usize) -> Option<usize>
        requires rising { Rise places.now }
        requires cut { AreCutBefore (rows_of self.now) cut places.now }
        ensures { IfSome result (λ count. count ≡ length (filter (counts_at (rows_of self.now)) places.now)) }
    {
        let start = places.len().saturating_sub(FEW);
        if start > 0 && places[start - 1] as usize >= cut {
            return None;
        }
        Some(self.count_at(&places[start..]))
    }

    /// Whether the record at a place is of an agent.
    fn is_of_agent(&self, place: usize, agent: u64) -> bool
        ensures { result ≡ passes_at (λ (one : KeyedValue). nat_eq one.rec.agent agent) self.now.lines place }
    {
        match self.rec(place) {
            None => false,
            Some(rec) => rec.agent == agent,
        }
    }

    /// Those of some rows that count and whose records are of an agent.
    fn places_among(&self, places: &[u32], agent: u64) -> Result<Vec<usize>, OutOfMemory>
        ensures { let mine = λ (place : ℕ). counts_at (rows_of self.now) place && passes_at (λ (one : KeyedValue). nat_eq one.rec.agent agent) self.now.lines place in
            IfOk result (λ found. found.items ≡ filter mine places.now) }
    {
        let mut found = Vec::new(self.alloc);
        for number in places {
            let place = *number as usize;
            if self.counts(place) && self.is_of_agent(place, agent) {
                found.push(place)?;
            }
        }
        Ok(found)
    }
}
