//! What cuts records.
ghost use Rattle.std.specs.Prelude.{◌≡◌, ◌≤◌, ℕ, [], false, map, nat_le, unwrap_or, IfOk, MatchOption, if◌then◌else◌};
ghost use Rattle.fw_types.specs.Attr.{has_bit_of};
ghost use Rattle.fw_types.specs.declared.attr.TheConstants.Attr.{WEAK_BITS as weak_bits};
ghost use Rattle.open_records.specs.Interfaces.{Interface as InterfaceValue};
ghost use Rattle.open_records.specs.declared.open_record.KeyedRecord.{KeyedRecord as KeyedValue};
ghost use Rattle.record_rows.specs.Rows.{counts};
ghost use Rattle.record_rows.specs.Inside.{BeginsBefore, EndsAfter, Grows, HasNumber, HasProtocols, IsClassCut, IsMarkOf, IsNameCut, class_cut_in, cuts_in, key_of, name_cut_in};
ghost use Rattle.record_rows.specs.Numbers.{AreDistinct, IsAbsent};

use crate::cut_list::CutList;
use crate::last_places::RowKey;
use fw_types::{Attr, Guid, Handle, OutOfMemory};
use open_records::{Interface, KeyedRecord};
use std::alloc::Global;
use std::marker::Model;
use std::ops::Bound;

/// What says whether a record counts: the numbers of its agent, of its controller and of its interface, its attribute, and
/// whether it is closed.
#[derive(Clone, Copy, Debug)]
pub struct Mark {
    /// The number of its agent.
    pub agent: u32,
    /// The number of its controller.
    pub controller: u32,
    /// The number of its interface.
    pub interface: u32,
    /// Its attribute.
    pub attr: Attr,
    /// Whether it is closed.
    pub closed: bool,
}

impl Mark {
    /// What its row is found by.
    pub fn key(&self) -> RowKey
        ensures { result ≡ key_of self.now }
    {
        (
            self.interface,
            self.agent,
            self.controller,
            self.attr.bits(),
        )
    }
}

/// The handle numbers that records name, and their interfaces, each with its cuts.
#[derive(Drop)]
pub struct Cutters {
    names: CutList<u64, usize>,
    classes: CutList<Interface, (usize, usize)>,
}

impl Model for Cutters {
    ghost use Rattle.record_rows.specs.Inside.{CuttersValue};

    ghost Value = { CuttersValue };

    ghost view = { λ inside. record { names = inside.names; classes = inside.classes } };
}

/// A bound before each interface of a handle.
fn start_of(handle: Handle) -> Bound<Interface>
    ensures { BeginsBefore handle result }
{
    match Handle::new(handle.get() - 1) {
        None => Bound::Unbounded,
        Some(before) => Bound::Excluded((before, Guid::from_guest(&[0xFF; 16]))),
    }
}

/// A bound after each interface of a handle.
fn end_of(handle: Handle) -> Bound<Interface>
    ensures { EndsAfter handle result }
{
    if handle.get() == u64::MAX {
        return Bound::Unbounded;
    }
    Bound::Excluded((handle.next(), Guid::from_guest(&[0; 16])))
}

/// The GUIDs of interfaces.
fn guids_of(alloc: Global, interfaces: &[Interface]) -> Result<Vec<Guid>, OutOfMemory>
    ensures { IfOk result (λ guids. guids.items ≡ map (λ interface. interface.1) interfaces.now) }
{
    let guids = interfaces
        .iter()
        .map(|interface| interface.1)
        .collect(alloc)?;
    Ok(guids)
}

impl Cutters {
    /// None. `alloc` gives the memory of the later calls.
    pub fn new(alloc: Global) -> Cutters
        ensures { result ≡ record { names = []; classes = [] } }
    {
        Cutters {
            names: CutList::new(alloc),
            classes: CutList::new(alloc),
        }
    }

    /// The number of a handle number, which gets one if it has none.
    fn name_number(&mut self, name: u64) -> Result<u32, OutOfMemory>
        ensures number { IfOk result (λ number. HasNumber self.new.names name number) }
        ensures grown { Grows self.old self.new }
    {
        self.names.enter(name, 0)
    }

    /// The number of an interface, which gets one if it has none.
    fn interface_number(&mut self, interface: Interface) -> Result<u32, OutOfMemory>
        ensures number { IfOk result (λ number. HasNumber self.new.classes interface number) }
        ensures grown { Grows self.old self.new }
    {
        self.classes.enter(interface, (0, 0))
    }

    /// The mark of a record that is not closed. What it names gets numbers, and no cut changes, whether it succeeds or not.
    pub fn mark_of(&mut self, one: &KeyedRecord) -> Result<Mark, OutOfMemory>
        ensures mark { IfOk result (λ mark. IsMarkOf self.new.names self.new.classes one.now mark) }
        ensures open { IfOk result (λ mark. mark.closed ≡ false) }
        ensures grown { Grows self.old self.new }
    {
        let agent = self.name_number(one.rec.agent)?;
        let controller = self.name_number(one.rec.controller)?;
        let interface = self.interface_number((one.handle, one.guid))?;
        Ok(Mark {
            agent,
            controller,
            interface,
            attr: one.rec.attr,
            closed: false,
        })
    }

    /// Sets the cut of a handle number, if it has a number, and answers the one from before.
    pub fn cut_name(&mut self, name: u64, place: usize) -> Option<usize>
        ensures { MatchOption result ((self.new ≡ self.old) × IsAbsent name (map (λ entry. entry.0) self.old.names))
            (λ before. IsNameCut name place before self.old self.new) }
    {
        match self.names.number_of(name) {
            None => None,
            Some(number) => {
                self.names.soundness();
                let before = self.names.cut(number);
                self.names.set(number, place);
                Some(before)
            }
        }
    }

    /// Sets the cut of the weak records of an interface, and of its other records too if one is given, if the interface has a
    /// number. Answers both cuts from before, of the weak records first.
    pub fn cut_interface(
        &mut self,
        interface: Interface,
        weak: usize,
        other: Option<usize>,
    ) -> Option<(usize, usize)>
        ensures { MatchOption result ((self.new ≡ self.old) × IsAbsent interface (map (λ entry. entry.0) self.old.classes))
            (λ before. IsClassCut interface before (weak, unwrap_or other before.1) self.old self.new) }
    {
        match self.classes.number_of(interface) {
            None => None,
            Some(number) => {
                self.classes.soundness();
                let before = self.classes.cut(number);
                self.classes.set(number, (weak, other.unwrap_or(before.1)));
                Some(before)
            }
        }
    }

    /// The cut of the records of an interface that are not weak.
    pub fn other_cut(&self, interface: Interface) -> usize
        ensures { result ≡ (class_cut_in self.now.classes interface).1 }
    {
        match self.classes.number_of(interface) {
            None => 0,
            Some(number) => {
                self.classes.soundness();
                self.classes.cut(number).1
            }
        }
    }

    /// Whether the weak records of the interface with a number are cut at a place or after it.
    pub fn is_weak_cut(&self, number: u32, place: usize) -> bool
        ensures { (interface : InterfaceValue) → HasNumber self.now.classes interface number → result ≡ nat_le place (class_cut_in self.now.classes interface).0 }
    {
        if number as usize >= self.classes.len() {
            return false;
        }
        self.classes.soundness();
        self.classes.cut(number).0 >= place
    }

    /// The earlier cut of the interface with a number, of the two that it has.
    pub fn earlier_cut(&self, number: u32) -> usize
        ensures { (interface : InterfaceValue) → HasNumber self.now.classes interface number
            → (let cuts = class_cut_in self.now.classes interface in (result ≤ cuts.0) × (result ≤ cuts.1)) }
    {
        if number as usize >= self.classes.len() {
            return 0;
        }
        self.classes.soundness();
        let (weak, other) = self.classes.cut(number);
        weak.min(other)
    }

    /// Says what holds of the keys and does nothing: each has one number.
    pub fn soundness(&self)
        ensures names { AreDistinct (map (λ entry. entry.0) self.now.names) }
        ensures classes { AreDistinct (map (λ entry. entry.0) self.now.classes) }
    {
        self.names.soundness();
        self.classes.soundness();
    }

    /// The number of a handle number.
    pub fn number_of_name(&self, name: u64) -> Option<u32>
        ensures { MatchOption result (IsAbsent name (map (λ entry. entry.0) self.now.names)) (HasNumber self.now.names name) }
    {
        self.names.number_of(name)
    }

    /// The number of an interface.
    pub fn number_of_interface(&self, interface: Interface) -> Option<u32>
        ensures { MatchOption result (IsAbsent interface (map (λ entry. entry.0) self.now.classes)) (HasNumber self.now.classes interface) }
    {
        self.classes.number_of(interface)
    }

    /// The cut of the handle number that has a number.
    #[inline]
    pub fn name_cut(&self, number: u32) -> usize
        ensures { (name : ℕ) → HasNumber self.now.names name number → name_cut_in self.now.names name ≡ result }
    {
        if number as usize >= self.names.len() {
            return 0;
        }
        self.names.soundness();
        self.names.cut(number)
    }

    /// The cut of the class of a record with a mark: the weak records of its interface, or the others.
    #[inline]
    fn class_cut(&self, mark: &Mark) -> usize
        ensures { (interface : InterfaceValue) → HasNumber self.now.classes interface mark.now.interface
            → (let cuts = class_cut_in self.now.classes interface in if has_bit_of weak_bits mark.now.attr then cuts.0 else cuts.1) ≡ result }
    {
        let number = mark.interface;
        if number as usize >= self.classes.len() {
            return 0;
        }
        self.classes.soundness();
        let (weak, other) = self.classes.cut(number);
        if mark.attr.has_bit_of(Attr::WEAK_BITS) {
            weak
        } else {
            other
        }
    }

    /// Whether a row with a mark counts, given how many rows come before it.
    #[inline]
    pub fn counts(&self, place: usize, mark: &Mark) -> bool
        ensures { (one : KeyedValue) → IsMarkOf self.now.names self.now.classes one mark.now
            → result ≡ counts (cuts_in self.now.names self.now.classes) place (record { keyed = one; closed = mark.now.closed }) }
    {
        !mark.closed
            && self.name_cut(mark.agent) <= place
            && self.name_cut(mark.controller) <= place
            && self.class_cut(mark) <= place
    }

    /// GUIDs, among them that of each interface of a handle that has a number. `alloc` gives the memory for them.
    pub fn protocols_on(&self, alloc: Global, handle: Handle) -> Result<Vec<Guid>, OutOfMemory>
        ensures { IfOk result (λ guids. HasProtocols handle self.now.classes guids.items) }
    {
        let interfaces = self
            .classes
            .between(alloc, start_of(handle), end_of(handle))?;
        guids_of(alloc, interfaces.as_slice())
    }
}
