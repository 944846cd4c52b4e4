ghost use Rattle.std.specs.Prelude.{◌≡◌, ◌≤◌, Some, count_by, find, if◌then◌else◌};
ghost use Rattle.std.specs.List.{list_any};
ghost use Rattle.fw_types.specs.Attr.{has_bit_of};
ghost use Rattle.open_records.specs.OpenRecords.{is_equal, is_strong};
ghost use Rattle.open_records.specs.Verdicts.{against, judge, may_enter};

use crate::open_record::Rec;
use fw_types::Attr;

/// What the records of an interface say about one more open.
#[derive(Clone, Copy, Debug, PartialEq, Eq)]
pub enum Verdict {
    /// The open is entered as one more record.
    Add,
    /// The open is counted by the equal record that is there.
    Count,
    /// The agent already has the interface open as its driver.
    Already,
    /// Another open excludes this one.
    Denied,
    /// The open has to wait until the driver with this handle number is disconnected.
    MustDisconnect(u64),
}

impl Verdict {
    /// Whether the open may be entered: whether the verdict is `Add` or `Count`.
    pub fn may_enter(self) -> bool
        ensures { result ≡ may_enter self }
    {
        match self {
            Verdict::Add | Verdict::Count => true,
            Verdict::Already | Verdict::Denied | Verdict::MustDisconnect(_) => false,
        }
    }
}

/// What the records of one interface say about one more open, by an agent for a controller (UEFI 2.8, 7.3:
/// OpenProtocol). `controller` is 0 if the open is for none. `list` has at most one record with BY_DRIVER or
/// EXCLUSIVE. Takes no memory.
///
/// An open with neither of them is `Count` if a record has the same agent, controller and attribute, and
/// otherwise `Add`. An open with BY_DRIVER or EXCLUSIVE is `Add` if no record has one of them. If one has:
///
/// - an open with BY_DRIVER alone is `Already` if that record has BY_DRIVER alone and is of the same agent,
///   and otherwise `Denied`;
/// - an open with EXCLUSIVE alone is `MustDisconnect` if that record has BY_DRIVER alone, and otherwise
///   `Denied`;
/// - an open with both is `MustDisconnect` if that record has BY_DRIVER alone, `Already` if it has both and
///   is of the same agent, and otherwise `Denied`.
pub fn judge(list: &[Rec], agent: u64, controller: u64, attr: Attr) -> Verdict
    requires { count_by is_strong list.now ≤ 1 }
    ensures { result ≡ judge list.now agent controller attr }
{
    verdict_of(
        strong_in(list),
        equal_in(list, agent, controller, attr),
        agent,
        attr,
    )
}

/// The verdict by the record with BY_DRIVER or EXCLUSIVE, if there is one, and by whether there is an equal
/// record.
pub(crate) fn verdict_of(strong: Option<Rec>, equal: bool, agent: u64, attr: Attr) -> Verdict
    ensures { let by_count = if equal then Verdict.Count else Verdict.Add in
        result ≡ (if has_bit_of Attr.HOLDING_BITS attr then against strong agent attr else by_count) }
{
    if attr.has_bit_of(Attr::HOLDING_BITS) {
        match strong {
            None => Verdict::Add,
            Some(holder) => against(&holder, agent, attr),
        }
    } else if equal {
        Verdict::Count
    } else {
        Verdict::Add
    }
}

/// The verdict on an open with BY_DRIVER or EXCLUSIVE, by a record that has one of them.
fn against(holder: &Rec, agent: u64, attr: Attr) -> Verdict
    ensures { result ≡ against (Some holder.now) agent attr }
{
    let own = holder.agent == agent;
    let disconnect = Verdict::MustDisconnect(holder.agent);
    match (attr.bits(), holder.attr.bits()) {
        (Attr::EXCLUSIVE, Attr::BY_DRIVER) => disconnect,
        (Attr::HOLDING_BITS, Attr::BY_DRIVER) => disconnect,
        (Attr::BY_DRIVER, Attr::BY_DRIVER) => driver_again(own),
        (Attr::HOLDING_BITS, Attr::HOLDING_BITS) => driver_again(own),
        _ => Verdict::Denied,
    }
}

/// The verdict on a driver's open by a record with the same attribute, its own or another driver's.
fn driver_again(own: bool) -> Verdict
    ensures { result ≡ (if own then Verdict.Already else Verdict.Denied) }
{
    if own {
        Verdict::Already
    } else {
        Verdict::Denied
    }
}

/// The first record with BY_DRIVER or EXCLUSIVE.
fn strong_in(list: &[Rec]) -> Option<Rec>
    ensures { result ≡ find is_strong list.now }
{
    list.iter().copied().find(|rec| rec.is_strong())
}

/// Whether a record is of an agent for a controller with an attribute.
fn equal_in(list: &[Rec], agent: u64, controller: u64, attr: Attr) -> bool
    ensures { result ≡ list_any (is_equal agent controller attr) list.now }
{
    list.iter()
        .any(|rec| is_equal(rec, agent, controller, attr))
}

/// Whether a record is of an agent for a controller with an attribute.
fn is_equal(rec: &Rec, agent: u64, controller: u64, attr: Attr) -> bool
    ensures { result ≡ is_equal agent controller attr rec.now }
{
    rec.agent == agent && rec.controller == controller && rec.attr == attr
}
