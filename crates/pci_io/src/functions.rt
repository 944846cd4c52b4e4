//! The table of the functions of PCI I/O, and how a call is served.
ghost use Rattle.std.specs.Prelude.{◌≡◌, ◌≤◌, ◌%◌, ◌^◌, IfOk, OnOk, false, true};
ghost use Rattle.service_thunks.specs.Arguments.{most_arguments};
ghost use Rattle.service_model.specs.Allowed.{is_allowed};
ghost use Rattle.service_model.specs.Untouched.{goes_on};
ghost use Rattle.service_model.specs.PciIo.{transfer_price};
ghost use Rattle.service_model.specs.BootServices.{is_boot_service, priced_after, priced_first, row, served, with_arguments, with_price};

use crate::rows::{attributes, get_location, read_device, write_device};
use fw_types::{Cause, OutOfMemory};
use fw_world::World;
use leaf_services::end_row;
use pci_model::Space;
use service_model::laws::{rows_are_allowed, services_end};
use service_model::{Caller, Change, PRICED_ELEMENTS, Served, Stop};
use service_rows::words::slots;
use service_thunks::Service;

/// The price of GetLocation and of Attributes.
const PRICE: u64 = 4;

// ---- the table, column by column

/// How many arguments a function has.
fn slots_of(s: Service) -> u8
    requires { is_boot_service s ≡ false }
    ensures value { result ≡ (row s).slots }
    ensures few { result ≤ most_arguments }
{
    match s {
        Service::MemRead | Service::MemWrite => 6,
        Service::PciRead | Service::PciWrite | Service::GetLocation => 5,
        _ => 4,
    }
}

/// Whether the price of a function depends on an argument.
fn is_by_argument(s: Service) -> bool
    requires { is_boot_service s ≡ false }
    ensures { result ≡ (row s).by_argument }
{
    !matches!(s, Service::GetLocation | Service::Attributes)
}

/// The price of a transfer of `count` elements.
fn transfer_price(count: u64) -> u64
    ensures { result ≡ transfer_price count }
{
    4 + count.min(PRICED_ELEMENTS)
}

/// The price of a function with these arguments, in units.
fn price_of(s: Service, a: &[u64; 16]) -> u64
    requires { is_boot_service s ≡ false }
    ensures { result ≡ (row s).price a.now }
{
    match s {
        Service::MemRead | Service::MemWrite => transfer_price(a[4]),
        Service::PciRead | Service::PciWrite => transfer_price(a[3]),
        _ => PRICE,
    }
}

/// The lowest 8 bits of an argument.
fn low8(value: u64) -> u8
    ensures { result ≡ value % 2 ^ 8 }
{
    (value % (1 << 8)) as u8
}

/// The lowest 32 bits of an argument.
fn low32(value: u64) -> u32
    ensures { result ≡ value % 2 ^ 32 }
{
    (value % (1 << 32)) as u32
}

/// The change that a function ends with for these arguments, or why it stops.
fn change_for(s: Service, c: &Caller, a: &[u64; 16], w: &World) -> Result<Change, Stop>
    requires { is_boot_service s ≡ false }
    ensures { result ≡ (row s).rest c.now a.now w.now.now }
{
    let (this, width) = (a[0], low32(a[1]));
    let (bar, at) = (Space::Bar(low8(a[2])), u64::from(low32(a[2])));
    match s {
        Service::MemRead => read_device(this, width, bar, a[3], a[4], a[5], w),
        Service::MemWrite => write_device(this, width, bar, a[3], a[4], a[5], w),
        Service::PciRead => read_device(this, width, Space::Config, at, a[3], a[4], w),
        Service::PciWrite => write_device(this, width, Space::Config, at, a[3], a[4], w),
        Service::GetLocation => get_location(this, a[1], a[2], a[3], a[4], w),
        Service::Attributes => attributes(this, width, a[2], a[3], w),
        _ => unreachable!(),
    }
}

/// The same change, and the fact that it can be applied.
fn allowed_change(s: Service, c: &Caller, a: &[u64; 16], w: &World) -> Result<Change, Stop>
    requires { is_boot_service s ≡ false }
    ensures value { result ≡ (row s).rest c.now a.now w.now.now }
    ensures allowed { IfOk result (λ change. is_allowed change w.now.now ≡ true) }
{
    rows_are_allowed();
    change_for(s, c, a, w)
}

// ---- how a call is served

/// Reads the arguments of a function, and does what its row says.
fn work(s: Service, c: &Caller, w: &World) -> Result<Change, Stop>
    requires { is_boot_service s ≡ false }
    ensures value { result ≡ with_arguments (row s) c.now w.now.now }
    ensures allowed { IfOk result (λ change. is_allowed change w.now.now ≡ true) }
{
    let a = slots(slots_of(s), c.sp, w)?;
    allowed_change(s, c, &a, w)
}

/// Serves a function whose price does not depend on an argument: the price is spent first.
fn serve_priced_first(w: &mut World, s: Service, c: &Caller) -> Result<Served, OutOfMemory>
    requires { is_boot_service s ≡ false }
    ensures now { IfOk result (λ answer. priced_first (row s) c.now w.old.now ≡ (answer, w.new.now)) }
    ensures marks { OnOk result (w.new.marks ≡ w.old.marks) }
{
    if !w.spend(price_of(s, &[0; 16])) {
        return Ok(Served::Trap(Cause::Budget));
    }
    let change = work(s, c, w);
    end_row(change, w)
}

/// Serves a function with these arguments. Its price depends on one of them.
fn serve_with(w: &mut World, s: Service, c: &Caller, a: &[u64; 16]) -> Result<Served, OutOfMemory>
    requires { is_boot_service s ≡ false }
    ensures now { IfOk result (λ answer. with_price ((row s).price a.now) ((row s).rest c.now a.now) w.old.now ≡ (answer, w.new.now)) }
    ensures marks { OnOk result (w.new.marks ≡ w.old.marks) }
{
    if !w.spend(price_of(s, a)) {
        return Ok(Served::Trap(Cause::Budget));
    }
    let change = allowed_change(s, c, a, w);
    end_row(change, w)
}

/// Serves a function whose price depends on an argument: the arguments are read first.
fn serve_priced_after(w: &mut World, s: Service, c: &Caller) -> Result<Served, OutOfMemory>
    requires { is_boot_service s ≡ false }
    ensures now { IfOk result (λ answer. priced_after (row s) c.now w.old.now ≡ (answer, w.new.now)) }
    ensures marks { OnOk result (w.new.marks ≡ w.old.marks) }
{
    match slots(slots_of(s), c.sp, w) {
        Ok(a) => serve_with(w, s, c, &a),
        Err(stop) => end_row(Err(stop), w),
    }
}

/// Serves a call of a function of PCI I/O.
fn serve_row(w: &mut World, s: Service, c: &Caller) -> Result<Served, OutOfMemory>
    requires { is_boot_service s ≡ false }
    ensures now { IfOk result (λ answer. served s c.now w.old.now ≡ (answer, w.new.now)) }
    ensures marks { OnOk result (w.new.marks ≡ w.old.marks) }
{
    if is_by_argument(s) {
        serve_priced_after(w, s, c)
    } else {
        serve_priced_first(w, s, c)
    }
}

/// Serves a call of PCI I/O (UEFI 2.8, 14.4: EFI PCI I/O Protocol). `s` is one of Mem.Read, Mem.Write,
/// Pci.Read, Pci.Write, GetLocation and Attributes; the arguments are on the caller's stack, 8 bytes each
/// from `c.sp` on.
///
/// For the first four the arguments are read, and then the price is spent: 4 units, and one for each
/// element, up to 65,536. For the other two the price of 4 units is spent first. Then come the statuses and
/// traps of the function in their order. What is written to a device stays, whatever is undone later. The
/// answer is never `Again`.
///
/// # Errors
///
/// `OutOfMemory` if there is no memory.
pub fn pci_serve(w: &mut World, s: Service, c: &Caller) -> Result<Served, OutOfMemory>
    requires { is_boot_service s ≡ false }
    ensures now { IfOk result (λ answer. served s c.now w.old.now ≡ (answer, w.new.now)) }
    ensures marks { OnOk result (w.new.marks ≡ w.old.marks) }
    ensures ends { IfOk result (λ answer. goes_on answer ≡ false) }
{
    services_end();
    serve_row(w, s, c)
}
