//! The table of boot services, and how a service is served.
ghost use Rattle.std.specs.Prelude.{◌≡◌, ◌≤◌, ◌%◌, ◌^◌, IfOk, OnOk, false, true};
ghost use Rattle.service_thunks.specs.Arguments.{most_arguments};
ghost use Rattle.service_model.specs.Allowed.{is_allowed};
ghost use Rattle.service_model.specs.SecondLook.{looked_again, second_look};
ghost use Rattle.service_model.specs.Untouched.{goes_on, may_go_on};
ghost use Rattle.service_model.specs.BootServices.{is_boot_service, pool_price, priced_after, priced_first, row, served, with_arguments, with_price};

use crate::changes::end_row;
use fw_types::{Cause, MOST_BYTES, OutOfMemory};
use fw_world::World;
use service_model::laws::{rows_are_allowed, second_looks_end, services_end};
use service_model::{Caller, Change, Opening, Served, Stop};
use service_rows::connecting::{connect_controller, disconnect_controller};
use service_rows::many::{first_pair, install_multiple, uninstall_multiple};
use service_rows::protocols::{
    close, handle_protocol, install, locate_handle, locate_handle_buffer, locate_protocol,
    open_protocol, open_protocol_information, protocols_per_handle, uninstall,
};
use service_rows::rows::{
    allocate_pool, copy_mem, free_pool, raise_tpl, restore_tpl, set_mem, stall, unbuilt,
};
use service_rows::second_look::second_look;
use service_rows::words::slots;
use service_thunks::Service;

// ---- the table, column by column

/// How many arguments a service has.
fn slots_of(s: Service) -> u8
    requires { is_boot_service s ≡ true }
    ensures value { result ≡ (row s).slots }
    ensures few { result ≤ most_arguments }
{
    match s {
        Service::RaiseTpl
        | Service::RestoreTpl
        | Service::FreePool
        | Service::Stall
        | Service::InstallMultiple
        | Service::UninstallMultiple => 1,
        Service::AllocatePool
        | Service::CopyMem
        | Service::SetMem
        | Service::Uninstall
        | Service::HandleProtocol
        | Service::DisconnectController
        | Service::ProtocolsPerHandle
        | Service::LocateProtocol => 3,
        Service::Install
        | Service::ConnectController
        | Service::CloseProtocol
        | Service::OpenProtocolInformation => 4,
        Service::LocateHandle | Service::LocateHandleBuffer => 5,
        Service::OpenProtocol => 6,
        Service::Unbuilt => 0,
        Service::MemRead
        | Service::MemWrite
        | Service::PciRead
        | Service::PciWrite
        | Service::GetLocation
        | Service::Attributes => unreachable!(),
    }
}

/// Whether the price of a service depends on an argument.
fn is_by_argument(s: Service) -> bool
    requires { is_boot_service s ≡ true }
    ensures { result ≡ (row s).by_argument }
{
    matches!(
        s,
        Service::AllocatePool | Service::CopyMem | Service::SetMem
    )
}

/// The price of a service with these arguments, in units.
fn price_of(s: Service, a: &[u64; 16]) -> u64
    requires { is_boot_service s ≡ true }
    ensures { result ≡ (row s).price a.now }
{
    match s {
        Service::FreePool => 4,
        Service::Install
        | Service::Uninstall
        | Service::HandleProtocol
        | Service::OpenProtocol
        | Service::CloseProtocol => 8,
        Service::LocateHandle
        | Service::OpenProtocolInformation
        | Service::ProtocolsPerHandle
        | Service::LocateHandleBuffer
        | Service::LocateProtocol
        | Service::InstallMultiple
        | Service::UninstallMultiple => 16,
        Service::AllocatePool => pool_price(a[1]),
        Service::CopyMem => 1 + a[2].div_ceil(8),
        Service::SetMem => 1 + a[1].div_ceil(8),
        Service::RaiseTpl
        | Service::RestoreTpl
        | Service::Stall
        | Service::ConnectController
        | Service::DisconnectController
        | Service::Unbuilt => 1,
        Service::MemRead
        | Service::MemWrite
        | Service::PciRead
        | Service::PciWrite
        | Service::GetLocation
        | Service::Attributes => unreachable!(),
    }
}

/// The price of AllocatePool for `size` bytes.
fn pool_price(size: u64) -> u64
    ensures { result ≡ pool_price size }
{
    if size > MOST_BYTES {
        1
    } else {
        1 + size.div_ceil(64)
    }
}

/// The lowest 8 bits of an argument.
fn low8(value: u64) -> u8
    ensures { result ≡ value % 2 ^ 8 }
{
    (value % (1 << 8)) as u8
}

/// The lowest 32 bits of an argument.
fn low32(value: u64) -> u32
    ensures { result ≡ value % 2 ^ 32 }
{
    (value % (1 << 32)) as u32
}

/// The change that a service ends with for these arguments, or why it stops.
fn change_for(s: Service, c: &Caller, a: &[u64; 16], w: &World) -> Result<Change, Stop>
    requires { is_boot_service s ≡ true }
    ensures { result ≡ (row s).rest c.now a.now w.now.now }
{
    match s {
        Service::RaiseTpl => raise_tpl(a[0], w),
        Service::RestoreTpl => restore_tpl(a[0], w),
        Service::AllocatePool => allocate_pool(a[1], a[2], w),
        Service::FreePool => free_pool(a[0], w),
        Service::Stall => stall(w),
        Service::Install => install(c.image, a[0], a[1], low32(a[2]), a[3], w),
        Service::Uninstall => uninstall(a[0], a[1], a[2], w),
        Service::HandleProtocol => handle_protocol(a[0], a[1], a[2], w),
        Service::LocateHandle => locate_handle(low32(a[0]), a[1], a[3], a[4], w),
        Service::OpenProtocol => { open_protocol(a[0], a[1], a[2], a[3], a[4], low32(a[5]), w) }
        Service::CloseProtocol => close(a[0], a[1], a[2], a[3], w),
        Service::OpenProtocolInformation => { open_protocol_information(a[0], a[1], a[2], a[3], w) }
        Service::ProtocolsPerHandle => protocols_per_handle(a[0], a[1], a[2], w),
        Service::LocateHandleBuffer => locate_handle_buffer(low32(a[0]), a[1], a[3], a[4], w),
        Service::LocateProtocol => locate_protocol(a[0], a[2], w),
        Service::InstallMultiple => install_multiple(c.image, a[0], first_pair(c.sp), w),
        Service::CopyMem => copy_mem(a[0], a[1], a[2], w),
        Service::SetMem => set_mem(a[0], a[1], low8(a[2]), w),
        Service::ConnectController => connect_controller(a[0], a[1], a[2], low8(a[3]), w),
        Service::UninstallMultiple => uninstall_multiple(a[0], first_pair(c.sp), w),
        Service::DisconnectController => disconnect_controller(a[0], a[1], a[2], w),
        Service::Unbuilt => unbuilt(w),
        Service::MemRead
        | Service::MemWrite
        | Service::PciRead
        | Service::PciWrite
        | Service::GetLocation
        | Service::Attributes => unreachable!(),
    }
}

/// The same change, and the fact that it can be applied.
fn allowed_change(s: Service, c: &Caller, a: &[u64; 16], w: &World) -> Result<Change, Stop>
    requires { is_boot_service s ≡ true }
    ensures value { result ≡ (row s).rest c.now a.now w.now.now }
    ensures allowed { IfOk result (λ change. is_allowed change w.now.now ≡ true) }
{
    rows_are_allowed();
    change_for(s, c, a, w)
}

// ---- how a service is served

/// Reads the arguments of a service, and does what its row says.
fn work(s: Service, c: &Caller, w: &World) -> Result<Change, Stop>
    requires { is_boot_service s ≡ true }
    ensures value { result ≡ with_arguments (row s) c.now w.now.now }
    ensures allowed { IfOk result (λ change. is_allowed change w.now.now ≡ true) }
{
    let a = slots(slots_of(s), c.sp, w)?;
    allowed_change(s, c, &a, w)
}

/// Serves a service whose price does not depend on an argument: the price is spent first.
fn serve_priced_first(w: &mut World, s: Service, c: &Caller) -> Result<Served, OutOfMemory>
    requires { is_boot_service s ≡ true }
    ensures now { IfOk result (λ answer. priced_first (row s) c.now w.old.now ≡ (answer, w.new.now)) }
    ensures marks { OnOk result (w.new.marks ≡ w.old.marks) }
{
    if !w.spend(price_of(s, &[0; 16])) {
        return Ok(Served::Trap(Cause::Budget));
    }
    let change = work(s, c, w);
    end_row(change, w)
}

/// Serves a service with these arguments. Its price depends on one of them.
fn serve_with(w: &mut World, s: Service, c: &Caller, a: &[u64; 16]) -> Result<Served, OutOfMemory>
    requires { is_boot_service s ≡ true }
    ensures now { IfOk result (λ answer. with_price ((row s).price a.now) ((row s).rest c.now a.now) w.old.now ≡ (answer, w.new.now)) }
    ensures marks { OnOk result (w.new.marks ≡ w.old.marks) }
{
    if !w.spend(price_of(s, a)) {
        return Ok(Served::Trap(Cause::Budget));
    }
    let change = allowed_change(s, c, a, w);
    end_row(change, w)
}

/// Serves a service whose price depends on an argument: the arguments are read first.
fn serve_priced_after(w: &mut World, s: Service, c: &Caller) -> Result<Served, OutOfMemory>
    requires { is_boot_service s ≡ true }
    ensures now { IfOk result (λ answer. priced_after (row s) c.now w.old.now ≡ (answer, w.new.now)) }
    ensures marks { OnOk result (w.new.marks ≡ w.old.marks) }
{
    match slots(slots_of(s), c.sp, w) {
        Ok(a) => serve_with(w, s, c, &a),
        Err(stop) => end_row(Err(stop), w),
    }
}

/// Serves a call of a boot service.
fn serve_row(w: &mut World, s: Service, c: &Caller) -> Result<Served, OutOfMemory>
    requires { is_boot_service s ≡ true }
    ensures now { IfOk result (λ answer. served s c.now w.old.now ≡ (answer, w.new.now)) }
    ensures marks { OnOk result (w.new.marks ≡ w.old.marks) }
{
    if is_by_argument(s) {
        serve_priced_after(w, s, c)
    } else {
        serve_priced_first(w, s, c)
    }
}

/// Serves a call of a boot service (UEFI 2.8, chapter 7 'Services - Boot Services'). `s` is one of the
/// boot services, or `Unbuilt`; the arguments are on the caller's stack, 8 bytes each from `c.sp` on.
///
/// First the price is spent, if at least that many units are left. Otherwise the answer is `Trap` with
/// `Budget`, and nothing is spent. Then the arguments are read, and if one can't be read the answer is `Trap`
/// with `Memory`. If the price depends on an argument, the arguments are read before it is spent, and nothing
/// is spent if one can't be read. Then come the statuses of the service in their order, and traps with
/// `Memory` for bytes that it can't read or write. A service that is not built answers UNSUPPORTED. Only
/// ConnectController, DisconnectController, OpenProtocol, UninstallProtocolInterface and
/// UninstallMultipleProtocolInterfaces may answer `Again`.
///
/// # Errors
///
/// `OutOfMemory` if there is no memory.
pub fn serve(w: &mut World, s: Service, c: &Caller) -> Result<Served, OutOfMemory>
    requires { is_boot_service s ≡ true }
    ensures now { IfOk result (λ answer. served s c.now w.old.now ≡ (answer, w.new.now)) }
    ensures marks { OnOk result (w.new.marks ≡ w.old.marks) }
    ensures ends { IfOk result (λ answer. may_go_on s ≡ false → goes_on answer ≡ false) }
{
    services_end();
    serve_row(w, s, c)
}

// ---- the second look of an open

/// The change that a second look ends with, or why it stops. The change can be applied.
fn allowed_look(o: &Opening, w: &World) -> Result<Change, Stop>
    ensures value { result ≡ second_look o.now w.now.now }
    ensures allowed { IfOk result (λ change. is_allowed change w.now.now ≡ true) }
{
    second_looks_end();
    second_look(o, w)
}

/// Looks at an open again after the driver in its way was disconnected, and answers it.
#[tactic(auto, unfolding(service_model::specs::SecondLook::looked_again))]
fn answer_look(w: &mut World, o: &Opening) -> Result<Served, OutOfMemory>
    ensures now { IfOk result (λ answer. looked_again o.now w.old.now ≡ (answer, w.new.now)) }
    ensures marks { OnOk result (w.new.marks ≡ w.old.marks) }
{
    let change = allowed_look(o, w);
    end_row(change, w)
}

/// Answers an OpenProtocol after the driver in its way was disconnected (UEFI 2.8, 7.3). That driver's Stop
/// may have changed anything, so the conditions of the open are checked again in their order, with the
/// arguments and the GUID as they were first read. If any agent has the interface open with BY_DRIVER or
/// EXCLUSIVE, the answer is ACCESS_DENIED. If the table of open records is full, it is OUT_OF_RESOURCES.
/// Otherwise the open is recorded and the interface is stored. No units are spent, and the answer is never
/// `Again`.
///
/// # Errors
///
/// `OutOfMemory` if there is no memory.
pub fn reopen(w: &mut World, o: &Opening) -> Result<Served, OutOfMemory>
    ensures now { IfOk result (λ answer. looked_again o.now w.old.now ≡ (answer, w.new.now)) }
    ensures marks { OnOk result (w.new.marks ≡ w.old.marks) }
    ensures ends { IfOk result (λ answer. goes_on answer ≡ false) }
{
    second_looks_end();
    answer_look(w, o)
}
