//! What the PCI bus driver answers for a controller and a remaining device path (UEFI 2.8, 14.3.2.1:
//! Driver Binding Protocol for PCI Bus Drivers).
ghost use Rattle.std.specs.Prelude.{ℕ, ◌≡◌, ◌∷◌, [], IfOk, Some, length, true, is_some};
ghost use Rattle.std.specs.Option.{option_map_or};
ghost use Rattle.world_model.specs.Boards.{root_bus};
ghost use Rattle.driver_model.specs.BusSupport.{chosen, functions_chosen, node_choice, path_choice, refusal_by, root_verdict, support_status};
ghost use Rattle.driver_model.specs.declared.bus_driver.PathChoice.{PathChoice as PathChoiceValue};

use device_path::is_end;
use driver_model::PathChoice;
use fw_types::{Attr, Guid, Handle, Known, OutOfMemory, Status};
use fw_world::World;
use open_records::Verdict;
use std::alloc::Global;

/// How a PCI node of a device path begins: its type, its sub-type and its length (UEFI 2.8,
/// 10.3.2.1: PCI Device Path).
const PCI_HEADER: [u8; 4] = [0x01, 0x01, 0x06, 0x00];

/// How many bytes of an End node are looked at.
const END_SIZE: u64 = 2;

/// How many bytes a PCI node has.
const PCI_SIZE: u64 = 6;

/// Which function a node asks for, if it is a PCI node.
fn node_choice(node: &[u8]) -> Option<PathChoice>
    requires { length node.now ≡ 6 }
    ensures { result ≡ node_choice node.now }
{
    if !node.starts_with(&PCI_HEADER) {
        return None;
    }
    Some(PathChoice::OneFunction {
        device: node[5],
        function: node[4],
    })
}

/// Which functions a remaining device path asks for. `None` exactly if it is neither NULL, nor an
/// End node, nor a PCI node that can be read.
fn path_choice(w: &World, path: u64) -> Option<PathChoice>
    ensures { result ≡ path_choice path w.now.now.soft }
{
    if path == 0 {
        return Some(PathChoice::AllFunctions);
    }
    if w.can_read(path, END_SIZE) && is_end(w.bytes(path, END_SIZE)) {
        return Some(PathChoice::NoFunction);
    }
    if !w.can_read(path, PCI_SIZE) {
        return None;
    }
    node_choice(w.bytes(path, PCI_SIZE))
}

/// The status of the bus driver's open of a controller's root bridge I/O BY_DRIVER, if that open is
/// refused.
fn root_refusal(w: &World, controller: Handle) -> Option<Status>
    ensures { result ≡ refusal_by (root_verdict controller w.now.now.soft) }
{
    let Some(by_driver) = Attr::legal(Attr::BY_DRIVER) else {
        unreachable!()
    };
    let name = Guid::known(Known::RootBridgeIo);
    let driver = Handle::bus_driver().get();
    match w
        .entries()
        .judged(controller, name, driver, controller.get(), by_driver)
    {
        Verdict::Add | Verdict::Count => None,
        Verdict::Already => Some(Status::ALREADY_STARTED),
        Verdict::Denied | Verdict::MustDisconnect(_) => Some(Status::ACCESS_DENIED),
    }
}

/// What Supported of the PCI bus driver answers (UEFI 2.8, 11.1:
/// EFI_DRIVER_BINDING_PROTOCOL.Supported()): UNSUPPORTED if the controller has no root bridge I/O of
/// the firmware, or if the path is neither NULL, nor an End node, nor a PCI node that can be read;
/// ALREADY_STARTED or ACCESS_DENIED if open records of root bridge I/O keep the bus driver out; and
/// otherwise SUCCESS. Takes no memory.
#[tactic(auto, unfolding(driver_model::specs::BusSupport::functions_chosen))]
pub fn bus_supported(w: &World, controller: Handle, path: u64) -> Status
    ensures { result ≡ support_status (functions_chosen controller path w.now.now) }
{
    let Some(_bus) = w.root_bus(controller.get()) else {
        return Status::UNSUPPORTED;
    };
    let Some(_choice) = path_choice(w, path) else {
        return Status::UNSUPPORTED;
    };
    match root_refusal(w, controller) {
        Some(status) => status,
        None => Status::SUCCESS,
    }
}

/// A list of one function, or an empty list if there is none.
fn one_function(alloc: Global, number: Option<u32>) -> Result<Vec<u32>, OutOfMemory>
    ensures { IfOk result (λ numbers. numbers.items ≡ option_map_or (λ number. number ∷ []) number []) }
{
    let mut numbers = Vec::new(alloc);
    if let Some(number) = number {
        numbers.push(number)?;
    }
    Ok(numbers)
}

/// The functions of a choice, in their order.
fn chosen(w: &World, choice: PathChoice, bus: u8) -> Result<Vec<u32>, OutOfMemory>
    ensures { IfOk result (λ numbers. numbers.items
        ≡ chosen choice bus w.now.now.hard.board.lines) }
{
    match choice {
        PathChoice::AllFunctions => w.board().functions_below(w.alloc(), bus),
        PathChoice::NoFunction => Ok(Vec::new(w.alloc())),
        PathChoice::OneFunction { device, function } => {
            one_function(w.alloc(), w.board().find(bus, device, function))
        }
    }
}

/// The functions for which Start of the PCI bus driver makes children, in their order (UEFI 2.8,
/// 11.1: EFI_DRIVER_BINDING_PROTOCOL.Start()). For a NULL path these are all functions on the bus of
/// the root bridge and below it, by device and then by function number, each bridge followed by
/// those below it. For an End node there are none. For a PCI node it is the one that the node names
/// on the bus itself, if there is one. The controller has root bridge I/O of the firmware, and the
/// path is one of these three.
///
/// # Errors
///
/// `OutOfMemory` if there is no memory for the list.
pub fn bus_start(w: &World, controller: Handle, path: u64) -> Result<Vec<u32>, OutOfMemory>
    requires root { is_some (root_bus controller w.now.now) ≡ true }
    requires path { is_some (path_choice path w.now.now.soft) ≡ true }
    ensures { (bus : ℕ) (choice : PathChoiceValue)
        → root_bus controller w.now.now ≡ Some bus → path_choice path w.now.now.soft ≡ Some choice
        → IfOk result (λ numbers. numbers.items ≡ chosen choice bus w.now.now.hard.board.lines) }
{
    let (Some(bus), Some(choice)) = (w.root_bus(controller.get()), path_choice(w, path)) else {
        unreachable!()
    };
    chosen(w, choice, bus)
}
