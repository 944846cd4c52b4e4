//! What Supported and Start of the PCI bus driver do before option ROMs are loaded (UEFI 2.8, 11.1:
//! EFI Driver Binding Protocol; 14.3.2: PCI Bus Drivers).
ghost use Rattle.std.specs.Prelude.{ℕ, ◌≡◌, ◌∷◌, ◌≤◌, [], List, Option, IfOk, OnOk, false, if◌then◌else◌, is_some, length, true};
ghost use Rattle.world_model.specs.Boards.{root_bus};
ghost use Rattle.world_model.specs.Marks.{stacks};
ghost use Rattle.world_model.specs.World.{State, on_soft};
ghost use Rattle.driver_model.specs.Moves.{plain};
ghost use Rattle.driver_model.specs.Level.{Level};
ghost use Rattle.driver_model.specs.BusChildren.{bus_child_made, is_bus_child_full, is_root_record_full, root_entered};
ghost use Rattle.driver_model.specs.BusDriver.{after_children, bus_started, children_made};
ghost use Rattle.driver_model.specs.BusLaws.{CanBeOpened};
ghost use Rattle.driver_model.specs.BusSupport.{functions_chosen, support_status};
ghost use Rattle.driver_model.specs.DriverCall.{path_of};
ghost use Rattle.driver_model.specs.declared.bus_driver.NewChild.{NewChild as NewChildValue};
ghost use Rattle.driver_model.specs.declared.call.Scope.{Scope as ScopeValue};
ghost use Rattle.bind_parts.specs.BusTurns.{child_or_end, made_of};
ghost use Rattle.bind_parts.specs.Events.{NoFewerEvents};

use crate::handles::live_handle;
use driver_model::bus_laws::{children_can_be_opened, roots_can_be_opened};
use driver_model::{CHILD_PRICE, Call, NewChild};
use fw_types::{Attr, Cause, Guid, Handle, Known, OutOfMemory, Outcome, Rows, Status};
use fw_world::{World, WorldFault};
use open_records::RecFault;
use pci_bus::{bus_start, bus_supported, make_child};

/// BY_DRIVER, as the bus driver opens root bridge I/O for the root bridge itself.
fn by_driver() -> Attr
    ensures { result ≡ Attr.BY_DRIVER }
{
    match Attr::legal(Attr::BY_DRIVER) {
        Some(attr) => attr,
        None => unreachable!(),
    }
}

/// BY_CHILD_CONTROLLER, as the bus driver opens root bridge I/O for a child.
fn by_child() -> Attr
    ensures { result ≡ Attr.BY_CHILD_CONTROLLER }
{
    match Attr::legal(Attr::BY_CHILD_CONTROLLER) {
        Some(attr) => attr,
        None => unreachable!(),
    }
}

/// The remaining device path of Supported and Start, their third argument.
pub fn path_of(call: &Call) -> u64
    ensures { result ≡ path_of call.now }
{
    call.slots[2]
}

/// What Supported of the bus driver answers.
pub fn bus_support(world: &World, controller: u64, path: u64) -> Status
    ensures { result ≡ support_status (functions_chosen controller path world.now.now) }
{
    roots_can_be_opened();
    match live_handle(world, controller) {
        Some(root) => bus_supported(world, root, path),
        None => Status::UNSUPPORTED,
    }
}

/// Whether an open of root bridge I/O by the bus driver, for a handle, needs a new record when
/// there is no room for one.
fn is_root_record_full(world: &World, root: Handle, child: Handle, attr: Attr) -> bool
    ensures { result ≡ is_root_record_full root child attr world.now.now.soft }
{
    let name = Guid::known(Known::RootBridgeIo);
    let driver = Handle::bus_driver().get();
    world
        .entries()
        .is_full(root, name, driver, child.get(), attr)
}

/// Opens root bridge I/O by the bus driver, for a handle.
///
/// # Errors
///
/// `OutOfMemory` if there is no memory.
fn open_root(world: &mut World, root: Handle, child: Handle, attr: Attr) -> Result<(), OutOfMemory>
    requires can { CanBeOpened root child attr world.old.now.soft }
    requires room { is_root_record_full root child attr world.old.now.soft ≡ false }
    ensures now { OnOk result (world.new.now ≡ on_soft (root_entered root child attr) world.old.now) }
    ensures marks { OnOk result (world.new.marks ≡ world.old.marks) }
{
    let name = Guid::known(Known::RootBridgeIo);
    let driver = Handle::bus_driver().get();
    match world.enter(root, name, driver, child.get(), attr) {
        Ok(()) => Ok(()),
        Err(RecFault::OutOfMemory) => Err(OutOfMemory),
        Err(RecFault::Full) => unreachable!(),
    }
}

/// Makes a child of a root bridge for a function, and opens root bridge I/O for it. The answer is
/// `None` if that meets a limit, and then everything is as before.
///
/// # Errors
///
/// `OutOfMemory` if there is no memory.
fn add_child(world: &mut World, root: Handle, f: u32) -> Result<Option<NewChild>, OutOfMemory>
    requires { is_some (root_bus root world.old.now) ≡ true }
    ensures child { IfOk result (λ child. child ≡ made_of root f world.old.now) }
    ensures now { OnOk result (world.new.now ≡ (if is_bus_child_full root f world.old.now
        then world.old.now else bus_child_made root f world.old.now)) }
    ensures root { OnOk result (is_some (root_bus root world.new.now) ≡ true) }
    ensures marks { OnOk result (world.new.marks ≡ world.old.marks) }
    ensures stacks { OnOk result (stacks world.new.now.soft ≡ stacks world.old.now.soft) }
    ensures hard { OnOk result (world.new.now.hard ≡ world.old.now.hard) }
{
    children_can_be_opened();
    world.is_kept();
    let next = world.db().next();
    if is_root_record_full(world, root, next, by_child()) {
        return Ok(None);
    }
    match make_child(world, root, f) {
        Ok(handle) => {
            open_root(world, root, handle, by_child())?;
            Ok(Some(NewChild {
                handle,
                function: f,
            }))
        }
        Err(WorldFault::OutOfMemory) => Err(OutOfMemory),
        Err(_) => Ok(None),
    }
}

/// Pays for a child and makes it, or answers how Start ends: by `Budget` if too few units are left,
/// or with OUT_OF_RESOURCES at a limit.
///
/// # Errors
///
/// `OutOfMemory` if there is no memory.
fn pay_and_add(
    world: &mut World,
    root: Handle,
    f: u32,
) -> Result<Result<NewChild, Outcome>, OutOfMemory>
    requires { is_some (root_bus root world.old.now) ≡ true }
    ensures made { (numbers : List ℕ) (children : List NewChildValue) → IfOk result (λ made.
        children_made plain root (f ∷ numbers) children world.old.now
        ≡ child_or_end made (children_made plain root numbers) children world.new.now) }
    ensures root { OnOk result (is_some (root_bus root world.new.now) ≡ true) }
    ensures marks { OnOk result (world.new.marks ≡ world.old.marks) }
    ensures stacks { OnOk result (stacks world.new.now.soft ≡ stacks world.old.now.soft) }
    ensures units { OnOk result (world.new.now.hard.units ≤ world.old.now.hard.units) }
    ensures events { OnOk result (NoFewerEvents world.old.now world.new.now) }
{
    if world.left() < CHILD_PRICE {
        return Ok(Err(Outcome::Trapped(Cause::Budget)));
    }
    world.spend(CHILD_PRICE);
    match add_child(world, root, f)? {
        Some(child) => Ok(Ok(child)),
        None => Ok(Err(Outcome::Value(Status::OUT_OF_RESOURCES))),
    }
}

/// Makes a child for each of these functions, in their order, or answers how Start ends.
///
/// # Errors
///
/// `OutOfMemory` if there is no memory.
fn make_children(
    world: &mut World,
    root: Handle,
    numbers: &[u32],
) -> Result<Result<Rows<NewChild>, Outcome>, OutOfMemory>
    requires { is_some (root_bus root world.old.now) ≡ true }
    ensures now { IfOk result (λ children.
        children_made plain root numbers.now [] world.old.now ≡ (children, world.new.now)) }
    ensures marks { OnOk result (world.new.marks ≡ world.old.marks) }
    ensures stacks { OnOk result (stacks world.new.now.soft ≡ stacks world.old.now.soft) }
    ensures units { OnOk result (world.new.now.hard.units ≤ world.old.now.hard.units) }
    ensures events { OnOk result (NoFewerEvents world.old.now world.new.now) }
{
    let mut children = Vec::new(world.alloc());
    for number in numbers {
        match pay_and_add(world, root, *number)? {
            Ok(child) => children.push(child)?,
            Err(outcome) => return Ok(Err(outcome)),
        }
    }
    Ok(Ok(Rows::of(children)))
}

/// Opens root bridge I/O of a controller that is supported, and makes its children, or answers how
/// Start ends.
///
/// # Errors
///
/// `OutOfMemory` if there is no memory.
fn open_and_make(
    world: &mut World,
    root: Handle,
    path: u64,
) -> Result<Result<Rows<NewChild>, Outcome>, OutOfMemory>
    requires { support_status (functions_chosen root path world.old.now) ≡ Status.SUCCESS }
    ensures start { (below : Option (Level State)) (scope : ScopeValue) → IfOk result (λ children.
        bus_started plain below scope root path world.old.now
        ≡ after_children plain below scope (children, world.new.now)) }
    ensures marks { OnOk result (world.new.marks ≡ world.old.marks) }
    ensures stacks { OnOk result (stacks world.new.now.soft ≡ stacks world.old.now.soft) }
    ensures units { OnOk result (world.new.now.hard.units ≤ world.old.now.hard.units) }
    ensures events { OnOk result (NoFewerEvents world.old.now world.new.now) }
{
    roots_can_be_opened();
    world.is_kept();
    let numbers = bus_start(world, root, path)?;
    if is_root_record_full(world, root, root, by_driver()) {
        return Ok(Err(Outcome::Value(Status::OUT_OF_RESOURCES)));
    }
    open_root(world, root, root, by_driver())?;
    make_children(world, root, numbers.as_slice())
}

/// Does what Start of the bus driver does before option ROMs are loaded, and answers the children
/// that it made. If Start ends before that, the answer is how it ends.
///
/// # Errors
///
/// `OutOfMemory` if there is no memory.
pub fn begin_start(
    world: &mut World,
    controller: u64,
    path: u64,
) -> Result<Result<Rows<NewChild>, Outcome>, OutOfMemory>
    ensures start { (below : Option (Level State)) (scope : ScopeValue) → IfOk result (λ children.
        bus_started plain below scope controller path world.old.now
        ≡ after_children plain below scope (children, world.new.now)) }
    ensures marks { OnOk result (world.new.marks ≡ world.old.marks) }
    ensures stacks { OnOk result (stacks world.new.now.soft ≡ stacks world.old.now.soft) }
    ensures units { OnOk result (world.new.now.hard.units ≤ world.old.now.hard.units) }
    ensures events { OnOk result (NoFewerEvents world.old.now world.new.now) }
{
    roots_can_be_opened();
    let Some(root) = live_handle(world, controller) else {
        return Ok(Err(Outcome::Value(Status::UNSUPPORTED)));
    };
    let status = bus_supported(world, root, path);
    if status != Status::SUCCESS {
        return Ok(Err(Outcome::Value(status)));
    }
    open_and_make(world, root, path)
}
