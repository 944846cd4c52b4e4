//! The machine, and which function does which command.
ghost use Rattle.std.specs.Prelude.{◌≡◌, ◌≤◌, ◌*◌, Some, IfErr, IfOk, IsErrOf, OnOk, length, true};
ghost use Rattle.fw_types.specs.Commands.{has_legal_budgets};
ghost use Rattle.fw_types.specs.declared.limits.TheConstants.{CALL_PRICE};
ghost use Rattle.fw_shelf.specs.Faults.{Rose};
ghost use Rattle.fw_shelf.specs.Shelf.{Files, file_of};
ghost use Rattle.bind_engine.specs.declared.machine.ExecFault.TheVariants.{OutOfMemory as NoMemory};
ghost use Rattle.bind_engine.specs.Boot.{boot_notes, boot_reads, booted};
ghost use Rattle.bind_engine.specs.Commands.{begun, budgets_set, command_connected, command_disconnected, command_unloaded, database_dumped, exec, load_ending, platform_set, reads_file, reply_to, status_ending, without_units};
ghost use Rattle.bind_engine.specs.Machine.{IsIdle, are_budgets_legal};

use crate::boot::{BoardRoms, read_roms};
use crate::connect::{connect, disconnect};
use crate::dump::dump;
use crate::ending::Ending;
use crate::load::load;
use crate::settings::with_list;
use crate::unload::unload;
use driver_model::{Disconnection, Settings};
use fw_shelf::Shelf;
use fw_types::{
    CALL_BUDGET, COMMAND_BUDGET, Command, DumpLine, OutOfMemory, PathArg, Reply, RomNote, Rows,
    Status,
};
use fw_world::World;
use pci_model::Board;
use std::alloc::Global;
use std::marker::Model;
use thiserror::Error;
use world_model::laws::{command_paths_fit, rest_is_free};

/// The driver-model machine, which is handed from command to command. A contract sees the state of
/// its world, what commands have set for drivers, and the units of a command. Between commands no
/// mark is open in the world, it has no stack, and no path of a command is mapped.
#[derive(Drop)]
pub struct Machine {
    world: World,
    settings: Settings,
    command_budget: u32,
}

impl Model for Machine {
    ghost use Rattle.std.specs.Prelude.{◌≡◌, true};
    ghost use Rattle.bind_engine.specs.Machine.{IsIdle, MachineView, are_budgets_legal};

    ghost Value = { MachineView };

    ghost view = { λ machine. record {
      world = machine.world.now;
      settings = machine.settings;
      command_budget = machine.command_budget;
    } };

    ghost invariant = { λ machine. IsIdle machine.world
        × (are_budgets_legal machine.command_budget machine.settings.call_budget ≡ true) };
}

/// Why a command gave no reply, or a boot gave no machine. There is no machine after that.
#[derive(Clone, Copy, Debug, PartialEq, Eq, Error)]
pub enum ExecFault {
    /// The shelf failed while a file was read.
    #[error("the shelf failed")]
    ShelfFailed,
    /// There was no memory.
    #[error("out of memory")]
    OutOfMemory,
}

impl From<OutOfMemory> for ExecFault {
    ghost from_gives = { λ _ fault. fault ≡ NoMemory };

    fn from(_error: OutOfMemory) -> ExecFault {
        ExecFault::OutOfMemory
    }
}

/// The machine after a command that ran drivers and ended like this, and the reply to the command.
fn reply(
    mut world: World,
    settings: Settings,
    command_budget: u32,
    ending: Ending,
) -> (Machine, Reply)
    requires idle { IsIdle world }
    requires budgets { are_budgets_legal command_budget settings.call_budget ≡ true }
    requires units { world.now.hard.units ≤ command_budget }
    ensures { reply_to
        (record { world = world.now; settings = settings; command_budget = command_budget })
        (ending, world.now)
        ≡ (result.1, result.0) }
{
    let units = u64::from(command_budget) - world.left();
    let events = world.take_events();
    let reply = Reply {
        status: ending.status,
        units,
        events: Rows::of(events),
        images: ending.images,
        rom: ending.rom,
        dump: Rows::of(Vec::new(world.alloc())),
    };
    let machine = Machine {
        world,
        settings,
        command_budget,
    };
    (machine, reply)
}

/// The reply to a command that spends nothing and makes no event.
fn reply_without_units(alloc: Global, status: Status, dump: Vec<DumpLine>) -> Reply
    ensures { result ≡ without_units status dump.items }
{
    Reply {
        status,
        units: 0,
        events: Rows::of(Vec::new(alloc)),
        images: Rows::of(Vec::new(alloc)),
        rom: None,
        dump: Rows::of(dump),
    }
}

impl Machine {
    /// A machine in its opening state, on a board: the firmware has handle 1, the PCI bus driver
    /// handle 2, and each root bridge one from 3 on. The firmware's tables are mapped, and no image
    /// is loaded. A function whose option ROM a line of the board names has the bytes of that file.
    /// The platform prefers no drivers. A command may spend 4,194,304 units, and a driver call
    /// 1,048,576. In addition to the machine the answer has a note for each file that is absent or
    /// has more than 1,048,576 bytes, in the order of the lines.
    ///
    /// # Errors
    ///
    /// - `ShelfFailed` only if a line of the board names a file, and only if the shelf failed in
    ///   this call.
    /// - `OutOfMemory` if there is no memory for the opening state, the files or the notes.
    pub fn boot<F: Shelf>(
        alloc: Global,
        board: Board,
        shelf: &mut F,
    ) -> Result<(Machine, Vec<RomNote>), ExecFault>
        ensures machine { (files : Files) → F.files shelf.old ≡ Some files → IfOk result
            (λ boot. boot.0 ≡ booted files board) }
        ensures notes { (files : Files) → F.files shelf.old ≡ Some files → IfOk result
            (λ boot. boot.1.items ≡ boot_notes files board) }
        ensures reads { IsErrOf result ExecFault.ShelfFailed → boot_reads board ≡ true }
        ensures failed { IsErrOf result ExecFault.ShelfFailed
            → Rose (F.faults shelf.old) (F.faults shelf.new) }
        ensures same_files { F.files shelf.new ≡ F.files shelf.old }
        ensures faults { F.faults shelf.old ≤ F.faults shelf.new }
        ensures becomes { F.becomes shelf.old shelf.new }
    {
        rest_is_free();
        command_paths_fit();
        let BoardRoms { roms, notes } = read_roms(alloc, &board, shelf)?;
        let settings = Settings {
            platform: Rows::of(Vec::new(alloc)),
            call_budget: CALL_BUDGET,
        };
        let machine = Machine {
            world: World::new(alloc, board, roms)?,
            settings,
            command_budget: COMMAND_BUDGET,
        };
        Ok((machine, notes))
    }

    /// `load`: loads the image or the option ROM in a file.
    fn load<F: Shelf>(self, name: &str, shelf: &mut F) -> Result<(Machine, Reply), ExecFault>
        ensures done { (files : Files) → F.files shelf.old ≡ Some files → IfOk result
            (λ after. reply_to self (load_ending self.settings (file_of files name.now) (begun self))
            ≡ (after.1, after.0)) }
        ensures failed { IsErrOf result ExecFault.ShelfFailed
            → Rose (F.faults shelf.old) (F.faults shelf.new) }
        ensures same_files { F.files shelf.new ≡ F.files shelf.old }
        ensures faults { F.faults shelf.old ≤ F.faults shelf.new }
        ensures becomes { F.becomes shelf.old shelf.new }
        ensures units { IfOk result (λ after. after.1.units ≤ self.command_budget) }
        ensures events { IfOk result
            (λ after. CALL_PRICE * length after.1.events ≤ after.1.units) }
    {
        let mut world = self.world;
        world.begin_command(self.command_budget);
        let ending = load(&mut world, &self.settings, name, shelf)?;
        Ok(reply(world, self.settings, self.command_budget, ending))
    }

    /// `connect`: calls ConnectController (UEFI 2.8, 7.3).
    fn connect(
        self,
        controller: u64,
        recursive: bool,
        path: PathArg,
        context: &[u64],
    ) -> Result<(Machine, Reply), OutOfMemory>
        ensures done { IfOk result (λ after.
            reply_to self (status_ending (command_connected self.settings
            controller recursive path context.now (begun self)))
            ≡ (after.1, after.0)) }
        ensures units { IfOk result (λ after. after.1.units ≤ self.command_budget) }
        ensures events { IfOk result
            (λ after. CALL_PRICE * length after.1.events ≤ after.1.units) }
    {
        let mut world = self.world;
        world.begin_command(self.command_budget);
        let status = connect(
            &mut world,
            &self.settings,
            controller,
            recursive,
            path,
            context,
        )?;
        let ending = Ending::with_status(world.alloc(), status);
        Ok(reply(world, self.settings, self.command_budget, ending))
    }

    /// `disconnect`: calls DisconnectController (UEFI 2.8, 7.3).
    fn disconnect(
        self,
        controller: u64,
        driver: u64,
        child: u64,
    ) -> Result<(Machine, Reply), OutOfMemory>
        ensures done { IfOk result (λ after.
            reply_to self (status_ending (command_disconnected self.settings
            (record { controller = controller; driver = driver; child = child }) (begun self)))
            ≡ (after.1, after.0)) }
        ensures units { IfOk result (λ after. after.1.units ≤ self.command_budget) }
        ensures events { IfOk result
            (λ after. CALL_PRICE * length after.1.events ≤ after.1.units) }
    {
        let mut world = self.world;
        world.begin_command(self.command_budget);
        let d = Disconnection {
            controller,
            driver,
            child,
        };
        let status = disconnect(&mut world, &self.settings, &d)?;
        let ending = Ending::with_status(world.alloc(), status);
        Ok(reply(world, self.settings, self.command_budget, ending))
    }

    /// `unload`: unloads the image of a handle (UEFI 2.8, 7.4: UnloadImage).
    fn unload(self, image: u64) -> Result<(Machine, Reply), OutOfMemory>
        ensures done { IfOk result (λ after.
            reply_to self (status_ending (command_unloaded self.settings image (begun self)))
            ≡ (after.1, after.0)) }
        ensures units { IfOk result (λ after. after.1.units ≤ self.command_budget) }
        ensures events { IfOk result
            (λ after. CALL_PRICE * length after.1.events ≤ after.1.units) }
    {
        let mut world = self.world;
        world.begin_command(self.command_budget);
        let status = unload(&mut world, &self.settings, image)?;
        let ending = Ending::with_status(world.alloc(), status);
        Ok(reply(world, self.settings, self.command_budget, ending))
    }

    /// `platform`: replaces the list of drivers that the platform prefers for a controller.
    fn set_platform(self, controller: u64, drivers: &[u64]) -> Result<(Machine, Reply), OutOfMemory>
        ensures { IfOk result (λ after.
            platform_set controller drivers.now self ≡ (after.1, after.0)) }
    {
        let alloc = self.world.alloc();
        if !self.world.db().is_live(controller) {
            let reply = reply_without_units(alloc, Status::INVALID_PARAMETER, Vec::new(alloc));
            return Ok((self, reply));
        }
        let call_budget = self.settings.call_budget;
        let platform = with_list(alloc, self.settings.platform, controller, drivers)?;
        let machine = Machine {
            world: self.world,
            settings: Settings {
                platform,
                call_budget,
            },
            command_budget: self.command_budget,
        };
        let reply = reply_without_units(alloc, Status::SUCCESS, Vec::new(alloc));
        Ok((machine, reply))
    }

    /// `budget`: sets the units that later commands may spend, and those of later driver calls.
    fn set_budgets(self, command: u32, call: u32) -> (Machine, Reply)
        requires { are_budgets_legal command call ≡ true }
        ensures { budgets_set command call self ≡ (result.1, result.0) }
    {
        let alloc = self.world.alloc();
        let machine = Machine {
            world: self.world,
            settings: Settings {
                platform: self.settings.platform,
                call_budget: call,
            },
            command_budget: command,
        };
        let reply = reply_without_units(alloc, Status::SUCCESS, Vec::new(alloc));
        (machine, reply)
    }

    /// `dump`: lists the handle database.
    fn dump(self) -> Result<(Machine, Reply), OutOfMemory>
        ensures { IfOk result (λ after. database_dumped self ≡ (after.1, after.0)) }
    {
        let lines = dump(&self.world)?;
        let reply = reply_without_units(self.world.alloc(), Status::SUCCESS, lines);
        Ok((self, reply))
    }

    /// Does what a command asks for, with the files of a shelf. The answer is the machine after the
    /// command, and the reply to it. The numbers of a `budget` command are within the limits: from
    /// 1 to 33,554,432 for a command, and from 64 to 33,554,432 for a driver call.
    ///
    /// # Errors
    ///
    /// - `ShelfFailed` only from a command that reads a file, and only if the shelf failed in this
    ///   call.
    /// - `OutOfMemory` if there is no memory for what the command does.
    pub fn exec<F: Shelf>(
        self,
        command: &Command,
        shelf: &mut F,
    ) -> Result<(Machine, Reply), ExecFault>
        requires budgets { has_legal_budgets command.now ≡ true }
        ensures done { (files : Files) → F.files shelf.old ≡ Some files → IfOk result
            (λ after. exec command.now files self ≡ (after.1, after.0)) }
        ensures reads { IsErrOf result ExecFault.ShelfFailed → reads_file command.now ≡ true }
        ensures failed { IsErrOf result ExecFault.ShelfFailed
            → Rose (F.faults shelf.old) (F.faults shelf.new) }
        ensures same_files { F.files shelf.new ≡ F.files shelf.old }
        ensures faults { F.faults shelf.old ≤ F.faults shelf.new }
        ensures becomes { F.becomes shelf.old shelf.new }
        ensures units { IfOk result (λ after. after.1.units ≤ self.command_budget) }
        ensures events { IfOk result
            (λ after. CALL_PRICE * length after.1.events ≤ after.1.units) }
    {
        match command {
            Command::Load { name } => self.load(name.as_str(), shelf),
            Command::Connect {
                controller,
                recursive,
                path,
                context,
            } => Ok(self.connect(*controller, *recursive, *path, context.as_slice())?),
            Command::Disconnect {
                controller,
                driver,
                child,
            } => Ok(self.disconnect(*controller, *driver, *child)?),
            Command::Unload { image } => Ok(self.unload(*image)?),
            Command::Platform {
                controller,
                drivers,
            } => Ok(self.set_platform(*controller, drivers.as_slice())?),
            Command::Budget { command, call } => Ok(self.set_budgets(*command, *call)),
            Command::Dump => Ok(self.dump()?),
        }
    }
}
