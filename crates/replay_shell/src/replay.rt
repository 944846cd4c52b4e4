ghost use Rattle.std.specs.Prelude.{◌≡◌, ◌≢◌, ◌≤◌, None, Some, IfErr, IfOk, IsErrOf, string_bytes, true};
ghost use Rattle.std.specs.List.{list_all};
ghost use Rattle.fw_types.specs.Commands.{has_legal_budgets};
ghost use Rattle.pci_model.specs.BoardRules.{board_fault};
ghost use Rattle.pci_model.specs.Devices.{board_of};
ghost use Rattle.fw_shelf.specs.Faults.{Rose};
ghost use Rattle.fw_shelf.specs.Shelf.{Files};
ghost use Rattle.replay_shell.specs.declared.replay.Stop.TheVariants.{Memory as MemoryStop, Sink as SinkStop};
ghost use Rattle.bind_engine.specs.Boot.{boot_reads, booted};
ghost use Rattle.replay_shell.specs.Headline.{opening_text};
ghost use Rattle.replay_shell.specs.Replay.{Replays, TakesTurn, TakesTurns, stop_of};

use bind_engine::{ExecFault, Machine};
use fw_shelf::{Shelf, Sink, SinkFailed, write_all};
use fw_types::{Command, OutOfMemory};
use pci_model::{Board, BoardFault, BoardLine, board_from};
use report_text::{render, render_boot};
use script_text::Script;
use std::alloc::Global;

/// Why the program gave up.
#[derive(Clone, Copy, Debug, PartialEq, Eq)]
pub enum Stop {
    /// The shelf failed.
    Shelf,
    /// The sink failed.
    Sink,
    /// There was no memory.
    Memory,
}

impl From<ExecFault> for Stop {
    ghost from_gives = { λ fault stop. stop ≡ stop_of fault };

    fn from(fault: ExecFault) -> Stop {
        match fault {
            ExecFault::ShelfFailed => Stop::Shelf,
            ExecFault::OutOfMemory => Stop::Memory,
        }
    }
}

impl From<SinkFailed> for Stop {
    ghost from_gives = { λ _ stop. stop ≡ SinkStop };

    fn from(_error: SinkFailed) -> Stop {
        Stop::Sink
    }
}

impl From<OutOfMemory> for Stop {
    ghost from_gives = { λ _ stop. stop ≡ MemoryStop };

    fn from(_error: OutOfMemory) -> Stop {
        Stop::Memory
    }
}

/// Does one command, and writes its text after it has ended. The budgets of the command are within
/// the limits of a machine.
///
/// # Errors
///
/// - `Shelf` only if the shelf failed, and only at a command that reads a file. Nothing was written
///   then.
/// - `Sink` only if the sink failed; a prefix of the text was written then, and not all of it.
/// - `Memory` if there is no memory; nothing was written then.
fn take_turn<F: Shelf, K: Sink>(
    alloc: Global,
    machine: Machine,
    command: &Command,
    shelf: &mut F,
    sink: &mut K,
) -> Result<Machine, Stop>
    requires budgets { has_legal_budgets command.now ≡ true }
    ensures taken { (files : Files) → F.files shelf.old ≡ Some files
        → TakesTurn files machine command.now result (K.taken sink.old) (K.taken sink.new) }
    ensures shelf_failed { IsErrOf result Stop.Shelf
        → Rose (F.faults shelf.old) (F.faults shelf.new) }
    ensures sink_failed { IsErrOf result Stop.Sink
        → Rose (K.faults sink.old) (K.faults sink.new) }
    ensures same_files { F.files shelf.new ≡ F.files shelf.old }
    ensures shelf_faults { F.faults shelf.old ≤ F.faults shelf.new }
    ensures sink_faults { K.faults sink.old ≤ K.faults sink.new }
    ensures becomes { F.becomes shelf.old shelf.new × K.becomes sink.old sink.new }
{
    let (machine, reply) = machine.exec(command, shelf)?;
    let text = render(alloc, command, &reply)?;
    write_all(sink, text.as_bytes())?;
    Ok(machine)
}

/// Does commands on a machine, one after the other, and writes the text of each after it has ended.
/// The budgets of each command are within the limits of a machine.
///
/// # Errors
///
/// - `Shelf` only if the shelf failed; the texts of the commands before one that reads a file were
///   written then.
/// - `Sink` only if the sink failed; a prefix of the texts was written then, and not all of them.
/// - `Memory` if there is no memory; a prefix of the texts was written then.
fn take_turns<F: Shelf, K: Sink>(
    alloc: Global,
    first: Machine,
    commands: &[Command],
    shelf: &mut F,
    sink: &mut K,
) -> Result<(), Stop>
    requires budgets { list_all has_legal_budgets commands.now ≡ true }
    ensures taken { (files : Files) → F.files shelf.old ≡ Some files
        → TakesTurns files first commands.now result (K.taken sink.old) (K.taken sink.new) }
    ensures shelf_failed { IsErrOf result Stop.Shelf
        → Rose (F.faults shelf.old) (F.faults shelf.new) }
    ensures sink_failed { IsErrOf result Stop.Sink
        → Rose (K.faults sink.old) (K.faults sink.new) }
    ensures same_files { F.files shelf.new ≡ F.files shelf.old }
    ensures shelf_faults { F.faults shelf.old ≤ F.faults shelf.new }
    ensures sink_faults { K.faults sink.old ≤ K.faults sink.new }
    ensures becomes { F.becomes shelf.old shelf.new × K.becomes sink.old sink.new }
{
    let mut machine = first;
    for command in commands {
        machine = take_turn(alloc, machine, command, shelf, sink)?;
    }
    Ok(())
}

/// The board that these lines make.
///
/// # Errors
///
/// `OutOfMemory` if there is no memory for it.
fn board_of(alloc: Global, lines: &[BoardLine]) -> Result<Board, OutOfMemory>
    requires { board_fault lines.now ≡ None }
    ensures { IfOk result (λ board. board ≡ board_of lines.now) }
{
    match board_from(alloc, lines) {
        Ok(board) => Ok(board),
        Err(BoardFault::OutOfMemory) => Err(OutOfMemory),
        Err(_) => unreachable!(),
    }
}

/// A machine with the board that the lines of a script make, and the notes on the board's option
/// ROMs as a text.
///
/// # Errors
///
/// - `Shelf` only if the shelf failed, and only if a line of the board names a file.
/// - `Memory` if there is no memory.
pub fn boot<F: Shelf>(
    alloc: Global,
    script: &Script,
    shelf: &mut F,
) -> Result<(Machine, String), Stop>
    requires board { board_fault script.now.board ≡ None }
    ensures machine { (files : Files) → F.files shelf.old ≡ Some files
        → IfOk result (λ boot. boot.0 ≡ booted files (board_of script.now.board)) }
    ensures notes { (files : Files) → F.files shelf.old ≡ Some files
        → IfOk result (λ boot. string_bytes boot.1 ≡ opening_text files script.now) }
    ensures reads { IsErrOf result Stop.Shelf → boot_reads (board_of script.now.board) ≡ true }
    ensures shelf_failed { IsErrOf result Stop.Shelf
        → Rose (F.faults shelf.old) (F.faults shelf.new) }
    ensures no_sink { IfErr result (λ stop. stop ≢ Stop.Sink) }
    ensures same_files { F.files shelf.new ≡ F.files shelf.old }
    ensures shelf_faults { F.faults shelf.old ≤ F.faults shelf.new }
    ensures becomes { F.becomes shelf.old shelf.new }
{
    let board = board_of(alloc, script.board.as_slice())?;
    let (machine, notes) = Machine::boot(alloc, board, shelf)?;
    let notes = render_boot(alloc, notes.as_slice())?;
    Ok((machine, notes))
}

/// Replays a script. The machine begins with the script's board, whose notes are written. Then it
/// does the commands, and the text of each command is written after it has ended. The lines make a
/// board, and the budgets of each command are within the limits of a machine.
///
/// # Errors
///
/// - `Shelf` only if the shelf failed. By then nothing was written, or the notes and the texts of
///   the commands before one that reads a file.
/// - `Sink` only if the sink failed; a prefix of the text was written then, and not all of it.
/// - `Memory` if there is no memory; a prefix of the text was written then.
pub fn replay<F: Shelf, K: Sink>(
    alloc: Global,
    script: &Script,
    shelf: &mut F,
    sink: &mut K,
) -> Result<(), Stop>
    requires board { board_fault script.now.board ≡ None }
    requires budgets { list_all has_legal_budgets script.now.commands ≡ true }
    ensures taken { (files : Files) → F.files shelf.old ≡ Some files
        → Replays files script.now result (K.taken sink.old) (K.taken sink.new) }
    ensures shelf_failed { IsErrOf result Stop.Shelf
        → Rose (F.faults shelf.old) (F.faults shelf.new) }
    ensures sink_failed { IsErrOf result Stop.Sink
        → Rose (K.faults sink.old) (K.faults sink.new) }
    ensures same_files { F.files shelf.new ≡ F.files shelf.old }
    ensures shelf_faults { F.faults shelf.old ≤ F.faults shelf.new }
    ensures sink_faults { K.faults sink.old ≤ K.faults sink.new }
    ensures becomes { F.becomes shelf.old shelf.new × K.becomes sink.old sink.new }
{
    let (machine, notes) = boot(alloc, script, shelf)?;
    write_all(sink, notes.as_bytes())?;
    take_turns(alloc, machine, script.commands.as_slice(), shelf, sink)
}
