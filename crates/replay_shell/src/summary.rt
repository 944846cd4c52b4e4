//! What the replies of a script come to.
ghost use Rattle.std.specs.Prelude.{◌≡◌, ◌≤◌, ◌<◌, ◌^◌, [], None, IfErr, IfOk, count_by, length, true};
ghost use Rattle.std.specs.List.{list_all};
ghost use Rattle.fw_types.specs.Commands.{has_legal_budgets};
ghost use Rattle.fw_types.specs.declared.limits.TheConstants.{MOST_BUDGET};
ghost use Rattle.pci_model.specs.BoardRules.{board_fault};
ghost use Rattle.replay_shell.specs.Headline.{is_handle, live_handles, machine_after, replies, summary_of, totals_of};

use crate::replay::{Stop, boot};
use bind_engine::{ExecFault, Machine};
use fw_shelf::MemShelf;
use fw_types::{Command, DumpLine};
use script_text::Script;
use std::alloc::Global;

/// Sums over replies.
#[derive(Clone, Copy, Debug)]
pub struct Totals {
    /// How many replies there are.
    pub commands: u64,
    /// The units that the commands spent.
    pub units: u64,
    /// Their driver calls and activations.
    pub events: u64,
}

/// What a script comes to.
#[derive(Clone, Copy, Debug)]
pub struct Summary {
    /// The sums over its replies.
    pub totals: Totals,
    /// How many handles are live after its last command.
    pub handles: u64,
}

/// Does commands on a machine, one after the other, with the files of a shelf that never fails, and
/// adds up their replies. The answer is the machine after them, and the sums. The budgets of each
/// command are within the limits of a machine.
///
/// # Errors
///
/// `OutOfMemory` if there is no memory for what a command does.
fn totals_of(
    first: Machine,
    commands: &[Command],
    shelf: &mut MemShelf,
) -> Result<(Machine, Totals), ExecFault>
    requires budgets { list_all has_legal_budgets commands.now ≡ true }
    requires few { length commands.now < 2 ^ 32 }
    requires budget { first.command_budget ≤ MOST_BUDGET }
    requires calm { (shelf.old.failing_reads ≡ []) × (shelf.old.faults ≡ 0) }
    ensures machine { IfOk result
        (λ end. end.0 ≡ machine_after shelf.old.files first commands.now) }
    ensures totals { IfOk result
        (λ end. end.1 ≡ totals_of (replies shelf.old.files first commands.now)) }
    ensures memory { IfErr result (λ fault. fault ≡ ExecFault.OutOfMemory) }
    ensures files { shelf.new.files ≡ shelf.old.files }
    ensures still_calm { (shelf.new.failing_reads ≡ []) × (shelf.new.faults ≡ 0) }
{
    let mut machine = first;
    let mut totals = Totals {
        commands: 0,
        units: 0,
        events: 0,
    };
    for command in commands {
        let (next, reply) = machine.exec(command, shelf)?;
        totals.commands += 1;
        totals.units += reply.units;
        totals.events += reply.events.as_slice().len() as u64;
        machine = next;
    }
    Ok((machine, totals))
}

/// Whether a line of a dump is the line of a handle.
fn is_handle(line: &DumpLine) -> bool
    ensures { result ≡ is_handle line.now }
{
    matches!(line, DumpLine::Handle(_))
}

/// How many lines of a dump are lines of handles.
fn handle_count(lines: &[DumpLine]) -> u64
    ensures { result ≡ count_by is_handle lines.now }
{
    lines.iter().filter(|line| is_handle(line)).count() as u64
}

/// How many handles of a machine are live.
///
/// # Errors
///
/// `OutOfMemory` if there is no memory for a dump.
fn live_handles(machine: Machine, shelf: &mut MemShelf) -> Result<u64, ExecFault>
    requires calm { (shelf.old.failing_reads ≡ []) × (shelf.old.faults ≡ 0) }
    ensures handles { IfOk result (λ handles. handles ≡ live_handles shelf.old.files machine) }
    ensures memory { IfErr result (λ fault. fault ≡ ExecFault.OutOfMemory) }
{
    let (_machine, reply) = machine.exec(&Command::Dump, shelf)?;
    Ok(handle_count(reply.dump.as_slice()))
}

/// Replays a script with the files of a shelf that never fails, and sums up its replies as they come.
/// Its lines make a board, and the budgets of each command are within the limits of a machine.
///
/// # Errors
///
/// `Memory` if there is no memory.
pub fn summary_of(alloc: Global, script: &Script, shelf: &mut MemShelf) -> Result<Summary, Stop>
    requires board { board_fault script.now.board ≡ None }
    requires budgets { list_all has_legal_budgets script.now.commands ≡ true }
    requires few { length script.now.commands < 2 ^ 32 }
    requires calm { (shelf.old.failing_reads ≡ []) × (shelf.old.faults ≡ 0) }
    ensures summary { IfOk result
        (λ summary. summary ≡ summary_of shelf.old.files script.now) }
    ensures memory { IfErr result (λ stop. stop ≡ Stop.Memory) }
{
    let (first, _notes) = boot(alloc, script, shelf)?;
    let (last, totals) = totals_of(first, script.commands.as_slice(), shelf)?;
    let handles = live_handles(last, shelf)?;
    Ok(Summary { totals, handles })
}
