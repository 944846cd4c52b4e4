ghost use Rattle.std.specs.Prelude.{◌≡◌, true};
ghost use Rattle.std.specs.List.{list_all};
ghost use Rattle.fw_types.specs.Commands.{has_legal_budgets};

use anyhow::{Result, bail};
use bind_engine::Machine;
use fw_shelf::Shelf;
use pci_model::board_from;
use report_text::{render, render_boot};
use script_text::{Script, ScriptFault, parse};
use std::alloc::Global;

/// The report of a script over the files of a shelf.
///
/// # Errors
///
/// A script that is refused, a shelf that fails, and out of memory.
pub fn report_of<F: Shelf>(alloc: Global, script: &[u8], shelf: &mut F) -> Result<String> {
    let script = match parse(alloc, script) {
        Ok(script) => script,
        Err(ScriptFault::Refused { line, kind }) => bail!("line {line}: {kind:?}"),
        Err(ScriptFault::OutOfMemory) => bail!("out of memory"),
    };
    replay(alloc, &script, shelf)
}

/// The notes on the board of a script, and then the texts of its commands. The commands are done one
/// after the other on a new machine with that board.
fn replay<F: Shelf>(alloc: Global, script: &Script, shelf: &mut F) -> Result<String>
    requires budgets { list_all has_legal_budgets script.now.commands ≡ true }
{
    let board = board_from(alloc, script.board.as_slice())?;
    let (first, notes) = Machine::boot(alloc, board, shelf)?;
    let mut report = render_boot(alloc, notes.as_slice())?;
    let mut machine = first;
    for command in script.commands.as_slice() {
        let (next, reply) = machine.exec(command, shelf)?;
        report.push_str(render(alloc, command, &reply)?.as_str())?;
        machine = next;
    }
    Ok(report)
}
