//! The form `run`: the report of a script.
ghost use Rattle.std.specs.Prelude.{◌≡◌, None, Some, IfOk, IsErrOf, false, nat_eq, true};
ghost use Rattle.std.specs.List.{list_all};
ghost use Rattle.fw_types.specs.Commands.{has_legal_budgets};
ghost use Rattle.pci_model.specs.BoardRules.{board_fault};
ghost use Rattle.fw_shelf.specs.Faults.{Rose};
ghost use Rattle.fw_shelf.specs.Shelf.{Files};
ghost use Rattle.replay_shell.specs.Endings.{EndsWith, form_script, gives_up, read_script};
ghost use Rattle.replay_shell.specs.Headline.{form_answer, run, script_answer};
ghost use Rattle.script_text.specs.ScriptGrammar.{accepted, script_of};

use crate::refusal::say_refusal;
use crate::replay::{Stop, replay};
use crate::say::say;
use fw_shelf::{Shelf, ShelfFault, Sink};
use script_text::{Script, ScriptFault, parse};
use std::alloc::Global;

/// Replays the script in these bytes, or says which of its lines is refused.
///
/// # Errors
///
/// - `Shelf` only if the shelf failed.
/// - `Sink` only if the sink failed.
/// - `Memory` if there is no memory.
fn run_bytes<F: Shelf, K: Sink>(
    alloc: Global,
    bytes: &[u8],
    shelf: &mut F,
    sink: &mut K,
) -> Result<u8, Stop>
    ensures taken { (files : Files) → F.files shelf.old ≡ Some files
        → EndsWith (script_answer files (script_of bytes.now)) files
        (read_script (script_of bytes.now)) result (K.taken sink.old) (K.taken sink.new) }
    ensures status { IfOk result
        (λ answer. (gives_up answer ≡ false) × (nat_eq answer 1 ≡ false)) }
    ensures shelf_failed { IsErrOf result Stop.Shelf
        → Rose (F.faults shelf.old) (F.faults shelf.new) }
    ensures sink_failed { IsErrOf result Stop.Sink
        → Rose (K.faults sink.old) (K.faults sink.new) }
    ensures becomes { F.becomes shelf.old shelf.new × K.becomes sink.old sink.new }
{
    match parse(alloc, bytes) {
        Ok(script) => replay_script(alloc, &script, shelf, sink),
        Err(ScriptFault::Refused { line, kind }) => say_refusal(alloc, line, kind, sink),
        Err(ScriptFault::OutOfMemory) => Err(Stop::Memory),
    }
}

/// Replays a script. Its lines make a board, and the budgets of each command are within the limits
/// of a machine.
///
/// # Errors
///
/// - `Shelf` only if the shelf failed.
/// - `Sink` only if the sink failed.
/// - `Memory` if there is no memory.
fn replay_script<F: Shelf, K: Sink>(
    alloc: Global,
    script: &Script,
    shelf: &mut F,
    sink: &mut K,
) -> Result<u8, Stop>
    requires board { board_fault script.now.board ≡ None }
    requires budgets { list_all has_legal_budgets script.now.commands ≡ true }
    ensures taken { (files : Files) → F.files shelf.old ≡ Some files
        → EndsWith (script_answer files (accepted script.now)) files script.now result
        (K.taken sink.old) (K.taken sink.new) }
    ensures status { IfOk result (λ answer. answer ≡ 0) }
    ensures shelf_failed { IsErrOf result Stop.Shelf
        → Rose (F.faults shelf.old) (F.faults shelf.new) }
    ensures sink_failed { IsErrOf result Stop.Sink
        → Rose (K.faults sink.old) (K.faults sink.new) }
    ensures becomes { F.becomes shelf.old shelf.new × K.becomes sink.old sink.new }
{
    replay(alloc, script, shelf, sink)?;
    Ok(0)
}

/// Reads the script with this name, once, and replays it.
///
/// # Errors
///
/// - `Shelf` only if the shelf failed.
/// - `Sink` only if the sink failed.
/// - `Memory` if there is no memory.
pub fn run_script<F: Shelf, K: Sink>(
    alloc: Global,
    name: &str,
    shelf: &mut F,
    sink: &mut K,
) -> Result<u8, Stop>
    ensures taken { (files : Files) → F.files shelf.old ≡ Some files
        → EndsWith (form_answer files (Some (run name.now))) files
        (form_script files (Some (run name.now))) result (K.taken sink.old) (K.taken sink.new) }
    ensures status { IfOk result
        (λ answer. (gives_up answer ≡ false) × (nat_eq answer 1 ≡ false)) }
    ensures shelf_failed { IsErrOf result Stop.Shelf
        → Rose (F.faults shelf.old) (F.faults shelf.new) }
    ensures sink_failed { IsErrOf result Stop.Sink
        → Rose (K.faults sink.old) (K.faults sink.new) }
    ensures becomes { F.becomes shelf.old shelf.new × K.becomes sink.old sink.new }
{
    match shelf.read(alloc, name) {
        Ok(Some(bytes)) => run_bytes(alloc, bytes.as_slice(), shelf, sink),
        Ok(None) => say(sink, 6, b"no such file\n"),
        Err(ShelfFault::TooLong) => say(sink, 7, b"file too long\n"),
        Err(ShelfFault::Failed) => Err(Stop::Shelf),
        Err(ShelfFault::OutOfMemory) => Err(Stop::Memory),
    }
}
