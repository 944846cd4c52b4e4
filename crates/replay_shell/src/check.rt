//! The form `check`: whether a file is a script.
ghost use Rattle.std.specs.Prelude.{◌≡◌, ◌≢◌, Some, IfErr, IfOk, IsErrOf, false, nat_eq};
ghost use Rattle.fw_shelf.specs.Faults.{Rose};
ghost use Rattle.fw_shelf.specs.Shelf.{Files};
ghost use Rattle.replay_shell.specs.Endings.{EndsWith, gives_up, no_script};
ghost use Rattle.replay_shell.specs.Headline.{check, check_answer, form_answer};
ghost use Rattle.script_text.specs.ScriptGrammar.{script_of};

use crate::refusal::say_refusal;
use crate::replay::Stop;
use crate::say::say;
use fw_shelf::{Shelf, ShelfFault, Sink};
use script_text::{ScriptFault, parse};
use std::alloc::Global;

/// Says that these bytes are a script, or which of their lines is refused.
///
/// # Errors
///
/// - `Sink` only if the sink failed.
/// - `Memory` if there is no memory for the script or the text.
fn check_bytes<K: Sink>(alloc: Global, bytes: &[u8], sink: &mut K) -> Result<u8, Stop>
    ensures taken { (files : Files)
        → EndsWith (check_answer (script_of bytes.now)) files no_script result
        (K.taken sink.old) (K.taken sink.new) }
    ensures status { IfOk result
        (λ answer. (gives_up answer ≡ false) × (nat_eq answer 1 ≡ false)) }
    ensures no_shelf { IfErr result (λ stop. stop ≢ Stop.Shelf) }
    ensures sink_failed { IsErrOf result Stop.Sink
        → Rose (K.faults sink.old) (K.faults sink.new) }
    ensures becomes { K.becomes sink.old sink.new }
{
    match parse(alloc, bytes) {
        Ok(_) => say(sink, 0, b"ok\n"),
        Err(ScriptFault::Refused { line, kind }) => say_refusal(alloc, line, kind, sink),
        Err(ScriptFault::OutOfMemory) => Err(Stop::Memory),
    }
}

/// Reads the file with this name, once, and says whether it is a script. No command is done, and
/// no file that the script names is read.
///
/// # Errors
///
/// - `Shelf` only if the shelf failed.
/// - `Sink` only if the sink failed.
/// - `Memory` if there is no memory.
pub fn check_script<F: Shelf, K: Sink>(
    alloc: Global,
    name: &str,
    shelf: &mut F,
    sink: &mut K,
) -> Result<u8, Stop>
    ensures taken { (files : Files) → F.files shelf.old ≡ Some files
        → EndsWith (form_answer files (Some (check name.now))) files no_script
        result (K.taken sink.old) (K.taken sink.new) }
    ensures status { IfOk result
        (λ answer. (gives_up answer ≡ false) × (nat_eq answer 1 ≡ false)) }
    ensures shelf_failed { IsErrOf result Stop.Shelf
        → Rose (F.faults shelf.old) (F.faults shelf.new) }
    ensures sink_failed { IsErrOf result Stop.Sink
        → Rose (K.faults sink.old) (K.faults sink.new) }
    ensures becomes { F.becomes shelf.old shelf.new × K.becomes sink.old sink.new }
{
    match shelf.read(alloc, name) {
        Ok(Some(bytes)) => check_bytes(alloc, bytes.as_slice(), sink),
        Ok(None) => say(sink, 6, b"no such file\n"),
        Err(ShelfFault::TooLong) => say(sink, 7, b"file too long\n"),
        Err(ShelfFault::Failed) => Err(Stop::Shelf),
        Err(ShelfFault::OutOfMemory) => Err(Stop::Memory),
    }
}
