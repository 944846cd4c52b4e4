//! The line that says which line of a script is refused.
ghost use Rattle.std.specs.Prelude.{◌≡◌, ◌≢◌, IfErr, IfOk, IsErrOf, string_bytes};
ghost use Rattle.fw_shelf.specs.Faults.{Rose};
ghost use Rattle.fw_shelf.specs.Shelf.{Files};
ghost use Rattle.replay_shell.specs.Endings.{EndsWith};
ghost use Rattle.replay_shell.specs.Headline.{answer};
ghost use Rattle.replay_shell.specs.OtherTexts.{kind_word, refused_line};
ghost use Rattle.script_text.specs.declared.script.Script.{Script as ScriptValue};

use crate::replay::Stop;
use crate::say::say;
use fw_shelf::Sink;
use fw_types::OutOfMemory;
use script_text::ScriptKind;
use std::alloc::Global;

/// The word for the kind of a refusal.
fn kind_name(kind: ScriptKind) -> &'static str
    ensures { result.now ≡ kind_word kind }
{
    match kind {
        ScriptKind::TooLong => "TooLong",
        ScriptKind::NotAscii => "NotAscii",
        ScriptKind::UnknownWord => "UnknownWord",
        ScriptKind::Missing => "Missing",
        ScriptKind::Extra => "Extra",
        ScriptKind::Number => "Number",
        ScriptKind::BoardLate => "BoardLate",
        ScriptKind::Duplicate => "Duplicate",
    }
}

/// The line that says which line of a script is refused.
///
/// # Errors
///
/// `OutOfMemory` if there is no memory for the line.
fn refusal(alloc: Global, line: u32, kind: ScriptKind) -> Result<String, OutOfMemory>
    ensures { IfOk result (λ text. string_bytes text ≡ refused_line line kind) }
{
    let kind = kind_name(kind);
    Ok(format!(in alloc; "script {line} {kind}\n")?)
}

/// Answers that a line of the script is refused.
///
/// # Errors
///
/// - `Sink` only if the sink failed.
/// - `Memory` if there is no memory for the text.
pub fn say_refusal<K: Sink>(
    alloc: Global,
    line: u32,
    kind: ScriptKind,
    sink: &mut K,
) -> Result<u8, Stop>
    ensures taken { (files : Files) (script : ScriptValue)
        → EndsWith (answer 2 (refused_line line kind)) files script result
        (K.taken sink.old) (K.taken sink.new) }
    ensures status { IfOk result (λ answer. answer ≡ 2) }
    ensures no_shelf { IfErr result (λ stop. stop ≢ Stop.Shelf) }
    ensures sink_failed { IsErrOf result Stop.Sink
        → Rose (K.faults sink.old) (K.faults sink.new) }
    ensures becomes { K.becomes sink.old sink.new }
{
    let text = refusal(alloc, line, kind)?;
    say(sink, 2, text.as_bytes())
}
