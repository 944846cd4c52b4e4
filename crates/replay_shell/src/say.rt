ghost use Rattle.std.specs.Prelude.{◌≡◌, IfErr, IfOk, OnErr};
ghost use Rattle.fw_shelf.specs.Faults.{Rose};
ghost use Rattle.fw_shelf.specs.Shelf.{Files};
ghost use Rattle.replay_shell.specs.Endings.{EndsWith};
ghost use Rattle.replay_shell.specs.Headline.{answer};
ghost use Rattle.script_text.specs.declared.script.Script.{Script as ScriptValue};

use crate::replay::Stop;
use fw_shelf::{Sink, write_all};

/// Writes a text, and answers a status.
///
/// # Errors
///
/// `Sink` only if the sink failed; a prefix of the text was written then, and not all of it.
pub fn say<K: Sink>(sink: &mut K, status: u8, text: &[u8]) -> Result<u8, Stop>
    ensures taken { (files : Files) (script : ScriptValue)
        → EndsWith (answer status text.now) files script result
        (K.taken sink.old) (K.taken sink.new) }
    ensures status { IfOk result (λ answer. answer ≡ status) }
    ensures sink_alone { IfErr result (λ stop. stop ≡ Stop.Sink) }
    ensures sink_failed { OnErr result (Rose (K.faults sink.old) (K.faults sink.new)) }
    ensures becomes { K.becomes sink.old sink.new }
{
    write_all(sink, text)?;
    Ok(status)
}
