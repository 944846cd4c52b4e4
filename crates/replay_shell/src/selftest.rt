//! The form `selftest`: the summary of a generated load.
ghost use Rattle.std.specs.Prelude.{◌≡◌, ◌≢◌, ◌≤◌, IfErr, IfOk, IsErrOf, string_bytes};
ghost use Rattle.fw_shelf.specs.Faults.{Rose};
ghost use Rattle.fw_shelf.specs.Shelf.{Files};
ghost use Rattle.load_gen.specs.GeneratedLoad as load;
ghost use Rattle.replay_shell.specs.Endings.{EndsWith, no_script};
ghost use Rattle.replay_shell.specs.Headline.{summary_answer, summary_of};
ghost use Rattle.replay_shell.specs.OtherTexts.{summary_line};

use crate::replay::Stop;
use crate::say::say;
use crate::summary::{Summary, Totals, summary_of};
use fw_shelf::Sink;
use fw_types::OutOfMemory;
use load_gen::{LARGEST_LOAD, generate};
use std::alloc::Global;

/// What the load of a size comes to.
///
/// # Errors
///
/// `Memory` if there is no memory.
fn load_summary(alloc: Global, size: u32) -> Result<Summary, Stop>
    requires least { 1 ≤ size }
    requires most { size ≤ LARGEST_LOAD }
    ensures summary { IfOk result
        (λ summary. summary ≡ summary_of load.files (load.script size)) }
    ensures memory { IfErr result (λ stop. stop ≡ Stop.Memory) }
{
    let (script, mut shelf) = generate(alloc, size)?;
    summary_of(alloc, &script, &mut shelf)
}

/// The line of a summary.
///
/// # Errors
///
/// `OutOfMemory` if there is no memory for the line.
fn summary_line(alloc: Global, size: u32, summary: Summary) -> Result<String, OutOfMemory>
    ensures { IfOk result (λ text. string_bytes text ≡ summary_line size summary) }
{
    let Totals {
        commands,
        units,
        events,
    } = summary.totals;
    let handles = summary.handles;
    Ok(format!(in alloc;
        "selftest {size} commands {commands} units {units} events {events} handles {handles}\n"
    )?)
}

/// Runs the load of a size over its own files, and answers its summary. The files of the program are
/// not read.
///
/// # Errors
///
/// - `Sink` only if the sink failed.
/// - `Memory` if there is no memory.
pub fn say_summary<K: Sink>(alloc: Global, size: u32, sink: &mut K) -> Result<u8, Stop>
    requires least { 1 ≤ size }
    requires most { size ≤ LARGEST_LOAD }
    ensures taken { (files : Files) → EndsWith (summary_answer size) files no_script result
        (K.taken sink.old) (K.taken sink.new) }
    ensures status { IfOk result (λ answer. answer ≡ 0) }
    ensures no_shelf { IfErr result (λ stop. stop ≢ Stop.Shelf) }
    ensures sink_failed { IsErrOf result Stop.Sink
        → Rose (K.faults sink.old) (K.faults sink.new) }
    ensures becomes { K.becomes sink.old sink.new }
{
    let summary = load_summary(alloc, size)?;
    let text = summary_line(alloc, size, summary)?;
    say(sink, 0, text.as_bytes())
}
