ghost use Rattle.std.specs.Prelude.{◌≡◌, Some, IfOk, IsErrOf, false, is_none, nat_eq, true};
ghost use Rattle.fw_shelf.specs.Faults.{Rose};
ghost use Rattle.fw_shelf.specs.Shelf.{Files};
ghost use Rattle.replay_shell.specs.Endings.{Ends, gives_up, names_file};
ghost use Rattle.replay_shell.specs.Headline.{form_of, words_in};

use crate::check::check_script;
use crate::disasm::list_image;
use crate::replay::Stop;
use crate::run::run_script;
use crate::say::say;
use crate::selftest::say_summary;
use crate::words::{Form, form_of_words};
use fw_shelf::{Shelf, Sink};
use std::alloc::Global;

/// Answers the words after the program's name. The answer is the status with which the program
/// ends.
///
/// # Errors
///
/// - `Shelf` only if the shelf failed.
/// - `Sink` only if the sink failed.
/// - `Memory` if there is no memory.
pub fn respond<F: Shelf, K: Sink>(
    alloc: Global,
    words: &Vec<String>,
    shelf: &mut F,
    sink: &mut K,
) -> Result<u8, Stop>
    ensures taken { (files : Files) → F.files shelf.old ≡ Some files
        → Ends files (words_in words.now.items) result (K.taken sink.old) (K.taken sink.new) }
    ensures status { IfOk result (λ answer. gives_up answer ≡ false) }
    ensures usage { IfOk result
        (λ answer. nat_eq answer 1 ≡ is_none (form_of (words_in words.now.items))) }
    ensures alone { names_file (form_of (words_in words.now.items)) ≡ false → (files : Files)
        → Ends files (words_in words.now.items) result (K.taken sink.old) (K.taken sink.new) }
    ensures untouched { names_file (form_of (words_in words.now.items)) ≡ false
        → shelf.new ≡ shelf.old }
    ensures named { IsErrOf result Stop.Shelf
        → names_file (form_of (words_in words.now.items)) ≡ true }
    ensures shelf_failed { IsErrOf result Stop.Shelf
        → Rose (F.faults shelf.old) (F.faults shelf.new) }
    ensures sink_failed { IsErrOf result Stop.Sink
        → Rose (K.faults sink.old) (K.faults sink.new) }
    ensures becomes { F.becomes shelf.old shelf.new × K.becomes sink.old sink.new }
{
    match form_of_words(words) {
        Some(Form::Run(name)) => run_script(alloc, name, shelf, sink),
        Some(Form::Check(name)) => check_script(alloc, name, shelf, sink),
        Some(Form::Selftest(size)) => say_summary(alloc, size, sink),
        Some(Form::Disasm(name)) => list_image(alloc, name, shelf, sink),
        None => say(
            sink,
            1,
            b"usage: run SCRIPT, check SCRIPT, selftest N, disasm IMAGE\n",
        ),
    }
}
