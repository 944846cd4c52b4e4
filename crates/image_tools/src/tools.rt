ghost use Rattle.std.specs.Prelude.{◌≡◌, ◌≤◌, ◌+◌, ◌⊎◌, [], Some, false, is_none, length, nat_eq, true, ◌||◌};
ghost use Rattle.fw_shelf.specs.Faults.{Rose};
ghost use Rattle.fw_shelf.specs.Shelf.{Files};
ghost use Rattle.fw_shelf.specs.Sink.{TakesProperPrefix, with_bytes};
ghost use Rattle.image_tools.specs.Tools.{IsAnswered, answer_of, form_of, gives_up, is_answer_status, words_in};

use crate::answer::Stop;
use crate::respond::respond;
use fw_shelf::{MemShelf, MemSink, Shelf, Sink, write_all};
use std::alloc::Global;

/// Does all that the program does: reads the words after its name and the files of a shelf that
/// they name, and writes an image, an option ROM, or what is in one of them, to a sink. The answer
/// is the status with which the program ends:
///
/// - 0: done, and the whole image, option ROM or text was written;
/// - 1: the words have no form that the program knows, and the usage line was written;
/// - 3: the shelf failed, and nothing was written;
/// - 4: the sink failed, and a prefix of the answer was written;
/// - 5: out of memory, and nothing was written;
/// - 6: there is no file under a name, and a line says under which;
/// - 7: a file has more than 16,777,216 bytes, and a line says which;
/// - 8: the listing is refused, or no image or option ROM can be made, and a line says why.
pub fn tools<F: Shelf, K: Sink>(
    alloc: Global,
    words: &Vec<String>,
    shelf: &mut F,
    sink: &mut K,
) -> u8
    // Unless the program gives up, its status is the answer's, and what was written is, byte for
    // byte, the answer's output.
    ensures answered { (files : Files) → F.files shelf.old ≡ Some files → gives_up result ≡ false
        → IsAnswered files (words_in words.now.items) result (K.taken sink.old) (K.taken sink.new) }
    // Status 1 comes exactly for words of no form, even if the files of the shelf are not known.
    ensures usage { gives_up result ≡ false
        → nat_eq result 1 ≡ is_none (form_of (words_in words.now.items)) }
    // The statuses that there are.
    ensures statuses { gives_up result || is_answer_status result ≡ true }

    // Status 3 comes only if the shelf failed, and nothing was written.
    ensures shelf_failed { result ≡ 3 → Rose (F.faults shelf.old) (F.faults shelf.new) }
    ensures shelf_cuts { result ≡ 3 → K.taken sink.new ≡ K.taken sink.old }
    // Status 4 comes only if the sink failed, and not all of the answer was taken.
    ensures sink_failed { result ≡ 4 → Rose (K.faults sink.old) (K.faults sink.new) }
    ensures sink_cuts { (files : Files) → F.files shelf.old ≡ Some files → result ≡ 4
        → TakesProperPrefix (K.taken sink.old) (answer_of files (words_in words.now.items)).output
        (K.taken sink.new) }
    // Status 5 may come at any time, and nothing was written.
    ensures memory_cuts { result ≡ 5 → K.taken sink.new ≡ K.taken sink.old }

    // Completeness: if no count rose, the program gives its answer unless it is out of memory.
    ensures complete { (files : Files) → F.files shelf.old ≡ Some files
        → ¬ Rose (F.faults shelf.old) (F.faults shelf.new)
        → ¬ Rose (K.faults sink.old) (K.faults sink.new) → nat_eq result 5 ≡ false
        → IsAnswered files (words_in words.now.items) result (K.taken sink.old) (K.taken sink.new) }
    // The files stay as they are, and no count of faults falls.
    ensures same_files { F.files shelf.new ≡ F.files shelf.old }
    ensures shelf_faults { F.faults shelf.old ≤ F.faults shelf.new }
    ensures sink_faults { K.faults sink.old ≤ K.faults sink.new }
    ensures becomes { F.becomes shelf.old shelf.new × K.becomes sink.old sink.new }
{
    match respond(alloc, words.as_slice(), shelf) {
        Ok(answer) => written(answer.status, answer.output.as_slice(), sink),
        Err(Stop::Shelf) => 3,
        Err(Stop::Memory) => 5,
    }
}

/// Writes an answer's output. The status is the answer's, or 4 if the sink failed.
fn written<K: Sink>(status: u8, output: &[u8], sink: &mut K) -> u8
    requires { is_answer_status status ≡ true }
    ensures written { nat_eq result 4 ≡ false
        → (result ≡ status) × (K.taken sink.new ≡ with_bytes (K.taken sink.old) output.now) }
    ensures status { (result ≡ status) ⊎ (result ≡ 4) }
    ensures failed { result ≡ 4 → Rose (K.faults sink.old) (K.faults sink.new) }
    ensures cut { result ≡ 4 → TakesProperPrefix (K.taken sink.old) output.now (K.taken sink.new) }
    ensures faults { K.faults sink.old ≤ K.faults sink.new }
    ensures becomes { K.becomes sink.old sink.new }
{
    match write_all(sink, output) {
        Ok(()) => status,
        Err(_) => 4,
    }
}

/// The program with a shelf and a sink in memory, neither of which fails, and with room for the
/// whole output: it gives its answer, unless it runs out of memory.
pub fn tools_in_memory(
    alloc: Global,
    words: &Vec<String>,
    shelf: &mut MemShelf,
    sink: &mut MemSink,
) -> u8
    requires shelf_calm { (shelf.old.failing_reads ≡ []) × (shelf.old.faults ≡ 0) }
    requires sink_calm { (sink.old.failing_writes ≡ []) × (sink.old.faults ≡ 0) }
    requires room { length sink.old.bytes
        + length (answer_of shelf.old.files (words_in words.now.items)).output ≤ sink.old.room }
    ensures { nat_eq result 5 ≡ false
        → IsAnswered shelf.old.files (words_in words.now.items) result
        (Some sink.old.bytes) (Some sink.new.bytes) }
{
    tools(alloc, words, shelf, sink)
}
