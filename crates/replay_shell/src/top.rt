ghost use Rattle.std.specs.Prelude.{◌≡◌, ◌≤◌, ◌+◌, [], Some, false, is_none, length, nat_eq, true};
ghost use Rattle.fw_shelf.specs.Faults.{Rose};
ghost use Rattle.fw_shelf.specs.Shelf.{Files};
ghost use Rattle.fw_shelf.specs.Sink.{TakesProperPrefix};
ghost use Rattle.replay_shell.specs.Endings.{IsAnswered, StopsAtRead, TakesPrefix, gives_up, names_file, script_for, text_for};
ghost use Rattle.replay_shell.specs.Headline.{form_of, words_in};

use crate::replay::Stop;
use crate::respond::respond;
use fw_shelf::{MemShelf, MemSink, Shelf, Sink};
use std::alloc::Global;

/// Does everything that the program does: it reads the words after its name, replays or checks a
/// script, runs a generated load or lists an image, with the files of a shelf, and writes to a sink.
/// The answer is the status with which the program ends:
///
/// - 0: done, and the whole text was written: the report of a script, `ok`, the summary of a load or
///   the listing of an image;
/// - 1: the words have no form that the program knows, and the usage line was written;
/// - 2: the script is refused, and a line was written that says where and why;
/// - 3: the shelf failed, and nothing was written, or the notes of the board and the texts of the
///   commands before;
/// - 4: the sink failed, and a prefix of the text was written;
/// - 5: out of memory, and a prefix of the text was written;
/// - 6: there is no file with the name of the script or the image, and a line says so;
/// - 7: that file has more than 16,777,216 bytes, and a line says so;
/// - 8: the image that is to be listed is refused, and a line says why.
pub fn top<F: Shelf, K: Sink>(alloc: Global, words: &Vec<String>, shelf: &mut F, sink: &mut K) -> u8
    // The headline: unless the program gives up, its status is the answer's, and what was written
    // is, byte for byte, the answer's text.
    ensures answered { (files : Files) → F.files shelf.old ≡ Some files → gives_up result ≡ false
        → IsAnswered files (words_in words.now.items) result (K.taken sink.old) (K.taken sink.new) }
    // The same for words that name no file, even if the files of the shelf are not known.
    ensures alone { names_file (form_of (words_in words.now.items)) ≡ false
        → gives_up result ≡ false → (files : Files)
        → IsAnswered files (words_in words.now.items) result (K.taken sink.old) (K.taken sink.new) }
    // Status 1 comes exactly for words of no form, even if the files of the shelf are not known.
    ensures usage { gives_up result ≡ false
        → nat_eq result 1 ≡ is_none (form_of (words_in words.now.items)) }

    // Status 3 comes only if the words name a file and the shelf failed. Nothing was taken then, or
    // the text ends before a command that reads a file.
    ensures shelf_named { result ≡ 3 → names_file (form_of (words_in words.now.items)) ≡ true }
    ensures shelf_failed { result ≡ 3 → Rose (F.faults shelf.old) (F.faults shelf.new) }
    ensures shelf_cuts { (files : Files) → F.files shelf.old ≡ Some files → result ≡ 3
        → StopsAtRead files (script_for files (words_in words.now.items))
        (K.taken sink.old) (K.taken sink.new) }
    // Status 4 comes only if the sink failed, and not all of the text was taken.
    ensures sink_failed { result ≡ 4 → Rose (K.faults sink.old) (K.faults sink.new) }
    ensures sink_cuts { (files : Files) → F.files shelf.old ≡ Some files → result ≡ 4
        → TakesProperPrefix (K.taken sink.old) (text_for files (words_in words.now.items))
        (K.taken sink.new) }
    // Status 5 may come at any time, and a prefix of the text was taken.
    ensures memory_cuts { (files : Files) → F.files shelf.old ≡ Some files → result ≡ 5
        → TakesPrefix (K.taken sink.old) (text_for files (words_in words.now.items))
        (K.taken sink.new) }

    // Completeness: if no count rose, the program gives its answer unless it is out of memory.
    ensures complete { (files : Files) → F.files shelf.old ≡ Some files
        → ¬ Rose (F.faults shelf.old) (F.faults shelf.new)
        → ¬ Rose (K.faults sink.old) (K.faults sink.new) → nat_eq result 5 ≡ false
        → IsAnswered files (words_in words.now.items) result (K.taken sink.old) (K.taken sink.new) }
    // Words that name no file leave the shelf as it is. The files stay as they are, and no count of
    // faults falls.
    ensures untouched { names_file (form_of (words_in words.now.items)) ≡ false
        → shelf.new ≡ shelf.old }
    ensures same_files { F.files shelf.new ≡ F.files shelf.old }
    ensures shelf_faults { F.faults shelf.old ≤ F.faults shelf.new }
    ensures sink_faults { K.faults sink.old ≤ K.faults sink.new }
    ensures becomes { F.becomes shelf.old shelf.new × K.becomes sink.old sink.new }
{
    match respond(alloc, words, shelf, sink) {
        Ok(status) => status,
        Err(Stop::Shelf) => 3,
        Err(Stop::Sink) => 4,
        Err(Stop::Memory) => 5,
    }
}

/// The program over a shelf and a sink in memory. Neither of them fails, and there is room for the
/// whole text. The program gives its answer, unless it is out of memory.
pub fn top_in_memory(
    alloc: Global,
    words: &Vec<String>,
    shelf: &mut MemShelf,
    sink: &mut MemSink,
) -> u8
    requires shelf_calm { (shelf.old.failing_reads ≡ []) × (shelf.old.faults ≡ 0) }
    requires sink_calm { (sink.old.failing_writes ≡ []) × (sink.old.faults ≡ 0) }
    requires room { length sink.old.bytes
        + length (text_for shelf.old.files (words_in words.now.items)) ≤ sink.old.room }
    ensures { nat_eq result 5 ≡ false
        → IsAnswered shelf.old.files (words_in words.now.items) result
        (Some sink.old.bytes) (Some sink.new.bytes) }
{
    top(alloc, words, shelf, sink)
}
