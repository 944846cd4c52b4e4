ghost use Rattle.std.specs.Prelude.{◌≡◌, ◌≢◌, ◌≤◌, [], Some, IfErr, IfOk, IsErrOf, false, nat_eq, string_bytes};
ghost use Rattle.fw_shelf.specs.Faults.{Rose};
ghost use Rattle.fw_shelf.specs.Shelf.{Files};
ghost use Rattle.pe_image.specs.ImageRules.{entry_of, refusal_of, size_of};
ghost use Rattle.replay_shell.specs.Endings.{EndsWith, gives_up, no_script};
ghost use Rattle.replay_shell.specs.Headline.{answer, code_listing, code_listing_to, disasm, form_answer, image_answer};
ghost use Rattle.replay_shell.specs.OtherTexts.{refused_image_line};

use crate::replay::Stop;
use crate::say::say;
use ebc_asm::disassemble;
use fw_shelf::{Shelf, ShelfFault, Sink};
use fw_types::{OutOfMemory, PeRefusal};
use pe_image::{PeView, check, lay};
use report_text::refusal_name;
use std::alloc::Global;

/// The line that says why an image is refused.
///
/// # Errors
///
/// `OutOfMemory` if there is no memory for the line.
fn refusal(alloc: Global, refusal: PeRefusal) -> Result<String, OutOfMemory>
    ensures { IfOk result (λ text. string_bytes text ≡ refused_image_line refusal) }
{
    let kind = refusal_name(refusal);
    Ok(format!(in alloc; "image {kind}\n")?)
}

/// The listing of an image's code, laid at 0, from the entry to the end of the section that holds
/// the entry. If no section holds it, the listing is empty.
///
/// # Errors
///
/// `OutOfMemory` if there is no memory for the laid image or the listing.
fn listing_of(alloc: Global, view: &PeView<'_>) -> Result<String, OutOfMemory>
    ensures { IfOk result (λ text. string_bytes text ≡ code_listing view.now) }
{
    match view.code_end() {
        Some(end) => listing_to(alloc, view, end),
        None => Ok(String::new(alloc)),
    }
}

/// The listing of the code between the entry and a place in the laid image.
///
/// # Errors
///
/// `OutOfMemory` if there is no memory for the laid image or the listing.
fn listing_to(alloc: Global, view: &PeView<'_>, end: u32) -> Result<String, OutOfMemory>
    requires after { entry_of view.now ≤ end }
    requires inside { end ≤ size_of view.now }
    ensures { IfOk result (λ text. string_bytes text ≡ code_listing_to (Some end) view.now) }
{
    let laid = lay(alloc, view, 0)?;
    let entry = view.entry();
    disassemble(alloc, &laid[entry as usize..end as usize], u64::from(entry))
}

/// Answers the listing of an accepted image.
///
/// # Errors
///
/// - `Sink` only if the sink failed.
/// - `Memory` if there is no memory for the text.
fn say_listing<K: Sink>(alloc: Global, view: &PeView<'_>, sink: &mut K) -> Result<u8, Stop>
    ensures taken { (files : Files) → EndsWith (answer 0 (code_listing view.now)) files no_script result
        (K.taken sink.old) (K.taken sink.new) }
    ensures status { IfOk result (λ answer. answer ≡ 0) }
    ensures no_shelf { IfErr result (λ stop. stop ≢ Stop.Shelf) }
    ensures sink_failed { IsErrOf result Stop.Sink
        → Rose (K.faults sink.old) (K.faults sink.new) }
    ensures becomes { K.becomes sink.old sink.new }
{
    let text = listing_of(alloc, view)?;
    say(sink, 0, text.as_bytes())
}

/// Answers that an image is refused.
///
/// # Errors
///
/// - `Sink` only if the sink failed.
/// - `Memory` if there is no memory for the text.
fn say_refusal<K: Sink>(alloc: Global, kind: PeRefusal, sink: &mut K) -> Result<u8, Stop>
    ensures taken { (files : Files) → EndsWith (answer 8 (refused_image_line kind)) files no_script result
        (K.taken sink.old) (K.taken sink.new) }
    ensures status { IfOk result (λ answer. answer ≡ 8) }
    ensures no_shelf { IfErr result (λ stop. stop ≢ Stop.Shelf) }
    ensures sink_failed { IsErrOf result Stop.Sink
        → Rose (K.faults sink.old) (K.faults sink.new) }
    ensures becomes { K.becomes sink.old sink.new }
{
    let text = refusal(alloc, kind)?;
    say(sink, 8, text.as_bytes())
}

/// Lists the image in these bytes, or says why it is refused.
///
/// # Errors
///
/// - `Sink` only if the sink failed.
/// - `Memory` if there is no memory for the text.
fn list_bytes<K: Sink>(alloc: Global, file: &[u8], sink: &mut K) -> Result<u8, Stop>
    ensures taken { (files : Files)
        → EndsWith (image_answer (refusal_of file.now) file.now) files no_script result
        (K.taken sink.old) (K.taken sink.new) }
    ensures status { IfOk result
        (λ answer. (gives_up answer ≡ false) × (nat_eq answer 1 ≡ false)) }
    ensures no_shelf { IfErr result (λ stop. stop ≢ Stop.Shelf) }
    ensures sink_failed { IsErrOf result Stop.Sink
        → Rose (K.faults sink.old) (K.faults sink.new) }
    ensures becomes { K.becomes sink.old sink.new }
{
    match check(file) {
        Ok(view) => say_listing(alloc, &view, sink),
        Err(kind) => say_refusal(alloc, kind, sink),
    }
}

/// Reads the image with this name, once, and lists its code.
///
/// # Errors
///
/// - `Shelf` only if the shelf failed.
/// - `Sink` only if the sink failed.
/// - `Memory` if there is no memory.
pub fn list_image<F: Shelf, K: Sink>(
    alloc: Global,
    name: &str,
    shelf: &mut F,
    sink: &mut K,
) -> Result<u8, Stop>
    ensures taken { (files : Files) → F.files shelf.old ≡ Some files
        → EndsWith (form_answer files (Some (disasm name.now))) files no_script
        result (K.taken sink.old) (K.taken sink.new) }
    ensures status { IfOk result
        (λ answer. (gives_up answer ≡ false) × (nat_eq answer 1 ≡ false)) }
    ensures shelf_failed { IsErrOf result Stop.Shelf
        → Rose (F.faults shelf.old) (F.faults shelf.new) }
    ensures sink_failed { IsErrOf result Stop.Sink
        → Rose (K.faults sink.old) (K.faults sink.new) }
    ensures becomes { F.becomes shelf.old shelf.new × K.becomes sink.old sink.new }
{
    match shelf.read(alloc, name) {
        Ok(Some(file)) => list_bytes(alloc, file.as_slice(), sink),
        Ok(None) => say(sink, 6, b"no such file\n"),
        Err(ShelfFault::TooLong) => say(sink, 7, b"file too long\n"),
        Err(ShelfFault::Failed) => Err(Stop::Shelf),
        Err(ShelfFault::OutOfMemory) => Err(Stop::Memory),
    }
}
