ghost use Rattle.std.specs.Prelude.{◌≡◌, ◌<◌, ◌≤◌, ◌+◌, ◌*◌, ◌^◌, ◌++◌, Err, IfOk, MatchResult, Ok, OnOk, is_some, length};
ghost use Rattle.std.specs.Str.Lines.{lines};
ghost use Rattle.std.specs.List.{list_any};
ghost use Rattle.ebc_asm.specs.Assembly.{Gives, GivesLine, assembly_of, bytes_from, code_of, fault_of, is_label, is_repeated, label_at, label_of, labels_of, place_of_label, placed_bytes_of_line, line_size};

use crate::fault::{AsmFault, AsmKind};
use crate::labels::{Labels, Scope, label_of};
use crate::line_fault::LineFault;
use crate::lines::bytes_of_line;
use crate::words::code_of;
use fw_types::OutOfMemory;
use std::alloc::Global;
use text_lines::first_line;

/// The number of bytes of a line, which no place of a label changes. A refused line has none.
fn line_size(alloc: Global, line: &[u8]) -> Result<u64, OutOfMemory>
    ensures value { IfOk result (λ size. size ≡ line_size line.now) }
    ensures small { IfOk result (λ size. size ≤ length line.now + 18) }
{
    match bytes_of_line(alloc, &Scope::without_places(), line) {
        Ok(bytes) => Ok(bytes.len() as u64),
        Err(LineFault::Refused(_)) => Ok(0),
        Err(LineFault::OutOfMemory) => Err(OutOfMemory),
    }
}

/// Adds the label of a line, if it has one.
fn keep_label<'a>(
    labels: &mut Labels<'a>,
    number: u32,
    place: u64,
    line: &'a [u8],
) -> Result<(), OutOfMemory>
    ensures { OnOk result (labels.new
        ≡ labels.old ++ label_at number place (label_of (code_of line.now))) }
{
    match label_of(code_of(line)) {
        Some(name) => labels.push(name, number, place),
        None => Ok(()),
    }
}

/// The labels of a text with their places.
fn labels_of<'a>(alloc: Global, text: &'a [u8]) -> Result<Labels<'a>, OutOfMemory>
    requires { length text.now < 2 ^ 32 }
    ensures { IfOk result (λ labels. labels ≡ labels_of text.now) }
{
    let mut labels = Labels::new(alloc);
    let mut rest = text;
    let mut number: u64 = 1;
    let mut place: u64 = 0;
    'lines: while !rest.is_empty() {
        let (line, later) = first_line(rest);
        keep_label(&mut labels, number as u32, place, line)?;
        place += line_size(alloc, line)?;
        number += 1;
        rest = later;
    }
    Ok(labels)
}

/// Whether an earlier line has the label of this one.
fn is_repeated(labels: &Labels<'_>, number: u32, line: &[u8]) -> bool
    ensures { result ≡ is_repeated labels.now number (label_of (code_of line.now)) }
{
    match label_of(code_of(line)) {
        Some(name) => labels.has_before(number, name),
        None => false,
    }
}

/// The bytes of a line when each label has its place, and how many there are.
fn placed_bytes_of_line(
    alloc: Global,
    labels: &Labels<'_>,
    number: u32,
    place: u64,
    line: &[u8],
) -> Result<(Vec<u8>, u64), LineFault>
    requires { place + length line.now + 18 < 2 ^ 64 }
    ensures value { MatchResult result
        (λ found. placed_bytes_of_line labels.now number place line.now ≡ Ok found.0.items)
        (λ stop. GivesLine (Err stop) (placed_bytes_of_line labels.now number place line.now)) }
    ensures size { IfOk result (λ found. found.1 ≡ line_size line.now) }
    ensures small { IfOk result (λ found. found.1 ≤ length line.now + 18) }
{
    if is_repeated(labels, number, line) {
        return Err(LineFault::Refused(AsmKind::Label));
    }
    let without_places = bytes_of_line(alloc, &Scope::without_places(), line)?;
    let size = without_places.len() as u64;
    let bytes = bytes_of_line(alloc, &Scope::with_places(labels, place + size), line)?;
    Ok((bytes, size))
}

/// The fault of a line that has no bytes.
fn fault_at(number: u32, stop: LineFault) -> AsmFault
    ensures { result ≡ fault_of number stop }
{
    match stop {
        LineFault::Refused(kind) => AsmFault::Refused { line: number, kind },
        LineFault::OutOfMemory => AsmFault::OutOfMemory,
    }
}

/// The bytes of a text whose labels have these places.
fn bytes_of_text(alloc: Global, labels: &Labels<'_>, text: &[u8]) -> Result<Vec<u8>, AsmFault>
    requires { length text.now < 2 ^ 32 }
    ensures { Gives result (bytes_from labels.now 1 0 (lines text.now)) }
{
    let mut out = Vec::new(alloc);
    let mut rest = text;
    let mut number: u64 = 1;
    let mut place: u64 = 0;
    'lines: while !rest.is_empty() {
        let (line, later) = first_line(rest);
        match placed_bytes_of_line(alloc, labels, number as u32, place, line) {
            Ok((bytes, size)) => {
                out.extend_from_slice(bytes.as_slice())?;
                place += size;
            }
            Err(stop) => return Err(fault_at(number as u32, stop)),
        }
        number += 1;
        rest = later;
    }
    Ok(out)
}

/// The bytes of a text in the assembly language of EBC (UEFI 2.8, chapter 22 'EFI Byte Code Virtual
/// Machine'). A line is blank, a comment after `;`, a label `name:`, `.byte` with numbers from 0 to
/// 255 in decimal or after `0x`, or an instruction as the listing writes it. `=name` may take the
/// place of the signed immediate of MOVREL, JMP8 and the relative JMP64 and CALL64, and of the
/// number in the braces of a relative JMP32 or CALL32 by R0. Its value is the distance to that
/// label.
///
/// # Errors
///
/// - `Refused` has the first line that is refused, counted from 1, and its first fault from left to
///   right: `UnknownWord` if there is no such name, `Operand` for a wrong operand or a form that
///   no bytes encode, `Number` for a malformed number, `Label` for one that is missing or
///   repeated, and `Range` for a number that does not fit or an odd distance of JMP8.
/// - `OutOfMemory` if there is no memory for the bytes or the labels.
pub fn assemble(alloc: Global, text: &str) -> Result<Vec<u8>, AsmFault>
    // Lines and bytes can be counted.
    requires len { length text.now < 2 ^ 32 }
    ensures assembly_of { Gives result (assembly_of text.now) }
{
    let text = text.as_bytes();
    let labels = labels_of(alloc, text)?;
    bytes_of_text(alloc, &labels, text)
}

/// The place of a label in the bytes of a text: how many bytes come before it. `None` if no line of
/// the text is that label. If several lines are, the first counts.
///
/// # Errors
///
/// `OutOfMemory` if there is no memory for the labels.
pub fn place_of_label(alloc: Global, text: &str, name: &str) -> Result<Option<u64>, OutOfMemory>
    // Lines and bytes can be counted.
    requires len { length text.now < 2 ^ 32 }
    ensures place { IfOk result (λ place. place ≡ place_of_label text.now name.now) }
    ensures found { IfOk result (λ place.
        is_some place ≡ list_any (is_label name.now) (lines text.now)) }
{
    let labels = labels_of(alloc, text.as_bytes())?;
    Ok(labels.place_by(name.as_bytes()))
}
