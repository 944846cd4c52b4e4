ghost use Rattle.std.specs.Prelude.{◌≡◌, ◌≤◌, ◌<◌, ◌+◌, ◌-◌, ◌*◌, ◌^◌, ◌↔◌, ◌++◌, ◌∷◌, [], ℕ, List, length, take, drop, replicate, Ok, Some, IfOk, IsOkAnd, IfSome, IsTrue, MatchOption, MatchResult};
ghost use Rattle.byteorder.specs.Endian.{little_bytes};
ghost use Rattle.ebc_decode.specs.Spelling.{decoding, is_part_size, form_in_table, spelling, FitsForm, HasPartSizes, IsInstruction, Spells};

use crate::form::{Form, form_of};
use crate::instr::{Instr, NotEncodable};
use fw_types::put_u64;

/// The bytes of an instruction, and how many of them there are: from 2 to 18 (UEFI 2.8, chapter 22
/// 'EFI Byte Code Virtual Machine'). Bits that it ignores are written as 0, and the bytes after it
/// are 0.
///
/// # Errors
///
/// `NotEncodable` exactly if no bytes decode to the instruction.
pub fn encode(instr: &Instr) -> Result<([u8; 18], u8), NotEncodable>
    // The bytes spell the instruction, or no bytes do.
    ensures spelled { MatchResult result (λ found. Spells (take found.1 found.0) instr.now)
        (λ _. (bytes : List ℕ) → ¬ Spells bytes instr.now) }
    ensures len { IfOk result (λ found. (2 ≤ found.1) × (found.1 ≤ 18)) }
    // Ignored bits are written as 0, and so are the bytes after the instruction.
    ensures ignored { IfOk result (λ found.
        take 2 found.0 ≡ (instr.now.op + 64 * instr.now.mods) ∷ instr.now.operands ∷ []) }
    ensures zeros { IfOk result (λ found. drop found.1 found.0 ≡ replicate (18 - found.1) 0) }
    // What some bytes spell is read back, with their length.
    ensures read_back { (bytes : List ℕ) → Spells bytes instr.now →
        IsOkAnd result (λ found.
        (found.1 ≡ length bytes) × (decoding found.0 ≡ Ok (instr.now, found.1))) }
{
    match written_form(instr) {
        Some(form) => Ok((bytes_of(instr, &form), 2 + form.first + form.second)),
        None => Err(NotEncodable),
    }
}

/// The form of an instruction, if some bytes spell it.
fn written_form(instr: &Instr) -> Option<Form>
    ensures form { MatchOption result (¬ IsInstruction instr.now)
        (λ form. (form_in_table instr.now.op instr.now.mods instr.now.operands ≡ Some form)
        × FitsForm instr.now form) }
    ensures sizes { IfSome result HasPartSizes }
{
    let form = form_of(instr.op, instr.mods, instr.operands)?;
    if is_of_form(instr, &form) {
        Some(form)
    } else {
        None
    }
}

/// Whether an instruction's ignored bits are 0 and its parts fit their sizes.
fn is_of_form(instr: &Instr, form: &Form) -> bool
    requires { HasPartSizes form.now }
    ensures { IsTrue result ↔ FitsForm instr.now form.now }
{
    if instr.op >= 64 || instr.mods >= 4 {
        return false;
    }
    if instr.mods & form.kept_mods != instr.mods {
        return false;
    }
    if instr.operands & form.kept_operands != instr.operands {
        return false;
    }
    fits(instr.first, form.first) && fits(instr.second, form.second)
}

/// Whether a number fits so many bytes.
fn fits(value: u64, size: u8) -> bool
    requires { IsTrue (is_part_size size) }
    ensures { IsTrue result ↔ (value < 256 ^ size) }
{
    match size {
        0 => value == 0,
        2 => value < 1 << 16,
        4 => value < 1 << 32,
        _ => true,
    }
}

/// The bytes of an instruction of a form, followed by zeros.
fn bytes_of(instr: &Instr, form: &Form) -> [u8; 18]
    requires fits { FitsForm instr.now form.now }
    requires sizes { HasPartSizes form.now }
    ensures { result ≡ spelling form.now instr.now instr.now.mods instr.now.operands
        ++ replicate (16 - form.now.first - form.now.second) 0 }
{
    let mut bytes = [0u8; 18];
    bytes[0] = instr.op + 64 * instr.mods;
    bytes[1] = instr.operands;
    put_number(&mut bytes, 2, instr.first);
    put_number(&mut bytes, 2 + form.first, instr.second);
    bytes
}

/// Writes a number into the eight bytes from `at` on, lowest byte first.
#[tactic(auto, unfolding(fw_types::specs::Layout::put))]
fn put_number(bytes: &mut [u8; 18], at: u8, value: u64)
    requires { at ≤ 10 }
    ensures { bytes.new ≡ take at bytes.old ++ little_bytes 8 value ++ drop (at + 8) bytes.old }
{
    put_u64(bytes, at as usize, value);
}
