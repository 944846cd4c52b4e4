ghost use Rattle.std.specs.Prelude.{◌≡◌, ◌≤◌, ◌++◌, ℕ, List, length, take, Ok, IfOk, IsTrue};
ghost use Rattle.byteorder.specs.Endian.{little_number};
ghost use Rattle.ebc_decode.specs.Spelling.{decoding, is_part_size, IsInstruction, Spells};
ghost use Rattle.ebc_decode.specs.declared.instr.Instr.{Instr as Instruction};

use crate::form::form_of;
use crate::instr::{DecodeRefusal, Instr};
use byteorder::{ByteOrder, LittleEndian};

/// The instruction at the front of the bytes, and how many bytes it has: from 2 to 18 (UEFI 2.8,
/// chapter 22 'EFI Byte Code Virtual Machine'). Bits that it ignores are 0 in the answer.
///
/// # Errors
///
/// - `Short` if there are fewer than two bytes.
/// - `Illegal` if the first two bytes begin no instruction.
/// - `Short` if there are fewer bytes than the instruction has.
pub fn decode(bytes: &[u8]) -> Result<(Instr, u8), DecodeRefusal>
    // The bytes that were decoded spell the instruction.
    ensures found { IfOk result (λ found. Spells (take found.1 bytes.now) found.0) }
    // Bytes that spell an instruction are decoded to it, whatever follows.
    ensures only { (spelled rest : List ℕ) (instr : Instruction) → Spells spelled instr →
        bytes.now ≡ spelled ++ rest → result ≡ Ok (instr, length spelled) }
    // Which refusal it is.
    ensures table { result ≡ decoding bytes.now }
    // The parts have the sizes that the table gives.
    ensures fits { IfOk result (λ found. IsInstruction found.0) }
    ensures len { IfOk result (λ found.
        (2 ≤ found.1) × (found.1 ≤ 18) × (found.1 ≤ length bytes.now)) }
{
    front_of(bytes)
}

/// Finds the instruction at the front by the positions of its parts.
fn front_of(bytes: &[u8]) -> Result<(Instr, u8), DecodeRefusal>
    ensures table { result ≡ decoding bytes.now }
    ensures len { IfOk result (λ found.
        (2 ≤ found.1) × (found.1 ≤ 18) × (found.1 ≤ length bytes.now)) }
{
    if bytes.len() < 2 {
        return Err(DecodeRefusal::Short);
    }
    let op = bytes[0] % 64;
    let mods = bytes[0] / 64;
    let operands = bytes[1];
    let Some(form) = form_of(op, mods, operands) else {
        return Err(DecodeRefusal::Illegal);
    };
    let len = 2 + form.first + form.second;
    if bytes.len() < len as usize {
        return Err(DecodeRefusal::Short);
    }
    let instr = Instr {
        op,
        mods: mods & form.kept_mods,
        operands: operands & form.kept_operands,
        first: number(&bytes[2..], form.first),
        second: number(&bytes[2 + form.first as usize..], form.second),
    };
    Ok((instr, len))
}

/// Reads the number in the first `size` bytes, lowest byte first.
fn number(bytes: &[u8], size: u8) -> u64
    requires size { IsTrue (is_part_size size) }
    requires within { size ≤ length bytes.now }
    ensures value { result ≡ little_number size bytes.now }
{
    match size {
        0 => 0,
        2 => u64::from(LittleEndian::read_u16(bytes)),
        4 => u64::from(LittleEndian::read_u32(bytes)),
        _ => LittleEndian::read_u64(bytes),
    }
}
