ghost use Rattle.std.specs.Prelude.{◌≡◌, ◌<◌, ◌≤◌, ◌+◌, ◌*◌, ◌%◌, ◌^◌, ◌++◌, OnOk, IfOk, codes, drop, length, option_map, string_bytes};
ghost use Rattle.byteorder.specs.Endian.{twos_complement};
ghost use Rattle.ebc_names.specs.Names.{row_name, suffix_of};
ghost use Rattle.ebc_decode.specs.Sizes.{byte_count};
ghost use Rattle.ebc_listing.specs.Listing.{suffix_text, hex, illegal_text, index_text, instr_text, is_indirect, line_text, listing, name_text, operand_text, part, register, register_text, shows, signed_text, slot_text};

use ebc_decode::{Instr, Size, decode};
use ebc_names::{Bits, NameRow, Side, Slot, Suffix, name_of, suffix_of};
use fw_types::OutOfMemory;
use std::alloc::{AllocError, Global};
use std::fmt::Write;

/// The signed number in the lowest bytes.
fn signed(size: Size, n: u64) -> i64
    ensures { result ≡ twos_complement (byte_count size) (n % 256 ^ byte_count size) }
{
    match size {
        Size::Byte => i64::from(((n % (1 << 8)) as u8).cast_signed()),
        Size::Word => i64::from(((n % (1 << 16)) as u16).cast_signed()),
        Size::Doubleword => i64::from(((n % (1 << 32)) as u32).cast_signed()),
        Size::Quadword => n.cast_signed(),
    }
}

fn write_signed(out: &mut String, size: Size, n: u64) -> Result<(), AllocError>
    ensures { OnOk result (string_bytes out.new ≡ string_bytes out.old ++ signed_text size n) }
{
    let value = signed(size, n);
    write!(out, "{value}")
}

#[tactic(auto, using(crate::proofs::HexLemmas::padded_hex))]
fn write_index(out: &mut String, size: Size, n: u64) -> Result<(), AllocError>
    ensures { OnOk result (string_bytes out.new ≡ string_bytes out.old ++ index_text size n) }
{
    match size {
        Size::Byte => write!(out, "[0x{n:02X}]"),
        Size::Word => write!(out, "[0x{n:04X}]"),
        Size::Doubleword => write!(out, "[0x{n:08X}]"),
        Size::Quadword => write!(out, "[0x{n:016X}]"),
    }
}

fn register(side: Side, instr: &Instr) -> u8
    ensures { result ≡ register side instr.now }
{
    match side {
        Side::One => instr.operands % 8,
        Side::Two => instr.operands / 16 % 8,
    }
}

fn is_indirect(side: Side, instr: &Instr) -> bool
    ensures { result ≡ is_indirect side instr.now }
{
    match side {
        Side::One => instr.operands & 0x08 != 0,
        Side::Two => instr.operands & 0x80 != 0,
    }
}

fn part(side: Side, instr: &Instr) -> u64
    ensures { result ≡ part side instr.now }
{
    match side {
        Side::One => instr.first,
        Side::Two => instr.second,
    }
}

fn shows(bits: Bits, instr: &Instr) -> bool
    ensures { result ≡ shows bits instr.now }
{
    instr.mods & bits.mods != 0 || instr.operands & bits.operands != 0
}

fn write_register(out: &mut String, is_indirect: bool, number: u8) -> Result<(), AllocError>
    ensures { OnOk result (string_bytes out.new
        ≡ string_bytes out.old ++ register_text is_indirect number) }
{
    if is_indirect {
        write!(out, "@R{number}")
    } else {
        write!(out, "R{number}")
    }
}

fn write_suffix(out: &mut String, suffix: Suffix, size: Size, n: u64) -> Result<(), AllocError>
    ensures { OnOk result (string_bytes out.new
        ≡ string_bytes out.old ++ suffix_text suffix size n) }
{
    match suffix {
        Suffix::Nothing => Ok(()),
        Suffix::Signed | Suffix::SignedOrLabel => {
            let value = signed(size, n);
            write!(out, "{{{value}}}")
        }
        Suffix::Index => write_index(out, size, n),
    }
}

fn write_slot(out: &mut String, slot: Slot, instr: &Instr) -> Result<(), AllocError>
    ensures { OnOk result (string_bytes out.new
        ≡ string_bytes out.old ++ slot_text slot instr.now) }
{
    match slot {
        Slot::Register {
            side,
            shown_by,
            size,
            direct,
            indirect,
        } => {
            let is_indirect = is_indirect(side, instr);
            write_register(out, is_indirect, register(side, instr))?;
            if shows(shown_by, instr) {
                write_suffix(
                    out,
                    suffix_of(direct, indirect, is_indirect),
                    size,
                    part(side, instr),
                )
            } else {
                Ok(())
            }
        }
        Slot::Flags => write!(out, "FLAGS"),
        Slot::FlagsOrIp if instr.operands & 0x10 != 0 => write!(out, "IP"),
        Slot::FlagsOrIp => write!(out, "FLAGS"),
        Slot::Immediate { size } | Slot::ImmediateOrLabel { size } => {
            write_signed(out, size, instr.second)
        }
        Slot::RawIndex { size } => write_index(out, size, instr.second),
        Slot::Step => write_signed(out, Size::Byte, u64::from(instr.operands)),
        Slot::Code => write!(out, "{}", instr.operands),
    }
}

fn write_operand(
    out: &mut String,
    lead: &str,
    slot: Option<Slot>,
    instr: &Instr,
) -> Result<(), AllocError>
    ensures { OnOk result (string_bytes out.new
        ≡ string_bytes out.old ++ operand_text lead.now slot instr.now) }
{
    match slot {
        Some(slot) => {
            write!(out, "{lead}")?;
            write_slot(out, slot, instr)
        }
        None => Ok(()),
    }
}

fn write_named(out: &mut String, row: &NameRow, instr: &Instr) -> Result<(), AllocError>
    ensures { OnOk result (string_bytes out.new
        ≡ string_bytes out.old ++ name_text (Some (row_name row.now)) instr.now) }
{
    write!(out, "{}", row.text)?;
    write_operand(out, " ", row.pattern.one, instr)?;
    write_operand(out, ", ", row.pattern.two, instr)
}

fn write_instr(out: &mut String, instr: &Instr) -> Result<(), AllocError>
    ensures { OnOk result (string_bytes out.new
        ≡ string_bytes out.old ++ instr_text instr.now) }
{
    match name_of(instr) {
        Some(row) => write_named(out, row, instr),
        None => Ok(()),
    }
}

/// Writes what comes before the text of a line.
#[tactic(auto, using(crate::proofs::HexLemmas::padded_hex))]
fn write_address(out: &mut String, at: u64) -> Result<(), AllocError>
    ensures { OnOk result (string_bytes out.new
        ≡ string_bytes out.old ++ (hex 8 at ++ codes " ")) }
{
    write!(out, "{at:08X} ")
}

fn write_line(out: &mut String, at: u64, instr: &Instr) -> Result<(), AllocError>
    ensures { OnOk result (string_bytes out.new
        ≡ string_bytes out.old
        ++ line_text (record { address = at; text = instr_text instr.now })) }
{
    write_address(out, at)?;
    write_instr(out, instr)?;
    writeln!(out)
}

fn write_illegal(out: &mut String, at: u64) -> Result<(), AllocError>
    ensures { OnOk result (string_bytes out.new
        ≡ string_bytes out.old ++ line_text (record { address = at; text = illegal_text })) }
{
    write_address(out, at)?;
    writeln!(out, ".illegal")
}

/// The bytes after the first `size`.
fn rest_of(bytes: &[u8], size: u8) -> &[u8]
    requires { size ≤ length bytes.now }
    ensures { result.now ≡ drop size bytes.now }
{
    &bytes[size as usize..]
}

/// The listing of EBC code at an address (UEFI 2.8, chapter 22 'EFI Byte Code Virtual Machine'): a
/// line for each instruction, which is its address in at least eight upper-case hexadecimal digits,
/// a space, its text and a line feed. The listing ends at the end of the bytes, or with the text
/// `.illegal` at the first place at which no instruction begins.
///
/// # Errors
///
/// `OutOfMemory` if there is no memory for the text.
pub fn disassemble(alloc: Global, bytes: &[u8], at: u64) -> Result<String, OutOfMemory>
    // The addresses are those of guest memory.
    requires range { at + length bytes.now ≤ 2 ^ 63 }
    ensures listing { IfOk result (λ text. string_bytes text ≡ listing bytes.now at) }
{
    let mut out = String::new(alloc);
    let mut rest = bytes;
    let mut place = at;
    'lines: while !rest.is_empty() {
        let Ok((instr, size)) = decode(rest) else {
            write_illegal(&mut out, place)?;
            return Ok(out);
        };
        write_line(&mut out, place, &instr)?;
        rest = rest_of(rest, size);
        place += u64::from(size);
    }
    Ok(out)
}
