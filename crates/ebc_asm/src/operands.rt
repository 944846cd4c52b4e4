ghost use Rattle.std.specs.Prelude.{◌≡◌, ◌<◌, ◌≤◌, ◌^◌, IfOk, Ok, bytes_eq, codes, if◌then◌else◌};
ghost use Rattle.ebc_names.specs.Names.{bits};
ghost use Rattle.ebc_decode.specs.Sizes.{byte_count};
ghost use Rattle.ebc_asm.specs.Assembly.{contribution, part_contribution, register_contribution, begins_register, after_at_sign, number_after_register, index_in_brackets, number_in_braces, flags_operand, is_in_braces, is_in_brackets, is_other_operand, union_of, number_or_label, plain_number, signed_number, numeral, slot_operand};

use crate::fault::AsmKind;
use crate::labels::{Scope, is_reference, signed_or_label};
use crate::numbers::{numeral, raw_number, signed_number};
use crate::words::{inside, is_enclosed};
use ebc_decode::{Instr, Size};
use ebc_names::{Bits, Side, Slot, Suffix, suffix_of};
use text_lines::{byte_at, is, rest_from};

/// The bits and parts that an operand adds to its instruction.
pub fn contribution(mods: u8, operands: u8, first: u64, second: u64) -> Instr
    ensures { result ≡ contribution (bits mods operands) first second }
{
    Instr {
        op: 0,
        mods,
        operands,
        first,
        second,
    }
}

/// The bits and parts of both instructions together.
pub fn union_of(a: &Instr, b: &Instr) -> Instr
    ensures { result ≡ union_of a.now b.now }
{
    Instr {
        op: a.op | b.op,
        mods: a.mods | b.mods,
        operands: a.operands | b.operands,
        first: a.first | b.first,
        second: a.second | b.second,
    }
}

/// What the register of an operand adds.
fn register_contribution(side: Side, is_indirect: bool, number: u8) -> Instr
    requires { number < 8 }
    ensures { result ≡ register_contribution side is_indirect number }
{
    let bits = if is_indirect { number + 8 } else { number };
    match side {
        Side::One => contribution(0, bits, 0, 0),
        Side::Two => contribution(0, 16 * bits, 0, 0),
    }
}

/// What the number of an operand adds, with the bits that show it.
fn part_contribution(side: Side, shown_by: Bits, n: u64) -> Instr
    ensures { result ≡ part_contribution side shown_by n }
{
    match side {
        Side::One => contribution(shown_by.mods, shown_by.operands, n, 0),
        Side::Two => contribution(shown_by.mods, shown_by.operands, 0, n),
    }
}

fn is_in_brackets(text: &[u8]) -> bool
    ensures { result ≡ is_in_brackets text.now }
{
    is_enclosed(b'[', b']', text)
}

fn is_in_braces(text: &[u8]) -> bool
    ensures { result ≡ is_in_braces text.now }
{
    is_enclosed(b'{', b'}', text)
}

/// Reads the signed number in braces, or a label if one is allowed.
fn number_in_braces(
    allowed: bool,
    scope: &Scope<'_>,
    size: Size,
    text: &[u8],
) -> Result<u64, AsmKind>
    ensures { result
        ≡ number_in_braces allowed scope.now.0 scope.now.1 size text.now }
{
    if !is_in_braces(text) {
        return Err(AsmKind::Operand);
    }
    let inner = inside(text);
    if !allowed && is_reference(inner) {
        return Err(AsmKind::Operand);
    }
    signed_or_label(scope, 1, size, inner)
}

/// Reads the raw bits of an index in brackets.
fn index_in_brackets(size: Size, text: &[u8]) -> Result<u64, AsmKind>
    ensures { result ≡ index_in_brackets size text.now }
{
    if is_in_brackets(text) {
        raw_number(size, inside(text))
    } else {
        Err(AsmKind::Operand)
    }
}

/// Reads the number after a register. `plain` says that the register is R0 and direct.
fn number_after_register(
    allowed: Suffix,
    plain: bool,
    scope: &Scope<'_>,
    size: Size,
    text: &[u8],
) -> Result<u64, AsmKind>
    ensures { result
        ≡ number_after_register allowed plain scope.now.0 scope.now.1 size text.now }
{
    match allowed {
        Suffix::Nothing => Err(AsmKind::Operand),
        Suffix::Signed => number_in_braces(false, scope, size, text),
        Suffix::SignedOrLabel => number_in_braces(plain, scope, size, text),
        Suffix::Index => index_in_brackets(size, text),
    }
}

/// Whether a text begins with a register, R0 to R7.
fn begins_register(text: &[u8]) -> bool
    ensures { result ≡ begins_register text.now }
{
    byte_at(text, 0) == b'R' && matches!(byte_at(text, 1), b'0'..=b'7')
}

/// Whether the place of a number has no number: it is empty, a register, an index or a label.
fn is_other_operand(text: &[u8]) -> bool
    ensures { result ≡ is_other_operand text.now }
{
    text.is_empty() || matches!(byte_at(text, 0), b'R' | b'@' | b'[' | b'=')
}

fn plain_signed(size: Size, text: &[u8]) -> Result<u64, AsmKind>
    ensures value { result ≡ plain_number (signed_number size) text.now }
    ensures fits { IfOk result (λ n. n < 256 ^ byte_count size) }
{
    if is_other_operand(text) {
        Err(AsmKind::Operand)
    } else {
        signed_number(size, text)
    }
}

fn plain_code(text: &[u8]) -> Result<u64, AsmKind>
    ensures value { result ≡ plain_number (numeral 10 255) text.now }
    ensures fits { IfOk result (λ n. n ≤ 255) }
{
    if is_other_operand(text) {
        Err(AsmKind::Operand)
    } else {
        numeral(10, 255, text)
    }
}

/// Reads a number that may be a label.
fn number_or_label(scope: &Scope<'_>, unit: u64, size: Size, text: &[u8]) -> Result<u64, AsmKind>
    requires { 0 < unit }
    ensures value { result
        ≡ number_or_label scope.now.0 scope.now.1 unit size text.now }
    ensures fits { IfOk result (λ n. n < 256 ^ byte_count size) }
{
    if is_reference(text) {
        signed_or_label(scope, unit, size, text)
    } else {
        plain_signed(size, text)
    }
}

/// The text after `@`, or all of it if it does not begin with `@`.
fn after_at_sign(text: &[u8]) -> &[u8]
    ensures { result.now ≡ after_at_sign text.now }
{
    if byte_at(text, 0) == b'@' {
        rest_from(text, 1)
    } else {
        text
    }
}

/// Reads an operand by a register, with what follows the register.
fn register_operand(
    side: Side,
    shown_by: Bits,
    size: Size,
    direct: Suffix,
    indirect: Option<Suffix>,
    scope: &Scope<'_>,
    text: &[u8],
) -> Result<Instr, AsmKind>
    ensures { result ≡ slot_operand (Slot.Register side shown_by size direct indirect)
        scope.now.0 scope.now.1 text.now }
{
    let inner = after_at_sign(text);
    let is_indirect = byte_at(text, 0) == b'@';
    if !begins_register(inner) || is_indirect && indirect.is_none() {
        return Err(AsmKind::Operand);
    }
    let number = byte_at(inner, 1) - b'0';
    let register = register_contribution(side, is_indirect, number);
    let rest = rest_from(inner, 2);
    if rest.is_empty() {
        return Ok(register);
    }
    let plain = number == 0 && !is_indirect;
    let allowed = suffix_of(direct, indirect, is_indirect);
    let n = number_after_register(allowed, plain, scope, size, rest)?;
    Ok(union_of(&register, &part_contribution(side, shown_by, n)))
}

/// Reads the word `FLAGS`.
fn flags_operand(text: &[u8]) -> Result<Instr, AsmKind>
    ensures { result ≡ flags_operand text.now }
{
    if is(text, "FLAGS") {
        Ok(contribution(0, 0, 0, 0))
    } else {
        Err(AsmKind::Operand)
    }
}

/// Reads the word `FLAGS` or `IP`.
fn flags_or_ip_operand(text: &[u8]) -> Result<Instr, AsmKind>
    ensures { result ≡ (if bytes_eq text.now (codes "IP")
        then Ok (contribution (bits 0 0x10) 0 0) else flags_operand text.now) }
{
    if is(text, "IP") {
        return Ok(contribution(0, 0x10, 0, 0));
    }
    flags_operand(text)
}

/// Reads an operand by its place in the table, and answers what it adds to its instruction.
pub fn slot_operand(slot: Slot, scope: &Scope<'_>, text: &[u8]) -> Result<Instr, AsmKind>
    ensures { result ≡ slot_operand slot scope.now.0 scope.now.1 text.now }
{
    match slot {
        Slot::Register {
            side,
            shown_by,
            size,
            direct,
            indirect,
        } => register_operand(side, shown_by, size, direct, indirect, scope, text),
        Slot::Flags => flags_operand(text),
        Slot::FlagsOrIp => flags_or_ip_operand(text),
        Slot::Immediate { size } => Ok(contribution(0, 0, 0, plain_signed(size, text)?)),
        Slot::ImmediateOrLabel { size } => {
            let n = number_or_label(scope, 1, size, text)?;
            Ok(contribution(0, 0, 0, n))
        }
        Slot::RawIndex { size } => Ok(contribution(0, 0, 0, index_in_brackets(size, text)?)),
        Slot::Step => {
            let n = number_or_label(scope, 2, Size::Byte, text)?;
            Ok(contribution(0, n as u8, 0, 0))
        }
        Slot::Code => Ok(contribution(0, plain_code(text)? as u8, 0, 0)),
    }
}
