ghost use Rattle.std.specs.Prelude.{◌≡◌, ◌<◌, ◌≤◌, ◌-◌, ◌^◌, ◌%◌, ◌&&◌, IfOk, None, Some, length, nat_lt, if◌then◌else◌};
ghost use Rattle.std.specs.Char.{digit_value};
ghost use Rattle.std.specs.List.{list_all};
ghost use Rattle.std.specs.Str.Parse.{digits_value};
ghost use Rattle.ebc_decode.specs.Sizes.{byte_count};
ghost use Rattle.ebc_asm.specs.Assembly.{byte_number, is_hex, is_numeral, negated, negative_most, numeral, positive_most, raw_number, signed_number, unsigned_most, within};

use crate::fault::AsmKind;
use ebc_decode::Size;
use text_lines::{byte_at, rest_from};

/// The value of a digit. Letters of either case go on after 9, and 36 is no digit.
fn digit(byte: u8) -> u64
    ensures { result ≡ digit_value byte }
{
    match byte {
        b'0'..=b'9' => u64::from(byte - b'0'),
        b'A'..=b'Z' => u64::from(byte - 55),
        b'a'..=b'z' => u64::from(byte - 87),
        _ => 36,
    }
}

fn are_digits(base: u64, text: &[u8]) -> bool
    ensures { result ≡ list_all (λ byte. nat_lt (digit_value byte) base) text.now }
{
    text.iter().all(|byte| digit(*byte) < base)
}

fn is_numeral(base: u64, text: &[u8]) -> bool
    ensures { result ≡ is_numeral base text.now }
{
    0 < text.len() && are_digits(base, text)
}

/// The value of digits, if it fits 64 bits.
#[tactic(auto, using(crate::proofs::NumberLemmas::values))]
fn value(base: u64, digits: &[u8]) -> Option<u64>
    requires { 1 ≤ base }
    ensures { result ≡ (if nat_lt (digits_value base digits.now) (2 ^ 64)
        then Some (digits_value base digits.now) else None) }
{
    let mut n: u64 = 0;
    for byte in digits {
        n = n.checked_mul(base)?.checked_add(digit(*byte))?;
    }
    Some(n)
}

/// A number, if it is at most `most`.
pub fn within(most: u64, n: u64) -> Result<u64, AsmKind>
    ensures value { result ≡ within most n }
    ensures bound { IfOk result (λ n. n ≤ most) }
{
    if n <= most {
        Ok(n)
    } else {
        Err(AsmKind::Range)
    }
}

/// Reads digits as a number of at most `most`.
pub fn numeral(base: u64, most: u64, text: &[u8]) -> Result<u64, AsmKind>
    requires { 1 ≤ base }
    ensures value { result ≡ numeral base most text.now }
    ensures bound { IfOk result (λ n. n ≤ most) }
{
    if !is_numeral(base, text) {
        return Err(AsmKind::Number);
    }
    match value(base, text) {
        Some(n) => within(most, n),
        None => Err(AsmKind::Range),
    }
}

/// The greatest unsigned number of a size.
fn unsigned_most(size: Size) -> u64
    ensures { result ≡ unsigned_most size }
{
    match size {
        Size::Byte => 0xff,
        Size::Word => 0xffff,
        Size::Doubleword => 0xffff_ffff,
        Size::Quadword => u64::MAX,
    }
}

/// The greatest signed number of a size.
pub fn positive_most(size: Size) -> u64
    ensures value { result ≡ positive_most size }
    ensures fits { result < 256 ^ byte_count size }
{
    match size {
        Size::Byte => 0x7f,
        Size::Word => 0x7fff,
        Size::Doubleword => 0x7fff_ffff,
        Size::Quadword => 0x7fff_ffff_ffff_ffff,
    }
}

/// The distance of the least signed number of a size from 0.
pub fn negative_most(size: Size) -> u64
    ensures { result ≡ negative_most size }
{
    match size {
        Size::Byte => 0x80,
        Size::Word => 0x8000,
        Size::Doubleword => 0x8000_0000,
        Size::Quadword => 0x8000_0000_0000_0000,
    }
}

/// A negative number in the bytes of a size, by its distance from 0.
pub fn negated(size: Size, n: u64) -> u64
    requires { n ≤ negative_most size }
    ensures value { result ≡ (256 ^ byte_count size - n) % 256 ^ byte_count size }
    ensures fits { result < 256 ^ byte_count size }
{
    match size {
        Size::Byte => (0x100 - n) % 0x100,
        Size::Word => (0x1_0000 - n) % 0x1_0000,
        Size::Doubleword => (0x1_0000_0000 - n) % 0x1_0000_0000,
        Size::Quadword => n.wrapping_neg(),
    }
}

/// Reads a signed decimal number into the bytes of a size.
pub fn signed_number(size: Size, text: &[u8]) -> Result<u64, AsmKind>
    ensures value { result ≡ signed_number size text.now }
    ensures fits { IfOk result (λ n. n < 256 ^ byte_count size) }
{
    if byte_at(text, 0) != b'-' {
        return numeral(10, positive_most(size), text);
    }
    let distance = numeral(10, negative_most(size), rest_from(text, 1))?;
    Ok(negated(size, distance))
}

fn is_hex(text: &[u8]) -> bool
    ensures { result ≡ is_hex text.now }
{
    text.starts_with(b"0x")
}

/// Reads the raw bits of a size: `0x` and hexadecimal digits.
pub fn raw_number(size: Size, text: &[u8]) -> Result<u64, AsmKind>
    ensures value { result ≡ raw_number size text.now }
{
    if is_hex(text) {
        numeral(16, unsigned_most(size), rest_from(text, 2))
    } else {
        Err(AsmKind::Number)
    }
}

/// Reads a byte in decimal or hexadecimal.
pub fn byte_number(text: &[u8]) -> Result<u8, AsmKind>
    ensures value { result ≡ byte_number text.now }
{
    let n = if is_hex(text) {
        numeral(16, 255, rest_from(text, 2))?
    } else {
        numeral(10, 255, text)?
    };
    Ok(n as u8)
}
