ghost use Rattle.std.specs.Prelude.{◌≡◌, ◌≤◌, ◌+◌, Err, IfOk, MatchResult, Ok, Some, filter, length, map, nat_lt, take, vec_len};
ghost use Rattle.std.specs.List.{slice_split};
ghost use Rattle.ebc_names.specs.Names.{name_by, row_name};
ghost use Rattle.ebc_asm.specs.Assembly.{GivesLine, bytes_of_words, bytes_of_code, encoding, bare_instr, bytes_of_instr, is_break, bytes_of_line, number_words, bytes_of_numbers, operands_of};
ghost use Rattle.text_lines.specs.Words.{first_word, after_word};

use crate::fault::AsmKind;
use crate::labels::{Scope, label_of};
use crate::line_fault::LineFault;
use crate::numbers::byte_number;
use crate::operands::{contribution, slot_operand, union_of};
use crate::words::code_of;
use ebc_decode::{Instr, encode};
use ebc_names::{NameRow, Pattern, name_by};
use std::alloc::{AllocError, Global};
use text_lines::{
    after_byte, after_word, before_byte, first_word, is, is_all_blank, is_blank, only_word,
};

/// The bytes of an instruction, and how many there are. If no bytes spell it, an operand is wrong.
fn encoding(instr: &Instr) -> Result<([u8; 18], u8), AsmKind>
    ensures value { MatchResult result (λ found. encoding instr.now ≡ Ok (take found.1 found.0))
        (λ kind. encoding instr.now ≡ Err kind) }
    ensures len { IfOk result (λ found. found.1 ≤ 18) }
{
    match encode(instr) {
        Ok(found) => Ok(found),
        Err(_) => Err(AsmKind::Operand),
    }
}

/// The instruction of a name without its operands.
fn bare_instr(pattern: &Pattern) -> Instr
    ensures { result ≡ bare_instr pattern.now }
{
    Instr {
        op: pattern.op,
        mods: pattern.bits.mods,
        operands: pattern.bits.operands,
        first: 0,
        second: 0,
    }
}

/// Reads the operands of a name, the first one first.
fn operands_of(pattern: &Pattern, scope: &Scope<'_>, text: &[u8]) -> Result<Instr, AsmKind>
    ensures { result
        ≡ operands_of pattern.now.one pattern.now.two scope.now.0 scope.now.1 text.now }
{
    match (pattern.one, pattern.two) {
        (None, _) if is_all_blank(text) => Ok(contribution(0, 0, 0, 0)),
        (None, _) => Err(AsmKind::Operand),
        (Some(one), None) => slot_operand(one, scope, only_word(text)),
        (Some(one), Some(two)) => {
            let first = slot_operand(one, scope, only_word(before_byte(text, b',')))?;
            let second = slot_operand(two, scope, only_word(after_byte(text, b',')))?;
            Ok(union_of(&first, &second))
        }
    }
}

/// Reads the operands of a name, and answers the bytes of the instruction.
fn bytes_of_instr(row: &NameRow, scope: &Scope<'_>, text: &[u8]) -> Result<([u8; 18], u8), AsmKind>
    ensures value { MatchResult result
        (λ found. bytes_of_instr (Some (row_name row.now)) scope.now.0 scope.now.1 text.now
        ≡ Ok (take found.1 found.0))
        (λ kind. bytes_of_instr (Some (row_name row.now)) scope.now.0 scope.now.1 text.now
        ≡ Err kind) }
    ensures len { IfOk result (λ found. found.1 ≤ 18) }
{
    let added = operands_of(&row.pattern, scope, text)?;
    encoding(&union_of(&bare_instr(&row.pattern), &added))
}

fn is_break(byte: u8) -> bool
    ensures { result ≡ is_break byte }
{
    is_blank(byte) || byte == b','
}

/// The numbers after `.byte`, separated by commas and blanks.
fn number_words<'a>(alloc: Global, text: &'a [u8]) -> Result<Vec<&'a [u8]>, AllocError>
    ensures { IfOk result (λ words. map (λ word. word.now) words.items ≡ number_words text.now) }
{
    text.split(|byte| is_break(*byte))
        .filter(|word| 0 < word.len())
        .collect(alloc)
}

/// Reads each number as a byte.
#[tactic(auto, using(crate::proofs::LineLemmas::number_steps))]
fn bytes_of_words(alloc: Global, words: &[&[u8]]) -> Result<Vec<u8>, LineFault>
    ensures value { GivesLine result (bytes_of_words (map (λ word. word.now) words.now)) }
    ensures len { IfOk result (λ bytes. vec_len bytes ≤ length words.now) }
{
    let mut bytes = Vec::new(alloc);
    for word in words {
        bytes.push(byte_number(word)?)?;
    }
    Ok(bytes)
}

/// Reads one or more numbers as bytes.
#[tactic(auto, using(crate::proofs::LineLemmas::few_words))]
fn bytes_of_numbers(alloc: Global, text: &[u8]) -> Result<Vec<u8>, LineFault>
    ensures value { GivesLine result (bytes_of_numbers (number_words text.now)) }
    ensures len { IfOk result (λ bytes. vec_len bytes ≤ length text.now + 1) }
{
    let words = number_words(alloc, text)?;
    if words.is_empty() {
        return Err(LineFault::Refused(AsmKind::Operand));
    }
    bytes_of_words(alloc, words.as_slice())
}

/// Reads a line with a name and its operands.
fn bytes_of_named(alloc: Global, scope: &Scope<'_>, text: &[u8]) -> Result<Vec<u8>, LineFault>
    ensures value { GivesLine result
        (bytes_of_instr (name_by (first_word text.now)) scope.now.0 scope.now.1
        (after_word text.now)) }
    ensures len { IfOk result (λ bytes. vec_len bytes ≤ 18) }
{
    let Some(row) = name_by(first_word(text)) else {
        return Err(LineFault::Refused(AsmKind::UnknownWord));
    };
    let (bytes, size) = bytes_of_instr(row, scope, after_word(text))?;
    Ok(Vec::from_slice(alloc, &bytes[..size as usize])?)
}

/// Reads a line, and answers its bytes.
pub fn bytes_of_line(alloc: Global, scope: &Scope<'_>, line: &[u8]) -> Result<Vec<u8>, LineFault>
    ensures value { GivesLine result (bytes_of_line scope.now.0 scope.now.1 line.now) }
    ensures len { IfOk result (λ bytes. vec_len bytes ≤ length line.now + 18) }
{
    let text = code_of(line);
    if text.is_empty() || label_of(text).is_some() {
        return Ok(Vec::new(alloc));
    }
    if is(first_word(text), ".byte") {
        return bytes_of_numbers(alloc, after_word(text));
    }
    bytes_of_named(alloc, scope, text)
}
