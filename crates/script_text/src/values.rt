//! What the words of a line are as numbers and as texts.
ghost use Rattle.std.specs.Prelude.{◌≡◌, IfOk, true};
ghost use Rattle.std.specs.List.{list_all};
ghost use Rattle.text_lines.specs.Words.{is_text_byte};
ghost use Rattle.script_text.specs.ScriptGrammar.{handle_at, handles_from, number_at, units_at};

use crate::numbers::number_in;
use fw_types::{MOST_BUDGET, OutOfMemory, Rows, Text};
use std::alloc::Global;
use std::str;
use text_lines::Words;

/// The number of 8 bits at a place, or 0 if the word there is no such number.
pub fn u8_at(words: &Words<'_>, place: usize) -> u8
    ensures { result ≡ number_at 8 words.now place }
{
    match number_in(0, u64::from(u8::MAX), words.at(place)) {
        Some(number) => number as u8,
        None => 0,
    }
}

/// The number of 16 bits at a place, or 0 if the word there is no such number.
pub fn u16_at(words: &Words<'_>, place: usize) -> u16
    ensures { result ≡ number_at 16 words.now place }
{
    match number_in(0, u64::from(u16::MAX), words.at(place)) {
        Some(number) => number as u16,
        None => 0,
    }
}

/// The number of 32 bits at a place, or 0 if the word there is no such number.
pub fn u32_at(words: &Words<'_>, place: usize) -> u32
    ensures { result ≡ number_at 32 words.now place }
{
    match number_in(0, u64::from(u32::MAX), words.at(place)) {
        Some(number) => number as u32,
        None => 0,
    }
}

/// The handle at a place, or 0 if the word there is no number.
pub fn handle_at(words: &Words<'_>, place: usize) -> u64
    ensures { result ≡ handle_at words.now place }
{
    match number_in(0, u64::MAX, words.at(place)) {
        Some(handle) => handle,
        None => 0,
    }
}

/// The handles from a place on.
///
/// # Errors
///
/// `OutOfMemory` if there is no memory for the list of them.
#[tactic(auto, using(crate::proofs::ValuesLemmas::handles_steps))]
pub fn handles_from(
    alloc: Global,
    words: &Words<'_>,
    place: usize,
) -> Result<Rows<u64>, OutOfMemory>
    ensures { IfOk result (λ handles. handles ≡ handles_from words.now place) }
{
    let mut handles = Vec::new(alloc);
    for i in place..words.len() {
        handles.push(handle_at(words, i))?;
    }
    Ok(Rows::of(handles))
}

/// The units at a place, or the least of them if the word there is no number in the range.
pub fn units_at(words: &Words<'_>, place: usize, least: u32) -> u32
    ensures { result ≡ units_at words.now place least }
{
    match number_in(u64::from(least), u64::from(MOST_BUDGET), words.at(place)) {
        Some(units) => units as u32,
        None => least,
    }
}

/// The text of a word of text bytes.
///
/// # Errors
///
/// `OutOfMemory` if there is no memory for the text.
pub fn text(alloc: Global, word: &[u8]) -> Result<Text, OutOfMemory>
    requires { list_all is_text_byte word.now ≡ true }
    ensures { IfOk result (λ text. text ≡ word.now) }
{
    match str::from_utf8(word) {
        Ok(word) => Ok(Text::of(String::from_str(alloc, word)?)),
        Err(_) => unreachable!(),
    }
}
