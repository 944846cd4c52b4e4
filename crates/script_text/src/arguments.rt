ghost use Rattle.std.specs.Prelude.{◌≡◌, drop};
ghost use Rattle.script_text.specs.Forms.{device_word, form_of, function_word, is_path, is_refused, is_refused_at, path_of, some_refused};

use crate::keyword::{Argument, Keyword, argument_at};
use crate::numbers::{is_plain_decimal, number_in};
use crate::script::{MOST_NAME_BYTES, ScriptKind};
use fw_types::PathArg;
use text_lines::{Words, after_byte, before_byte, is, rest_from};

/// The digits of the device in a word for a path with a PCI node.
fn device_word(word: &[u8]) -> &[u8]
    ensures { result.now ≡ device_word word.now }
{
    before_byte(rest_from(word, 4), b'.')
}

/// The digits of the function in a word for a path with a PCI node.
fn function_word(word: &[u8]) -> &[u8]
    ensures { result.now ≡ function_word word.now }
{
    after_byte(rest_from(word, 4), b'.')
}

/// Whether a word has the form of a path.
fn is_path(word: &[u8]) -> bool
    ensures { result ≡ is_path word.now }
{
    if is(word, "none") || is(word, "end") {
        return true;
    }
    if !word.starts_with(b"pci:") {
        return false;
    }
    is_plain_decimal(device_word(word)) && is_plain_decimal(function_word(word))
}

/// The path of a word that has the form of one, if its numbers are in range.
pub fn path_of(word: &[u8]) -> Option<PathArg>
    ensures { result ≡ path_of word.now }
{
    if is(word, "none") {
        return Some(PathArg::Null);
    }
    if is(word, "end") {
        return Some(PathArg::End);
    }
    let device = number_in(0, 31, device_word(word))?;
    let function = number_in(0, 7, function_word(word))?;
    Some(PathArg::Pci {
        device: device as u8,
        function: function as u8,
    })
}

/// Whether a word is refused for a kind in the place of an argument.
fn is_refused(kind: ScriptKind, argument: Argument, word: &[u8]) -> bool
    ensures { result ≡ is_refused kind argument word.now }
{
    match (kind, argument) {
        (ScriptKind::TooLong, Argument::Name) => word.len() > MOST_NAME_BYTES,
        (ScriptKind::UnknownWord, Argument::Recursion) => !is(word, "one") && !is(word, "all"),
        (ScriptKind::UnknownWord, Argument::Path) => !is_path(word),
        (ScriptKind::Number, Argument::Path) => path_of(word).is_none(),
        (ScriptKind::Number, Argument::Within { least, most }) => {
            number_in(least, most, word).is_none()
        }
        _ => false,
    }
}

/// Whether a word is refused for a kind in the place of an argument, if there is an argument.
fn is_refused_at(kind: ScriptKind, argument: Option<Argument>, word: &[u8]) -> bool
    ensures { result ≡ is_refused_at kind argument word.now }
{
    match argument {
        Some(argument) => is_refused(kind, argument, word),
        None => false,
    }
}

/// Whether some word after the first is refused for a kind.
#[tactic(auto, using(crate::proofs::ArgumentsLemmas::arguments_refused))]
pub fn some_refused(kind: ScriptKind, keyword: Keyword, words: &Words<'_>) -> bool
    ensures { result ≡ some_refused kind (form_of keyword) 0 (drop 1 words.now) }
{
    let count = words.len().saturating_sub(1);
    for place in 0..count {
        if is_refused_at(kind, argument_at(keyword, place), words.at(place + 1)) {
            return true;
        }
    }
    false
}
