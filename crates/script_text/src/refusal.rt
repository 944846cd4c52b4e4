//! Why a line is refused: the tests of each kind, in the order in which they count.
ghost use Rattle.std.specs.Prelude.{◌≡◌, drop};
ghost use Rattle.script_text.specs.Forms.{form_of, some_refused};
ghost use Rattle.script_text.specs.ScriptGrammar.{fault_after, first_kind, has_too_few_words, has_too_many_words, has_unknown_word, has_wrong_number, is_fault, is_late, is_too_long, on_keyword, tests_after, tests_alone};

use crate::arguments::some_refused;
use crate::keyword::{Keyword, arguments, handles_after, keyword_of};
use crate::script::{Item, MOST_LINE_BYTES, MOST_LINES, Script, ScriptKind};
use pci_model::{LineFault, line_fault};
use text_lines::{Words, is_text};

/// Whether a line with this keyword has a word that is refused for a kind, or the answer for a line
/// without a keyword.
fn refuses_word(
    kind: ScriptKind,
    keyword: Option<Keyword>,
    words: &Words<'_>,
    without: bool,
) -> bool
    ensures { result ≡ on_keyword without
        (λ keyword. some_refused kind (form_of keyword) 0 (drop 1 words.now)) keyword }
{
    match keyword {
        Some(keyword) => some_refused(kind, keyword, words),
        None => without,
    }
}

/// Whether a line, its number or the name in it is too long.
fn is_too_long(number: u32, line: &[u8], words: &Words<'_>) -> bool
    ensures { result ≡ is_too_long number line.now words.now }
{
    line.len() > MOST_LINE_BYTES
        || number > MOST_LINES
        || refuses_word(ScriptKind::TooLong, keyword_of(words), words, false)
}

/// Whether a line has a first word, a word for recursion or a word for a path that the grammar does
/// not have.
fn has_unknown_word(words: &Words<'_>) -> bool
    ensures { result ≡ has_unknown_word words.now }
{
    words.len() != 0 && refuses_word(ScriptKind::UnknownWord, keyword_of(words), words, true)
}

/// Whether a line has fewer words than its keyword needs.
fn has_too_few_words(words: &Words<'_>) -> bool
    ensures { result ≡ has_too_few_words words.now }
{
    match keyword_of(words) {
        Some(keyword) => words.len().saturating_sub(1) < arguments(keyword).len(),
        None => false,
    }
}

/// Whether a line has more words than its keyword takes.
fn has_too_many_words(words: &Words<'_>) -> bool
    ensures { result ≡ has_too_many_words words.now }
{
    match keyword_of(words) {
        Some(keyword) => {
            words.len().saturating_sub(1) > arguments(keyword).len() + handles_after(keyword)
        }
        None => false,
    }
}

/// Whether a number of a line is malformed or out of its range.
fn has_wrong_number(words: &Words<'_>) -> bool
    ensures { result ≡ has_wrong_number words.now }
{
    refuses_word(ScriptKind::Number, keyword_of(words), words, false)
}

/// The first rule of boards that a line of the board breaks, given the board lines of the script
/// before it.
fn fault_after(before: &Script, item: &Option<Item>) -> Option<LineFault>
    ensures { result ≡ fault_after before.now item.now }
{
    match item {
        Some(Item::Board(line)) => line_fault(before.board.as_slice(), line),
        _ => None,
    }
}

/// Whether a fault is of a kind.
fn is_fault(kind: LineFault, fault: Option<LineFault>) -> bool
    ensures { result ≡ is_fault kind fault }
{
    match (kind, fault) {
        (LineFault::Extra, Some(LineFault::Extra)) => true,
        (LineFault::Number, Some(LineFault::Number)) => true,
        (LineFault::Duplicate, Some(LineFault::Duplicate)) => true,
        _ => false,
    }
}

/// Whether a line is one of the board, and comes after a command.
fn is_late(before: &Script, item: &Option<Item>) -> bool
    ensures { result ≡ is_late before.now item.now }
{
    match item {
        Some(Item::Board(_)) => !before.commands.as_slice().is_empty(),
        _ => false,
    }
}

/// The first kind from `TooLong` to `Missing` for which a line with this number is refused, if there
/// is one.
pub fn refusal_alone(number: u32, line: &[u8], words: &Words<'_>) -> Option<ScriptKind>
    ensures { result ≡ first_kind (tests_alone number line.now words.now) }
{
    if is_too_long(number, line, words) {
        return Some(ScriptKind::TooLong);
    }
    if !is_text(line) {
        return Some(ScriptKind::NotAscii);
    }
    if has_unknown_word(words) {
        return Some(ScriptKind::UnknownWord);
    }
    if has_too_few_words(words) {
        return Some(ScriptKind::Missing);
    }
    None
}

/// The first kind from `Extra` to `Duplicate` for which a line is refused after a script, if there
/// is one.
pub fn refusal_after(before: &Script, words: &Words<'_>, item: &Option<Item>) -> Option<ScriptKind>
    ensures { result ≡ first_kind (tests_after before.now words.now item.now) }
{
    let fault = fault_after(before, item);
    if has_too_many_words(words) || is_fault(LineFault::Extra, fault) {
        return Some(ScriptKind::Extra);
    }
    if has_wrong_number(words) || is_fault(LineFault::Number, fault) {
        return Some(ScriptKind::Number);
    }
    if is_late(before, item) {
        return Some(ScriptKind::BoardLate);
    }
    if is_fault(LineFault::Duplicate, fault) {
        return Some(ScriptKind::Duplicate);
    }
    None
}
