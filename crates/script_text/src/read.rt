ghost use Rattle.std.specs.Prelude.{◌≡◌, [], IfOk, OnOk, None, true};
ghost use Rattle.std.specs.List.{list_all};
ghost use Rattle.fw_types.specs.Commands.{has_legal_budgets};
ghost use Rattle.pci_model.specs.BoardRules.{board_fault};
ghost use Rattle.script_text.specs.Forms.{line_words};
ghost use Rattle.script_text.specs.ScriptGrammar.{Gives, line_of, script_of, script_with, with_item};

use crate::items::item_of;
use crate::refusal::{refusal_after, refusal_alone};
use crate::script::{Item, Script, ScriptFault};
use fw_types::{OutOfMemory, Rows};
use pci_model::laws::lines_are_checked;
use std::alloc::Global;
use text_lines::{Words, before_byte, first_line, words_of};

/// The words of a line, without those of its comment.
///
/// # Errors
///
/// `OutOfMemory` if there is no memory for the list of them.
fn line_words<'a>(alloc: Global, line: &'a [u8]) -> Result<Words<'a>, OutOfMemory>
    ensures { IfOk result (λ list. list ≡ line_words line.now) }
{
    words_of(alloc, before_byte(line, b'#'))
}

/// What a line with this number gives after a script, if it gives anything.
///
/// # Errors
///
/// - `Refused` if the line is refused, with its number and the first kind that holds for it.
/// - `OutOfMemory` if there is no memory for what it gives.
#[tactic(auto, using(crate::proofs::ScriptLemmas::line_text))]
fn read_line(
    alloc: Global,
    number: u32,
    before: &Script,
    line: &[u8],
) -> Result<Option<Item>, ScriptFault>
    ensures { Gives result (line_of number before.now line.now) }
{
    let words = line_words(alloc, line)?;
    if let Some(kind) = refusal_alone(number, line, &words) {
        return Err(ScriptFault::Refused { line: number, kind });
    }
    let item = item_of(alloc, &words)?;
    match refusal_after(before, &words, &item) {
        Some(kind) => Err(ScriptFault::Refused { line: number, kind }),
        None => Ok(item),
    }
}

/// The script of no lines.
fn empty_script(alloc: Global) -> Script
    ensures { result ≡ script_with [] }
{
    Script {
        board: Rows::of(Vec::new(alloc)),
        commands: Rows::of(Vec::new(alloc)),
    }
}

/// Adds what a line gives to a script, if it gives anything.
///
/// # Errors
///
/// `OutOfMemory` if there is no memory for it.
fn keep(script: &mut Script, item: Option<Item>) -> Result<(), OutOfMemory>
    ensures { OnOk result (script.new ≡ with_item script.old item) }
{
    match item {
        Some(Item::Board(line)) => script.board.push(line),
        Some(Item::Command(command)) => script.commands.push(command),
        None => Ok(()),
    }
}

/// Reads bytes as a script. Its board lines are a board, and the two numbers of each `budget`
/// command are budgets that a machine may be given.
///
/// # Errors
///
/// - `Refused` if a line is refused: the first such line, and the first kind that holds for it.
/// - `OutOfMemory` if there is no memory for the lines.
pub fn parse(alloc: Global, bytes: &[u8]) -> Result<Script, ScriptFault>
    ensures script { Gives result (script_of bytes.now) }
    ensures board { IfOk result (λ script. board_fault script.board ≡ None) }
    ensures budgets { IfOk result (λ script. list_all has_legal_budgets script.commands ≡ true) }
{
    lines_are_checked();
    let mut script = empty_script(alloc);
    let mut text = bytes;
    let mut number: u32 = 1;
    while !text.is_empty() {
        let (line, rest) = first_line(text);
        let item = read_line(alloc, number, &script, line)?;
        keep(&mut script, item)?;
        text = rest;
        number = number.saturating_add(1);
    }
    Ok(script)
}
