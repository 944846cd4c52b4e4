//! The lines of the board, one function each.
ghost use Rattle.std.specs.Prelude.{◌≡◌, IfOk, true};
ghost use Rattle.script_text.specs.Forms.{are_text};
ghost use Rattle.script_text.specs.ScriptGrammar.{item_for};
ghost use Rattle.script_text.specs.declared.keyword.Keyword.{Keyword};

use crate::script::Item;
use crate::values::{text, u8_at, u16_at, u32_at};
use fw_types::OutOfMemory;
use pci_model::BoardLine;
use std::alloc::Global;
use text_lines::Words;

/// A `root` line.
pub fn root(words: &Words<'_>) -> Item
    ensures { result ≡ item_for Keyword.Root words.now }
{
    Item::Board(BoardLine::Root {
        uid: u32_at(words, 1),
        bus: u8_at(words, 2),
    })
}

/// A `func` line.
pub fn func(words: &Words<'_>) -> Item
    ensures { result ≡ item_for Keyword.Func words.now }
{
    Item::Board(BoardLine::Func {
        bus: u8_at(words, 1),
        device: u8_at(words, 2),
        function: u8_at(words, 3),
        vendor: u16_at(words, 4),
        id: u16_at(words, 5),
        class: u32_at(words, 6),
    })
}

/// A `bridge` line.
pub fn bridge(words: &Words<'_>) -> Item
    ensures { result ≡ item_for Keyword.Bridge words.now }
{
    Item::Board(BoardLine::Bridge {
        bus: u8_at(words, 1),
        device: u8_at(words, 2),
        function: u8_at(words, 3),
        vendor: u16_at(words, 4),
        id: u16_at(words, 5),
        secondary: u8_at(words, 6),
    })
}

/// A `bar` line.
pub fn bar(words: &Words<'_>) -> Item
    ensures { result ≡ item_for Keyword.Bar words.now }
{
    Item::Board(BoardLine::Bar {
        bus: u8_at(words, 1),
        device: u8_at(words, 2),
        function: u8_at(words, 3),
        index: u8_at(words, 4),
        address: u32_at(words, 5),
        size: u32_at(words, 6),
    })
}

/// A `rom` line.
///
/// # Errors
///
/// `OutOfMemory` if there is no memory for the name.
pub fn rom(alloc: Global, words: &Words<'_>) -> Result<Item, OutOfMemory>
    requires { are_text words.now ≡ true }
    ensures { IfOk result (λ item. item ≡ item_for Keyword.Rom words.now) }
{
    let name = text(alloc, words.at(4))?;
    Ok(Item::Board(BoardLine::Rom {
        bus: u8_at(words, 1),
        device: u8_at(words, 2),
        function: u8_at(words, 3),
        name,
    }))
}
