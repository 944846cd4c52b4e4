//! The commands, one function each.
ghost use Rattle.std.specs.Prelude.{◌≡◌, IfOk, true};
ghost use Rattle.script_text.specs.Forms.{are_text};
ghost use Rattle.script_text.specs.ScriptGrammar.{item_for};
ghost use Rattle.script_text.specs.declared.keyword.Keyword.{Keyword};

use crate::arguments::path_of;
use crate::script::Item;
use crate::values::{handle_at, handles_from, text, units_at};
use fw_types::{Command, LEAST_CALL_BUDGET, LEAST_COMMAND_BUDGET, OutOfMemory, PathArg};
use std::alloc::Global;
use text_lines::{Words, is};

/// The command of a `load` line.
///
/// # Errors
///
/// `OutOfMemory` if there is no memory for the name.
pub fn load(alloc: Global, words: &Words<'_>) -> Result<Item, OutOfMemory>
    requires { are_text words.now ≡ true }
    ensures { IfOk result (λ item. item ≡ item_for Keyword.Load words.now) }
{
    let name = text(alloc, words.at(1))?;
    Ok(Item::Command(Command::Load { name }))
}

/// The command of a `connect` line.
///
/// # Errors
///
/// `OutOfMemory` if there is no memory for the list of driver image handles.
pub fn connect(alloc: Global, words: &Words<'_>) -> Result<Item, OutOfMemory>
    ensures { IfOk result (λ item. item ≡ item_for Keyword.Connect words.now) }
{
    let context = handles_from(alloc, words, 4)?;
    Ok(Item::Command(Command::Connect {
        controller: handle_at(words, 1),
        recursive: is(words.at(2), "all"),
        path: path_of(words.at(3)).unwrap_or(PathArg::Null),
        context,
    }))
}

/// The command of a `disconnect` line.
pub fn disconnect(words: &Words<'_>) -> Item
    ensures { result ≡ item_for Keyword.Disconnect words.now }
{
    Item::Command(Command::Disconnect {
        controller: handle_at(words, 1),
        driver: handle_at(words, 2),
        child: handle_at(words, 3),
    })
}

/// The command of an `unload` line.
pub fn unload(words: &Words<'_>) -> Item
    ensures { result ≡ item_for Keyword.Unload words.now }
{
    Item::Command(Command::Unload {
        image: handle_at(words, 1),
    })
}

/// The command of a `platform` line.
///
/// # Errors
///
/// `OutOfMemory` if there is no memory for the list of driver image handles.
pub fn platform(alloc: Global, words: &Words<'_>) -> Result<Item, OutOfMemory>
    ensures { IfOk result (λ item. item ≡ item_for Keyword.Platform words.now) }
{
    let drivers = handles_from(alloc, words, 2)?;
    Ok(Item::Command(Command::Platform {
        controller: handle_at(words, 1),
        drivers,
    }))
}

/// The command of a `budget` line.
pub fn budget(words: &Words<'_>) -> Item
    ensures { result ≡ item_for Keyword.Budget words.now }
{
    Item::Command(Command::Budget {
        command: units_at(words, 1, LEAST_COMMAND_BUDGET),
        call: units_at(words, 2, LEAST_CALL_BUDGET),
    })
}
