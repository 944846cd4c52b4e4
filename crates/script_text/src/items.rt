//! What a line gives: a line of the board, or a command.
ghost use Rattle.std.specs.Prelude.{◌≡◌, IfOk, true};
ghost use Rattle.script_text.specs.Forms.{are_text};
ghost use Rattle.script_text.specs.ScriptGrammar.{item_for, item_of};

use crate::board_lines::{bar, bridge, func, rom, root};
use crate::commands::{budget, connect, disconnect, load, platform, unload};
use crate::keyword::{Keyword, keyword_of};
use crate::script::Item;
use fw_types::{Command, OutOfMemory};
use std::alloc::Global;
use text_lines::Words;

/// What a line with this keyword gives.
///
/// # Errors
///
/// `OutOfMemory` if there is no memory for it.
fn item_for(alloc: Global, keyword: Keyword, words: &Words<'_>) -> Result<Item, OutOfMemory>
    requires { are_text words.now ≡ true }
    ensures { IfOk result (λ item. item ≡ item_for keyword words.now) }
{
    match keyword {
        Keyword::Root => Ok(root(words)),
        Keyword::Func => Ok(func(words)),
        Keyword::Bridge => Ok(bridge(words)),
        Keyword::Bar => Ok(bar(words)),
        Keyword::Rom => rom(alloc, words),
        Keyword::Load => load(alloc, words),
        Keyword::Connect => connect(alloc, words),
        Keyword::Disconnect => Ok(disconnect(words)),
        Keyword::Unload => Ok(unload(words)),
        Keyword::Platform => platform(alloc, words),
        Keyword::Budget => Ok(budget(words)),
        Keyword::Dump => Ok(Item::Command(Command::Dump)),
    }
}

/// What a line's words give, if they give anything.
///
/// # Errors
///
/// `OutOfMemory` if there is no memory for it.
pub fn item_of(alloc: Global, words: &Words<'_>) -> Result<Option<Item>, OutOfMemory>
    requires { are_text words.now ≡ true }
    ensures { IfOk result (λ item. item ≡ item_of words.now) }
{
    match keyword_of(words) {
        Some(keyword) => Ok(Some(item_for(alloc, keyword, words)?)),
        None => Ok(None),
    }
}
