ghost use Rattle.std.specs.Prelude.{◌≡◌};
ghost use Rattle.script_text.specs.Forms.{argument_at, form_of, keyword_of};

use crate::script::MOST_LISTED_HANDLES;
use fw_types::{LEAST_CALL_BUDGET, LEAST_COMMAND_BUDGET, MOST_BUDGET};
use text_lines::{Words, is};

/// What a line is about, by its first word.
#[derive(Clone, Copy, Debug, PartialEq, Eq)]
pub enum Keyword {
    Root,
    Func,
    Bridge,
    Bar,
    Rom,
    Load,
    Connect,
    Disconnect,
    Unload,
    Platform,
    Budget,
    Dump,
}

/// What a word after the first has to be.
#[derive(Clone, Copy, Debug, PartialEq, Eq)]
pub enum Argument {
    /// The name of a file, of at most 255 bytes.
    Name,
    /// `one`, or `all` for a recursive connection.
    Recursion,
    /// `none`, `end`, or `pci:` and the numbers of a device and a function with a dot between them.
    Path,
    /// A number from the least to the most.
    Within { least: u64, most: u64 },
}

/// A number that fits in 8 bits.
const BITS_8: Argument = Argument::Within {
    least: 0,
    most: u8::MAX as u64,
};

/// A number that fits in 16 bits.
const BITS_16: Argument = Argument::Within {
    least: 0,
    most: u16::MAX as u64,
};

/// A number that fits in 32 bits.
const BITS_32: Argument = Argument::Within {
    least: 0,
    most: u32::MAX as u64,
};

/// The number of a handle, or 0 for NULL.
const HANDLE: Argument = Argument::Within {
    least: 0,
    most: u64::MAX,
};

/// The units of a command.
const COMMAND_UNITS: Argument = Argument::Within {
    least: LEAST_COMMAND_BUDGET as u64,
    most: MOST_BUDGET as u64,
};

/// The units of a driver call.
const CALL_UNITS: Argument = Argument::Within {
    least: LEAST_CALL_BUDGET as u64,
    most: MOST_BUDGET as u64,
};

/// The keyword of a line, if its first word is one.
pub fn keyword_of(words: &Words<'_>) -> Option<Keyword>
    ensures { result ≡ keyword_of words.now }
{
    let word = words.at(0);
    if is(word, "root") {
        Some(Keyword::Root)
    } else if is(word, "func") {
        Some(Keyword::Func)
    } else if is(word, "bridge") {
        Some(Keyword::Bridge)
    } else if is(word, "bar") {
        Some(Keyword::Bar)
    } else if is(word, "rom") {
        Some(Keyword::Rom)
    } else if is(word, "load") {
        Some(Keyword::Load)
    } else if is(word, "connect") {
        Some(Keyword::Connect)
    } else if is(word, "disconnect") {
        Some(Keyword::Disconnect)
    } else if is(word, "unload") {
        Some(Keyword::Unload)
    } else if is(word, "platform") {
        Some(Keyword::Platform)
    } else if is(word, "budget") {
        Some(Keyword::Budget)
    } else if is(word, "dump") {
        Some(Keyword::Dump)
    } else {
        None
    }
}

/// The arguments that a line needs, in their order.
pub fn arguments(keyword: Keyword) -> &'static [Argument]
    ensures { result.now ≡ (form_of keyword).arguments }
{
    match keyword {
        Keyword::Root => &[BITS_32, BITS_8],
        Keyword::Func => &[BITS_8, BITS_8, BITS_8, BITS_16, BITS_16, BITS_32],
        Keyword::Bridge => &[BITS_8, BITS_8, BITS_8, BITS_16, BITS_16, BITS_8],
        Keyword::Bar => &[BITS_8, BITS_8, BITS_8, BITS_8, BITS_32, BITS_32],
        Keyword::Rom => &[BITS_8, BITS_8, BITS_8, Argument::Name],
        Keyword::Load => &[Argument::Name],
        Keyword::Connect => &[HANDLE, Argument::Recursion, Argument::Path],
        Keyword::Disconnect => &[HANDLE, HANDLE, HANDLE],
        Keyword::Unload => &[HANDLE],
        Keyword::Platform => &[HANDLE],
        Keyword::Budget => &[COMMAND_UNITS, CALL_UNITS],
        Keyword::Dump => &[],
    }
}

/// The number of handles that may follow the arguments.
pub fn handles_after(keyword: Keyword) -> usize
    ensures { result ≡ (form_of keyword).handles_after }
{
    match keyword {
        Keyword::Connect | Keyword::Platform => MOST_LISTED_HANDLES,
        _ => 0,
    }
}

/// The argument at a place after the first word, counted from 0.
pub fn argument_at(keyword: Keyword, place: usize) -> Option<Argument>
    ensures { result ≡ argument_at (form_of keyword) place }
{
    let needed = arguments(keyword);
    if place < needed.len() {
        Some(needed[place])
    } else if place < needed.len() + handles_after(keyword) {
        Some(HANDLE)
    } else {
        None
    }
}
