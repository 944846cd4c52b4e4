ghost use Rattle.std.specs.Prelude.{◌≡◌, IfOk, filter, length, map, option_copied, slice_get};
ghost use Rattle.std.specs.List.{slice_split};
ghost use Rattle.text_lines.specs.Words.{is_blank, is_some_word, word_at, words};

use fw_types::OutOfMemory;
use std::alloc::{AllocError, Global};
use std::marker::Model;

/// The words of a text. A contract sees them as a list of lists of bytes.
#[derive(Drop)]
pub struct Words<'a> {
    items: Vec<&'a [u8]>,
}

impl<'a> Model for Words<'a> {
    ghost use Rattle.std.specs.Prelude.{List, ℕ, map};

    ghost Value = { List (List ℕ) };

    ghost view = { λ inside. map (λ word. word.now) inside.items.items };
}

impl<'a> Words<'a> {
    /// The number of words.
    pub fn len(&self) -> usize
        ensures { result ≡ length self.now }
    {
        self.items.len()
    }

    /// The word at a place, counted from 0, or an empty one past the end.
    pub fn at(&self, place: usize) -> &'a [u8]
        ensures { result.now ≡ word_at self.now place }
    {
        match self.get(place) {
            Some(word) => word,
            None => &[],
        }
    }

    /// The word at a place, counted from 0, if it is there.
    pub fn get(&self, place: usize) -> Option<&'a [u8]>
        ensures { option_copied result ≡ slice_get self.now place }
    {
        self.items.get(place).copied()
    }
}

/// The parts of a text between its blanks that are not empty.
fn between_blanks<'a>(alloc: Global, text: &'a [u8]) -> Result<Vec<&'a [u8]>, AllocError>
    ensures { IfOk result (λ items.
        map (λ word. word.now) items.items
        ≡ filter is_some_word (slice_split is_blank text.now)) }
{
    text.split(|b| *b == b' ' || *b == b'\t')
        .filter(|word| 0 < word.len())
        .collect(alloc)
}

/// The words of a text, which are separated by spaces and tabs.
///
/// # Errors
///
/// `OutOfMemory` if there is no memory for the list of words.
pub fn words_of<'a>(alloc: Global, text: &'a [u8]) -> Result<Words<'a>, OutOfMemory>
    ensures { IfOk result (λ found. found ≡ words text.now) }
{
    let items = between_blanks(alloc, text)?;
    Ok(Words { items })
}
