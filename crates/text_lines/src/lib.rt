//! Lines, words and blanks of a text of bytes, for readers that own nothing of the text.
//!
//! A reader takes a line off the front with `first_line`, cuts its comment off with `before_byte`,
//! and reads it either word by word (`words_of`) or from the front (`first_word`, `after_word`).
//! The definitions are in `specs/Words.antt`; lines are those of std's `lines`.
#![tactic(auto)]

mod blanks;
mod bytes;
mod lines;
mod words;

pub use blanks::{after_blanks, after_word, first_word, is_all_blank, is_blank, only_word};
pub use bytes::{after_byte, before_byte, byte_at, is, is_text, place_of, rest_from};
pub use lines::first_line;
pub use words::{Words, words_of};

#[cfg(test)]
mod tests;
