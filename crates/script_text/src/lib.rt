//! The reader of scripts: what a user asks for, line by line.
//!
//! A script is a list of lines, each of which is a line of the board, a command, a comment or blank.
//! [`parse`] gives the lines of the board and the commands, each in the order of their lines, or
//! names the first line that is refused and why. The grammar is the table `form_of` of
//! `specs/Forms.antt`: a row for each first word, with its arguments and how many handles may follow
//! them. Why a line is refused is the list `tests_of` of `specs/ScriptGrammar.antt`: the first test
//! that holds gives the kind. What lines make a board is said by the rules of `pci_model`.
#![tactic(auto)]

mod arguments;
mod board_lines;
mod commands;
mod items;
mod keyword;
mod numbers;
mod read;
mod refusal;
mod script;
#[cfg(test)]
mod tests;
mod values;

pub use numbers::number_in;
pub use read::parse;
pub use script::{
    MOST_LINE_BYTES, MOST_LINES, MOST_LISTED_HANDLES, MOST_NAME_BYTES, Script, ScriptFault,
    ScriptKind,
};
