//! The writer of reports: the text of the opening, and that of a command and of what it answered.
//!
//! The text of the opening has a line for each function of the board whose option ROM could not be
//! read; [`render_boot`] writes it. The text of a command has a line for the command, for each
//! driver call and activation, for each image of a file, for the end of an option ROM and for each
//! line of a dump, and finally the status and the units; [`render`] writes it. The definition is
//! `specs/Report.antt`, which makes each line of words. [`refusal_name`] gives the word for a
//! refused image and [`end_name`] that for the end of an option ROM. The lines of other programs
//! have these words too.
#![tactic(auto)]

mod boot;
mod lines;
mod names;
#[cfg(test)]
mod tests;

pub use boot::render_boot;
pub use lines::render;
pub use names::{end_name, refusal_name};
