//! The assembly language of EBC (UEFI 2.8, chapter 22 'EFI Byte Code Virtual Machine'): `assemble`
//! turns a text into bytes, and `disassemble` (of `ebc_listing`) turns bytes into a text.
//! `place_of_label` says where in the bytes a label of the text is.
//!
//! `assembly` goes over a text twice: first it gives each label its place, then it makes the bytes
//! of each line with them. `lines` reads one line, `operands` one operand by its place in the table
//! of `ebc_names`, `numbers` and `labels` what an operand is made of. `laws` ties both directions.
#![tactic(auto)]

mod assembly;
mod fault;
mod labels;
pub mod laws;
mod line_fault;
mod lines;
mod numbers;
mod operands;
mod words;

pub use assembly::{assemble, place_of_label};
pub use ebc_listing::disassemble;
pub use fault::{AsmFault, AsmKind};

#[cfg(test)]
mod tests;
