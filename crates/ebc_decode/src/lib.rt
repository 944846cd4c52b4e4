//! The spelling of EBC instructions (UEFI 2.8, chapter 22 'EFI Byte Code Virtual Machine').
//!
//! `decode` finds the instruction at the front of bytes, and `encode` gives the bytes of an
//! instruction. `form_of` says how an instruction's first two bytes lay out the rest. `natural` is
//! the value of a natural index, and `Size` the size of a number. `laws` has what holds of the
//! whole table.
#![tactic(auto)]

mod form;
mod index;
mod instr;
pub mod laws;
mod reading;
mod size;
mod writing;

pub use form::{Form, form_of};
pub use index::natural;
pub use instr::{DecodeRefusal, Instr, NotEncodable};
pub use reading::decode;
pub use size::Size;
pub use writing::encode;

#[cfg(test)]
mod tests;
