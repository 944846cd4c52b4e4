//! The names of EBC instructions in the assembly language, and the operands of each (UEFI 2.8,
//! chapter 22 'EFI Byte Code Virtual Machine', the instruction pages).
//!
//! The table has one row for each name: the instructions that go by it (`Pattern`), and what is
//! written in the place of each operand (`Slot`). The listing looks an instruction up (`name_of`),
//! and the assembler a name (`name_by`). `laws` ties each name to its mnemonic.
#![tactic(auto)]

pub mod laws;
mod names;
mod slots;

pub use names::{NameRow, name_by, name_of};
pub use slots::{Bits, Pattern, Side, Slot, Suffix, suffix_of};
