//! One step of EBC over any guest memory (UEFI 2.8, chapter 22 'EFI Byte Code Virtual Machine').
//!
//! `Cpu` has the registers, `step` runs the instruction at IP, and `StepOut` says how it ended.
//! `laws` has what holds of every step.
//!
//! `run` fetches and decodes the instruction; `action` says by the opcode what it does. The
//! functions that do it are in `jumps`, `operations` (comparisons and arithmetic) and `moves`. Such
//! a function first reads all that it needs, where it may trap, then changes the registers, and
//! answers what is left to do: at most one write, and a request to the firmware. If the write is
//! refused, `step` puts IP and R0 back, since an instruction that writes changes no other register.
//! So a trap leaves registers and memory as they were, and no step copies all registers.
//!
//! Functions are `inline(always)` so that a step is one piece of machine code, in which no answer
//! of theirs goes through memory.
#![tactic(auto)]

mod action;
mod arithmetic;
mod cpu;
mod jumps;
pub mod laws;
mod moves;
mod narrow;
mod operands;
mod operations;
mod run;
mod wide;

pub use cpu::{Cpu, StepOut};
pub use run::step;

#[cfg(test)]
mod tests;
