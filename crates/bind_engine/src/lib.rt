//! The driver-model machine: it does the commands of a script, one after the other (UEFI 2.8, 7.3,
//! 7.4 and 11.1). `Machine::boot` gives the machine in its opening state on a board, and
//! `Machine::exec` does a command and answers the reply to it.
//!
//! - `machine`: the machine, and which function does which command.
//! - `boot`: the option ROMs of the board.
//! - `load`, `rom_load`: `load`, for one image or for the images of an option ROM.
//! - `connect`, `command_path`: `connect` and `disconnect`, and the device path that is in memory
//!   while a `connect` runs.
//! - `unload`: `unload`.
//! - `settings`: `platform`. `dump`: `dump`.
//!
//! The definitions are in `specs/`: what each command gives is `exec` of `specs/Commands.antt`. The
//! drivers are run by `engine`.
#![tactic(auto)]

mod boot;
mod command_path;
mod connect;
mod dump;
mod ending;
mod levels;
mod load;
mod machine;
mod rom_load;
mod settings;
mod unload;

pub use machine::{ExecFault, Machine};
