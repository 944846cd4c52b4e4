//! The program: it reads a script, replays its commands on the driver-model machine, and writes the
//! report.
//!
//! The path of a command: `words` reads the words, and `run` has `script_text` turn the script's
//! lines into a board and commands. `replay` begins the machine of `bind_engine` with the board and
//! hands it from command to command. `report_text` makes the text of the board's notes and that of
//! each command. `check` only reads a script. `selftest` has `load_gen` make a script, and `summary`
//! adds up its replies. `disasm` lists an image. `respond` has all four forms, and `top` is all of
//! this over any shelf and any sink.
#![tactic(auto)]

ghost use Rattle.std.specs.Prelude.{◌≡◌, ◌≢◌, IfOk, drop};
ghost use Rattle.std.specs.Vec.Iter.{into_iter_items};

#[cfg(test)]
mod board_tests;
mod check;
mod disasm;
#[cfg(test)]
mod form_tests;
#[cfg(test)]
mod image_tests;
#[cfg(test)]
mod listing_tests;
#[cfg(test)]
mod load_tests;
#[cfg(test)]
mod outside_tests;
#[cfg(test)]
mod protocol_tests;
mod refusal;
mod replay;
mod respond;
mod run;
mod say;
mod selftest;
#[cfg(test)]
mod service_tests;
mod summary;
#[cfg(test)]
mod tests;
mod top;
mod words;

use fw_shelf::{DirShelf, OutSink};
use std::alloc::{AllocError, Global};
use std::env;
use std::env::Args;
use std::io::ErrorKind;
use std::process::ExitCode;

/// The status if the program is out of memory before it begins.
const NO_MEMORY: u8 = 5;

/// The status if the runtime does not give the words for any other reason.
const NO_RUNTIME: u8 = 9;

fn main(rt: HostRuntime) -> ExitCode {
    ExitCode::from(status(&rt))
}

/// The status with which the program ends: that of `top` with the words after the program's name,
/// the files below the folder in which it was started, and standard output.
fn status(rt: &HostRuntime) -> u8 {
    let alloc = rt.alloc();
    let args = match env::args(rt) {
        Ok(args) => args,
        Err(error) => return status_without_words(error.kind()),
    };
    let Ok(words) = words_after_name(alloc, args) else {
        return NO_MEMORY;
    };
    let Ok((for_files, for_output)) = runtimes(rt) else {
        return NO_MEMORY;
    };
    let mut shelf = DirShelf::new(for_files);
    let mut sink = OutSink::new(for_output);
    top::top(alloc, &words, &mut shelf, &mut sink)
}

/// The status if the runtime does not give the words, for an error of this kind.
fn status_without_words(kind: ErrorKind) -> u8
    ensures memory { kind ≡ ErrorKind.OutOfMemory → result ≡ 5 }
    ensures runtime { kind ≢ ErrorKind.OutOfMemory → result ≡ 9 }
{
    match kind {
        ErrorKind::OutOfMemory => NO_MEMORY,
        _ => NO_RUNTIME,
    }
}

/// All words after the first, which is the program's name.
///
/// # Errors
///
/// `AllocError` if there is no memory for the list of them.
fn words_after_name(alloc: Global, args: Args) -> Result<Vec<String>, AllocError>
    ensures { IfOk result (λ words. words.items ≡ drop 1 (into_iter_items args)) }
{
    args.skip(1).collect(alloc)
}

/// The runtime for the files, and the one for the output.
///
/// # Errors
///
/// `AllocError` if there is no memory for the copies.
fn runtimes(rt: &HostRuntime) -> Result<(HostRuntime, HostRuntime), AllocError> {
    Ok((rt.clone()?, rt.clone()?))
}
