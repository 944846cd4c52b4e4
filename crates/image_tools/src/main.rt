//! The image tools: they make the image of a listing and the option ROM of images, and report what
//! is in an option ROM or in an image.
//!
//! `words` reads what is asked for, and `respond` answers it: `assembling` (`asm`), `rom_making`
//! (`rom`), `rom_walk` (`walk`) and `image_look` (`look`) make the answers for the bytes of the
//! files, which `files` reads. `tools` is all of this for any shelf and any sink. The definitions
//! are `specs/Tools.antt` and `specs/ToolTexts.antt`; `laws` has what holds of the answers.
#![tactic(auto)]

ghost use Rattle.std.specs.Prelude.{◌≡◌, ◌≢◌, IfOk, drop};
ghost use Rattle.std.specs.Vec.Iter.{into_iter_items};

mod answer;
mod assembling;
mod files;
mod image_look;
pub mod laws;
mod lines;
mod respond;
mod rom_making;
mod rom_walk;
#[cfg(test)]
mod tests;
mod tools;
mod words;

use fw_shelf::{DirShelf, OutSink};
use std::alloc::{AllocError, Global};
use std::env;
use std::env::Args;
use std::io::ErrorKind;
use std::process::ExitCode;

/// The status if the program is out of memory before it begins.
const NO_MEMORY: u8 = 5;

/// The status if the runtime does not give the words for any other reason.
const NO_RUNTIME: u8 = 9;

fn main(rt: HostRuntime) -> ExitCode {
    ExitCode::from(status(&rt))
}

/// The status with which the program ends: that of `tools` with the words after the program's name,
/// the files below the folder in which it was started, and standard output.
fn status(rt: &HostRuntime) -> u8 {
    let alloc = rt.alloc();
    let args = match env::args(rt) {
        Ok(args) => args,
        Err(error) => return status_without_words(error.kind()),
    };
    let Ok(words) = words_after_name(alloc, args) else {
        return NO_MEMORY;
    };
    let Ok((for_files, for_output)) = runtimes(rt) else {
        return NO_MEMORY;
    };
    let mut shelf = DirShelf::new(for_files);
    let mut sink = OutSink::new(for_output);
    tools::tools(alloc, &words, &mut shelf, &mut sink)
}

/// The status if the runtime does not give the words, for an error of this kind.
fn status_without_words(kind: ErrorKind) -> u8
    ensures memory { kind ≡ ErrorKind.OutOfMemory → result ≡ 5 }
    ensures runtime { kind ≢ ErrorKind.OutOfMemory → result ≡ 9 }
{
    match kind {
        ErrorKind::OutOfMemory => NO_MEMORY,
        _ => NO_RUNTIME,
    }
}

/// All words after the first one, which is the program's name.
///
/// # Errors
///
/// `AllocError` if there is no memory for the list of them.
fn words_after_name(alloc: Global, args: Args) -> Result<Vec<String>, AllocError>
    ensures { IfOk result (λ words. words.items ≡ drop 1 (into_iter_items args)) }
{
    args.skip(1).collect(alloc)
}

/// The runtime for the files, and the one for the output.
///
/// # Errors
///
/// `AllocError` if there is no memory for the copies.
fn runtimes(rt: &HostRuntime) -> Result<(HostRuntime, HostRuntime), AllocError> {
    Ok((rt.clone()?, rt.clone()?))
}
