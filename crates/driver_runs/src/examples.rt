ghost use Rattle.std.specs.Prelude.{◌≤◌, IfOk};

use crate::comparison::are_same;
use crate::drivers::image_of;
use crate::replay::report_of;
use anyhow::{Context, Result, bail};
use fw_shelf::Shelf;
use rom_builder::rom_of;
use script_text::number_in;
use std::fs;
use std::rt::Files;

/// The script that makes the files of the examples.
const COMMANDS: &str = "examples/make";

/// Does the commands of `examples/make`, and prints for each whether it writes exactly the file that is
/// there.
///
/// # Errors
///
/// A command that has none of the forms or that refuses its input, a file that can't be read, and out of
/// memory.
pub fn run_examples<R, F>(rt: &R, shelf: &mut F) -> Result<()>
where
    R: Files + AllocGlobal + Print,
    F: Shelf,
{
    let text = fs::read_to_string(rt, COMMANDS).context("reading examples/make")?;
    let mut agreeing: u64 = 0;
    let mut count: u64 = 0;
    for line in text.lines() {
        if let Some((words, file)) = command_of(line) {
            count = count.wrapping_add(1);
            if writes_the_file(rt, shelf, words, file)? {
                agreeing = agreeing.wrapping_add(1);
            }
        }
    }
    println!(rt; "{agreeing} of {count} files of the examples as expected")?;
    Ok(())
}

/// The command of a line: what follows `./torgwezh`, and the file to which its output goes.
fn command_of(line: &str) -> Option<(&str, &str)> {
    line.strip_prefix("./torgwezh")?.split_once(" > ")
}

/// Does a command, prints how it went, and says whether it writes the bytes of the file.
///
/// # Errors
///
/// Those of `run_examples`.
fn writes_the_file<R, F>(rt: &R, shelf: &mut F, words: &str, file: &str) -> Result<bool>
where
    R: Files + AllocGlobal + Print,
    F: Shelf,
{
    let output = output_of(rt, shelf, words).context(format_args!("making {file}"))?;
    let expected = fs::read(rt, file).context(format_args!("reading {file}"))?;
    if are_same(output.as_slice(), expected.as_slice()) {
        println!(rt; "{file}: as expected")?;
        Ok(true)
    } else {
        println!(rt; "{file}: differs")?;
        Ok(false)
    }
}

/// What a command writes.
///
/// # Errors
///
/// Those of `run_examples`.
fn output_of<R, F>(rt: &R, shelf: &mut F, words: &str) -> Result<Vec<u8>>
where
    R: Files + AllocGlobal,
    F: Shelf,
{
    if let Some(listing) = words.strip_prefix("-image asm ") {
        let text = fs::read_to_string(rt, listing).context(format_args!("reading {listing}"))?;
        image_of(rt.alloc(), text.as_str())
    } else if let Some(parts) = words.strip_prefix("-image rom ") {
        rom_of_words(rt, parts)
    } else if let Some(name) = words.strip_prefix(" run ") {
        let script = fs::read(rt, name).context(format_args!("reading {name}"))?;
        Ok(report_of(rt.alloc(), script.as_slice(), shelf)?.into_bytes())
    } else {
        bail!("no form of a command: {words}")
    }
}

/// The option ROM of these words: a vendor, a device, a class, and the files of its images.
///
/// # Errors
///
/// A number that is malformed or too large, a file that can't be read, and out of memory.
fn rom_of_words<R: Files + AllocGlobal>(rt: &R, words: &str) -> Result<Vec<u8>> {
    let alloc = rt.alloc();
    let mut words = words.split(' ');
    let vendor = number(words.next(), 0xFFFF)?;
    let device = number(words.next(), 0xFFFF)?;
    let class = number(words.next(), 0x00FF_FFFF)?;
    let mut images = Vec::new(alloc);
    for name in words {
        images.push(fs::read(rt, name).context(format_args!("reading {name}"))?)?;
    }
    let (vendor, device, class) = (vendor as u16, device as u16, class as u32);
    Ok(rom_of(alloc, vendor, device, class, images.as_slice())?)
}

/// The number of a word, which is at most `most`.
///
/// # Errors
///
/// A word that is missing, malformed or too large.
fn number(word: Option<&str>, most: u64) -> Result<u64>
    ensures { IfOk result (λ n. n ≤ most) }
{
    let word = word.context("a number is missing")?;
    number_in(0, most, word.as_bytes()).context("a number is malformed or too large")
}
