//! Runs scripts over drivers that it assembles, and compares each report with the expected one.
//!
//! `cases.txt`, in the folder in which the program is started, has the cases. `cases` reads it,
//! `drivers` makes the image files of a case, and `replay` runs its script over them. The program
//! prints a line for each case, and then how many of them went as expected.
//!
//! The folder `examples` has the examples of the repository. The module `examples` does the commands
//! of the script `examples/make`, by which they were made, and compares what each writes with the
//! file that is there. The program prints a line for each of these files, and at the end how many
//! are as expected.
#![tactic(auto)]

mod cases;
mod comparison;
mod drivers;
mod examples;
mod replay;

use crate::cases::{Case, cases_of};
use crate::comparison::first_difference;
use crate::drivers::ImageShelf;
use crate::examples::run_examples;
use crate::replay::report_of;
use anyhow::{Context, Result};
use fw_shelf::DirShelf;
use std::fs;
use std::rt::Files;

fn main(rt: HostRuntime) -> Result<()> {
    run_cases(&rt)?;
    let mut files = DirShelf::new(rt.clone()?);
    run_examples(&rt, &mut files)
}

/// Runs every case of the file, and prints how each went.
fn run_cases<R: Files + AllocGlobal + Print>(rt: &R) -> Result<()> {
    let text = fs::read_to_string(rt, "cases.txt").context("reading cases.txt")?;
    let cases = cases_of(rt.alloc(), text.as_str())?;
    let mut agreeing: u64 = 0;
    for case in &cases {
        if runs_as_expected(rt, case)? {
            agreeing = agreeing.wrapping_add(1);
        }
    }
    let count = cases.len();
    println!(rt; "{agreeing} of {count} cases as expected")?;
    Ok(())
}

/// Runs a case, prints how it went, and says whether that was as expected.
fn runs_as_expected<R: Files + AllocGlobal + Print>(rt: &R, case: &Case) -> Result<bool> {
    let name = case.name;
    let mut shelf = ImageShelf::of(rt, case).context(format_args!("the drivers of {name}"))?;
    let script = case.script(rt.alloc())?;
    let expected = case.report(rt.alloc())?;
    let report = report_of(rt.alloc(), script.as_bytes(), &mut shelf).context(format_args!(
        "the script of {name}"
    ))?;
    match first_difference(report.as_str(), expected.as_str()) {
        None => {
            println!(rt; "{name}: as expected")?;
            Ok(true)
        }
        Some(line) => {
            println!(rt; "{name}: differs at line {line}")?;
            Ok(false)
        }
    }
}
