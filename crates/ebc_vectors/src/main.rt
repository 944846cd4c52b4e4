//! Runs code over `ebc_machine` and compares what it leaves with what a real firmware left.
//!
//! `step.txt`, in the folder in which the program is started, has one run on each line: an id, the
//! code, the registers R1 to R7, FLAGS and the data before it, and the registers R0 to R7, FLAGS
//! and the data after it, separated by `|`, with all numbers in hexadecimal. The program prints the
//! id of each run that differs, and last how many there are.
#![tactic(auto)]

mod comparison;
mod run;

use crate::comparison::report_of;
use anyhow::{Context, Result};
use std::fs;
use std::rt::Files;

#[cfg(test)]
mod tests;

fn main(rt: HostRuntime) -> Result<()> {
    compare_all(&rt)
}

/// Compares every run of the file, and prints the report.
fn compare_all<R: Files + AllocGlobal + Print>(rt: &R) -> Result<()> {
    let text = fs::read_to_string(rt, "step.txt").context("reading step.txt")?;
    let report = report_of(rt.alloc(), text.as_str())?;
    print!(rt; "{report}")?;
    Ok(())
}
