use crate::run::Run;
use anyhow::{Context, Result};
use std::alloc::Global;
use std::fmt::Write;

/// The report on the runs of a text, which has one run on each line: the id of each run that
/// differs, and last how many runs there are and how many of them differ.
///
/// # Errors
///
/// Any line without eight fields, a number that is not hexadecimal, and out of memory.
pub fn report_of(alloc: Global, text: &str) -> Result<String> {
    let mut report = String::new(alloc);
    let mut runs: u64 = 0;
    let mut differ: u64 = 0;
    for line in text.lines() {
        let run = Run::of(line).context("a line without eight fields")?;
        runs = runs.wrapping_add(1);
        if !run.agrees(alloc)? {
            differ = differ.wrapping_add(1);
            let id = run.id;
            writeln!(report, "{id}")?;
        }
    }
    writeln!(report, "{runs} runs, {differ} differ")?;
    Ok(report)
}
