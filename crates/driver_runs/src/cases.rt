use anyhow::{Context, Result};
use std::alloc::Global;

/// A case of the file: its name and its lines.
///
/// A line `driver IMAGE PART ..` names an image file and the listings of its code: `PART` is
/// `drivers/PART.asm`, and each part follows the part before.
/// A line `rom-driver ROM PART .. + PART ..` names the file of an option ROM with such images, with
/// a `+` between two of them. A line `board LINE` is a line of the board. All other lines are the
/// expected report. The script is the lines of the board, and then what follows `> ` in the report.
#[derive(Drop)]
pub struct Case<'a> {
    pub name: &'a str,
    pub lines: Vec<&'a str>,
}

/// The cases of a text. A line `case NAME` begins a case. Blank lines and lines that begin with
/// `#` are left out.
///
/// # Errors
///
/// A line before the first case, and out of memory.
pub fn cases_of<'a>(alloc: Global, text: &'a str) -> Result<Vec<Case<'a>>> {
    let mut cases: Vec<Case<'a>> = Vec::new(alloc);
    for line in text.lines() {
        if let Some(name) = line.strip_prefix("case ") {
            cases.push(Case {
                name,
                lines: Vec::new(alloc),
            })?;
        } else if !line.is_empty() && !line.starts_with('#') {
            let case = cases.last_mut().context("a line before the first case")?;
            case.lines.push(line)?;
        }
    }
    Ok(cases)
}

impl Case<'_> {
    /// The script.
    ///
    /// # Errors
    ///
    /// Out of memory.
    pub fn script(&self, alloc: Global) -> Result<String> {
        let mut script = String::new(alloc);
        self.add_after("board ", &mut script)?;
        self.add_after("> ", &mut script)?;
        Ok(script)
    }

    /// Takes each line that begins with these words, and adds what follows them to a text, as a
    /// line.
    ///
    /// # Errors
    ///
    /// Out of memory.
    fn add_after(&self, words: &str, text: &mut String) -> Result<()> {
        for line in self.lines.as_slice() {
            if let Some(rest) = line.strip_prefix(words) {
                text.push_str(rest)?;
                text.push('\n')?;
            }
        }
        Ok(())
    }

    /// The expected report.
    ///
    /// # Errors
    ///
    /// Out of memory.
    pub fn report(&self, alloc: Global) -> Result<String> {
        let mut report = String::new(alloc);
        for line in self.lines.as_slice() {
            if !is_given(line) {
                report.push_str(line)?;
                report.push('\n')?;
            }
        }
        Ok(report)
    }
}

/// Whether a line names files or is a line of the board, and so is not a line of the report.
fn is_given(line: &str) -> bool {
    line.starts_with("driver ") || line.starts_with("rom-driver ") || line.starts_with("board ")
}
