use crate::tests::{SMALLEST, image, repeated, run_words};
use crate::top::top;
use fw_shelf::{DirShelf, OutSink};
use std::cell::RefCell;
use std::fmt::Display;
use std::test::Fail;
use std::{fs, io};

/// A standard output that takes at most 20 bytes at a time, and keeps what it takes.
#[derive(Drop)]
struct Terminal {
    text: RefCell<Vec<u8>>,
}

impl Terminal {
    /// Whether exactly this text was written.
    fn shows(&self, text: &[u8]) -> bool {
        match self.text.try_borrow() {
            Ok(shown) => shown.as_slice() == text,
            Err(_) => false,
        }
    }
}

impl Print for Terminal {
    fn write_some(&self, bytes: &[u8]) -> io::Result<usize> {
        let taken = bytes.len().min(20);
        match self.text.try_borrow_mut() {
            Ok(mut text) => text.extend_from_slice(&bytes[..taken])?,
            Err(_) => return Err(io::Error::from(io::ErrorKind::ResourceBusy)),
        }
        Ok(taken)
    }

    fn write_all(&self, _bytes: &[u8]) -> io::Result<()> {
        Err(io::Error::from(io::ErrorKind::Unsupported))
    }

    fn print<D: Display + Drop>(&self, _value: D) -> io::Result<()> {
        Err(io::Error::from(io::ErrorKind::Unsupported))
    }

    fn println<D: Display + Drop>(&self, _value: D) -> io::Result<()> {
        Err(io::Error::from(io::ErrorKind::Unsupported))
    }
}

/// The report has 66,072 bytes.
#[test]
fn a_long_report_comes_out_whole(rt: HostRuntime) -> Result<(), Fail> {
    let alloc = rt.alloc();
    let mut script = repeated(alloc, b"load replay.none\n", 2000)?;
    script.extend_from_slice(b"load replay.efi\n")?;
    let mut report = repeated(alloc, b"> load replay.none\n= NOT_FOUND 0\n", 2000)?;
    report.extend_from_slice(
        b"> load replay.efi\n1 0 entry 3 0 0 SUCCESS\nimage 1 handle 3\n= SUCCESS 82\n",
    )?;
    fs::write(&rt, "replay.script", script)?;
    fs::write(&rt, "replay.efi", image(alloc, SMALLEST)?)?;
    let terminal = Terminal {
        text: RefCell::new(Vec::new(alloc)),
    };
    let words = run_words(alloc, "replay.script")?;
    let mut shelf = DirShelf::new(&rt);
    let mut sink = OutSink::new(&terminal);
    let status = top(alloc, &words, &mut shelf, &mut sink);
    fs::remove_file(&rt, "replay.script")?;
    fs::remove_file(&rt, "replay.efi")?;
    assert_eq!(rt; status, 0);
    assert!(rt; terminal.shows(report.as_slice()));
    Ok(())
}
