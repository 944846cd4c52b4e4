ghost use Rattle.std.specs.Prelude.{◌≡◌, Some};
ghost use Rattle.report_text.specs.Report.{cause_word, end_word, kind_word, outcome_word, path_word, recursion_word, refusal_word, rom_note_word, status_word};

use fw_types::{Cause, EventKind, Outcome, PathArg, PeRefusal, RomEnd, RomNoteKind, Status};
use std::fmt;

/// A status by its name, or by its value if it has no name.
#[derive(Clone, Copy)]
pub struct StatusWord(pub Status);

impl fmt::Display for StatusWord {
    ghost output = { λ word. Some (status_word word.0) };

    #[tactic(auto, using(crate::proofs::ReportLemmas::sixteen_digits))]
    fn fmt<W: fmt::Write>(&self, f: &mut fmt::Formatter<W>) -> fmt::Result {
        match self.0.name() {
            Some(name) => write!(f, "{name}"),
            None => {
                let value = self.0.0;
                write!(f, "0x{value:016x}")
            }
        }
    }
}

/// How a driver call ended: with a value, or with the cause of a trap.
#[derive(Clone, Copy)]
pub struct OutcomeWord(pub Outcome);

impl fmt::Display for OutcomeWord {
    ghost output = { λ word. Some (outcome_word word.0) };

    fn fmt<W: fmt::Write>(&self, f: &mut fmt::Formatter<W>) -> fmt::Result {
        match self.0 {
            Outcome::Value(status) => {
                let value = StatusWord(status);
                write!(f, "{value}")
            }
            Outcome::Trapped(cause) => {
                let name = cause_name(cause);
                write!(f, "trap:{name}")
            }
        }
    }
}

/// A path as a script writes it.
#[derive(Clone, Copy)]
pub struct PathWord(pub PathArg);

impl fmt::Display for PathWord {
    ghost output = { λ word. Some (path_word word.0) };

    fn fmt<W: fmt::Write>(&self, f: &mut fmt::Formatter<W>) -> fmt::Result {
        match self.0 {
            PathArg::Null => write!(f, "none"),
            PathArg::End => write!(f, "end"),
            PathArg::Pci { device, function } => write!(f, "pci:{device}.{function}"),
        }
    }
}

/// The word for whether a connection is recursive.
pub fn recursion_name(recursive: bool) -> &'static str
    ensures { result.now ≡ recursion_word recursive }
{
    if recursive { "all" } else { "one" }
}

/// The word for the cause of a trap.
pub fn cause_name(cause: Cause) -> &'static str
    ensures { result.now ≡ cause_word cause }
{
    match cause {
        Cause::Illegal => "Illegal",
        Cause::Fetch => "Fetch",
        Cause::Memory => "Memory",
        Cause::Align => "Align",
        Cause::Divide => "Divide",
        Cause::Break => "Break",
        Cause::BadCall => "BadCall",
        Cause::Nest => "Nest",
        Cause::Budget => "Budget",
        Cause::Thunks => "Thunks",
    }
}

/// The word for the kind of an event.
pub fn kind_name(kind: EventKind) -> &'static str
    ensures { result.now ≡ kind_word kind }
{
    match kind {
        EventKind::Entry => "entry",
        EventKind::Supported => "supported",
        EventKind::Start => "start",
        EventKind::Stop => "stop",
        EventKind::Unload => "unload",
        EventKind::Connect => "connect",
        EventKind::Disconnect => "disconnect",
    }
}

/// The word for why an image is refused.
pub fn refusal_name(refusal: PeRefusal) -> &'static str
    ensures { result.now ≡ refusal_word refusal }
{
    match refusal {
        PeRefusal::Short => "Short",
        PeRefusal::NoMz => "NoMz",
        PeRefusal::NoPe => "NoPe",
        PeRefusal::Machine => "Machine",
        PeRefusal::Magic => "Magic",
        PeRefusal::Subsystem => "Subsystem",
        PeRefusal::Stripped => "Stripped",
        PeRefusal::Size => "Size",
        PeRefusal::Headers => "Headers",
        PeRefusal::Section => "Section",
        PeRefusal::Reloc => "Reloc",
        PeRefusal::Entry => "Entry",
    }
}

/// The word for how an option ROM ended.
pub fn end_name(end: RomEnd) -> &'static str
    ensures { result.now ≡ end_word end }
{
    match end {
        RomEnd::Done => "Done",
        RomEnd::BadSignature => "BadSignature",
        RomEnd::BadPcir => "BadPcir",
        RomEnd::LengthZero => "LengthZero",
        RomEnd::PastEnd => "PastEnd",
    }
}

/// The word for why a function has no option ROM.
pub fn rom_note_name(kind: RomNoteKind) -> &'static str
    ensures { result.now ≡ rom_note_word kind }
{
    match kind {
        RomNoteKind::Missing => "missing",
        RomNoteKind::TooLong => "too-long",
    }
}
