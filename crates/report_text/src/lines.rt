ghost use Rattle.std.specs.Prelude.{◌≡◌, [], ◌∷◌, ◌++◌, IfOk, OnOk, codes, string_bytes};
ghost use Rattle.std.specs.List.{flat_map};
ghost use Rattle.std.specs.Fmt.{decimal};
ghost use Rattle.report_text.specs.Report.{command_words, dump_line, event_line, image_lines, line, note_words, reply_text, rom_line};

use crate::names::{
    OutcomeWord, PathWord, StatusWord, end_name, kind_name, recursion_name, refusal_name,
};
use fw_types::{Command, DumpLine, Event, ImageNote, OutOfMemory, PathArg, Reply, RomEnd};
use std::alloc::{AllocError, Global};
use std::fmt::Write;

/// Writes handles, each after a space.
///
/// # Errors
///
/// `AllocError` if there is no memory for the text.
fn write_handles(out: &mut String, handles: &[u64]) -> Result<(), AllocError>
    ensures { OnOk result (string_bytes out.new
        ≡ string_bytes out.old ++ flat_map (λ handle. 32 ∷ decimal handle) handles.now) }
{
    for handle in handles {
        write!(out, " {handle}")?;
    }
    Ok(())
}

/// Writes the line of a `connect` command.
///
/// # Errors
///
/// `AllocError` if there is no memory for the text.
fn write_connect(
    out: &mut String,
    controller: u64,
    recursive: bool,
    path: PathArg,
    context: &[u64],
) -> Result<(), AllocError>
    ensures { OnOk result (string_bytes out.new ≡ string_bytes out.old ++ line
        (codes ">" ∷ command_words (Command.Connect controller recursive path context.now))) }
{
    let recursion = recursion_name(recursive);
    let path = PathWord(path);
    write!(out, "> connect {controller} {recursion} {path}")?;
    write_handles(out, context)?;
    out.push_str("\n")?;
    Ok(())
}

/// Writes the line of a `platform` command.
///
/// # Errors
///
/// `AllocError` if there is no memory for the text.
fn write_platform(out: &mut String, controller: u64, drivers: &[u64]) -> Result<(), AllocError>
    ensures { OnOk result (string_bytes out.new ≡ string_bytes out.old ++ line
        (codes ">" ∷ command_words (Command.Platform controller drivers.now))) }
{
    write!(out, "> platform {controller}")?;
    write_handles(out, drivers)?;
    out.push_str("\n")?;
    Ok(())
}

/// Writes the line of a command.
///
/// # Errors
///
/// `AllocError` if there is no memory for the text.
fn write_command(out: &mut String, command: &Command) -> Result<(), AllocError>
    ensures { OnOk result (string_bytes out.new
        ≡ string_bytes out.old ++ line (codes ">" ∷ command_words command.now)) }
{
    match command {
        Command::Load { name } => {
            let name = name.as_str();
            writeln!(out, "> load {name}")
        }
        Command::Connect {
            controller,
            recursive,
            path,
            context,
        } => write_connect(out, *controller, *recursive, *path, context.as_slice()),
        Command::Disconnect {
            controller,
            driver,
            child,
        } => writeln!(out, "> disconnect {controller} {driver} {child}"),
        Command::Unload { image } => writeln!(out, "> unload {image}"),
        Command::Platform {
            controller,
            drivers,
        } => write_platform(out, *controller, drivers.as_slice()),
        Command::Budget { command, call } => writeln!(out, "> budget {command} {call}"),
        Command::Dump => writeln!(out, "> dump"),
    }
}

/// Writes the line of an event.
///
/// # Errors
///
/// `AllocError` if there is no memory for the text.
fn write_event(out: &mut String, event: &Event) -> Result<(), AllocError>
    ensures { OnOk result (string_bytes out.new ≡ string_bytes out.old ++ event_line event.now) }
{
    let kind = kind_name(event.kind);
    let result = OutcomeWord(event.result);
    writeln!(
        out,
        "{} {} {kind} {} {} {} {result}",
        event.serial, event.parent, event.driver, event.controller, event.extra
    )
}

/// Writes the lines of events.
///
/// # Errors
///
/// `AllocError` if there is no memory for the text.
fn write_events(out: &mut String, events: &[Event]) -> Result<(), AllocError>
    ensures { OnOk result
        (string_bytes out.new ≡ string_bytes out.old ++ flat_map event_line events.now) }
{
    for event in events {
        write_event(out, event)?;
    }
    Ok(())
}

/// Writes the line of an image with a note of one word.
///
/// # Errors
///
/// `AllocError` if there is no memory for the text.
fn write_note(out: &mut String, number: u64, note: &str) -> Result<(), AllocError>
    ensures { OnOk result (string_bytes out.new
        ≡ string_bytes out.old ++ line (codes "image" ∷ decimal number ∷ note.now ∷ [])) }
{
    writeln!(out, "image {number} {note}")
}

/// Writes the line of an image.
///
/// # Errors
///
/// `AllocError` if there is no memory for the text.
fn write_image(out: &mut String, number: u64, note: &ImageNote) -> Result<(), AllocError>
    ensures { OnOk result (string_bytes out.new
        ≡ string_bytes out.old ++ line (codes "image" ∷ decimal number ∷ note_words note.now)) }
{
    match note {
        ImageNote::Loaded(handle) => {
            let handle = handle.get();
            writeln!(out, "image {number} handle {handle}")
        }
        ImageNote::Failed(status) => {
            let status = StatusWord(*status);
            writeln!(out, "image {number} {status}")
        }
        ImageNote::Refused(refusal) => {
            let refusal = refusal_name(*refusal);
            writeln!(out, "image {number} refused {refusal}")
        }
        ImageNote::Compressed => write_note(out, number, "compressed"),
        ImageNote::Skipped => write_note(out, number, "skipped"),
    }
}

/// Writes the lines of images, which are numbered from 1.
///
/// # Errors
///
/// `AllocError` if there is no memory for the text.
fn write_images(out: &mut String, images: &[ImageNote]) -> Result<(), AllocError>
    ensures { OnOk result
        (string_bytes out.new ≡ string_bytes out.old ++ image_lines 1 images.now) }
{
    let mut number: u64 = 1;
    for note in images {
        write_image(out, number, note)?;
        number = number.wrapping_add(1);
    }
    Ok(())
}

/// Writes the line that says how an option ROM ended, if there is one.
///
/// # Errors
///
/// `AllocError` if there is no memory for the text.
fn write_rom_end(out: &mut String, end: Option<RomEnd>) -> Result<(), AllocError>
    ensures { OnOk result (string_bytes out.new ≡ string_bytes out.old ++ rom_line end) }
{
    match end {
        Some(end) => {
            let end = end_name(end);
            writeln!(out, "rom {end}")
        }
        None => Ok(()),
    }
}

/// Writes a line of a dump.
///
/// # Errors
///
/// `AllocError` if there is no memory for the text.
fn write_dump_line(out: &mut String, entry: &DumpLine) -> Result<(), AllocError>
    ensures { OnOk result (string_bytes out.new ≡ string_bytes out.old ++ dump_line entry.now) }
{
    match entry {
        DumpLine::Handle(handle) => writeln!(out, "handle {handle}"),
        DumpLine::Proto {
            guid,
            interface,
            owner,
        } => writeln!(out, "proto {guid} 0x{interface:x} {owner}"),
        DumpLine::Entry {
            agent,
            controller,
            attr,
            count,
        } => writeln!(out, "open {agent} {controller} 0x{attr:x} {count}"),
    }
}

/// Writes the lines of a dump.
///
/// # Errors
///
/// `AllocError` if there is no memory for the text.
fn write_dump(out: &mut String, dump: &[DumpLine]) -> Result<(), AllocError>
    ensures { OnOk result
        (string_bytes out.new ≡ string_bytes out.old ++ flat_map dump_line dump.now) }
{
    for entry in dump {
        write_dump_line(out, entry)?;
    }
    Ok(())
}

/// The text of a command and its reply.
///
/// # Errors
///
/// `OutOfMemory` if there is no memory for the text.
pub fn render(alloc: Global, command: &Command, reply: &Reply) -> Result<String, OutOfMemory>
    ensures { IfOk result (λ text. string_bytes text ≡ reply_text command.now reply.now) }
{
    let mut out = String::new(alloc);
    write_command(&mut out, command)?;
    write_events(&mut out, reply.events.as_slice())?;
    write_images(&mut out, reply.images.as_slice())?;
    write_rom_end(&mut out, reply.rom)?;
    write_dump(&mut out, reply.dump.as_slice())?;
    let status = StatusWord(reply.status);
    writeln!(&mut out, "= {status} {}", reply.units)?;
    Ok(out)
}
