//! The option ROMs that the lines of a board name.
ghost use Rattle.std.specs.Prelude.{◌≡◌, ◌≤◌, [], ◌∷◌, ◌++◌, Some, None, IfOk, IsErrOf, OnOk, length, map, option_to_list, true};
ghost use Rattle.std.specs.List.{range_with_len};
ghost use Rattle.fw_shelf.specs.Faults.{Rose};
ghost use Rattle.fw_shelf.specs.Shelf.{Files, file_of};
ghost use Rattle.pci_model.specs.BoardLines.{functions};
ghost use Rattle.world_model.specs.Boards.{roms_in};
ghost use Rattle.bind_engine.specs.Boot.{boot_notes, boot_reads, names_rom, note_of_line, rom_fault, rom_in_file, roms_on};
ghost use Rattle.bind_engine.specs.BootLines.{fault_given, rom_given, roms_after, with_rom};

use crate::machine::ExecFault;
use fw_shelf::{Shelf, ShelfFault};
use fw_types::{OutOfMemory, RomNote, RomNoteKind};
use pci_model::laws::{locations_are_numbers, roms_are_apart};
use pci_model::{Board, BoardLine, MOST_ROM_BYTES};
use std::alloc::Global;

/// The option ROMs of a board's functions, by number, and the notes of lines whose file gave none.
#[derive(Drop)]
pub struct BoardRoms {
    pub roms: Vec<Option<Vec<u8>>>,
    pub notes: Vec<RomNote>,
}

/// A list with no option ROM for any of `functions` functions.
///
/// # Errors
///
/// `OutOfMemory` if there is no memory.
fn no_roms(alloc: Global, functions: u32) -> Result<Vec<Option<Vec<u8>>>, OutOfMemory>
    ensures { IfOk result (λ roms. roms.items ≡ map (λ number. None) (range_with_len 0 functions)) }
{
    Ok((0..functions).map(|_number| None).collect(alloc)?)
}

/// The option ROM in a file, or why there is none.
///
/// # Errors
///
/// - `ShelfFailed` only if the shelf failed in this call.
/// - `OutOfMemory` if there is no memory for the file.
fn read_rom<F: Shelf>(
    alloc: Global,
    name: &str,
    shelf: &mut F,
) -> Result<Result<Vec<u8>, RomNoteKind>, ExecFault>
    ensures rom { (files : Files) → F.files shelf.old ≡ Some files → IfOk result
        (λ rom. rom_given rom ≡ rom_in_file (file_of files name.now)) }
    ensures fault { (files : Files) → F.files shelf.old ≡ Some files → IfOk result
        (λ rom. fault_given rom ≡ rom_fault (file_of files name.now)) }
    ensures failed { IsErrOf result ExecFault.ShelfFailed
        → Rose (F.faults shelf.old) (F.faults shelf.new) }
    ensures same_files { F.files shelf.new ≡ F.files shelf.old }
    ensures faults { F.faults shelf.old ≤ F.faults shelf.new }
    ensures becomes { F.becomes shelf.old shelf.new }
{
    match shelf.read(alloc, name) {
        Ok(Some(bytes)) => {
            if bytes.len() > MOST_ROM_BYTES {
                return Ok(Err(RomNoteKind::TooLong));
            }
            Ok(Ok(bytes))
        }
        Ok(None) => Ok(Err(RomNoteKind::Missing)),
        Err(ShelfFault::TooLong) => Ok(Err(RomNoteKind::TooLong)),
        Err(ShelfFault::Failed) => Err(ExecFault::ShelfFailed),
        Err(ShelfFault::OutOfMemory) => Err(ExecFault::OutOfMemory),
    }
}

impl BoardRoms {
    /// Takes the option ROM of a function, if there is such a function.
    fn put(&mut self, f: Option<u32>, bytes: Vec<u8>)
        ensures roms { roms_in self.new.roms.items
            ≡ with_rom f (Some bytes.items) (roms_in self.old.roms.items) }
        ensures notes { self.new.notes.items ≡ self.old.notes.items }
    {
        let Some(f) = f else {
            return;
        };
        if let Some(rom) = self.roms.get_mut(f as usize) {
            *rom = Some(bytes);
        }
    }

    /// Takes a note.
    ///
    /// # Errors
    ///
    /// `OutOfMemory` if there is no memory.
    fn note(&mut self, note: RomNote) -> Result<(), OutOfMemory>
        ensures roms { self.new.roms ≡ self.old.roms }
        ensures notes { OnOk result (self.new.notes.items ≡ self.old.notes.items ++ note ∷ []) }
    {
        self.notes.push(note)?;
        Ok(())
    }

    /// Reads the file that a line of a board names, if it names one.
    ///
    /// # Errors
    ///
    /// - `ShelfFailed` only if the line names a file, and only if the shelf failed in this call.
    /// - `OutOfMemory` if there is no memory for the file or for a note.
    fn read_line<F: Shelf>(
        &mut self,
        alloc: Global,
        board: &Board,
        line: &BoardLine,
        shelf: &mut F,
    ) -> Result<(), ExecFault>
        ensures roms { (files : Files) → F.files shelf.old ≡ Some files → OnOk result
            (roms_in self.new.roms.items
            ≡ roms_after files board.now.lines (roms_in self.old.roms.items) line.now) }
        ensures notes { (files : Files) → F.files shelf.old ≡ Some files → OnOk result
            (self.new.notes.items
            ≡ self.old.notes.items ++ option_to_list (note_of_line files line.now)) }
        ensures size { length self.new.roms.items ≡ length self.old.roms.items }
        ensures reads { IsErrOf result ExecFault.ShelfFailed → names_rom line.now ≡ true }
        ensures failed { IsErrOf result ExecFault.ShelfFailed
            → Rose (F.faults shelf.old) (F.faults shelf.new) }
        ensures same_files { F.files shelf.new ≡ F.files shelf.old }
        ensures faults { F.faults shelf.old ≤ F.faults shelf.new }
        ensures becomes { F.becomes shelf.old shelf.new }
    {
        let BoardLine::Rom {
            bus,
            device,
            function,
            name,
        } = line
        else {
            return Ok(());
        };
        match read_rom(alloc, name.as_str(), shelf)? {
            Ok(bytes) => self.put(board.find(*bus, *device, *function), bytes),
            Err(kind) => self.note(RomNote {
                bus: *bus,
                device: *device,
                function: *function,
                kind,
            })?,
        }
        Ok(())
    }
}

/// Reads the option ROMs of a board's functions, in the order of the lines that name them.
///
/// # Errors
///
/// - `ShelfFailed` only if a line names a file, and only if the shelf failed in this call.
/// - `OutOfMemory` if there is no memory for the files or for the notes.
pub fn read_roms<F: Shelf>(
    alloc: Global,
    board: &Board,
    shelf: &mut F,
) -> Result<BoardRoms, ExecFault>
    ensures roms { (files : Files) → F.files shelf.old ≡ Some files → IfOk result
        (λ read. roms_in read.roms.items ≡ roms_on files board.now.lines) }
    ensures notes { (files : Files) → F.files shelf.old ≡ Some files → IfOk result
        (λ read. read.notes.items ≡ boot_notes files board.now) }
    ensures size { IfOk result
        (λ read. length read.roms.items ≡ length (functions board.now.lines)) }
    ensures reads { IsErrOf result ExecFault.ShelfFailed → boot_reads board.now ≡ true }
    ensures failed { IsErrOf result ExecFault.ShelfFailed
        → Rose (F.faults shelf.old) (F.faults shelf.new) }
    ensures same_files { F.files shelf.new ≡ F.files shelf.old }
    ensures faults { F.faults shelf.old ≤ F.faults shelf.new }
    ensures becomes { F.becomes shelf.old shelf.new }
{
    board.soundness();
    locations_are_numbers();
    roms_are_apart();
    let mut read = BoardRoms {
        roms: no_roms(alloc, board.functions())?,
        notes: Vec::new(alloc),
    };
    for line in board.lines() {
        read.read_line(alloc, board, line, shelf)?;
    }
    Ok(read)
}
