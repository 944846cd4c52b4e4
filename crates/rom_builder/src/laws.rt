//! Laws of made images. Each is the contract of a function with no code.
ghost use Rattle.std.specs.Prelude.{◌≡◌, ◌<◌, ◌≤◌, ◌+◌, ◌^◌, if◌then◌else◌, ℕ, List, None, Some, fold, length, nat_eq, slice_range};
ghost use Rattle.std.specs.List.{list_any};
ghost use Rattle.fw_types.specs.declared.limits.TheConstants.{MOST_FILE_BYTES as most_file_bytes};
ghost use Rattle.pe_image.specs.ImageRules.{code_end_of, entry_of};
ghost use Rattle.pe_image.specs.LaidImage.{laid};
ghost use Rattle.rom_builder.specs.LaidMadeImage.{with_base};
ghost use Rattle.rom_builder.specs.MadeImage.{fault_of, is_too_long, made_image, places_of};
ghost use Rattle.rom_builder.specs.SortedOnce.{RiseFrom, sorted_once};
ghost use Rattle.rom_builder.specs.declared.parts.BuildFault.TheVariants.{BadEntry, TooLong};
ghost use Rattle.rom_builder.specs.declared.parts.DriverParts.{DriverParts as Parts};

/// A made image that is laid is itself, with the base address added to the 8 bytes at each of its
/// relocations, one after the other.
pub fn made_images_are_laid()
    ensures { (parts : Parts) (base : ℕ) → fault_of parts ≡ None → base < 2 ^ 64 →
        laid (made_image parts) base ≡ fold (with_base base) (made_image parts) (places_of parts) }
{}

/// The code of a made image begins at 512. The image is entered where its parts say, and the section
/// that has the entry point ends where the code does.
pub fn made_images_have_their_code()
    ensures entry { (parts : Parts) → fault_of parts ≡ None →
        entry_of (made_image parts) ≡ 512 + parts.entry }
    ensures end { (parts : Parts) → fault_of parts ≡ None →
        code_end_of (made_image parts) ≡ Some (512 + length parts.code) }
    ensures code { (parts : Parts) →
        slice_range (made_image parts) 512 (512 + length parts.code) ≡ parts.code }
{}

/// An entry past the most bytes of a file is refused, wherever it is: for the length of the file if
/// that is too long, and otherwise for the entry.
pub fn far_entries_are_refused()
    ensures { (parts : Parts) (entry : ℕ) → most_file_bytes ≤ entry →
        fault_of (record parts { entry = entry })
        ≡ Some (if is_too_long parts then TooLong else BadEntry) }
{}

/// Numbers that are sorted once each rise, and the same numbers are among them as before.
pub fn relocations_are_sorted_once()
    ensures rise { (numbers : List ℕ) → RiseFrom 0 (sorted_once numbers) }
    ensures same { (number : ℕ) (numbers : List ℕ) →
        list_any (nat_eq number) (sorted_once numbers) ≡ list_any (nat_eq number) numbers }
{}
