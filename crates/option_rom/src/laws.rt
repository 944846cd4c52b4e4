//! Laws of the grammar of option ROMs. Each is the contract of a function with no code.
ghost use Rattle.std.specs.Prelude.{◌≡◌, ℕ, List};
ghost use Rattle.fw_types.specs.declared.image.RomEnd.{RomEnd};
ghost use Rattle.option_rom.specs.RomGrammar.{rom_in};
ghost use Rattle.option_rom.specs.RomRanges.{IsRom, Range, images_in, ranges_from};

/// A ROM is ranges of bytes, one after the other from the first byte on, each of which is an image,
/// and an end. Only the last range can say that it is the last image, and then the ROM is done.
/// Otherwise the end is why there is no image after the last range. Each ROM is such ranges and
/// such an end in exactly one way, and its images say what the ranges hold.
pub fn rom_is_ranges()
    ensures some { (rom : List ℕ) →
        (ranges : List Range) ×
        (IsRom rom ranges (rom_in rom).end × ((rom_in rom).images ≡ images_in rom ranges)) }
    ensures only { (rom : List ℕ) (ranges : List Range) (end : RomEnd) →
        IsRom rom ranges end → rom_in rom ≡ record { images = images_in rom ranges; end = end } }
    ensures one { (rom : List ℕ) (ranges others : List Range) (end other : RomEnd) →
        IsRom rom ranges end → IsRom rom others other → (ranges ≡ others) × (end ≡ other) }
{}

/// The sizes of the images say where they lie: the first image begins at the first byte, and each
/// other where the one before it ends.
pub fn sizes_give_ranges()
    ensures { (rom : List ℕ) (ranges : List Range) (end : RomEnd) →
        IsRom rom ranges end → ranges ≡ ranges_from 0 (rom_in rom).images }
{}
