//! Laws of the image rules. Each is the contract of a function with no code.
ghost use Rattle.std.specs.Prelude.{◌≡◌, ◌≤◌, ◌<◌, ℕ, List, [], ◌∷◌, drop, length, None, AllPairs, if◌then◌else◌};
ghost use Rattle.pe_image.specs.Headers.{end_of, sections_of};
ghost use Rattle.pe_image.specs.ImageRules.{entry_of, refusal_of, size_of};
ghost use Rattle.pe_image.specs.LaidImage.{laid};
ghost use Rattle.pe_image.specs.Relocations.{block_of, blocks_of, is_malformed};

/// The blocks of a directory are the one at its front and, if that is well formed, those of the
/// directory after it.
pub fn blocks_follow_one_another()
    ensures { (byte : ℕ) (bytes : List ℕ) →
        blocks_of (byte ∷ bytes) ≡ block_of (byte ∷ bytes) ∷
        (if is_malformed (block_of (byte ∷ bytes)) then []
        else blocks_of (drop (block_of (byte ∷ bytes)).size (byte ∷ bytes))) }
{}

/// No two sections of an accepted file have a place of the image in common: each ends before those
/// that follow it in the section table begin. So at most one section has a place.
pub fn sections_lie_apart()
    ensures { (bytes : List ℕ) → refusal_of bytes ≡ None →
        AllPairs (λ former later. end_of former ≤ later.address) (sections_of bytes) }
{}

/// An accepted file that is laid, at any base address, has the size that its headers say, and its
/// entry point lies in it.
pub fn laid_images_have_their_size()
    ensures size { (bytes : List ℕ) (base : ℕ) → refusal_of bytes ≡ None →
        length (laid bytes base) ≡ size_of bytes }
    ensures entry_inside { (bytes : List ℕ) → refusal_of bytes ≡ None →
        entry_of bytes < size_of bytes }
{}
