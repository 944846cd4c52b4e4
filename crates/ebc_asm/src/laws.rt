//! The law of listings. It is the contract of a function with no code of its own.
ghost use Rattle.std.specs.Prelude.{◌≡◌, ◌<◌, ℕ, List, IsOkAnd, IsTrue};
ghost use Rattle.std.specs.List.{All};
ghost use Rattle.ebc_asm.specs.Assembly.{assembly_of};
ghost use Rattle.ebc_listing.specs.Listing.{is_whole, listing_lines, listing, texts};

use ebc_decode::laws::{decoding_is_of_its_form, spelling_decodes};

/// A listing without `.illegal` is read back: its texts assemble, and the listing of what they make
/// is that listing.
pub fn listing_is_read_back()
    ensures { (bytes : List ℕ) (at : ℕ) →
        All (λ b. b < 256) bytes → IsTrue (is_whole (listing_lines bytes at)) →
        IsOkAnd (assembly_of (texts (listing_lines bytes at))) (λ made.
        listing made at ≡ listing bytes at) }
{
    // By two laws of the instruction table.
    decoding_is_of_its_form();
    spelling_decodes();
}
