ghost use Rattle.std.specs.Prelude.{◌≡◌, ◌≤◌, bytes_eq, drop, length, nat_eq, slice_index};
ghost use Rattle.std.specs.List.{after_first, before_first, list_all, position_or_len};
ghost use Rattle.text_lines.specs.Words.{is_text_byte};

/// Whether a text is this word.
pub fn is(text: &[u8], word: &str) -> bool
    ensures { result ≡ bytes_eq text.now word.now }
{
    text == word.as_bytes()
}

/// The byte at a place, or 0 past the end.
pub fn byte_at(text: &[u8], place: usize) -> u8
    ensures { result ≡ slice_index text.now place }
{
    match text.get(place) {
        Some(byte) => *byte,
        None => 0,
    }
}

/// The text without its first `n` bytes.
pub fn rest_from(text: &[u8], n: usize) -> &[u8]
    ensures { result.now ≡ drop n text.now }
{
    if n < text.len() { &text[n..] } else { &[] }
}

/// The first place of a byte, or the length if it is not there.
#[tactic(auto, using(std::proofs::lemmas::List::Sums::position_or_len_is))]
pub fn place_of(text: &[u8], byte: u8) -> usize
    ensures value { result ≡ position_or_len (λ b. nat_eq b byte) text.now }
    ensures within { result ≤ length text.now }
{
    for (i, b) in text.iter().enumerate() {
        if *b == byte {
            return i;
        }
    }
    text.len()
}

/// The text before the first such byte, or all of it if there is none.
pub fn before_byte(text: &[u8], byte: u8) -> &[u8]
    ensures value { result.now ≡ before_first (λ b. nat_eq b byte) text.now }
    ensures within { length result.now ≤ length text.now }
{
    &text[..place_of(text, byte)]
}

/// The text after the first such byte, or nothing if there is none.
pub fn after_byte(text: &[u8], byte: u8) -> &[u8]
    ensures value { result.now ≡ after_first (λ b. nat_eq b byte) text.now }
    ensures within { length result.now ≤ length text.now }
{
    let n = place_of(text, byte);
    if n < text.len() {
        &text[n + 1..]
    } else {
        &text[n..]
    }
}

/// Whether each byte is a tab or a printable ASCII character.
pub fn is_text(text: &[u8]) -> bool
    ensures { result ≡ list_all is_text_byte text.now }
{
    text.iter().all(|b| *b == 9 || (32 <= *b && *b <= 126))
}
