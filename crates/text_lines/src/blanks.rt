ghost use Rattle.std.specs.Prelude.{◌≡◌, ◌≤◌, length};
ghost use Rattle.std.specs.List.{list_all, position_or_len, prefix_len};
ghost use Rattle.text_lines.specs.Words.{after_blanks, after_word, first_word, is_blank, only_word};

/// Whether a byte is a space or a tab.
pub fn is_blank(byte: u8) -> bool
    ensures { result ≡ is_blank byte }
{
    byte == b' ' || byte == b'\t'
}

/// Whether a text has nothing but blanks.
pub fn is_all_blank(text: &[u8]) -> bool
    ensures { result ≡ list_all is_blank text.now }
{
    text.iter().all(|b| is_blank(*b))
}

/// The first place of a blank, or the length if there is none.
#[tactic(auto, using(std::proofs::lemmas::List::Sums::position_or_len_is))]
fn place_of_blank(text: &[u8]) -> usize
    ensures value { result ≡ position_or_len is_blank text.now }
    ensures within { result ≤ length text.now }
{
    for (i, b) in text.iter().enumerate() {
        if is_blank(*b) {
            return i;
        }
    }
    text.len()
}

/// The number of blanks at the front.
#[tactic(auto, using(std::proofs::lemmas::List::Sums::prefix_len_is))]
fn blanks_at_front(text: &[u8]) -> usize
    ensures value { result ≡ prefix_len is_blank text.now }
    ensures within { result ≤ length text.now }
{
    for (i, b) in text.iter().enumerate() {
        if !is_blank(*b) {
            return i;
        }
    }
    text.len()
}

/// The text without the blanks at its front.
pub fn after_blanks(text: &[u8]) -> &[u8]
    ensures value { result.now ≡ after_blanks text.now }
    ensures within { length result.now ≤ length text.now }
{
    &text[blanks_at_front(text)..]
}

/// The text before the first blank. It is empty if the text begins with one.
pub fn first_word(text: &[u8]) -> &[u8]
    ensures { result.now ≡ first_word text.now }
{
    &text[..place_of_blank(text)]
}

/// The text after the first blank, or nothing if there is none.
pub fn after_word(text: &[u8]) -> &[u8]
    ensures value { result.now ≡ after_word text.now }
    ensures within { length result.now ≤ length text.now }
{
    let n = place_of_blank(text);
    if n < text.len() {
        &text[n + 1..]
    } else {
        &text[n..]
    }
}

/// The one word among blanks, or nothing if there is none or more than one.
pub fn only_word(text: &[u8]) -> &[u8]
    ensures { result.now ≡ only_word text.now }
{
    let inner = after_blanks(text);
    if is_all_blank(after_word(inner)) {
        first_word(inner)
    } else {
        &[]
    }
}
