ghost use Rattle.std.specs.Prelude.{◌≡◌, ◌↔◌, IsNone, IsTrue};

/// Whether two files have the same bytes.
pub fn are_same(bytes: &[u8], expected: &[u8]) -> bool
    ensures { IsTrue result ↔ (bytes.now ≡ expected.now) }
{
    bytes == expected
}

/// The number, from 1, of the first line at which two texts differ, or `None` if they are the same.
pub fn first_difference(text: &str, expected: &str) -> Option<u64>
    ensures { IsNone result ↔ (text.now ≡ expected.now) }
{
    if text == expected {
        None
    } else {
        Some(first_other_line(text, expected))
    }
}

/// The number, from 1, of the first line of `expected` that differs from the same line of `text`.
fn first_other_line(text: &str, expected: &str) -> u64 {
    let mut lines = text.split('\n');
    let mut number: u64 = 1;
    for wanted in expected.split('\n') {
        if lines.next() != Some(wanted) {
            return number;
        }
        number = number.wrapping_add(1);
    }
    number
}
