ghost use Rattle.std.specs.Prelude.{◌≡◌, ◌≤◌, length};
ghost use Rattle.ebc_asm.specs.Assembly.{code_of, inside, is_enclosed};

use text_lines::{after_blanks, before_byte};

/// The text of a line without its comment and the blanks at its front.
pub fn code_of(line: &[u8]) -> &[u8]
    ensures value { result.now ≡ code_of line.now }
    ensures within { length result.now ≤ length line.now }
{
    after_blanks(before_byte(line, b';'))
}

/// Whether a text begins with one byte and ends with another.
pub fn is_enclosed(left: u8, right: u8, text: &[u8]) -> bool
    ensures { result ≡ is_enclosed left right text.now }
{
    text.len() >= 2 && text[0] == left && text[text.len() - 1] == right
}

/// The text between the first byte and the last.
pub fn inside(text: &[u8]) -> &[u8]
    requires { 2 ≤ length text.now }
    ensures { result.now ≡ inside text.now }
{
    &text[1..text.len() - 1]
}
