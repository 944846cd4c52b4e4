ghost use Rattle.std.specs.Prelude.{◌≡◌, ◌≤◌, IfSome};
ghost use Rattle.std.specs.Char.{digit_value};
ghost use Rattle.std.specs.List.{list_all};
ghost use Rattle.script_text.specs.Numbers.{is_digit, is_plain_decimal, number_in, number_of, numeral};

/// The value of a digit: 0 to 9, 10 to 35 for a letter of either case, and 36 for another byte.
fn digit_value(byte: u8) -> u64
    ensures { result ≡ digit_value byte }
{
    match byte {
        b'0'..=b'9' => u64::from(byte - b'0'),
        b'A'..=b'Z' => u64::from(byte - b'A') + 10,
        b'a'..=b'z' => u64::from(byte - b'a') + 10,
        _ => 36,
    }
}

/// The number that one or more digits write, if it fits in 64 bits.
#[tactic(auto, using(crate::proofs::NumbersLemmas::numerals))]
fn numeral(base: u64, digits: &[u8]) -> Option<u64>
    requires { 1 ≤ base }
    ensures { result ≡ numeral base digits.now }
{
    if digits.is_empty() {
        return None;
    }
    let mut value: u64 = 0;
    for byte in digits {
        let digit = digit_value(*byte);
        if digit >= base {
            return None;
        }
        value = value.checked_mul(base)?.checked_add(digit)?;
    }
    Some(value)
}

/// The number that a word writes, if it writes one: decimal digits, or `0x` and 1 to 16 hexadecimal
/// digits, within 64 bits.
fn number_of(word: &[u8]) -> Option<u64>
    ensures { result ≡ number_of word.now }
{
    if !word.starts_with(b"0x") {
        numeral(10, word)
    } else if word.len() <= 18 {
        numeral(16, &word[2..])
    } else {
        None
    }
}

/// The number that a word writes, if it writes one from the least to the most: decimal digits, or
/// `0x` and 1 to 16 hexadecimal digits, within 64 bits.
pub fn number_in(least: u64, most: u64, word: &[u8]) -> Option<u64>
    ensures value { result ≡ number_in least most word.now }
    ensures within { IfSome result (λ n. n ≤ most) }
{
    match number_of(word) {
        Some(n) if least <= n && n <= most => Some(n),
        _ => None,
    }
}

/// Whether each byte is a decimal digit.
fn are_decimal(word: &[u8]) -> bool
    ensures { result ≡ list_all (is_digit 10) word.now }
{
    word.iter().all(|byte| digit_value(*byte) < 10)
}

/// Whether a word is one or more decimal digits, without a leading zero.
pub fn is_plain_decimal(word: &[u8]) -> bool
    ensures { result ≡ is_plain_decimal word.now }
{
    if word.is_empty() || !are_decimal(word) {
        return false;
    }
    word.len() == 1 || word[0] != b'0'
}
