ghost use Rattle.std.specs.Prelude.{◌≡◌, ◌≤◌, IfSome, length, option_map};
ghost use Rattle.std.specs.List.{list_all};
ghost use Rattle.script_text.specs.Numbers.{is_digit, numeral};
ghost use Rattle.replay_shell.specs.Headline.{form_of, form_of_verb, selftest, size_in, words_in};
ghost use Rattle.replay_shell.specs.Endings.{HasSize, form_value};

use load_gen::LARGEST_LOAD;

/// What the words ask for.
#[derive(Clone, Copy, Debug)]
pub enum Form<'a> {
    /// The report of the script in the file of this name.
    Run(&'a str),
    /// Whether the file of this name is a script.
    Check(&'a str),
    /// The summary of the load of this size.
    Selftest(u32),
    /// The listing of the image in the file of this name.
    Disasm(&'a str),
}

/// The most digits of the size of a load.
const MOST_DIGITS: usize = 3;

/// The form of the words, if they have one. The size of a load is from 1 to 256.
pub fn form_of_words(words: &Vec<String>) -> Option<Form<'_>>
    ensures form { option_map form_value result ≡ form_of (words_in words.now.items) }
    ensures size { IfSome result HasSize }
{
    if words.len() == 2 {
        form_of_verb(words[0].as_str(), words[1].as_str())
    } else {
        None
    }
}

/// The form of a verb and the word after it.
fn form_of_verb<'a>(verb: &str, word: &'a str) -> Option<Form<'a>>
    ensures form { option_map form_value result ≡ form_of_verb verb.now word.now }
    ensures size { IfSome result HasSize }
{
    if verb == "run" {
        Some(Form::Run(word))
    } else if verb == "check" {
        Some(Form::Check(word))
    } else if verb == "selftest" {
        selftest_form(word)
    } else if verb == "disasm" {
        Some(Form::Disasm(word))
    } else {
        None
    }
}

/// The form of `selftest` and the word after it.
fn selftest_form(word: &str) -> Option<Form<'static>>
    ensures form { option_map form_value result ≡ option_map selftest (size_in word.now) }
    ensures size { IfSome result HasSize }
{
    match size_in(word) {
        Some(size) => Some(Form::Selftest(size)),
        None => None,
    }
}

/// The size of a load that a word writes: one to three decimal digits, from 1 to 256.
fn size_in(word: &str) -> Option<u32>
    ensures value { result ≡ size_in word.now }
    ensures within { IfSome result (λ size. (1 ≤ size) × (size ≤ LARGEST_LOAD)) }
{
    if word.len() > MOST_DIGITS {
        return None;
    }
    match number_in(word) {
        Some(size) if 1 <= size && size <= LARGEST_LOAD => Some(size),
        _ => None,
    }
}

/// The number that at most three decimal digits write, if the word has at least one digit and no
/// other byte.
fn number_in(word: &str) -> Option<u32>
    requires { length word.now ≤ 3 }
    ensures { result ≡ numeral 10 word.now }
{
    if are_digits(word.as_bytes()) {
        word.parse::<u32>().ok()
    } else {
        None
    }
}

/// Whether each byte is a decimal digit.
fn are_digits(word: &[u8]) -> bool
    ensures { result ≡ list_all (is_digit 10) word.now }
{
    word.iter().all(|byte| char::from(*byte).is_digit(10))
}
