ghost use Rattle.std.specs.Prelude.{◌≡◌, option_map};
ghost use Rattle.script_text.specs.Numbers.{number_in};
ghost use Rattle.image_tools.specs.Tools.{asm_form, form_of, form_of_verb, form_value, only_name, rom_form, rom_form_of, words_in};

use script_text::number_in;

/// What the words ask for, with names of files.
#[derive(Clone, Copy, Debug)]
pub enum Form<'a> {
    /// The image of a listing, entered at a label if one is given.
    Asm {
        listing: &'a str,
        entry: Option<&'a str>,
    },
    /// The option ROM of files.
    Rom {
        vendor: u16,
        device: u16,
        class: u32,
        files: &'a [String],
    },
    /// The images of an option ROM.
    Walk(&'a str),
    /// What an image says about itself.
    Look(&'a str),
}

/// The form of the words, if they have one.
pub fn form_of_words(words: &[String]) -> Option<Form<'_>>
    ensures { option_map form_value result ≡ form_of (words_in words.now) }
{
    if words.is_empty() {
        return None;
    }
    form_of_verb(words[0].as_str(), &words[1..])
}

/// The form of a verb and the words after it.
fn form_of_verb<'a>(verb: &str, words: &'a [String]) -> Option<Form<'a>>
    ensures { option_map form_value result ≡ form_of_verb verb.now (words_in words.now) }
{
    if verb == "asm" {
        asm_form(words)
    } else if verb == "rom" {
        rom_form(words)
    } else if verb == "walk" {
        Some(Form::Walk(only_name(words)?))
    } else if verb == "look" {
        Some(Form::Look(only_name(words)?))
    } else {
        None
    }
}

/// A listing, and maybe the label at which the driver is entered.
fn asm_form(words: &[String]) -> Option<Form<'_>>
    ensures { option_map form_value result ≡ asm_form (words_in words.now) }
{
    match words.len() {
        1 => Some(Form::Asm {
            listing: words[0].as_str(),
            entry: None,
        }),
        2 => Some(Form::Asm {
            listing: words[0].as_str(),
            entry: Some(words[1].as_str()),
        }),
        _ => None,
    }
}

/// A vendor, a device, a class, and at least one file.
fn rom_form(words: &[String]) -> Option<Form<'_>>
    ensures { option_map form_value result ≡ rom_form (words_in words.now) }
{
    if words.len() < 4 {
        return None;
    }
    let (vendor, device, class) = (&words[0], &words[1], &words[2]);
    rom_form_of(
        vendor.as_bytes(),
        device.as_bytes(),
        class.as_bytes(),
        &words[3..],
    )
}

/// Vendor and device of 16 bits, a class of 24 bits, and files.
fn rom_form_of<'a>(
    vendor: &[u8],
    device: &[u8],
    class: &[u8],
    files: &'a [String],
) -> Option<Form<'a>>
    ensures { option_map form_value result ≡ rom_form_of (number_in 0 0xFFFF vendor.now)
        (number_in 0 0xFFFF device.now) (number_in 0 0xFFFFFF class.now) (words_in files.now) }
{
    let vendor = number_in(0, 0xFFFF, vendor)?;
    let device = number_in(0, 0xFFFF, device)?;
    let class = number_in(0, 0x00FF_FFFF, class)?;
    Some(Form::Rom {
        vendor: vendor as u16,
        device: device as u16,
        class: class as u32,
        files,
    })
}

/// The name, if it is the only word.
fn only_name(words: &[String]) -> Option<&str>
    ensures { option_map (λ name. name.now) result ≡ only_name (words_in words.now) }
{
    if words.len() == 1 {
        Some(words[0].as_str())
    } else {
        None
    }
}
