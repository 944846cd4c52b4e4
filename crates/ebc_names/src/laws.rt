//! The law of names. It is the contract of a function with no code.
ghost use Rattle.std.specs.Prelude.{◌≡◌, map};
ghost use Rattle.ebc_names.specs.Names.{names};
ghost use Rattle.ebc_names.specs.Mnemonics.{text_of};

/// Each name of the table is the mnemonic of its opcode with the sizes, conditions and forms that
/// its bits say.
pub fn names_are_mnemonics()
    ensures { map (λ name. name.text) names ≡ map (λ name. text_of name.pattern) names }
{}
