/// What an arithmetic instruction computes, by its mnemonic (UEFI 2.8, chapter 22, the pages of the
/// instructions).
#[derive(Clone, Copy, Debug, PartialEq, Eq)]
pub enum Operation {
    Not,
    Neg,
    Add,
    Sub,
    Mul,
    Mulu,
    Div,
    Divu,
    Mod,
    Modu,
    And,
    Or,
    Xor,
    Shl,
    Shr,
    Ashr,
    Extndb,
    Extndw,
    Extndd,
}

/// What a comparison tests, by the end of its mnemonic.
#[derive(Clone, Copy, Debug, PartialEq, Eq)]
pub enum Relation {
    Eq,
    Lte,
    Gte,
    Ulte,
    Ugte,
}
