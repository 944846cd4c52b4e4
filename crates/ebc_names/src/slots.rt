ghost use Rattle.std.specs.Prelude.{◌≡◌};
ghost use Rattle.ebc_names.specs.Names.{suffix_of};

use ebc_decode::Size;

/// Bits of the first two bytes of an instruction.
#[derive(Clone, Copy, Debug, PartialEq, Eq)]
pub struct Bits {
    /// Bits of the modifiers, which are bits 7:6 of the first byte, as a number from 0 to 3.
    pub mods: u8,
    /// Bits of the second byte.
    pub operands: u8,
}

/// Which operand of an instruction. Operand 1 has bits 3:0 of the second byte and the first part
/// after it, operand 2 bits 7:4 and the second part.
#[derive(Clone, Copy, Debug, PartialEq, Eq)]
pub enum Side {
    One,
    Two,
}

/// What may follow a register.
#[derive(Clone, Copy, Debug, PartialEq, Eq)]
pub enum Suffix {
    /// Nothing.
    Nothing,
    /// A signed number in braces.
    Signed,
    /// A signed number in braces, or after `R0` also a label.
    SignedOrLabel,
    /// The raw bits of a natural index in brackets.
    Index,
}

/// What is written in the place of an operand.
#[derive(Clone, Copy, Debug, PartialEq, Eq)]
pub enum Slot {
    /// A register, and what may follow it: a number of `size`, which is there if one of the bits
    /// `shown_by` is set.
    Register {
        side: Side,
        shown_by: Bits,
        size: Size,
        direct: Suffix,
        /// `None` if the register is always direct.
        indirect: Option<Suffix>,
    },
    /// `FLAGS`.
    Flags,
    /// `FLAGS`, or `IP` if bit 4 of the second byte is set.
    FlagsOrIp,
    /// A signed number, the second part.
    Immediate {
        size: Size,
    },
    /// A signed number or a label, the second part.
    ImmediateOrLabel {
        size: Size,
    },
    /// The raw bits of a natural index in brackets, the second part.
    RawIndex {
        size: Size,
    },
    /// The second byte as a signed number, in units of two bytes, or a label.
    Step,
    /// The second byte as an unsigned number.
    Code,
}

/// The instructions that go by a name: their opcode, the bits of the first two bytes that the name
/// fixes and their values, and the operands.
#[derive(Clone, Copy, Debug, PartialEq, Eq)]
pub struct Pattern {
    pub op: u8,
    pub mask: Bits,
    pub bits: Bits,
    pub one: Option<Slot>,
    pub two: Option<Slot>,
}

/// What may follow a register, by whether it is indirect.
pub fn suffix_of(direct: Suffix, indirect: Option<Suffix>, is_indirect: bool) -> Suffix
    ensures { result ≡ suffix_of direct indirect is_indirect }
{
    if is_indirect {
        indirect.unwrap_or(Suffix::Nothing)
    } else {
        direct
    }
}
