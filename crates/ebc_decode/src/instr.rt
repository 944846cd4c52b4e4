use thiserror::Error;

/// An instruction with the raw bits of what belongs to its two operands (UEFI 2.8, chapter 22 'EFI
/// Byte Code Virtual Machine'). Bits that the instruction ignores are 0.
#[derive(Clone, Copy, Debug, PartialEq, Eq)]
pub struct Instr {
    /// The opcode, bits 5:0 of the first byte.
    pub op: u8,
    /// The modifiers, bits 7:6 of the first byte, as a number from 0 to 3.
    pub mods: u8,
    /// The second byte.
    pub operands: u8,
    /// The index or data of operand 1, or 0 if there are none.
    pub first: u64,
    /// The index or data of operand 2, or the immediate, or 0 if there are none.
    pub second: u64,
}

/// Why bytes are no instruction.
#[derive(Clone, Copy, Debug, PartialEq, Eq, Error)]
pub enum DecodeRefusal {
    /// There are fewer than two bytes, or fewer than the instruction has.
    #[error("bytes of the instruction are missing")]
    Short,
    /// The first two bytes begin no instruction.
    #[error("there is no such instruction")]
    Illegal,
}

/// No bytes decode to the instruction: its opcode or form is illegal, an ignored bit is set, or a
/// part does not fit the bytes that it has.
#[derive(Clone, Copy, Debug, PartialEq, Eq, Error)]
#[error("no bytes spell the instruction")]
pub struct NotEncodable;
