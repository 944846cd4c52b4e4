ghost use Rattle.std.specs.Prelude.{◌≡◌, ◌∷◌, [], IsTrue, nat_eq};
ghost use Rattle.std.specs.List.{list_any};
ghost use Rattle.ebc_decode.specs.Sizes.{byte_count, low};

/// The size of a number (UEFI 2.8, chapter 22 'EFI Byte Code Virtual Machine').
#[derive(Clone, Copy, Debug, PartialEq, Eq)]
pub enum Size {
    /// 1 byte.
    Byte,
    /// 2 bytes.
    Word,
    /// 4 bytes.
    Doubleword,
    /// 8 bytes.
    Quadword,
}

impl Size {
    /// The number of bytes: 1, 2, 4 or 8.
    pub fn byte_count(self) -> u8
        ensures value { result ≡ byte_count self }
        ensures size { IsTrue (list_any (nat_eq result) (1 ∷ 2 ∷ 4 ∷ 8 ∷ [])) }
    {
        match self {
            Size::Byte => 1,
            Size::Word => 2,
            Size::Doubleword => 4,
            Size::Quadword => 8,
        }
    }

    /// The number in the lowest bytes of a value.
    pub fn low(self, value: u64) -> u64
        ensures { result ≡ low self value }
    {
        match self {
            Size::Byte => value % 0x100,
            Size::Word => value % 0x1_0000,
            Size::Doubleword => value % 0x1_0000_0000,
            Size::Quadword => value,
        }
    }
}
