ghost use Rattle.std.specs.Prelude.{◌≡◌};
ghost use Rattle.pci_model.specs.BoardLines.{is_at};

/// Where a function is: its bus, its device number and its function number.
pub type Location = (u8, u8, u8);

/// A function, as its line gives it. A bridge is one too.
#[derive(Clone, Copy, Debug, PartialEq, Eq)]
pub struct Function {
    /// Where it is.
    pub location: Location,
    /// Its vendor ID.
    pub vendor: u16,
    /// Its device ID.
    pub id: u16,
    /// Its class code, of 24 bits.
    pub class: u32,
    /// The bus below it, if it is a bridge.
    pub secondary: Option<u8>,
}

/// A BAR, as its line gives it.
#[derive(Clone, Copy, Debug, PartialEq, Eq)]
pub struct BarRange {
    /// Where its function is.
    pub location: Location,
    /// Its index.
    pub index: u8,
    /// Its address.
    pub address: u32,
    /// Its size in bytes.
    pub size: u32,
}

/// Whether two locations are the same.
pub fn is_at(location: Location, other: Location) -> bool
    ensures { result ≡ is_at location other }
{
    location.0 == other.0 && location.1 == other.1 && location.2 == other.2
}
