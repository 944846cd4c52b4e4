use thiserror::Error;

/// Why a device was not read or written.
#[derive(Clone, Copy, Debug, PartialEq, Eq, Error)]
pub enum DevRefusal {
    /// The board has no function of the number.
    #[error("there is no such function")]
    NoFunction,
    /// The function has no BAR of the index.
    #[error("the function has no such BAR")]
    NoBar,
    /// A byte lies past the end of configuration space or of the BAR.
    #[error("the bytes lie past the end")]
    PastEnd,
}
