ghost use Rattle.std.specs.Prelude.{◌≡◌, IfOk};

use fw_types::OutOfMemory;
use std::alloc::Global;
use std::marker::Model;

/// A value in memory of its own, so that whatever contains it stays small. A contract sees the
/// value.
#[derive(Drop)]
pub struct Boxed<T> {
    inside: Box<T>,
}

impl<T> Model for Boxed<T> {
    ghost Value = { T };

    ghost view = { λ boxed. boxed.inside.value };
}

impl<T> Boxed<T> {
    /// Puts a value in memory of its own.
    ///
    /// # Errors
    ///
    /// `OutOfMemory` if there is no memory; the value is then dropped.
    pub fn new(alloc: Global, value: T) -> Result<Boxed<T>, OutOfMemory>
    where
        T: Drop,
        ensures { IfOk result (λ boxed. boxed ≡ value) }
    {
        Ok(Boxed {
            inside: Box::new(alloc, value)?,
        })
    }

    /// The value, out of its memory. Takes no memory.
    pub fn unboxed(self) -> T
        ensures { result ≡ self }
    {
        Box::into_inner(self.inside)
    }
}
