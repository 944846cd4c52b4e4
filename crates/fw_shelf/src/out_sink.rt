ghost use Rattle.std.specs.Prelude.{◌≡◌, ◌≤◌, ◌<◌, None, length, IfOk, OnErr, is_ok, if◌then◌else◌};
ghost use Rattle.fw_shelf.specs.Faults.{IsNotFallen, IsNotFallen-again, IsNotFallen-le, IsNotFallen-same, Rose, next_count};

use crate::sink::{Sink, SinkFailed};
use std::marker::Model;

/// The runtime's standard output.
///
/// An error of the runtime is a failure, and so is a write that takes nothing of a piece that is
/// not empty. Failures are counted up to 2^64 - 1. A contract sees only the count, and knows
/// nothing of the bytes that came out.
#[derive(Drop)]
pub struct OutSink<R: Print + Drop> {
    rt: R,
    faults: u64,
}

impl<R: Print + Drop> Model for OutSink<R> {
    ghost use Rattle.std.specs.Prelude.{ℕ};

    ghost Value = { ℕ };

    ghost view = { λ sink. sink.faults };
}

impl<R: Print + Drop> OutSink<R> {
    /// The standard output of this runtime, whose count of faults is 0.
    pub fn new(rt: R) -> OutSink<R>
        ensures { result ≡ 0 }
    {
        OutSink { rt, faults: 0 }
    }
}

impl<R: Print + Drop> Sink for OutSink<R> {
    ghost taken = { λ _. None };

    ghost faults = { λ sink. sink };

    ghost becomes = { IsNotFallen };

    ghost becomes_same = { IsNotFallen-same };

    ghost becomes_again = { IsNotFallen-again };

    ghost becomes_faults = { IsNotFallen-le };

    fn write(&mut self, piece: &[u8]) -> Result<usize, SinkFailed>
        ensures within { IfOk result (λ n. n ≤ length piece.now) }
        ensures at_least_one { IfOk result (λ n. 0 < length piece.now → 0 < n) }
        ensures fault_count { self.new ≡ (if is_ok result then self.old else next_count self.old) }
        ensures failed { OnErr result (Rose self.old self.new) }
        ensures faults { self.old ≤ self.new }
    {
        match self.rt.write_some(piece) {
            Ok(count) if count > 0 || piece.is_empty() => Ok(count),
            _ => {
                self.faults = self.faults.saturating_add(1);
                Err(SinkFailed)
            }
        }
    }
}
