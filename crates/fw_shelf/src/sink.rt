ghost use Rattle.std.specs.Prelude.{◌≡◌, ◌≤◌, ◌<◌, ℕ, List, Option, take, length, IfOk, OnOk, OnErr};
ghost use Rattle.fw_shelf.specs.Faults.{Rose};
ghost use Rattle.fw_shelf.specs.Sink.{with_bytes, TakesProperPrefix};

use thiserror::Error;

/// A sink did not take bytes, since the outside failed, and the sink counted it.
#[derive(Clone, Copy, Debug, PartialEq, Eq, Error)]
#[error("the sink failed")]
pub struct SinkFailed;

/// Where bytes go.
pub trait Sink {
    /// The bytes taken so far, if a contract may know them.
    ghost taken: { Self → Option (List ℕ) };

    /// How often the outside failed. This count never falls.
    ghost faults: { Self → ℕ };

    /// What writes may make of a sink.
    ghost becomes: { Self → Self → Type 0 };

    /// Takes some of the first bytes of `piece`, and answers how many: at least one of a piece
    /// that is not empty.
    ///
    /// # Errors
    ///
    /// `SinkFailed` only if the outside failed in this call; the count of faults rose then, and
    /// nothing was taken.
    fn write(&mut self, piece: &[u8]) -> Result<usize, SinkFailed>
        ensures within { IfOk result (λ n. n ≤ length piece.now) }
        ensures at_least_one { IfOk result (λ n. 0 < length piece.now → 0 < n) }
        ensures taken { IfOk result
            (λ n. taken self.new ≡ with_bytes (taken self.old) (take n piece.now)) }
        ensures failed { OnErr result (Rose (faults self.old) (faults self.new)) }
        ensures unchanged { OnErr result (taken self.new ≡ taken self.old) }
        ensures faults { faults self.old ≤ faults self.new }
        ensures becomes { becomes self.old self.new };

    /// A sink may become itself.
    ghost becomes_same: { (sink : Self) → becomes sink sink };

    /// If a sink may become a second one, and that a third one, it may become the third one.
    ghost becomes_again: { (a b c : Self) → becomes a b → becomes b c → becomes a c };

    /// What a sink may become has no lower count of faults.
    ghost becomes_faults: { (a b : Self) → becomes a b → faults a ≤ faults b };
}

/// Writes a whole piece, in as many writes as the sink wants, and in none if the piece is empty.
/// Takes no memory.
///
/// # Errors
///
/// `SinkFailed` only if a write failed, which is then the last one: the sink has taken a prefix of
/// the piece, and not all of it.
pub fn write_all<K: Sink>(sink: &mut K, piece: &[u8]) -> Result<(), SinkFailed>
    ensures ok { OnOk result (K.taken sink.new ≡ with_bytes (K.taken sink.old) piece.now) }
    ensures failed { OnErr result (Rose (K.faults sink.old) (K.faults sink.new)) }
    ensures prefix { OnErr result
        (TakesProperPrefix (K.taken sink.old) piece.now (K.taken sink.new)) }
    ensures empty { length piece.now ≡ 0 → sink.new ≡ sink.old }
    ensures faults { K.faults sink.old ≤ K.faults sink.new }
    ensures becomes { K.becomes sink.old sink.new }
{
    let mut done = 0;
    while done < piece.len() {
        let count = sink.write(&piece[done..])?;
        done += count;
    }
    Ok(())
}
