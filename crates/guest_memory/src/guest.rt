ghost use Rattle.std.specs.Prelude.{◌≡◌, ◌<◌, ◌^◌, ◌++◌, List, IsTrue, IfSome, IsErrOf, is_ok, length, drop, if◌then◌else◌};
ghost use Rattle.guest_memory.specs.Segment.{is_access};
ghost use Rattle.guest_memory.specs.GuestMemory.{number_of, write_answer, written, image_code, Gives};
ghost use Rattle.guest_memory.specs.declared.guest.MemRefusal.TheVariants.{OutOfMemory as NoMemory};
ghost use Rattle.guest_memory.specs.declared.segment.Segment.{Segment as SegmentValue};

use fw_types::OutOfMemory;
use thiserror::Error;

/// Why nothing was written, mapped or unmapped.
#[derive(Clone, Copy, Debug, PartialEq, Eq, Error)]
pub enum MemRefusal {
    /// No one segment has all the bytes, or none begins at the address.
    #[error("no segment has the bytes")]
    NoSegment,
    /// A driver may not write the segment that has the bytes.
    #[error("the segment is read only")]
    ReadOnly,
    /// The segment would meet another, or pass 2^63.
    #[error("the segment meets another")]
    Overlap,
    /// A limit on the bytes of images or blocks, or on the number of blocks, would be passed.
    #[error("a limit on segments is met")]
    Full,
    /// Memory ran out.
    #[error("out of memory")]
    OutOfMemory,
}

impl From<OutOfMemory> for MemRefusal {
    ghost from_gives = { λ _ refusal. refusal ≡ NoMemory };

    fn from(_error: OutOfMemory) -> MemRefusal {
        MemRefusal::OutOfMemory
    }
}

/// Memory as a driver uses it. A contract sees its segments, in order of address.
pub trait GuestMem {
    /// The segments.
    ghost segments: { Self → List SegmentValue };

    /// The value with other segments and nothing else changed.
    ghost with_segments: { Self → List SegmentValue → Self };

    /// Whether a write may run out of memory.
    ghost may_run_out: { Type 0 };

    /// The number in `n` bytes from an address on, the lowest byte first. `n` is 1, 2, 4 or 8.
    ///
    /// `None` if no one segment has all the bytes.
    fn read(&self, at: u64, n: u8) -> Option<u64>
        requires { IsTrue (is_access n) }
        ensures value { result ≡ number_of (segments self.now) at n }
        ensures fits { IfSome result (λ number. number < 256 ^ n) };

    /// Writes the lowest `n` bytes of a number at an address, the lowest first. `n` is 1, 2, 4 or 8.
    ///
    /// # Errors
    ///
    /// `NoSegment` if no one segment has all the bytes; otherwise `ReadOnly` if a driver may not
    /// write that segment. `OutOfMemory` comes only from a memory whose writes may run out of it.
    /// After an error the segments are as before.
    fn write(&mut self, at: u64, n: u8, value: u64) -> Result<(), MemRefusal>
        requires { IsTrue (is_access n) }
        ensures answer { Gives result (write_answer (segments self.old) at n) }
        ensures bytes { segments self.new ≡ (if is_ok result
            then written (segments self.old) at n value else segments self.old) }
        ensures rest { self.new ≡ with_segments self.old (segments self.new) }
        ensures memory { IsErrOf result MemRefusal.OutOfMemory → may_run_out };

    /// Copies the bytes from an address on that lie in one image, at most 18, and returns how many
    /// there are: 0 if no image has the address. The other bytes of `into` stay.
    fn fetch(&self, at: u64, into: &mut [u8; 18]) -> u8
        ensures count { result ≡ length (image_code (segments self.now) at) }
        ensures bytes { into.new ≡ image_code (segments self.now) at ++ drop result into.old };

    ghost same: { (mem : Self) → with_segments mem (segments mem) ≡ mem };
}
