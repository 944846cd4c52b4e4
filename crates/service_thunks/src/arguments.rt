ghost use Rattle.std.specs.Prelude.{◌≡◌, ◌≤◌};
ghost use Rattle.service_thunks.specs.Arguments.{arguments, most_arguments};

use guest_memory::GuestMem;

/// The first `n` arguments of a native call, at most 16, and 0 for the others. `sp` is the caller's
/// R0; the arguments lie from there on, 8 bytes each. Addresses wrap in 64 bits.
///
/// `None` if one of the `n` can't be read. Takes no memory.
pub fn args<M: GuestMem>(mem: &M, sp: u64, n: u8) -> Option<[u64; 16]>
    requires { n ≤ most_arguments }
    ensures { result ≡ arguments (M.segments mem.now) sp n }
{
    let mut slots = [0; 16];
    for i in 0..n {
        let at = sp.wrapping_add(8 * u64::from(i));
        slots[usize::from(i)] = mem.read(at, 8)?;
    }
    Some(slots)
}
