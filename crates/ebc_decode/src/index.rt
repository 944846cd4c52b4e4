ghost use Rattle.std.specs.Prelude.{◌≡◌, ◌<◌, ◌≤◌, ◌+◌, ◌*◌, ◌/◌, ◌%◌, ◌^◌, IsTrue, nat_abs};
ghost use Rattle.ebc_decode.specs.NaturalIndex.{is_index_size, distance, natural_value, greatest_distance};

/// The value in bytes of a natural index of `size` bytes: 2, 4 or 8 (UEFI 2.8, chapter 22, 'Natural
/// Indexing'). `raw` is the index as a number.
///
/// Its top bit is the sign. The next three bits, times `size`, say how many of the lowest bits
/// count natural units, of 8 bytes each, at most all of them. The bits between count single bytes.
pub fn natural(raw: u64, size: u8) -> i64
    requires size { IsTrue (is_index_size size) }
    requires fits { raw < 256 ^ size }
    ensures value { result ≡ natural_value raw size }
    // No distance is greater than the size of the index allows.
    ensures range { nat_abs result ≤ greatest_distance size }
{
    let distance = distance_of(raw, size);
    if raw < 1 << (8 * u32::from(size) - 1) {
        distance as i64
    } else {
        -(distance as i64)
    }
}

/// The distance in bytes, without its sign.
#[tactic(auto, using(crate::proofs::IndexLemmas::distance_le))]
fn distance_of(raw: u64, size: u8) -> u64
    requires size { IsTrue (is_index_size size) }
    ensures value { result ≡ distance raw size }
    ensures small { result ≤ greatest_distance size }
{
    let unit_bits = 8 * u32::from(size) - 4;
    let units = raw % (1 << unit_bits);
    let natural_bits = ((raw >> unit_bits) % 8) as u32 * u32::from(size);
    bytes_of(units, natural_bits.min(unit_bits))
}

/// The bytes that units are, of which the lowest bits count eight bytes each.
fn bytes_of(units: u64, natural_bits: u32) -> u64
    requires units { units < 2 ^ 60 }
    requires natural_bits { natural_bits ≤ 60 }
    ensures { result ≡ units / 2 ^ natural_bits + 8 * (units % 2 ^ natural_bits) }
{
    let natural_unit = 1 << natural_bits;
    units / natural_unit + 8 * (units % natural_unit)
}
