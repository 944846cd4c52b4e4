//! Numbers that are read from devices' bytes and written to them.
ghost use Rattle.std.specs.Prelude.{◌≡◌, ◌≤◌, ◌<◌, ◌+◌, IsTrue, Some, length, nat_lt, option_copied, slice_get, take};
ghost use Rattle.pci_model.specs.DeviceState.{DeviceState};
ghost use Rattle.pci_model.specs.Devices.{bars_after, bytes_of_bar, with_change_at, config_after, ok_unless, is_access, number_at, past_end};

use crate::device::Device;
use crate::refusal::DevRefusal;
use byteorder::{ByteOrder, LittleEndian};

/// The device of a function; `None` exactly if there is no function of the number.
pub fn device_at(devices: &[Device], f: u32) -> Option<&Device>
    ensures { option_copied result ≡ slice_get devices.now f }
{
    devices.get(f as usize)
}

/// Whether `n` bytes from the place `at` on end after the end of `size` bytes.
pub fn is_past(size: usize, at: u64, n: u8) -> bool
    ensures { result ≡ nat_lt size (at + n) }
{
    let size = size as u64;
    at > size || u64::from(n) > size - at
}

/// The number in `n` bytes from the place `at` on, lowest byte first, or `PastEnd`.
pub fn number_at(bytes: &[u8], at: u64, n: u8) -> Result<u64, DevRefusal>
    requires { IsTrue (is_access n) }
    ensures { result ≡ ok_unless (past_end (length bytes.now) (at + n)) (number_at at n bytes.now) }
{
    if is_past(bytes.len(), at, n) {
        return Err(DevRefusal::PastEnd);
    }
    Ok(LittleEndian::read_uint(&bytes[at as usize..], usize::from(n)))
}

/// The lowest `n` bytes of a number.
pub fn low_bytes(bytes: &[u8; 8], n: u8) -> &[u8]
    requires { IsTrue (is_access n) }
    ensures { result.now ≡ take n bytes.now }
{
    &bytes[..usize::from(n)]
}

/// Writes bytes to configuration space of a function from the place `at` on. Those that cannot be
/// written stay.
pub fn write_config(devices: &mut [Device], f: usize, at: u64, bytes: &[u8])
    requires { f < length devices.old }
    ensures { devices.new ≡ with_change_at f
        (λ (device : DeviceState). record device {
          config = config_after at bytes.now device.config;
        })
        devices.old }
{
    devices[f].write_config(at, bytes);
}

/// Writes bytes to a BAR of a function from the place `at` on. They lie in the BAR.
pub fn write_bar(devices: &mut [Device], f: usize, bar: u8, at: u64, bytes: &[u8])
    requires there { f < length devices.old }
    requires fits { (device : DeviceState) → slice_get devices.old f ≡ Some device
        → at + length bytes.now ≤ length (bytes_of_bar device.bars bar) }
    ensures { devices.new ≡ with_change_at f
        (λ (device : DeviceState). record device {
          bars = bars_after bar at bytes.now device.bars;
        })
        devices.old }
{
    devices[f].write_bar(bar, at, bytes);
}
