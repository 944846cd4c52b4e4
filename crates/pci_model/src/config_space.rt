//! Configuration space as a driver first sees it.
ghost use Rattle.std.specs.Prelude.{◌≡◌, true, length, map, nat_le, is_some, if◌then◌else◌};
ghost use Rattle.std.specs.List.{list_all};
ghost use Rattle.fw_types.specs.Layout.{put_all};
ghost use Rattle.pci_model.specs.ConfigSpace.{bar_field, bus_fields, first_config, header_fields};
ghost use Rattle.pci_model.specs.declared.function.BarRange.{BarRange as BarRangeValue};

use crate::function::{BarRange, Function};
use crate::numbers::CONFIG_SIZE;
use fw_types::{put_bytes, put_u16, put_u32};

/// Where the registers of BARs begin, each of 4 bytes.
const BARS: usize = 0x10;

/// Configuration space of a function with these BARs, before anything is written.
pub fn first_config(function: &Function, ranges: &[BarRange]) -> [u8; CONFIG_SIZE]
    requires { list_all (λ (range : BarRangeValue). nat_le range.index 5) ranges.now ≡ true }
    ensures { result ≡ first_config function.now ranges.now }
{
    let mut config = [0; CONFIG_SIZE];
    put_header(&mut config, function);
    put_buses(&mut config, function);
    put_bars(&mut config, ranges);
    config
}

fn put_header(config: &mut [u8], function: &Function)
    requires { length config.old ≡ 256 }
    ensures { config.new ≡ put_all (header_fields function.now) config.old }
{
    put_u16(config, 0x00, function.vendor);
    put_u16(config, 0x02, function.id);
    put_bytes(config, 0x09, &function.class.to_le_bytes()[..3]);
    put_bytes(config, 0x0E, &[header_type(function)]);
}

/// The header type: 1 for a bridge, 0 for another function.
fn header_type(function: &Function) -> u8
    ensures { result ≡ (if is_some function.now.secondary then 1 else 0) }
{
    if function.secondary.is_some() { 1 } else { 0 }
}

/// Puts a bridge's primary, secondary and subordinate bus. The last two are the same.
fn put_buses(config: &mut [u8], function: &Function)
    requires { length config.old ≡ 256 }
    ensures { config.new
        ≡ put_all (bus_fields function.now.location.0 function.now.secondary) config.old }
{
    if let Some(secondary) = function.secondary {
        put_bytes(config, 0x18, &[function.location.0]);
        put_bytes(config, 0x19, &[secondary]);
        put_bytes(config, 0x1A, &[secondary]);
    }
}

fn put_bars(config: &mut [u8], ranges: &[BarRange])
    requires size { length config.old ≡ 256 }
    requires low { list_all (λ (range : BarRangeValue). nat_le range.index 5) ranges.now ≡ true }
    ensures { config.new ≡ put_all (map bar_field ranges.now) config.old }
{
    for range in ranges {
        let register = BARS + 4 * usize::from(range.index);
        put_u32(config, register, range.address);
    }
}
