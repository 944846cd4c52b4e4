ghost use Rattle.std.specs.Prelude.{◌≡◌, ◌≤◌, ◌<◌, ◌+◌, true, IfOk, find, length, map, nat_eq, nat_le, option_copied, slice_index_or, slice_set};
ghost use Rattle.std.specs.List.{list_all, position};
ghost use Rattle.fw_types.specs.Layout.{put};
ghost use Rattle.pci_model.specs.ConfigSpace.{first_bytes, first_config};
ghost use Rattle.pci_model.specs.Devices.{bar_in, bars_after, bytes_of_bar, config_after, with_byte};
ghost use Rattle.pci_model.specs.declared.device.BarBytes.{BarBytes as BarBytesValue};
ghost use Rattle.pci_model.specs.declared.function.BarRange.{BarRange as BarRangeValue};

use crate::config_space::first_config;
use crate::function::{BarRange, Function};
use crate::numbers::CONFIG_SIZE;
use fw_types::{OutOfMemory, Rows};
use std::alloc::Global;
use std::marker::Model;

/// The bytes of a function's BAR.
#[derive(Debug, Drop)]
pub struct BarBytes {
    /// The BAR's index.
    pub index: u8,
    /// Its bytes now.
    pub bytes: Rows<u8>,
}

/// What a driver reads and writes of a function.
#[derive(Debug, Drop)]
pub struct Device {
    config: [u8; CONFIG_SIZE],
    bars: Vec<BarBytes>,
}

impl Model for Device {
    ghost use Rattle.pci_model.specs.DeviceState.{DeviceState};

    ghost Value = { DeviceState };

    ghost view = { λ inside. record { config = inside.config; bars = inside.bars.items } };
}

impl Device {
    /// The device of a function with these BARs, before anything is written.
    pub fn new(
        alloc: Global,
        function: &Function,
        ranges: &[BarRange],
    ) -> Result<Device, OutOfMemory>
        requires { list_all (λ (range : BarRangeValue). nat_le range.index 5) ranges.now ≡ true }
        ensures { IfOk result (λ device. device ≡ record {
          config = first_config function.now ranges.now;
          bars = map first_bytes ranges.now;
        }) }
    {
        Ok(Device {
            config: first_config(function, ranges),
            bars: first_bars(alloc, ranges)?,
        })
    }

    /// The bytes of configuration space.
    pub fn config(&self) -> &[u8]
        ensures config { result.now ≡ self.now.config }
        ensures size { length result.now ≡ 256 }
    {
        &self.config
    }

    /// The bytes of the BAR of an index; `None` exactly if there is no such BAR.
    pub fn bar(&self, index: u8) -> Option<&[u8]>
        ensures { option_copied result ≡ bar_in self.now.bars index }
    {
        match find_bar(self.bars.as_slice(), index) {
            Some(bar) => Some(bar.bytes.as_slice()),
            None => None,
        }
    }

    /// Writes bytes to configuration space from the place `at` on. Those that cannot be written
    /// stay.
    pub fn write_config(&mut self, at: u64, bytes: &[u8])
        ensures { self.new ≡ record self.old {
          config = config_after at bytes.now self.old.config;
        } }
    {
        write_byte(&mut self.config, at, bytes, 0x04);
        write_byte(&mut self.config, at, bytes, 0x05);
        write_byte(&mut self.config, at, bytes, 0x3C);
    }

    /// Writes bytes to the BAR of an index from the place `at` on. They lie in the BAR.
    pub fn write_bar(&mut self, index: u8, at: u64, bytes: &[u8])
        requires { at + length bytes.now ≤ length (bytes_of_bar self.old.bars index) }
        ensures { self.new ≡ record self.old {
          bars = bars_after index at bytes.now self.old.bars;
        } }
    {
        if let Some(place) = bar_place(self.bars.as_slice(), index) {
            write_at(self.bars.as_mut_slice(), place, at, bytes);
        }
    }
}

/// The BARs of a function, before anything is written: all their bytes are 0.
fn first_bars(alloc: Global, ranges: &[BarRange]) -> Result<Vec<BarBytes>, OutOfMemory>
    ensures { IfOk result (λ bars. bars.items ≡ map first_bytes ranges.now) }
{
    let mut bars = Vec::with_capacity(alloc, ranges.len())?;
    for range in ranges {
        let bytes = vec![in alloc; 0; range.size as usize]?;
        bars.push(BarBytes {
            index: range.index,
            bytes: Rows::of(bytes),
        })?;
    }
    Ok(bars)
}

/// The BAR of an index among a function's BARs.
fn find_bar(bars: &[BarBytes], index: u8) -> Option<&BarBytes>
    ensures { option_copied result
        ≡ find (λ (bar : BarBytesValue). nat_eq bar.index index) bars.now }
{
    bars.iter().find(|bar| bar.index == index)
}

/// Where the BAR of an index is among a function's BARs.
fn bar_place(bars: &[BarBytes], index: u8) -> Option<usize>
    ensures { result ≡ position (λ (bar : BarBytesValue). nat_eq bar.index index) bars.now }
{
    bars.iter().position(|bar| bar.index == index)
}

/// Writes bytes to the BAR at a place of the list, from its byte `at` on.
#[tactic(auto, unfolding(fw_types::specs::Layout::put))]
fn write_at(bars: &mut [BarBytes], place: usize, at: u64, bytes: &[u8])
    requires there { place < length bars.old }
    requires fits { (bar : BarBytesValue) →
        at + length bytes.now ≤ length (slice_index_or bars.old place bar).bytes }
    ensures { (bar : BarBytesValue) → bars.new ≡ slice_set bars.old place
        (record (slice_index_or bars.old place bar) {
          bytes = put at bytes.now (slice_index_or bars.old place bar).bytes;
        }) }
{
    bars[place].bytes.replace(at as usize, bytes);
}

/// Writes one byte of configuration space, if bytes that are written from the place `at` on reach
/// it.
fn write_byte(config: &mut [u8], at: u64, bytes: &[u8], place: usize)
    requires { place < length config.old }
    ensures { config.new ≡ with_byte at bytes.now config.old place }
{
    let at = at as usize;
    if at <= place && place - at < bytes.len() {
        config[place] = bytes[place - at];
    }
}
