ghost use Rattle.std.specs.Prelude.{◌≡◌, ◌<◌, ◌≤◌, ◌-◌, ◌^◌, ◌++◌, ◌∷◌, [], List, ℕ, OnOk, IfOk, None, Some, map, option_map};
ghost use Rattle.std.specs.List.{list_all};
ghost use Rattle.ebc_decode.specs.Sizes.{byte_count};
ghost use Rattle.ebc_asm.specs.Assembly.{begins_label, continues_label, in_units, is_label_name, is_reference, is_repeated, label_by, label_of, label_view, label_distance, signed_or_label, distance_between, distance_to};

use crate::fault::AsmKind;
use crate::numbers::{negated, negative_most, positive_most, signed_number, within};
use ebc_decode::Size;
use fw_types::OutOfMemory;
use std::alloc::Global;
use std::marker::Model;
use text_lines::{byte_at, only_word, rest_from};

/// A label: its name, the number of its line, and its place, counted in bytes from the first one.
#[derive(Clone, Copy, Debug)]
pub struct LabelPlace<'a> {
    pub name: &'a [u8],
    pub line: u32,
    pub place: u64,
}

/// The labels of a text, in the order of their lines.
#[derive(Drop)]
pub struct Labels<'a> {
    items: Vec<LabelPlace<'a>>,
}

impl<'a> Model for Labels<'a> {
    ghost use Rattle.std.specs.Prelude.{List, map};
    ghost use Rattle.ebc_asm.specs.Assembly.{Label, label_view};

    ghost Value = { List Label };

    ghost view = { λ inside. map label_view inside.items.items };
}

impl<'a> Labels<'a> {
    /// No labels.
    pub fn new(alloc: Global) -> Labels<'a>
        ensures { result ≡ [] }
    {
        Labels {
            items: Vec::new(alloc),
        }
    }

    pub fn push(&mut self, name: &'a [u8], line: u32, place: u64) -> Result<(), OutOfMemory>
        ensures { OnOk result (self.new
            ≡ self.old ++ record { name = name.now; line = line; place = place } ∷ []) }
    {
        self.items.push(LabelPlace { name, line, place })?;
        Ok(())
    }

    /// The place of the first label of a name.
    pub fn place_by(&self, name: &[u8]) -> Option<u64>
        ensures { result ≡ option_map (λ label. label.place) (label_by self.now name.now) }
    {
        place_in(self.items.as_slice(), name)
    }

    /// Whether an earlier line has a label of the name.
    pub fn has_before(&self, line: u32, name: &[u8]) -> bool
        ensures { result ≡ is_repeated self.now line (Some name.now) }
    {
        is_before(self.items.as_slice(), line, name)
    }
}

fn place_in(labels: &[LabelPlace<'_>], name: &[u8]) -> Option<u64>
    ensures { result
        ≡ option_map (λ label. label.place) (label_by (map label_view labels.now) name.now) }
{
    for label in labels {
        if label.name == name {
            return Some(label.place);
        }
    }
    None
}

fn is_before(labels: &[LabelPlace<'_>], line: u32, name: &[u8]) -> bool
    ensures { result ≡ is_repeated (map label_view labels.now) line (Some name.now) }
{
    for label in labels {
        if label.name == name && label.line < line {
            return true;
        }
    }
    false
}

/// What is known when an operand is read: the labels, once each has its place, and the address
/// after the instruction.
#[derive(Drop)]
pub struct Scope<'a> {
    pub labels: Option<&'a Labels<'a>>,
    pub next: u64,
}

impl<'a> Model for Scope<'a> {
    ghost use Rattle.std.specs.Prelude.{ℕ, List, Option, option_map};
    ghost use Rattle.ebc_asm.specs.Assembly.{Label};

    ghost Value = { Option (List Label) × ℕ };

    ghost view = { λ inside. (option_map (λ labels. labels.now) inside.labels, inside.next) };
}

impl<'a> Scope<'a> {
    /// The scope in which no label has a place yet.
    pub fn without_places() -> Scope<'a>
        ensures { result ≡ (None, 0) }
    {
        Scope {
            labels: None,
            next: 0,
        }
    }

    /// The scope in which each label has its place.
    pub fn with_places(labels: &'a Labels<'a>, next: u64) -> Scope<'a>
        ensures { result ≡ (Some labels.now, next) }
    {
        Scope {
            labels: Some(labels),
            next,
        }
    }
}

/// Whether a label may begin with a byte: a letter, `_` or `.`.
fn begins_label(byte: u8) -> bool
    ensures { result ≡ begins_label byte }
{
    matches!(byte, b'A'..=b'Z' | b'a'..=b'z' | b'_' | b'.')
}

/// Whether a label may go on with a byte: one that may begin it, or a digit.
fn continues_label(byte: u8) -> bool
    ensures { result ≡ continues_label byte }
{
    begins_label(byte) || matches!(byte, b'0'..=b'9')
}

fn all_continue(text: &[u8]) -> bool
    ensures { result ≡ list_all continues_label text.now }
{
    text.iter().all(|byte| continues_label(*byte))
}

fn is_label_name(text: &[u8]) -> bool
    ensures { result ≡ is_label_name text.now }
{
    begins_label(byte_at(text, 0)) && all_continue(text)
}

/// The name of a label, if the text is `name:`.
pub fn label_of(text: &[u8]) -> Option<&[u8]>
    ensures { option_map (λ name. name.now) result ≡ label_of text.now }
{
    let word = only_word(text);
    if word.is_empty() {
        return None;
    }
    let name = &word[..word.len() - 1];
    if word[word.len() - 1] == b':' && is_label_name(name) {
        Some(name)
    } else {
        None
    }
}

/// A distance in units of `unit` bytes.
fn in_units(unit: u64, distance: u64) -> Result<u64, AsmKind>
    requires { 0 < unit }
    ensures { result ≡ in_units unit distance }
{
    if distance % unit == 0 {
        Ok(distance / unit)
    } else {
        Err(AsmKind::Range)
    }
}

/// The distance from one place to another, in units, as a signed number of a size.
fn distance_between(unit: u64, size: Size, from: u64, to: u64) -> Result<u64, AsmKind>
    requires { 0 < unit }
    ensures value { result ≡ distance_between unit size from to }
    ensures fits { IfOk result (λ n. n < 256 ^ byte_count size) }
{
    if from <= to {
        return within(positive_most(size), in_units(unit, to - from)?);
    }
    let distance = within(negative_most(size), in_units(unit, from - to)?)?;
    Ok(negated(size, distance))
}

/// The value of `=name`: the distance from the address after the instruction to the label, or 0 as
/// long as no label has a place.
fn label_distance(scope: &Scope<'_>, unit: u64, size: Size, name: &[u8]) -> Result<u64, AsmKind>
    requires { 0 < unit }
    ensures value { result ≡ label_distance scope.now.0 scope.now.1 unit size name.now }
    ensures fits { IfOk result (λ n. n < 256 ^ byte_count size) }
{
    match scope.labels {
        None => Ok(0),
        Some(labels) => match labels.place_by(name) {
            None => Err(AsmKind::Label),
            Some(place) => distance_between(unit, size, scope.next, place),
        },
    }
}

/// Whether the place of a number has a label, which begins with `=`.
pub fn is_reference(text: &[u8]) -> bool
    ensures { result ≡ is_reference text.now }
{
    byte_at(text, 0) == b'='
}

/// Reads a signed number, or a label.
pub fn signed_or_label(
    scope: &Scope<'_>,
    unit: u64,
    size: Size,
    text: &[u8],
) -> Result<u64, AsmKind>
    requires { 0 < unit }
    ensures value { result ≡ signed_or_label scope.now.0 scope.now.1 unit size text.now }
    ensures fits { IfOk result (λ n. n < 256 ^ byte_count size) }
{
    if !is_reference(text) {
        return signed_number(size, text);
    }
    let name = rest_from(text, 1);
    if is_label_name(name) {
        label_distance(scope, unit, size, name)
    } else {
        Err(AsmKind::Operand)
    }
}
