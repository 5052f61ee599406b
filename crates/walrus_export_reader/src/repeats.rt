//! Names that stand twice.

ghost use Rattle.std.specs.Prelude.{◌≡◌, ◌≤◌, All, IfOk, fold, length, map};
ghost use Rattle.std.specs.List.{range_with_len};
ghost use Rattle.walrus_export_reader.specs.Keys.{IsKey, mix_byte, mixed_of, is_same, less_of};
ghost use Rattle.walrus_export_reader.specs.Repeats.{IsFirstRepeat, names_of};

use std::alloc::{AllocError, Global};
use walrus_known_sections::Export;

// By what exports are sorted. The number comes first, so that names are compared only where their numbers are equal.
#[derive(Clone, Copy, PartialEq, Eq, PartialOrd, Ord)]
struct Key<'a> {
    mixed: u64,
    name: &'a str,
    number: usize,
}

fn mix_byte(mixed: u64, byte: u8) -> u64
    ensures { result ≡ mix_byte mixed byte }
{
    (mixed ^ u64::from(byte)).wrapping_mul(0x100000001b3)
}

// A number mixed from all bytes of a name, so that names that begin alike have different ones.
fn mix(name: &str) -> u64
    ensures { result ≡ mixed_of name.now }
{
    let mut mixed = 0xcbf29ce484222325;
    for byte in name.as_bytes() {
        mixed = mix_byte(mixed, *byte);
    }
    mixed
}

// The keys of all exports, by their numbers.
fn keys<'a>(alloc: Global, exports: &[Export<'a>]) -> Result<Vec<Key<'a>>, AllocError>
    ensures numbers { IfOk result (λ keys. map (λ k. k.number) keys.items ≡ range_with_len 0 (length exports.now)) }
    ensures each { IfOk result (λ keys. All (IsKey (names_of exports.now)) keys.items) }
{
    let mut keys = Vec::with_capacity(alloc, exports.len())?;
    for (number, export) in exports.iter().enumerate() {
        keys.push(Key {
            mixed: mix(export.name),
            name: export.name,
            number,
        })?;
    }
    Ok(keys)
}

// Whether two keys have one name.
fn is_same(one: Key<'_>, other: Key<'_>) -> bool
    ensures { result ≡ is_same one.entry other.entry }
{
    one.mixed == other.mixed && one.name == other.name
}

// The number of the later of two neighbours, where they have one name and it is one to look at and less than the first that was found.
fn less(first: usize, from: usize, one: Key<'_>, other: Key<'_>) -> usize
    ensures { result ≡ less_of first from one.entry other.entry }
{
    if is_same(one, other) && from <= other.number && other.number < first {
        other.number
    } else {
        first
    }
}

/// The number of the first export from `from` on whose name an earlier one has; or how many exports there are. Takes time n log n, whatever
/// the names are.
///
/// # Errors
///
/// Want of memory.
pub fn first_repeat(alloc: Global, exports: &[Export<'_>], from: usize) -> Result<usize, AllocError>
    ensures { IfOk result (λ first. IsFirstRepeat (names_of exports.now) from first) }
{
    let mut keys = keys(alloc, exports)?;
    keys.sort_unstable();
    let mut first = exports.len();
    for i in 1..keys.len() {
        first = less(first, from, keys[i - 1], keys[i]);
    }
    Ok(first)
}
