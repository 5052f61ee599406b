//! The own items of a space, one behind another.

ghost use Rattle.std.specs.Prelude.{◌≡◌, ◌≤◌, ◌++◌, Bool, length, take, drop, map, MatchResult};
ghost use Rattle.wasm_operators.specs.Bytes.{unsigned_bytes};
ghost use Rattle.walrus_errors.specs.declared.error.ModuleError.TheVariants.{Memory};
ghost use Rattle.walrus_collections.specs.LookUps.{items};
ghost use Rattle.walrus_item_meaning.specs.Meaning.{slots_of};
ghost use Rattle.walrus_emit_parts.specs.Due.{Due, Writes, limited};
ghost use Rattle.walrus_emit_sections.specs.Own.{HasAtMost, WritesOwn};
ghost use Rattle.walrus_emit_due.specs.Own.{live, own_section};

use walrus_collections::Collection;
use walrus_emit_parts::{put_front, write_byte};
use walrus_errors::{Limited, ModuleError, Result};

/// How the entries of a section are written for items `T`.
pub trait OwnEntry<T> {
    // what contracts see of an item
    ghost Seen: { Type 0 };

    ghost see: { T → Seen };

    /// Whether it has an entry: what is imported has none.
    ghost has_entry: { Seen → Bool };

    /// What is due for one.
    ghost due: { Self → Seen → Due };

    /// Whether it has an entry.
    fn has_entry(&self, item: &T) -> bool
        ensures { result ≡ has_entry (see item.now) };

    /// Puts one behind the bytes.
    ///
    /// # Errors
    ///
    /// Want of memory, or why something that is due can't be written. What was there stands at the front.
    fn write(&self, out: &mut Vec<u8>, item: &T) -> Result<()>
        ensures { Writes (due self.now (see item.now)) out.old.items out.new.items result };
}

// Their entries, and how many there are.
fn write_entries<T, S, W: OwnEntry<T>>(
    out: &mut Vec<u8>,
    writer: &W,
    all: &Collection<T, S>,
) -> Result<u64>
    ensures { WritesOwn W.has_entry (W.due writer.now) (map W.see (items all.now)) out.old.items out.new.items result }
{
    let mut count: u64 = 0;
    for item in all.iter() {
        if writer.has_entry(item) {
            put!(writer.write(out, item));
            let Some(more) = count.checked_add(1) else {
                return Err(ModuleError::Memory);
            };
            count = more;
        }
    }
    Ok(count)
}

// A count and a size stand before the entries from this place on.
fn close(out: &mut Vec<u8>, start: usize, count: u64) -> Result<()>
    requires { start ≤ length out.old.items }
    ensures { MatchResult result
        (λ _. out.new.items ≡ take start out.old.items ++ (unsigned_bytes (length (unsigned_bytes count ++ drop start out.old.items)) ++ (unsigned_bytes count ++ drop start out.old.items)))
        (λ e. (e ≡ Memory) × (take start out.new.items ≡ take start out.old.items)) }
{
    put!(put_front(out, start, count));
    let size = out.len() - start;
    put_front(out, start, size as u64)
}

/// How many items live.
///
/// # Errors
///
/// Want of memory, where they are too many to be counted.
pub fn live_count<T, S>(all: &Collection<T, S>) -> Result<u64>
    ensures { MatchResult result (λ count. count ≡ length (items all.now)) (λ e. e ≡ Memory) }
{
    let mut count: u64 = 0;
    for _ in all.iter() {
        let Some(more) = count.checked_add(1) else {
            return Err(ModuleError::Memory);
        };
        count = more;
    }
    Ok(count)
}

/// Refuses more live items than a reader takes, those that are imported among them.
///
/// # Errors
///
/// `OutputLimit` exactly where there are more; want of memory.
pub fn check_live<T, S>(all: &Collection<T, S>, most: u64, of: Limited) -> Result<()>
    ensures { HasAtMost most of (length (items all.now)) result }
{
    let count = match live_count(all) {
        Ok(count) => count,
        Err(error) => return Err(error),
    };
    if count > most {
        return Err(ModuleError::OutputLimit { of });
    }
    Ok(())
}

/// The section of this id, of the own ones of these items; nothing where there is none.
///
/// # Errors
///
/// Want of memory, or why something that is due can't be written. What was there stands at the front.
pub fn write_own<T, S, W: OwnEntry<T>>(
    out: &mut Vec<u8>,
    id: u8,
    writer: &W,
    all: &Collection<T, S>,
) -> Result<()>
    ensures { Writes (own_section id W.has_entry (W.due writer.now) (slots_of W.see all.now)) out.old.items out.new.items result }
{
    let front = out.len();
    put!(write_byte(out, id));
    let start = out.len();
    let count = match write_entries(out, writer, all) {
        Ok(count) => count,
        Err(error) => return Err(error),
    };
    if count == 0 {
        out.truncate(front);
        return Ok(());
    }
    close(out, start, count)
}

/// The same, where no more items live than a reader takes.
///
/// # Errors
///
/// `OutputLimit` where more live; those of `write_own`. What was there stands at the front.
pub fn write_limited<T, S, W: OwnEntry<T>>(
    out: &mut Vec<u8>,
    id: u8,
    writer: &W,
    all: &Collection<T, S>,
    most: u64,
    of: Limited,
) -> Result<()>
    ensures { Writes (limited most (length (live (slots_of W.see all.now))) of (own_section id W.has_entry (W.due writer.now) (slots_of W.see all.now))) out.old.items out.new.items result }
{
    put!(check_live(all, most, of));
    write_own(out, id, writer, all)
}
