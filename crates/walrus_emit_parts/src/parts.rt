//! Parts with their size, lists of entries, and sections.

ghost use Rattle.std.specs.Prelude.{◌≡◌, ◌<◌, ◌≤◌, ◌-◌, [], ◌∷◌, ◌++◌, length, take, drop, map, MatchResult};
ghost use Rattle.std.specs.List.{flat_map};
ghost use Rattle.wasm_operators.specs.Bytes.{unsigned_bytes};
ghost use Rattle.walrus_operators.specs.Appended.{Keeps};
ghost use Rattle.walrus_errors.specs.declared.error.ModuleError.TheVariants.{Memory};
ghost use Rattle.walrus_emit_parts.specs.Due.{Due, Writes, section, sized, vec};

use crate::leaves::{write_byte, write_number};
use walrus_errors::{ModuleError, Result};
use walrus_operators::write_unsigned;

/// A part of what is written, of one value.
pub trait Part {
    /// What is due for it.
    ghost due: { Self → Due };

    /// Puts it behind the bytes.
    ///
    /// # Errors
    ///
    /// Want of memory, or why something that is due can't be written. What was there stands at the front.
    fn write(&self, out: &mut Vec<u8>) -> Result<()>
        ensures { Writes (due self.now) out.old.items out.new.items result };
}

/// How an entry is written for a `T`.
pub trait Entry<T> {
    // what contracts see of one
    ghost Seen: { Type 0 };

    ghost see: { T → Seen };

    /// What is due for one.
    ghost due: { Self → Seen → Due };

    /// Puts one behind the bytes.
    ///
    /// # Errors
    ///
    /// Want of memory, or why something that is due can't be written. What was there stands at the front.
    fn write(&self, out: &mut Vec<u8>, item: &T) -> Result<()>
        ensures { Writes (due self.now (see item.now)) out.old.items out.new.items result };
}

// So many of the last bytes go in front of those from this place on.
fn turn(bytes: &mut [u8], start: usize, last: usize)
    requires there { start ≤ length bytes.old }
    requires last { last ≤ length bytes.old - start }
    ensures { bytes.new ≡ take start bytes.old ++ (drop (length bytes.old - start - last) (drop start bytes.old) ++ take (length bytes.old - start - last) (drop start bytes.old)) }
{
    bytes[start..].rotate_right(last);
}

/// Puts a number in front of the bytes from this place on.
///
/// # Errors
///
/// Want of memory.
pub fn put_front(out: &mut Vec<u8>, start: usize, n: u64) -> Result<()>
    requires { start ≤ length out.old.items }
    ensures { MatchResult result
        (λ _. out.new.items ≡ take start out.old.items ++ (unsigned_bytes n ++ drop start out.old.items))
        (λ e. (e ≡ Memory) × Keeps out.old.items out.new.items) }
{
    let len = out.len();
    if write_unsigned(out, n).is_err() {
        return Err(ModuleError::Memory);
    }
    let digits = out.len() - len;
    turn(out.as_mut_slice(), start, digits);
    Ok(())
}

/// A part with its size before it.
///
/// # Errors
///
/// Those of the part.
#[tactic(auto, using(crate::proofs::Lemmas::refused_behind, crate::proofs::Lemmas::grows, crate::proofs::Lemmas::sized_is))]
pub fn write_sized<P: Part>(out: &mut Vec<u8>, part: &P) -> Result<()>
    ensures { Writes (sized (P.due part.now)) out.old.items out.new.items result }
{
    let start = out.len();
    put!(part.write(out));
    let size = out.len() - start;
    put_front(out, start, size as u64)
}

/// A section: its id, and a part with its size.
///
/// # Errors
///
/// Those of the part.
#[tactic(auto, using(crate::proofs::Lemmas::writes_on, crate::proofs::Lemmas::refused_front))]
pub fn write_section<P: Part>(out: &mut Vec<u8>, id: u8, part: &P) -> Result<()>
    ensures { Writes (section id (P.due part.now)) out.old.items out.new.items result }
{
    put!(write_byte(out, id));
    write_sized(out, part)
}

/// Entries, one behind another.
///
/// # Errors
///
/// Those of an entry.
pub fn write_each<T, W: Entry<T>>(out: &mut Vec<u8>, writer: &W, items: &[T]) -> Result<()>
    ensures { Writes (flat_map (W.due writer.now) (map W.see items.now)) out.old.items out.new.items result }
{
    for item in items {
        put!(writer.write(out, item));
    }
    Ok(())
}

/// A count, and that many entries.
///
/// # Errors
///
/// Those of an entry.
pub fn write_vec<T, W: Entry<T>>(out: &mut Vec<u8>, writer: &W, items: &[T]) -> Result<()>
    ensures { Writes (vec (W.due writer.now) (map W.see items.now)) out.old.items out.new.items result }
{
    put!(write_number(out, items.len() as u64));
    write_each(out, writer, items)
}
