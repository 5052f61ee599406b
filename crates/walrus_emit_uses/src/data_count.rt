//! The count of data segments (Core Specification, binary format: data count section).

ghost use Rattle.std.specs.Prelude.{◌≡◌, map};
ghost use Rattle.std.specs.List.{list_any};
ghost use Rattle.walrus_collections.specs.LookUps.{items};
ghost use Rattle.walrus_meaning.specs.Meaning.{own_segment, slots_of};
ghost use Rattle.walrus_emit_parts.specs.Due.{Writes};
ghost use Rattle.walrus_emit_due.specs.DataCount as counts;

use walrus_collections::ModuleData;
use walrus_emit_parts::{Part, write_number, write_section};
use walrus_emit_sections::live_count;
use walrus_errors::{Limited, ModuleError, Result};

// What a reader takes at most.
const MAX: u64 = 100_000;

#[derive(Clone, Copy)]
struct Count(u64);

impl Part for Count {
    ghost use Rattle.walrus_emit_parts.specs.Due.{number};

    ghost due = { λ w. number w.0 };

    fn write(&self, out: &mut Vec<u8>) -> Result<()> {
        write_number(out, self.0)
    }
}

fn has_passive(segments: &ModuleData) -> bool
    ensures { result ≡ list_any counts.waits (map own_segment (items segments.now)) }
{
    for segment in segments.iter() {
        if segment.is_passive() {
            return true;
        }
    }
    false
}

fn is_asked(segments: &ModuleData, is_named: bool) -> bool
    ensures { result ≡ counts.is_asked is_named (map own_segment (items segments.now)) }
{
    is_named || has_passive(segments)
}

// The section, where it is asked for.
#[tactic(auto, using(walrus_emit_parts::proofs::Lemmas::nothing))]
fn write_count(out: &mut Vec<u8>, is_asked: bool, count: u64) -> Result<()>
    ensures { Writes (counts.counted is_asked count) out.old.items out.new.items result }
{
    if is_asked {
        write_section(out, 12, &Count(count))
    } else {
        Ok(())
    }
}

/// Puts the data count section behind the bytes, where a segment is passive or a body names one.
///
/// # Errors
///
/// `OutputLimit` where more segments live than a reader takes; want of memory. What was there stands at the front.
pub fn emit_data_count(out: &mut Vec<u8>, segments: &ModuleData, is_named: bool) -> Result<()>
    ensures { Writes (counts.data_count is_named (slots_of own_segment segments.now)) out.old.items out.new.items result }
{
    let count = match live_count(segments) {
        Ok(count) => count,
        Err(error) => return Err(error),
    };
    if count > MAX {
        let of = Limited::Data;
        return Err(ModuleError::OutputLimit { of });
    }
    write_count(out, is_asked(segments, is_named), count)
}
