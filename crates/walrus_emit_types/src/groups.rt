//! Groups of types (Core Specification, binary format: recursive types).

ghost use Rattle.std.specs.Prelude.{map};
ghost use Rattle.walrus_forms.specs.Records.{record_kind, type_group};
ghost use Rattle.walrus_emit_parts.specs.Due.{Writes};
ghost use Rattle.walrus_emit_due.specs.Types.{group, members};

use crate::kinds::{write_list, write_type};
use walrus_emit_parts::{Entry, write_byte};
use walrus_errors::Result;
use walrus_forms::{GroupRecord, TypeRecord};

// What a reader takes at most.
const MAX_MEMBERS: usize = 1_000_000;

#[derive(Clone, Copy)]
struct Types;

impl Entry<TypeRecord> for Types {
    ghost use Rattle.walrus_forms.specs.Kinds.{Kind};
    ghost use Rattle.walrus_forms.specs.Records.{record_kind};
    ghost use Rattle.walrus_emit_due.specs.Types.{kind};

    ghost Seen = { Kind };

    ghost see = { record_kind };

    ghost due = { λ w. kind };

    fn write(&self, out: &mut Vec<u8>, item: &TypeRecord) -> Result<()> {
        write_type(out, item)
    }
}

#[tactic(auto, using(walrus_emit_parts::proofs::Lemmas::refused_front, walrus_emit_values::proofs::Lemmas::byte_on))]
fn write_members(out: &mut Vec<u8>, types: &[TypeRecord]) -> Result<()>
    ensures { Writes (members (map record_kind types.now)) out.old.items out.new.items result }
{
    put!(write_byte(out, 0x4e));
    write_list(out, &Types, types, MAX_MEMBERS)
}

/// A group: a single type bare, unless it is marked. Several types have no other form than a group's.
pub(crate) fn write_group(out: &mut Vec<u8>, it: &GroupRecord) -> Result<()>
    ensures { Writes (group (type_group it.now)) out.old.items out.new.items result }
{
    if it.marked {
        return write_members(out, it.types.as_slice());
    }
    match it.types.as_slice() {
        [ty] => write_type(out, ty),
        types => write_members(out, types),
    }
}
