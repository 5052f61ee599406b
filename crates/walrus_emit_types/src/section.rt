//! The type section.

ghost use Rattle.std.specs.Prelude.{length, map};
ghost use Rattle.wasm_formats.specs.declared.fault.Limited.TheVariants.{Types};
ghost use Rattle.walrus_forms.specs.Records.{type_group};
ghost use Rattle.walrus_emit_parts.specs.Due.{Writes, limited};
ghost use Rattle.walrus_emit_due.specs.Types.{type_section};

use crate::groups::write_group;
use walrus_emit_parts::{Entry, Part, write_section, write_vec};
use walrus_errors::{Limited, ModuleError, Result};
use walrus_forms::GroupRecord;
use walrus_types::EmittedTypes;

// What a reader takes at most.
const MAX_TYPES: usize = 1_000_000;

#[derive(Clone, Copy)]
struct Groups;

impl Entry<GroupRecord> for Groups {
    ghost use Rattle.walrus_forms.specs.Records.{TypeGroup, type_group};
    ghost use Rattle.walrus_emit_due.specs.Types.{group};

    ghost Seen = { TypeGroup };

    ghost see = { type_group };

    ghost due = { λ w. group };

    fn write(&self, out: &mut Vec<u8>, item: &GroupRecord) -> Result<()> {
        write_group(out, item)
    }
}

#[derive(Clone, Copy)]
struct Contents<'a>(&'a [GroupRecord]);

impl<'a> Part for Contents<'a> {
    ghost use Rattle.std.specs.Prelude.{map};
    ghost use Rattle.walrus_forms.specs.Records.{type_group};
    ghost use Rattle.walrus_emit_parts.specs.Due.{vec};
    ghost use Rattle.walrus_emit_due.specs.Types.{group};

    ghost due = { λ contents. vec group (map type_group contents.0.now) };

    fn write(&self, out: &mut Vec<u8>) -> Result<()> {
        write_vec(out, &Groups, self.0)
    }
}

// Nothing where there are no groups.
fn write_groups(out: &mut Vec<u8>, groups: &[GroupRecord]) -> Result<()>
    ensures { Writes (type_section (map type_group groups.now)) out.old.items out.new.items result }
{
    if groups.is_empty() {
        return Ok(());
    }
    write_section(out, 1, &Contents(groups))
}

/// Puts the type section behind the bytes, of types as they were emitted; nothing where there are none.
///
/// # Errors
///
/// `OutputLimit` where a limit of the standard's readers is passed; `Unsupported` of exact types; want of memory. What was there stands at
/// the front.
#[tactic(auto, using(walrus_emit_parts::proofs::Lemmas::within))]
pub fn emit_types(out: &mut Vec<u8>, types: &EmittedTypes) -> Result<()>
    ensures { Writes (limited 1000000 (length types.now.ids.items) Types (type_section (map type_group types.now.groups.items))) out.old.items out.new.items result }
{
    if types.ids.len() > MAX_TYPES {
        let of = Limited::Types;
        return Err(ModuleError::OutputLimit { of });
    }
    write_groups(out, types.groups.as_slice())
}
