//! The tag section.

ghost use Rattle.walrus_index_maps.specs.Views.{indices};
ghost use Rattle.walrus_pairing.specs.Looks.{number_of};
ghost use Rattle.walrus_item_meaning.specs.Meaning.{own_tag, slots_of};
ghost use Rattle.walrus_emit_parts.specs.Due.{Writes};
ghost use Rattle.walrus_emit_due.specs.Items.{tag, tags};

use crate::own::{OwnEntry, write_limited};
use walrus_collections::ModuleTags;
use walrus_collections::module_items::Tag;
use walrus_emit_parts::write_byte;
use walrus_emit_values::write_index;
use walrus_errors::{Limited, Result};
use walrus_index_maps::IdsToIndices;
use walrus_module_items::TagKind;
use wasm_formats::Space;

// What a reader takes at most.
const MAX: u64 = 1_000_000;

/// The type of a tag.
///
/// # Errors
///
/// `DeadReference` where its type has no number; want of memory. What was there stands at the front.
#[tactic(auto, using(walrus_emit_values::proofs::Lemmas::byte_on))]
pub fn write_tag(out: &mut Vec<u8>, item: &Tag, maps: &IdsToIndices) -> Result<()>
    ensures { Writes (tag (number_of (indices maps.now) 0) (own_tag item.now)) out.old.items out.new.items result }
{
    put!(write_byte(out, 0));
    write_index(out, Space::Type, maps.get_type_index(item.ty))
}

#[derive(Clone, Copy)]
struct Tags<'a>(&'a IdsToIndices);

impl<'a> OwnEntry<Tag> for Tags<'a> {
    ghost use Rattle.std.specs.Option.{is_none};
    ghost use Rattle.wasm_grammar.specs.Modules as grammar;
    ghost use Rattle.walrus_index_maps.specs.Views.{indices};
    ghost use Rattle.walrus_pairing.specs.Looks.{number_of};
    ghost use Rattle.walrus_item_meaning.specs.Meaning.{own_tag};
    ghost use Rattle.walrus_emit_due.specs.Items.{tag};

    ghost Seen = { grammar.Tag };

    ghost see = { own_tag };

    ghost has_entry = { λ t. is_none t.imported };

    ghost due = { λ w. tag (number_of (indices w.0.now) 0) };

    fn has_entry(&self, item: &Tag) -> bool {
        match item.kind {
            TagKind::Import(_) => false,
            TagKind::Local => true,
        }
    }

    fn write(&self, out: &mut Vec<u8>, item: &Tag) -> Result<()> {
        write_tag(out, item, self.0)
    }
}

/// Puts the tag section behind the bytes: the module's own tags, by rising id; nothing where there is none.
///
/// # Errors
///
/// `OutputLimit` where more tags live than a reader takes; `DeadReference` where a type has no number; want of memory. What was there
/// stands at the front.
pub fn emit_tags(out: &mut Vec<u8>, items: &ModuleTags, maps: &IdsToIndices) -> Result<()>
    ensures { Writes (tags (number_of (indices maps.now) 0) (slots_of own_tag items.now)) out.old.items out.new.items result }
{
    write_limited(out, 13, &Tags(maps), items, MAX, Limited::Tags)
}
