//! Marks of ids.
ghost use Rattle.std.specs.Prelude.{◌≡◌};
ghost use Rattle.walrus_type_index.specs.Ordered.{is_marked};

use walrus_items::arena::TypeId;

/// Whether the id is marked. Those past the marks aren't.
#[inline]
pub fn is_marked(marks: &[bool], id: TypeId) -> bool
    ensures { result ≡ is_marked marks.now id }
{
    match marks.get(id.index()) {
        Some(mark) => *mark,
        None => false,
    }
}
