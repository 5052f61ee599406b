//! What imports bring that was never given out.
ghost use Rattle.std.specs.Prelude.{◌≡◌, IfOk, OnOk, length};
ghost use Rattle.walrus_used.specs.walrus_module.Parts.{parts};
ghost use Rattle.walrus_refusals.specs.Checks.{AreClaims, IsAddedPast};

use crate::linked::brought;
use std::alloc::{AllocError, Global};
use walrus_arena::ImportId;
use walrus_marks::Claims;
use walrus_roots::Item;
use walrus_used::id_counts;
use walrus_used::module::Module;

// Adds the item if there are fewer ids in its space.
fn add_past(claims: &mut Claims, counts: &[usize; 10], item: Item) -> Result<(), AllocError>
    requires { length claims.old ≡ 10 }
    ensures { OnOk result (IsAddedPast counts.now claims.old «item» claims.new) }
{
    if item.id as usize >= counts[item.space_number()] {
        claims.add(item)?;
    }
    Ok(())
}

/// The items that imports bring and whose ids were never given out.
///
/// # Errors
///
/// Want of memory.
pub(crate) fn past_claims<B>(alloc: Global, input: &Module<B>) -> Result<Claims, AllocError>
    ensures { IfOk result (AreClaims (parts input.now)) }
{
    let counts = id_counts(input);
    let mut claims = Claims::new(alloc)?;
    for index in 0..input.imports.next_id().index() {
        let id = ImportId::from_index(index);
        if !input.imports.contains(id) {
            continue;
        }
        add_past(&mut claims, &counts, brought(input.imports.get(id).kind))?;
    }
    Ok(claims)
}
