//! Custom sections by name.
ghost use Rattle.std.specs.Prelude.{◌≡◌, ◌≤◌, ◌<◌, ◌^◌, ℕ};
ghost use Rattle.std.specs.Fn.{FnReturnsAt};
ghost use Rattle.walrus_arena.specs.Arena.{IsLive, item_at, next_id};
ghost use Rattle.walrus_lookups.specs.Customs.{IsRetained, Stays};

use walrus_arena::UntypedCustomSectionId;
use walrus_sections::{CustomSection, Sections};

// Whether the section of this id stays; so does none.
fn stays<B: CustomSection, F: Fn(&str) -> bool>(
    sections: &Sections<B>,
    id: UntypedCustomSectionId,
    keep: &F,
) -> bool
    requires { F.IsAlwaysCallable keep.now }
    ensures { Stays B.own_name (FnReturnsAt F.Fn keep.now) (item_at sections.now id) result }
{
    match sections.name(id) {
        Some(name) => keep(name),
        None => true,
    }
}

// A number past all live ids.
fn past_ids<B>(sections: &Sections<B>) -> usize
    ensures past { (id : ℕ) → IsLive sections.now id → id < result }
    ensures bounded { result ≤ 2 ^ 32 }
{
    let mut past: usize = 0;
    for id in sections.iter() {
        past = past.max(id.index() + 1);
    }
    past
}

// Deletes the section of this id, if its name isn't kept.
#[tactic(auto, using(crate::proofs::SectionLemmas::stayed, crate::proofs::SectionLemmas::gone))]
fn retain_at<B: CustomSection, F: Fn(&str) -> bool>(
    sections: &mut Sections<B>,
    id: UntypedCustomSectionId,
    keep: &F,
)
    requires { F.IsAlwaysCallable keep.now }
    ensures here { IsRetained B.own_name (FnReturnsAt F.Fn keep.now) (item_at sections.old id) (item_at sections.new id) }
    ensures others { (other : ℕ) → (other ≡ id → ⊥) → item_at sections.new other ≡ item_at sections.old other }
    ensures ids { next_id sections.new ≡ next_id sections.old }
{
    if !stays(sections, id, keep) {
        let _ = sections.delete(id);
    }
}

/// Keeping by name.
pub trait Retains {
    /// Deletes each section, raw or boxed, whose name the closure doesn't answer `true` of. Its ids stay dead. Goes through the sections, by rising id,
    /// and takes no memory. Asks that the closure may be called on any name.
    fn retain<F: Fn(&str) -> bool + Drop>(&mut self, keep: F)
        requires { F.IsAlwaysCallable keep };
}

impl<B: CustomSection> Retains for Sections<B> {
    fn retain<F: Fn(&str) -> bool + Drop>(&mut self, keep: F)
        requires { F.IsAlwaysCallable keep }
        ensures sections { (id : ℕ) → IsRetained B.own_name (FnReturnsAt F.Fn keep) (item_at self.old id) (item_at self.new id) }
        ensures ids { next_id self.new ≡ next_id self.old }
    {
        for index in 0..past_ids(&*self) {
            retain_at(self, UntypedCustomSectionId::from_index(index), &keep);
        }
    }
}
