//! The types that a type names.
ghost use Rattle.std.specs.Prelude.{◌≡◌, ◌++◌, ◌==◌, ◌||◌, Some, OnOk, OnErr, take, length};
ghost use Rattle.std.specs.List.{list_any};
ghost use Rattle.walrus_forms.specs.Kinds.{kind_names};
ghost use Rattle.walrus_items.specs.Items.{kind_of};

use crate::subtype::Type;
use std::alloc::AllocError;
use walrus_forms::arena::TypeId;

impl Type {
    /// Adds to `refs` the types that it names: those of its form in their order, then its supertype.
    ///
    /// # Errors
    ///
    /// Want of memory. `refs` stays as it was.
    pub fn referenced_types(&self, refs: &mut Vec<TypeId>) -> Result<(), AllocError>
        ensures added { OnOk result (refs.new.items ≡ refs.old.items ++ kind_names (kind_of self.now)) }
        ensures refused { OnErr result (refs.new.items ≡ refs.old.items) }
    {
        let before = refs.len();
        let pushed = self.push_names(refs);
        if pushed.is_err() {
            refs.truncate(before);
        }
        pushed
    }

    // Adds the types that it names. A refusal leaves what was there at the front.
    fn push_names(&self, refs: &mut Vec<TypeId>) -> Result<(), AllocError>
        ensures added { OnOk result (refs.new.items ≡ refs.old.items ++ kind_names (kind_of self.now)) }
        ensures kept { take (length refs.old.items) refs.new.items ≡ refs.old.items }
    {
        self.kind().push_names(refs)?;
        if let Some(supertype) = self.supertype {
            refs.push(supertype)?;
        }
        Ok(())
    }

    /// Whether it names the type.
    pub fn names(&self, id: TypeId) -> bool
        ensures { result ≡ list_any (λ name. name == id) (kind_names (kind_of self.now)) }
    {
        let index = id.index();
        if self.kind().names(id) {
            return true;
        }
        match self.supertype {
            Some(supertype) => supertype.index() == index,
            None => false,
        }
    }
}
