//! Laws of the words that the contracts of this crate cite. Each function is its contract alone.
ghost use Rattle.std.specs.Prelude.{◌≡◌, ℕ, List};
ghost use Rattle.walrus_type_order.specs.Order.{IsEmissionOrder};

/// A list has but one order in which it is written.
pub fn order_is_determined<T: Ord + Copy>(entries: &[Option<T>])
    ensures { (a b : List ℕ) → IsEmissionOrder T.cmp entries.now a
        → IsEmissionOrder T.cmp entries.now b → a ≡ b }
{
    let _ = entries;
}
