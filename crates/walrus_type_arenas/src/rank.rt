//! Numbers by which most types are told apart in a sort, with no look at the types.
ghost use Rattle.std.specs.Prelude.{◌≡◌, ◌^◌};
ghost use Rattle.std.specs.Option.{option_map};
ghost use Rattle.walrus_type_index.specs.walrus_items.Items.{kind_of};
ghost use Rattle.walrus_type_arenas.specs.Ranks.{digit, digits, form_rank, ranked};

use walrus_type_index::forms::{CompositeType, ValType};
use walrus_type_index::items::Type;

// The digit of a value type: its place among them, from 1.
fn digit(value: ValType) -> u64
    ensures { result ≡ digit value }
{
    match value {
        ValType::I32 => 1,
        ValType::I64 => 2,
        ValType::F32 => 3,
        ValType::F64 => 4,
        ValType::V128 => 5,
        ValType::Ref(_) => 6,
    }
}

// The number with the digits of these value types in base 8, up to the twentieth or the first reference.
fn digits(values: &[ValType]) -> u64
    ensures { result ≡ digits values.now (2 ^ 57) }
{
    let mut rank = 0;
    let mut weight = 1u64 << 57;
    for value in values {
        let digit = digit(*value);
        rank += weight * digit;
        weight = if digit == 6 { 0 } else { weight / 8 };
    }
    rank
}

// A number that is never greater than that of a type after it: of its form and its first parameters.
fn rank(ty: &Type) -> u64
    ensures { result ≡ form_rank (kind_of ty.now).form }
{
    match ty.kind() {
        CompositeType::Function(ty) => digits(ty.params()),
        CompositeType::Struct(_) => 1 << 60,
        CompositeType::Array(_) => 1 << 61,
    }
}

/// A type, if there is one, behind its rank.
pub(crate) fn with_rank(ty: Option<&Type>) -> Option<(u64, &Type)>
    ensures { option_map (λ k. (k.0, kind_of k.1.now)) result ≡ option_map ranked (option_map (λ t. kind_of t.now) ty.entry) }
{
    match ty {
        Some(ty) => Some((rank(ty), ty)),
        None => None,
    }
}
