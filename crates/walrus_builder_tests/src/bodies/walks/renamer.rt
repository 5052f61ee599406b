//! What the log changes in a walk that changes.
ghost use Rattle.std.specs.Prelude.{◌≡◌};
ghost use Rattle.walrus_walks.specs.Tree.{children};

use crate::bodies::forms::id;
use walrus_arena::Id;
use walrus_instr::{Instr, Value};

/// The id that is so many numbers later. (By value, since the range of an id behind a reference isn't known.)
pub fn later<S>(before: Id<S>, by: u64) -> Id<S> {
    id((before.index() as u64).wrapping_add(by))
}

/// Adds one to a constant.
pub fn add_one(value: &mut Value) {
    if let Value::I32(number) = value {
        *number = number.wrapping_add(1);
    }
}

/// Puts `unreachable` in place of `drop`.
pub fn replace_drop(instr: &mut Instr)
    ensures { children instr.new ≡ children instr.old }
{
    if matches!(instr, Instr::Drop) {
        *instr = Instr::Unreachable;
    }
}
