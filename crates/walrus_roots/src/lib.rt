//! Items of a module by space and id, and the items from which a module is kept.
#![tactic(auto)]

mod item;
mod roots;

pub use item::Item;
pub use roots::Roots;
