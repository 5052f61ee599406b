//! Maps between the indices of a module in a file and the ids of the module in memory: what each index names, and what number each
//! id is written as.
#![tactic(auto)]

mod id_list;
mod ids_to_indices;
mod indices_to_ids;
mod local_list;
mod locals;
mod numbers;
mod space;

pub use ids_to_indices::IdsToIndices;
pub use indices_to_ids::{IndicesToIds, UnknownIndex};
pub use numbers::Numbers;
pub use space::Space;
