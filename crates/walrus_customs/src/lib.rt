//! What a module holds beside the standard's sections: its producers and its custom sections.
#![tactic(auto)]

mod customs;
mod producers;

pub use customs::RawCustomSection;
pub use producers::{ModuleProducers, ProducerField, ProducerValue};
