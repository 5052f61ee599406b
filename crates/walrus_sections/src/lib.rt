//! Custom sections of a module, raw or in boxes of the caller's.
#![tactic(auto)]

mod boxed;
mod custom;
mod fault;
mod section;
mod sections;
mod transform;

pub use custom::CustomSection;
pub use fault::SectionFault;
pub use section::Section;
pub use sections::{ModuleCustomSections, Sections};
pub use transform::CodeTransform;
pub use walrus_customs::RawCustomSection;
