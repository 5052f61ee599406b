//! Sets of features, and what bytes are read as (Core Specification, binary format).

mod features;
mod reading;
mod references;
mod texts;
mod told;
