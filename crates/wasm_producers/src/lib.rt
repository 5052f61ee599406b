//! What the section `producers` says (WebAssembly tool conventions): definitions, and nothing to run.
#![tactic(auto)]
