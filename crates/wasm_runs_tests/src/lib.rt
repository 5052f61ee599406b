//! Traces computed from the definitions of runs: facts, as functions with nothing to do.
#![tactic(auto)]

ghost use Rattle.wasm_runs_tests.specs.Rows.{Calls, Catches, Choices, Delegates, Loops, Modules, Tables, TryTables, Types};

/// An `if` with and without `else`, loops under a bound, branches, `br_table` and `return`.
#[tactic(auto, using(crate::proofs::Computed::choices, crate::proofs::Computed::loops, crate::proofs::Computed::tables))]
pub fn branches()
    ensures choices { Choices }
    ensures loops { Loops }
    ensures tables { Tables }
{}

/// Exceptions: the clauses of a `try` in order, `delegate`, and `try_table`, also into a loop.
#[tactic(auto, using(crate::proofs::Computed::catches, crate::proofs::Computed::delegates, crate::proofs::Computed::try_tables))]
pub fn exceptions()
    ensures catches { Catches }
    ensures delegates { Delegates }
    ensures try_tables { TryTables }
{}

/// Calls of bodies that are cut at them, block types in traces, and whole modules.
#[tactic(auto, using(crate::proofs::Computed::calls, crate::proofs::Computed::types, crate::proofs::Computed::modules))]
pub fn calls_and_modules()
    ensures calls { Calls }
    ensures types { Types }
    ensures modules { Modules }
{}
