//! The grammar of modules: which bytes read as which module, and where reading stops (Core Specification, binary format).
#![tactic(auto)]

ghost use Rattle.wasm_grammar.specs.TypeWords.{ValuesAreTold};

/// A value type of the reader is told in one way at most.
pub fn values_are_told()
    ensures { ValuesAreTold }
{}
