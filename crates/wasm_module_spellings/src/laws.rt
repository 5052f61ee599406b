//! Laws: functions with nothing to do, whose contracts hold of all modules and bytes.

ghost use Rattle.wasm_module_spellings.specs.Spelled.{ReadsIsSpelledAndRuled};

/// Bytes read as a module exactly if they are few enough, spell it, and it meets the rules.
pub fn reads_is_spelled_and_ruled()
    ensures { ReadsIsSpelledAndRuled }
{}
