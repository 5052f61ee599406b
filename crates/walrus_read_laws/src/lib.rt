//! Laws of what was read of a file, on its way into a module.
#![tactic(auto)]

ghost use Rattle.walrus_read_laws.specs.Whole.{ReadSectionsLackNothing};

/// Of what was read of a file's bytes nothing lacks anything where all of it is numbered: so `Unknown` is answered for no import,
/// table, tag, global, export, element or data segment, nor for the start function (Core Specification, valid modules).
pub fn read_sections_lack_nothing()
    ensures { ReadSectionsLackNothing }
{}

// Passed on to crates above, which then list this one alone.
pub mod spelled_modules {
    pub mod laws {
        pub use wasm_spelled_modules::laws::read_sections_are_spelled;
    }
}
