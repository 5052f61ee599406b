//! Laws of bodies: what is written of one is what it means, and what walks name in one has its place.
#![tactic(auto)]

pub mod emission;
pub mod walking;
pub mod writing;

// Passed on to crates above, which then list this one alone.
pub mod body_steps {
    pub use walrus_body_steps::laws;
}

pub mod body_trees {
    pub use walrus_body_trees::laws;

    pub mod meaning {
        pub use walrus_body_trees::meaning::names_are_told;
    }
}

pub mod handler_laws {
    pub mod laws {
        pub use walrus_handler_laws::laws::trees_tell;
    }
}

pub mod local_numbers {
    pub use walrus_local_numbers::laws;
}

pub mod machine {
    pub use wasm_runs::laws;
}

pub mod pairing {
    pub mod laws {
        pub use walrus_pairing::laws::operators_come_back;
    }
}

pub mod run_laws {
    pub use wasm_run_laws::laws;
}
