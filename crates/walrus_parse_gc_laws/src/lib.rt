//! Laws of what a callback is handed of a module that was read: it means a module that meets the rules, and the passes serve it.
#![tactic(auto)]

pub mod inexact;
pub mod numbers;
pub mod ruled;
pub mod sent;
pub mod served;

// Passed on to crates above, which then list this one alone.
pub mod parsed_linked {
    pub mod laws {
        pub use walrus_parse_laws::linked::modules_that_are_read_are_linked;
    }
}

pub mod parsed_meaning {
    pub mod laws {
        pub use walrus_parse_laws::meaning::modules_that_are_read_mean_their_files;
    }
}
