//! Sets of WebAssembly features, after `WasmFeatures` of the crate `wasmparser`, with 24 names and bits in an
//! order of their own.
//!
//! Four names decide what a reader or a writer takes: `gc_types`, `shared_everything_threads`,
//! `legacy_exceptions` and `wide_arithmetic`. The others are kept and answered, and gate nothing.
//! `Flags::from_bits_retain` keeps bits that no name has; every other call gives a set of names where it is
//! given sets of names.
#![tactic(auto)]

ghost use Rattle.std.specs.Prelude.{◌≡◌, ◌==◌, ⊤, ℕ};
ghost use Rattle.wasm_features.specs.Features.{flag_table, features_of};
ghost use Rattle.wasm_features.specs.Sets.{default_names};

use bitflags::{Flag, Flags};

mod accessors;
mod inflated;
pub mod laws;
mod operations;

pub use inflated::WasmFeaturesInflated;

/// A set of WebAssembly features, by name. Operations that are not methods come from `bitflags::Flags`.
#[derive(Clone, Copy, PartialEq, Eq, Hash, Debug)]
pub struct WasmFeatures {
    bits: u32,
}

impl WasmFeatures {
    /// Mutable globals are imported and exported.
    pub const MUTABLE_GLOBAL: Self = Self { bits: 1 << 0 };
    /// Floats are cut to integers with saturation in place of a trap.
    pub const SATURATING_FLOAT_TO_INT: Self = Self { bits: 1 << 1 };
    /// A number's low bits are extended by their sign.
    pub const SIGN_EXTENSION: Self = Self { bits: 1 << 2 };
    /// Reference types and tables of them; the constant brings `call_indirect_overlong` along.
    pub const REFERENCE_TYPES: Self = Self {
        bits: 1 << 3 | Self::CALL_INDIRECT_OVERLONG.bits,
    };
    /// Blocks and functions give several values.
    pub const MULTI_VALUE: Self = Self { bits: 1 << 4 };
    /// Memory and tables are copied and filled in bulk; the constant brings `bulk_memory_opt` along.
    pub const BULK_MEMORY: Self = Self {
        bits: 1 << 5 | Self::BULK_MEMORY_OPT.bits,
    };
    /// Vectors of 128 bits.
    pub const SIMD: Self = Self { bits: 1 << 6 };
    /// Operators on vectors whose result may depend on the machine.
    pub const RELAXED_SIMD: Self = Self { bits: 1 << 7 };
    /// Shared memory and atomic operators.
    pub const THREADS: Self = Self { bits: 1 << 8 };
    /// Shared types beyond memory, as shared heap types.
    pub const SHARED_EVERYTHING_THREADS: Self = Self { bits: 1 << 9 };
    /// Calls that end the function that makes them.
    pub const TAIL_CALL: Self = Self { bits: 1 << 10 };
    /// Operators on floats.
    pub const FLOATS: Self = Self { bits: 1 << 11 };
    /// Several memories in a module.
    pub const MULTI_MEMORY: Self = Self { bits: 1 << 12 };
    /// Exceptions by `try_table` and `throw_ref`.
    pub const EXCEPTIONS: Self = Self { bits: 1 << 13 };
    /// Memories and tables with 64-bit addresses.
    pub const MEMORY64: Self = Self { bits: 1 << 14 };
    /// Sums, differences and products in constant expressions.
    pub const EXTENDED_CONST: Self = Self { bits: 1 << 15 };
    /// Typed references to functions.
    pub const FUNCTION_REFERENCES: Self = Self { bits: 1 << 16 };
    /// Structs, arrays and `i31`, which are collected.
    pub const GC: Self = Self { bits: 1 << 17 };
    /// Memories with pages of another size.
    pub const CUSTOM_PAGE_SIZES: Self = Self { bits: 1 << 18 };
    /// Exceptions by `try`, `catch` and `delegate`, as they were before version 3.0.
    pub const LEGACY_EXCEPTIONS: Self = Self { bits: 1 << 19 };
    /// Types other than functions, numbers, vectors, `funcref`, `externref` and `exnref`.
    pub const GC_TYPES: Self = Self { bits: 1 << 20 };
    /// Sums and products of 128 bits.
    pub const WIDE_ARITHMETIC: Self = Self { bits: 1 << 21 };
    /// The table index of `call_indirect` may be a number of several bytes.
    pub const CALL_INDIRECT_OVERLONG: Self = Self { bits: 1 << 22 };
    /// `memory.copy` and `memory.fill` alone.
    pub const BULK_MEMORY_OPT: Self = Self { bits: 1 << 23 };

    /// The features of WebAssembly's first version, of 2017.
    pub const MVP: Self = Self {
        bits: Self::FLOATS.bits | Self::GC_TYPES.bits,
    };
    /// The features of the standard's version 1.0.
    pub const WASM1: Self = Self {
        bits: Self::MVP.bits | Self::MUTABLE_GLOBAL.bits,
    };
    /// The features of the standard's version 2.0.
    pub const WASM2: Self = Self {
        bits: Self::WASM1.bits
            | Self::SATURATING_FLOAT_TO_INT.bits
            | Self::SIGN_EXTENSION.bits
            | Self::REFERENCE_TYPES.bits
            | Self::MULTI_VALUE.bits
            | Self::BULK_MEMORY.bits
            | Self::SIMD.bits,
    };
    /// The features of the standard's version 3.0.
    pub const WASM3: Self = Self {
        bits: Self::WASM2.bits
            | Self::TAIL_CALL.bits
            | Self::EXTENDED_CONST.bits
            | Self::FUNCTION_REFERENCES.bits
            | Self::GC.bits
            | Self::MULTI_MEMORY.bits
            | Self::RELAXED_SIMD.bits
            | Self::EXCEPTIONS.bits
            | Self::MEMORY64.bits,
    };
    /// The features of the profile Lime1.
    pub const LIME1: Self = Self {
        bits: Self::WASM1.bits
            | Self::SATURATING_FLOAT_TO_INT.bits
            | Self::SIGN_EXTENSION.bits
            | Self::MULTI_VALUE.bits
            | Self::CALL_INDIRECT_OVERLONG.bits
            | Self::BULK_MEMORY_OPT.bits
            | Self::EXTENDED_CONST.bits,
    };

    /// Each constant with its name, in the order of their bits.
    pub const FLAGS: &'static [Flag<Self>] = &[
        Flag {
            name: "MUTABLE_GLOBAL",
            value: Self::MUTABLE_GLOBAL,
        },
        Flag {
            name: "SATURATING_FLOAT_TO_INT",
            value: Self::SATURATING_FLOAT_TO_INT,
        },
        Flag {
            name: "SIGN_EXTENSION",
            value: Self::SIGN_EXTENSION,
        },
        Flag {
            name: "REFERENCE_TYPES",
            value: Self::REFERENCE_TYPES,
        },
        Flag {
            name: "MULTI_VALUE",
            value: Self::MULTI_VALUE,
        },
        Flag {
            name: "BULK_MEMORY",
            value: Self::BULK_MEMORY,
        },
        Flag {
            name: "SIMD",
            value: Self::SIMD,
        },
        Flag {
            name: "RELAXED_SIMD",
            value: Self::RELAXED_SIMD,
        },
        Flag {
            name: "THREADS",
            value: Self::THREADS,
        },
        Flag {
            name: "SHARED_EVERYTHING_THREADS",
            value: Self::SHARED_EVERYTHING_THREADS,
        },
        Flag {
            name: "TAIL_CALL",
            value: Self::TAIL_CALL,
        },
        Flag {
            name: "FLOATS",
            value: Self::FLOATS,
        },
        Flag {
            name: "MULTI_MEMORY",
            value: Self::MULTI_MEMORY,
        },
        Flag {
            name: "EXCEPTIONS",
            value: Self::EXCEPTIONS,
        },
        Flag {
            name: "MEMORY64",
            value: Self::MEMORY64,
        },
        Flag {
            name: "EXTENDED_CONST",
            value: Self::EXTENDED_CONST,
        },
        Flag {
            name: "FUNCTION_REFERENCES",
            value: Self::FUNCTION_REFERENCES,
        },
        Flag {
            name: "GC",
            value: Self::GC,
        },
        Flag {
            name: "CUSTOM_PAGE_SIZES",
            value: Self::CUSTOM_PAGE_SIZES,
        },
        Flag {
            name: "LEGACY_EXCEPTIONS",
            value: Self::LEGACY_EXCEPTIONS,
        },
        Flag {
            name: "GC_TYPES",
            value: Self::GC_TYPES,
        },
        Flag {
            name: "WIDE_ARITHMETIC",
            value: Self::WIDE_ARITHMETIC,
        },
        Flag {
            name: "CALL_INDIRECT_OVERLONG",
            value: Self::CALL_INDIRECT_OVERLONG,
        },
        Flag {
            name: "BULK_MEMORY_OPT",
            value: Self::BULK_MEMORY_OPT,
        },
    ];
}

impl Flags for WasmFeatures {
    type Bits = u32;

    ghost exact = { ⊤ };

    ghost table = { flag_table };

    ghost set_of = { λ set. set.bits };

    fn flags<'a>() -> &'a [Flag<Self>] {
        Self::FLAGS
    }

    fn bits(&self) -> u32 {
        self.bits
    }

    fn from_bits_retain(bits: u32) -> Self {
        Self { bits }
    }
}

impl Default for WasmFeatures {
    ghost is_default = { λ features. features ≡ features_of default_names };

    fn default() -> Self {
        Self::WASM3 | Self::THREADS | Self::CUSTOM_PAGE_SIZES
    }
}
