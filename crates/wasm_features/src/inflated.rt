// The form of a feature set with one field for each name.

ghost use Rattle.std.specs.Prelude.{◌≡◌};
ghost use Rattle.wasm_features.specs.Features.{enables};
ghost use Rattle.wasm_features.specs.Inflated.{inflated, deflated};

use crate::WasmFeatures;

/// A feature set with one field for each name, as for a match of them all.
#[derive(Clone, Copy, PartialEq, Eq, Hash, Debug)]
pub struct WasmFeaturesInflated {
    /// Whether `mutable_global` is on.
    pub mutable_global: bool,
    /// Whether `saturating_float_to_int` is on.
    pub saturating_float_to_int: bool,
    /// Whether `sign_extension` is on.
    pub sign_extension: bool,
    /// Whether `reference_types` is on.
    pub reference_types: bool,
    /// Whether `multi_value` is on.
    pub multi_value: bool,
    /// Whether `bulk_memory` is on.
    pub bulk_memory: bool,
    /// Whether `simd` is on.
    pub simd: bool,
    /// Whether `relaxed_simd` is on.
    pub relaxed_simd: bool,
    /// Whether `threads` is on.
    pub threads: bool,
    /// Whether `shared_everything_threads` is on.
    pub shared_everything_threads: bool,
    /// Whether `tail_call` is on.
    pub tail_call: bool,
    /// Whether `floats` is on.
    pub floats: bool,
    /// Whether `multi_memory` is on.
    pub multi_memory: bool,
    /// Whether `exceptions` is on.
    pub exceptions: bool,
    /// Whether `memory64` is on.
    pub memory64: bool,
    /// Whether `extended_const` is on.
    pub extended_const: bool,
    /// Whether `function_references` is on.
    pub function_references: bool,
    /// Whether `gc` is on.
    pub gc: bool,
    /// Whether `custom_page_sizes` is on.
    pub custom_page_sizes: bool,
    /// Whether `legacy_exceptions` is on.
    pub legacy_exceptions: bool,
    /// Whether `gc_types` is on.
    pub gc_types: bool,
    /// Whether `wide_arithmetic` is on.
    pub wide_arithmetic: bool,
    /// Whether `call_indirect_overlong` is on.
    pub call_indirect_overlong: bool,
    /// Whether `bulk_memory_opt` is on.
    pub bulk_memory_opt: bool,
}

impl WasmFeatures {
    /// The set of the names whose fields are true.
    pub fn from_inflated(fields: WasmFeaturesInflated) -> Self
        ensures { result ≡ deflated fields }
    {
        let mut features = Self::empty();
        features.set(Self::MUTABLE_GLOBAL, fields.mutable_global);
        features.set(
            Self::SATURATING_FLOAT_TO_INT,
            fields.saturating_float_to_int,
        );
        features.set(Self::SIGN_EXTENSION, fields.sign_extension);
        features.set(Self::REFERENCE_TYPES, fields.reference_types);
        features.set(Self::MULTI_VALUE, fields.multi_value);
        features.set(Self::BULK_MEMORY, fields.bulk_memory);
        features.set(Self::SIMD, fields.simd);
        features.set(Self::RELAXED_SIMD, fields.relaxed_simd);
        features.set(Self::THREADS, fields.threads);
        features.set(
            Self::SHARED_EVERYTHING_THREADS,
            fields.shared_everything_threads,
        );
        features.set(Self::TAIL_CALL, fields.tail_call);
        features.set(Self::FLOATS, fields.floats);
        features.set(Self::MULTI_MEMORY, fields.multi_memory);
        features.set(Self::EXCEPTIONS, fields.exceptions);
        features.set(Self::MEMORY64, fields.memory64);
        features.set(Self::EXTENDED_CONST, fields.extended_const);
        features.set(Self::FUNCTION_REFERENCES, fields.function_references);
        features.set(Self::GC, fields.gc);
        features.set(Self::CUSTOM_PAGE_SIZES, fields.custom_page_sizes);
        features.set(Self::LEGACY_EXCEPTIONS, fields.legacy_exceptions);
        features.set(Self::GC_TYPES, fields.gc_types);
        features.set(Self::WIDE_ARITHMETIC, fields.wide_arithmetic);
        features.set(Self::CALL_INDIRECT_OVERLONG, fields.call_indirect_overlong);
        features.set(Self::BULK_MEMORY_OPT, fields.bulk_memory_opt);
        features
    }

    /// What the accessor of each name answers.
    pub fn inflate(&self) -> WasmFeaturesInflated
        ensures { result ≡ inflated (enables self.now) }
    {
        WasmFeaturesInflated {
            mutable_global: self.mutable_global(),
            saturating_float_to_int: self.saturating_float_to_int(),
            sign_extension: self.sign_extension(),
            reference_types: self.reference_types(),
            multi_value: self.multi_value(),
            bulk_memory: self.bulk_memory(),
            simd: self.simd(),
            relaxed_simd: self.relaxed_simd(),
            threads: self.threads(),
            shared_everything_threads: self.shared_everything_threads(),
            tail_call: self.tail_call(),
            floats: self.floats(),
            multi_memory: self.multi_memory(),
            exceptions: self.exceptions(),
            memory64: self.memory64(),
            extended_const: self.extended_const(),
            function_references: self.function_references(),
            gc: self.gc(),
            custom_page_sizes: self.custom_page_sizes(),
            legacy_exceptions: self.legacy_exceptions(),
            gc_types: self.gc_types(),
            wide_arithmetic: self.wide_arithmetic(),
            call_indirect_overlong: self.call_indirect_overlong(),
            bulk_memory_opt: self.bulk_memory_opt(),
        }
    }
}

impl From<WasmFeaturesInflated> for WasmFeatures {
    ghost from_gives = { λ fields features. features ≡ deflated fields };

    fn from(fields: WasmFeaturesInflated) -> Self {
        Self::from_inflated(fields)
    }
}

impl From<WasmFeatures> for WasmFeaturesInflated {
    ghost from_gives = { λ features fields. fields ≡ inflated (enables features) };

    fn from(features: WasmFeatures) -> Self {
        features.inflate()
    }
}
