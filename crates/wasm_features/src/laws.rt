//! Laws of feature sets, as functions that do nothing: each contract is the law.

ghost use Rattle.std.specs.Prelude.{◌≡◌, [], ◌∷◌, map};
ghost use Rattle.wasm_features.specs.Features.{features_of, constant, all_names};
ghost use Rattle.wasm_features.specs.Inflated.{InflateGivesBack};
ghost use Rattle.wasm_features.specs.Laws.{ListIsSet, SetIsItsNames, UnionByNames, IntersectionByNames, DifferenceByNames, SymmetricDifferenceByNames, ComplementByNames};
ghost use Rattle.wasm_features.specs.Sets.{IsWithin, mvp_names, wasm1_names, wasm2_names, wasm3_names, default_names, lime1_names};

use crate::WasmFeatures;

/// The set of a list has the list's names, and a set is its names.
pub fn sets_are_names()
    ensures list { ListIsSet }
    ensures names { SetIsItsNames }
{}

/// Each operation, by the names of its result.
pub fn operations_by_names()
    ensures union { UnionByNames }
    ensures intersection { IntersectionByNames }
    ensures difference { DifferenceByNames }
    ensures symmetric_difference { SymmetricDifferenceByNames }
    ensures complement { ComplementByNames }
{}

/// Each constant, by its names.
pub fn constants_by_names()
    ensures { WasmFeatures.MUTABLE_GLOBAL ∷ WasmFeatures.SATURATING_FLOAT_TO_INT ∷ WasmFeatures.SIGN_EXTENSION
        ∷ WasmFeatures.REFERENCE_TYPES ∷ WasmFeatures.MULTI_VALUE ∷ WasmFeatures.BULK_MEMORY
        ∷ WasmFeatures.SIMD ∷ WasmFeatures.RELAXED_SIMD ∷ WasmFeatures.THREADS
        ∷ WasmFeatures.SHARED_EVERYTHING_THREADS ∷ WasmFeatures.TAIL_CALL ∷ WasmFeatures.FLOATS
        ∷ WasmFeatures.MULTI_MEMORY ∷ WasmFeatures.EXCEPTIONS ∷ WasmFeatures.MEMORY64
        ∷ WasmFeatures.EXTENDED_CONST ∷ WasmFeatures.FUNCTION_REFERENCES ∷ WasmFeatures.GC
        ∷ WasmFeatures.CUSTOM_PAGE_SIZES ∷ WasmFeatures.LEGACY_EXCEPTIONS ∷ WasmFeatures.GC_TYPES
        ∷ WasmFeatures.WIDE_ARITHMETIC ∷ WasmFeatures.CALL_INDIRECT_OVERLONG ∷ WasmFeatures.BULK_MEMORY_OPT ∷ []
        ≡ map (λ name. features_of (constant name)) all_names }
{}

/// The sets of the standard's versions, by their names.
pub fn versions_by_names()
    ensures mvp { WasmFeatures.MVP ≡ features_of mvp_names }
    ensures wasm1 { WasmFeatures.WASM1 ≡ features_of wasm1_names }
    ensures wasm2 { WasmFeatures.WASM2 ≡ features_of wasm2_names }
    ensures wasm3 { WasmFeatures.WASM3 ≡ features_of wasm3_names }
    ensures lime1 { WasmFeatures.LIME1 ≡ features_of lime1_names }
{}

/// Each version's set lies within the next, and Lime1 between 1.0 and 3.0.
pub fn versions_grow()
    ensures mvp { IsWithin WasmFeatures.MVP WasmFeatures.WASM1 }
    ensures wasm1 { IsWithin WasmFeatures.WASM1 WasmFeatures.WASM2 }
    ensures wasm2 { IsWithin WasmFeatures.WASM2 WasmFeatures.WASM3 }
    ensures wasm3 { IsWithin WasmFeatures.WASM3 (features_of default_names) }
    ensures lime1 { IsWithin WasmFeatures.WASM1 WasmFeatures.LIME1 }
    ensures lime1_below { IsWithin WasmFeatures.LIME1 WasmFeatures.WASM3 }
{}

/// `inflate` after `from_inflated`.
pub fn inflate_gives_back()
    ensures { InflateGivesBack }
{}
