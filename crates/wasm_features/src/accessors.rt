// The accessors, one for each name.

ghost use Rattle.std.specs.Prelude.{◌≡◌, ◌&&◌};
ghost use Rattle.wasm_features.specs.Features.{has, MutableGlobal, SaturatingFloatToInt, SignExtension, ReferenceTypes, MultiValue, BulkMemory, Simd, RelaxedSimd, Threads, SharedEverythingThreads, TailCall, Floats, MultiMemory, Exceptions, Memory64, ExtendedConst, FunctionReferences, Gc, CustomPageSizes, LegacyExceptions, GcTypes, WideArithmetic, CallIndirectOverlong, BulkMemoryOpt};

use crate::WasmFeatures;
use bitflags::Flags;

impl WasmFeatures {
    /// Whether `mutable_global` is on.
    pub fn mutable_global(&self) -> bool
        ensures { result ≡ has self.now MutableGlobal }
    {
        self.contains(Self::MUTABLE_GLOBAL)
    }

    /// Whether `saturating_float_to_int` is on.
    pub fn saturating_float_to_int(&self) -> bool
        ensures { result ≡ has self.now SaturatingFloatToInt }
    {
        self.contains(Self::SATURATING_FLOAT_TO_INT)
    }

    /// Whether `sign_extension` is on.
    pub fn sign_extension(&self) -> bool
        ensures { result ≡ has self.now SignExtension }
    {
        self.contains(Self::SIGN_EXTENSION)
    }

    /// Whether `reference_types` is on, and with it `call_indirect_overlong`, as its constant holds both.
    pub fn reference_types(&self) -> bool
        ensures { result ≡ (has self.now ReferenceTypes && has self.now CallIndirectOverlong) }
    {
        self.contains(Self::REFERENCE_TYPES)
    }

    /// Whether `multi_value` is on.
    pub fn multi_value(&self) -> bool
        ensures { result ≡ has self.now MultiValue }
    {
        self.contains(Self::MULTI_VALUE)
    }

    /// Whether `bulk_memory` is on, and with it `bulk_memory_opt`, as its constant holds both.
    pub fn bulk_memory(&self) -> bool
        ensures { result ≡ (has self.now BulkMemory && has self.now BulkMemoryOpt) }
    {
        self.contains(Self::BULK_MEMORY)
    }

    /// Whether `simd` is on.
    pub fn simd(&self) -> bool
        ensures { result ≡ has self.now Simd }
    {
        self.contains(Self::SIMD)
    }

    /// Whether `relaxed_simd` is on.
    pub fn relaxed_simd(&self) -> bool
        ensures { result ≡ has self.now RelaxedSimd }
    {
        self.contains(Self::RELAXED_SIMD)
    }

    /// Whether `threads` is on.
    pub fn threads(&self) -> bool
        ensures { result ≡ has self.now Threads }
    {
        self.contains(Self::THREADS)
    }

    /// Whether `shared_everything_threads` is on.
    pub fn shared_everything_threads(&self) -> bool
        ensures { result ≡ has self.now SharedEverythingThreads }
    {
        self.contains(Self::SHARED_EVERYTHING_THREADS)
    }

    /// Whether `tail_call` is on.
    pub fn tail_call(&self) -> bool
        ensures { result ≡ has self.now TailCall }
    {
        self.contains(Self::TAIL_CALL)
    }

    /// Whether `floats` is on.
    pub fn floats(&self) -> bool
        ensures { result ≡ has self.now Floats }
    {
        self.contains(Self::FLOATS)
    }

    /// Whether `multi_memory` is on.
    pub fn multi_memory(&self) -> bool
        ensures { result ≡ has self.now MultiMemory }
    {
        self.contains(Self::MULTI_MEMORY)
    }

    /// Whether `exceptions` is on.
    pub fn exceptions(&self) -> bool
        ensures { result ≡ has self.now Exceptions }
    {
        self.contains(Self::EXCEPTIONS)
    }

    /// Whether `memory64` is on.
    pub fn memory64(&self) -> bool
        ensures { result ≡ has self.now Memory64 }
    {
        self.contains(Self::MEMORY64)
    }

    /// Whether `extended_const` is on.
    pub fn extended_const(&self) -> bool
        ensures { result ≡ has self.now ExtendedConst }
    {
        self.contains(Self::EXTENDED_CONST)
    }

    /// Whether `function_references` is on.
    pub fn function_references(&self) -> bool
        ensures { result ≡ has self.now FunctionReferences }
    {
        self.contains(Self::FUNCTION_REFERENCES)
    }

    /// Whether `gc` is on.
    pub fn gc(&self) -> bool
        ensures { result ≡ has self.now Gc }
    {
        self.contains(Self::GC)
    }

    /// Whether `custom_page_sizes` is on.
    pub fn custom_page_sizes(&self) -> bool
        ensures { result ≡ has self.now CustomPageSizes }
    {
        self.contains(Self::CUSTOM_PAGE_SIZES)
    }

    /// Whether `legacy_exceptions` is on.
    pub fn legacy_exceptions(&self) -> bool
        ensures { result ≡ has self.now LegacyExceptions }
    {
        self.contains(Self::LEGACY_EXCEPTIONS)
    }

    /// Whether `gc_types` is on.
    pub fn gc_types(&self) -> bool
        ensures { result ≡ has self.now GcTypes }
    {
        self.contains(Self::GC_TYPES)
    }

    /// Whether `wide_arithmetic` is on.
    pub fn wide_arithmetic(&self) -> bool
        ensures { result ≡ has self.now WideArithmetic }
    {
        self.contains(Self::WIDE_ARITHMETIC)
    }

    /// Whether `call_indirect_overlong` is on.
    pub fn call_indirect_overlong(&self) -> bool
        ensures { result ≡ has self.now CallIndirectOverlong }
    {
        self.contains(Self::CALL_INDIRECT_OVERLONG)
    }

    /// Whether `bulk_memory_opt` is on.
    pub fn bulk_memory_opt(&self) -> bool
        ensures { result ≡ has self.now BulkMemoryOpt }
    {
        self.contains(Self::BULK_MEMORY_OPT)
    }
}
