// The sets against the list of what each version of the standard has, and the bits of the Rust crate.

use bitflags::Flags;
use wasm_features::WasmFeatures;

// Whether all of `has` are in the set, and none of `lacks`.
fn has(set: WasmFeatures, has: WasmFeatures, lacks: WasmFeatures) -> bool {
    set.contains(has) & !set.intersects(lacks)
}

#[test]
fn versions_have_their_features(rt: HostRuntime) {
    let two = WasmFeatures::SATURATING_FLOAT_TO_INT
        | WasmFeatures::SIGN_EXTENSION
        | WasmFeatures::REFERENCE_TYPES
        | WasmFeatures::MULTI_VALUE
        | WasmFeatures::BULK_MEMORY
        | WasmFeatures::SIMD;
    let three = WasmFeatures::TAIL_CALL
        | WasmFeatures::EXTENDED_CONST
        | WasmFeatures::FUNCTION_REFERENCES
        | WasmFeatures::GC
        | WasmFeatures::MULTI_MEMORY
        | WasmFeatures::RELAXED_SIMD
        | WasmFeatures::EXCEPTIONS
        | WasmFeatures::MEMORY64;
    let usual = WasmFeatures::THREADS | WasmFeatures::CUSTOM_PAGE_SIZES;
    let other = WasmFeatures::LEGACY_EXCEPTIONS
        | WasmFeatures::WIDE_ARITHMETIC
        | WasmFeatures::SHARED_EVERYTHING_THREADS;
    let lime = WasmFeatures::EXTENDED_CONST
        | WasmFeatures::CALL_INDIRECT_OVERLONG
        | WasmFeatures::BULK_MEMORY_OPT;
    let first = WasmFeatures::FLOATS | WasmFeatures::GC_TYPES;
    let rows = [
        (WasmFeatures::MVP, first, WasmFeatures::MUTABLE_GLOBAL),
        (
            WasmFeatures::WASM1,
            WasmFeatures::MUTABLE_GLOBAL,
            WasmFeatures::SIGN_EXTENSION,
        ),
        (WasmFeatures::WASM2, two, WasmFeatures::TAIL_CALL),
        (WasmFeatures::WASM3, three, WasmFeatures::THREADS),
        (WasmFeatures::default(), usual, other),
        (WasmFeatures::LIME1, lime, WasmFeatures::SIMD),
    ];
    for (set, wanted, lacks) in rows {
        assert!(rt; has(set, wanted, lacks));
    }
}

#[test]
fn names_have_their_bits(rt: HostRuntime) {
    assert!(rt; WasmFeatures::FLAGS.len() == 24);
    let rows = [
        (WasmFeatures::all(), 0xff_ffff),
        (WasmFeatures::GC, 0x2_0000),
        (WasmFeatures::REFERENCE_TYPES, 0x40_0008),
        (WasmFeatures::BULK_MEMORY, 0x80_0020),
    ];
    for (set, bits) in rows {
        assert!(rt; set.bits() == bits);
    }
}
