//! The code of each instruction by its name, from the standard's index of instructions and the proposals on threads and wide arithmetic: an
//! exchange of two forms in definitions and code alike is found here.

use crate::operators::maps::id;
use crate::operators::pairing::gives;
use std::alloc::Global;
use walrus_index_maps::IdsToIndices;
use walrus_instr::{
    AtomicOp, AtomicWidth, BinaryOp, ExtendedLoad, Instr, LoadKind, LoadSimdKind, MemArg,
    StoreKind, TernaryOp, UnaryOp, Value,
};
use wasm_operators::OpCode;

// The form of an instruction with a part that tells its code.
enum Form {
    Unary(UnaryOp),
    Binary(BinaryOp),
    Ternary(TernaryOp),
    Load(LoadKind),
    Store(StoreKind),
    Vector(LoadSimdKind),
    Change(AtomicOp, AtomicWidth),
    Cmpxchg(AtomicWidth),
    Wait(bool),
}

// The forms of enums, each with its code: a prefix, and the names with their numbers behind it. Each lane is 0. Then those of accesses: what
// is extended with its signed, unsigned and atomic number; what is plain or atomic with the number of each; and the changes, each with the number
// of its first width.
macro_rules! forms {
    (
        names { $($kind:ident $of:ident { $($prefix:literal [$($name:ident $({ $lane:ident })? $(($lane_number:literal))? $number:literal),*])* })* }
        extended { $($extended:ident $signed:literal $unsigned:literal $atomically:literal),* }
        atomic { $($either:ident $either_of:ident $either_name:ident $plain:literal $atomic:literal),* }
        changes { $($op:ident [$($width:ident $change:literal),*])* }
        exchanges { $($exchanged:ident $exchange:literal),* }
        waits { $($sixty_four:literal $wait:literal),* }
    ) => {
        [
            $($($(($prefix, $number, Form::$kind($of::$name $({ $lane: 0 })? $(($lane_number))?)),)*)*)*
            $(
                (0, $signed, Form::Load(LoadKind::$extended { kind: ExtendedLoad::SignExtend })),
                (0, $unsigned, Form::Load(LoadKind::$extended { kind: ExtendedLoad::ZeroExtend })),
                (0xfe, $atomically, Form::Load(LoadKind::$extended { kind: ExtendedLoad::ZeroExtendAtomic })),
            )*
            $(
                (0, $plain, Form::$either($either_of::$either_name { atomic: false })),
                (0xfe, $atomic, Form::$either($either_of::$either_name { atomic: true })),
            )*
            $($((0xfe, $change, Form::Change(AtomicOp::$op, AtomicWidth::$width)),)*)*
            $((0xfe, $exchange, Form::Cmpxchg(AtomicWidth::$exchanged)),)*
            $((0xfe, $wait, Form::Wait($sixty_four)),)*
        ]
    };
}

// All forms, each once. (A match on their names would be dear, as each name in it is a part of the proof.)
static FORMS: [(u8, u32, Form); 478] = forms! {
    names {
    Unary UnaryOp {
        0 [
            I32Eqz 0x45, I64Eqz 0x50, I32Clz 0x67, I32Ctz 0x68, I32Popcnt 0x69, I64Clz 0x79, I64Ctz 0x7a, I64Popcnt 0x7b, F32Abs 0x8b,
            F32Neg 0x8c, F32Ceil 0x8d, F32Floor 0x8e, F32Trunc 0x8f, F32Nearest 0x90, F32Sqrt 0x91, F64Abs 0x99, F64Neg 0x9a, F64Ceil 0x9b,
            F64Floor 0x9c, F64Trunc 0x9d, F64Nearest 0x9e, F64Sqrt 0x9f, I32WrapI64 0xa7, I32TruncSF32 0xa8, I32TruncUF32 0xa9,
            I32TruncSF64 0xaa, I32TruncUF64 0xab, I64ExtendSI32 0xac, I64ExtendUI32 0xad, I64TruncSF32 0xae, I64TruncUF32 0xaf,
            I64TruncSF64 0xb0, I64TruncUF64 0xb1, F32ConvertSI32 0xb2, F32ConvertUI32 0xb3, F32ConvertSI64 0xb4, F32ConvertUI64 0xb5,
            F32DemoteF64 0xb6, F64ConvertSI32 0xb7, F64ConvertUI32 0xb8, F64ConvertSI64 0xb9, F64ConvertUI64 0xba, F64PromoteF32 0xbb,
            I32ReinterpretF32 0xbc, I64ReinterpretF64 0xbd, F32ReinterpretI32 0xbe, F64ReinterpretI64 0xbf, I32Extend8S 0xc0,
            I32Extend16S 0xc1, I64Extend8S 0xc2, I64Extend16S 0xc3, I64Extend32S 0xc4
        ]
        0xfc [
            I32TruncSatF32S 0, I32TruncSatF32U 1, I32TruncSatF64S 2, I32TruncSatF64U 3, I64TruncSatF32S 4, I64TruncSatF32U 5,
            I64TruncSatF64S 6, I64TruncSatF64U 7
        ]
        0xfd [
            I8x16Splat 15, I16x8Splat 16, I32x4Splat 17, I64x2Splat 18, F32x4Splat 19, F64x2Splat 20, I8x16ExtractLaneS { idx } 21,
            I8x16ExtractLaneU { idx } 22, I16x8ExtractLaneS { idx } 24, I16x8ExtractLaneU { idx } 25, I32x4ExtractLane { idx } 27,
            I64x2ExtractLane { idx } 29, F32x4ExtractLane { idx } 31, F64x2ExtractLane { idx } 33, V128Not 77, V128AnyTrue 83,
            F32x4DemoteF64x2Zero 94, F64x2PromoteLowF32x4 95, I8x16Abs 96, I8x16Neg 97, I8x16Popcnt 98, I8x16AllTrue 99, I8x16Bitmask 100,
            F32x4Ceil 103, F32x4Floor 104, F32x4Trunc 105, F32x4Nearest 106, F64x2Ceil 116, F64x2Floor 117, F64x2Trunc 122,
            I16x8ExtaddPairwiseI8x16S 124, I16x8ExtaddPairwiseI8x16U 125, I32x4ExtaddPairwiseI16x8S 126, I32x4ExtaddPairwiseI16x8U 127,
            I16x8Abs 128, I16x8Neg 129, I16x8AllTrue 131, I16x8Bitmask 132, I16x8ExtendLowI8x16S 135, I16x8ExtendHighI8x16S 136,
            I16x8ExtendLowI8x16U 137, I16x8ExtendHighI8x16U 138, F64x2Nearest 148, I32x4Abs 160, I32x4Neg 161, I32x4AllTrue 163,
            I32x4Bitmask 164, I32x4ExtendLowI16x8S 167, I32x4ExtendHighI16x8S 168, I32x4ExtendLowI16x8U 169, I32x4ExtendHighI16x8U 170,
            I64x2Abs 192, I64x2Neg 193, I64x2AllTrue 195, I64x2Bitmask 196, I64x2ExtendLowI32x4S 199, I64x2ExtendHighI32x4S 200,
            I64x2ExtendLowI32x4U 201, I64x2ExtendHighI32x4U 202, F32x4Abs 224, F32x4Neg 225, F32x4Sqrt 227, F64x2Abs 236, F64x2Neg 237,
            F64x2Sqrt 239, I32x4TruncSatF32x4S 248, I32x4TruncSatF32x4U 249, F32x4ConvertI32x4S 250, F32x4ConvertI32x4U 251,
            I32x4TruncSatF64x2SZero 252, I32x4TruncSatF64x2UZero 253, F64x2ConvertLowI32x4S 254, F64x2ConvertLowI32x4U 255,
            I32x4RelaxedTruncF32x4S 257, I32x4RelaxedTruncF32x4U 258, I32x4RelaxedTruncF64x2SZero 259, I32x4RelaxedTruncF64x2UZero 260
        ]
    }
    Binary BinaryOp {
        0 [
            I32Eq 0x46, I32Ne 0x47, I32LtS 0x48, I32LtU 0x49, I32GtS 0x4a, I32GtU 0x4b, I32LeS 0x4c, I32LeU 0x4d, I32GeS 0x4e, I32GeU 0x4f,
            I64Eq 0x51, I64Ne 0x52, I64LtS 0x53, I64LtU 0x54, I64GtS 0x55, I64GtU 0x56, I64LeS 0x57, I64LeU 0x58, I64GeS 0x59, I64GeU 0x5a,
            F32Eq 0x5b, F32Ne 0x5c, F32Lt 0x5d, F32Gt 0x5e, F32Le 0x5f, F32Ge 0x60, F64Eq 0x61, F64Ne 0x62, F64Lt 0x63, F64Gt 0x64, F64Le 0x65,
            F64Ge 0x66, I32Add 0x6a, I32Sub 0x6b, I32Mul 0x6c, I32DivS 0x6d, I32DivU 0x6e, I32RemS 0x6f, I32RemU 0x70, I32And 0x71, I32Or 0x72,
            I32Xor 0x73, I32Shl 0x74, I32ShrS 0x75, I32ShrU 0x76, I32Rotl 0x77, I32Rotr 0x78, I64Add 0x7c, I64Sub 0x7d, I64Mul 0x7e,
            I64DivS 0x7f, I64DivU 0x80, I64RemS 0x81, I64RemU 0x82, I64And 0x83, I64Or 0x84, I64Xor 0x85, I64Shl 0x86, I64ShrS 0x87,
            I64ShrU 0x88, I64Rotl 0x89, I64Rotr 0x8a, F32Add 0x92, F32Sub 0x93, F32Mul 0x94, F32Div 0x95, F32Min 0x96, F32Max 0x97,
            F32Copysign 0x98, F64Add 0xa0, F64Sub 0xa1, F64Mul 0xa2, F64Div 0xa3, F64Min 0xa4, F64Max 0xa5, F64Copysign 0xa6
        ]
        0xfc [
            I64MulWideS 21, I64MulWideU 22
        ]
        0xfd [
            I8x16ReplaceLane { idx } 23, I16x8ReplaceLane { idx } 26, I32x4ReplaceLane { idx } 28, I64x2ReplaceLane { idx } 30,
            F32x4ReplaceLane { idx } 32, F64x2ReplaceLane { idx } 34, I8x16Eq 35, I8x16Ne 36, I8x16LtS 37, I8x16LtU 38, I8x16GtS 39,
            I8x16GtU 40, I8x16LeS 41, I8x16LeU 42, I8x16GeS 43, I8x16GeU 44, I16x8Eq 45, I16x8Ne 46, I16x8LtS 47, I16x8LtU 48, I16x8GtS 49,
            I16x8GtU 50, I16x8LeS 51, I16x8LeU 52, I16x8GeS 53, I16x8GeU 54, I32x4Eq 55, I32x4Ne 56, I32x4LtS 57, I32x4LtU 58, I32x4GtS 59,
            I32x4GtU 60, I32x4LeS 61, I32x4LeU 62, I32x4GeS 63, I32x4GeU 64, F32x4Eq 65, F32x4Ne 66, F32x4Lt 67, F32x4Gt 68, F32x4Le 69,
            F32x4Ge 70, F64x2Eq 71, F64x2Ne 72, F64x2Lt 73, F64x2Gt 74, F64x2Le 75, F64x2Ge 76, V128And 78, V128Andnot 79, V128Or 80,
            V128Xor 81, I8x16NarrowI16x8S 101, I8x16NarrowI16x8U 102, I8x16Shl 107, I8x16ShrS 108, I8x16ShrU 109, I8x16Add 110,
            I8x16AddSatS 111, I8x16AddSatU 112, I8x16Sub 113, I8x16SubSatS 114, I8x16SubSatU 115, I8x16MinS 118, I8x16MinU 119, I8x16MaxS 120,
            I8x16MaxU 121, I8x16AvgrU 123, I16x8Q15mulrSatS 130, I16x8NarrowI32x4S 133, I16x8NarrowI32x4U 134, I16x8Shl 139, I16x8ShrS 140,
            I16x8ShrU 141, I16x8Add 142, I16x8AddSatS 143, I16x8AddSatU 144, I16x8Sub 145, I16x8SubSatS 146, I16x8SubSatU 147, I16x8Mul 149,
            I16x8MinS 150, I16x8MinU 151, I16x8MaxS 152, I16x8MaxU 153, I16x8AvgrU 155, I16x8ExtmulLowI8x16S 156, I16x8ExtmulHighI8x16S 157,
            I16x8ExtmulLowI8x16U 158, I16x8ExtmulHighI8x16U 159, I32x4Shl 171, I32x4ShrS 172, I32x4ShrU 173, I32x4Add 174, I32x4Sub 177,
            I32x4Mul 181, I32x4MinS 182, I32x4MinU 183, I32x4MaxS 184, I32x4MaxU 185, I32x4DotI16x8S 186, I32x4ExtmulLowI16x8S 188,
            I32x4ExtmulHighI16x8S 189, I32x4ExtmulLowI16x8U 190, I32x4ExtmulHighI16x8U 191, I64x2Shl 203, I64x2ShrS 204, I64x2ShrU 205,
            I64x2Add 206, I64x2Sub 209, I64x2Mul 213, I64x2Eq 214, I64x2Ne 215, I64x2LtS 216, I64x2GtS 217, I64x2LeS 218, I64x2GeS 219,
            I64x2ExtmulLowI32x4S 220, I64x2ExtmulHighI32x4S 221, I64x2ExtmulLowI32x4U 222, I64x2ExtmulHighI32x4U 223, F32x4Add 228,
            F32x4Sub 229, F32x4Mul 230, F32x4Div 231, F32x4Min 232, F32x4Max 233, F32x4Pmin 234, F32x4Pmax 235, F64x2Add 240, F64x2Sub 241,
            F64x2Mul 242, F64x2Div 243, F64x2Min 244, F64x2Max 245, F64x2Pmin 246, F64x2Pmax 247, I8x16RelaxedSwizzle 256, F32x4RelaxedMin 269,
            F32x4RelaxedMax 270, F64x2RelaxedMin 271, F64x2RelaxedMax 272, I16x8RelaxedQ15mulrS 273, I16x8RelaxedDotI8x16I7x16S 274
        ]
    }
    Ternary TernaryOp {
        0xfd [
            F32x4RelaxedMadd 261, F32x4RelaxedNmadd 262, F64x2RelaxedMadd 263, F64x2RelaxedNmadd 264, I8x16RelaxedLaneselect 265,
            I16x8RelaxedLaneselect 266, I32x4RelaxedLaneselect 267, I64x2RelaxedLaneselect 268, I32x4RelaxedDotI8x16I7x16AddS 275
        ]
    }
    Load LoadKind {
        0 [F32 0x2a, F64 0x2b]
        0xfd [V128 0]
    }
    Store StoreKind {
        0 [F32 0x38, F64 0x39]
        0xfd [V128 11]
    }
    Vector LoadSimdKind {
        0xfd [
            V128Load8x8S 1, V128Load8x8U 2, V128Load16x4S 3, V128Load16x4U 4, V128Load32x2S 5, V128Load32x2U 6, Splat8 7, Splat16 8, Splat32 9,
            Splat64 10, V128Load8Lane (0) 84, V128Load16Lane (0) 85, V128Load32Lane (0) 86, V128Load64Lane (0) 87, V128Store8Lane (0) 88,
            V128Store16Lane (0) 89, V128Store32Lane (0) 90, V128Store64Lane (0) 91, V128Load32Zero 92, V128Load64Zero 93
        ]
    }
    }
    extended {
        I32_8 0x2c 0x2d 18, I32_16 0x2e 0x2f 19, I64_8 0x30 0x31 20, I64_16 0x32 0x33 21, I64_32 0x34 0x35 22
    }
    atomic {
        Load LoadKind I32 0x28 16, Load LoadKind I64 0x29 17, Store StoreKind I32 0x36 23, Store StoreKind I64 0x37 24,
        Store StoreKind I32_8 0x3a 25, Store StoreKind I32_16 0x3b 26, Store StoreKind I64_8 0x3c 27, Store StoreKind I64_16 0x3d 28,
        Store StoreKind I64_32 0x3e 29
    }
    changes {
        Add [I32 30, I64 31, I32_8 32, I32_16 33, I64_8 34, I64_16 35, I64_32 36]
        Sub [I32 37, I64 38, I32_8 39, I32_16 40, I64_8 41, I64_16 42, I64_32 43]
        And [I32 44, I64 45, I32_8 46, I32_16 47, I64_8 48, I64_16 49, I64_32 50]
        Or [I32 51, I64 52, I32_8 53, I32_16 54, I64_8 55, I64_16 56, I64_32 57]
        Xor [I32 58, I64 59, I32_8 60, I32_16 61, I64_8 62, I64_16 63, I64_32 64]
        Xchg [I32 65, I64 66, I32_8 67, I32_16 68, I64_8 69, I64_16 70, I64_32 71]
    }
    exchanges {
        I32 72, I64 73, I32_8 74, I32_16 75, I64_8 76, I64_16 77, I64_32 78
    }
    waits {
        false 1, true 2
    }
};

// An instruction of the form, any memory and place, gives this code.
fn has_code(alloc: Global, numbers: &IdsToIndices, form: &Form, code: OpCode) -> bool {
    let memory = id(800);
    let arg = MemArg {
        align: 1,
        offset: 0,
    };
    let instr = match *form {
        Form::Unary(op) => Instr::Unop { op },
        Form::Binary(op) => Instr::Binop { op },
        Form::Ternary(op) => Instr::TernOp { op },
        Form::Load(kind) => Instr::Load { memory, kind, arg },
        Form::Store(kind) => Instr::Store { memory, kind, arg },
        Form::Vector(kind) => Instr::LoadSimd { memory, kind, arg },
        Form::Change(op, width) => Instr::AtomicRmw {
            memory,
            op,
            width,
            arg,
        },
        Form::Cmpxchg(width) => Instr::Cmpxchg { memory, width, arg },
        Form::Wait(sixty_four) => Instr::AtomicWait {
            memory,
            arg,
            sixty_four,
        },
    };
    gives(alloc, numbers, &instr, code, 0, &[])
}

// Whether the form whose code this is by its name has it. As this is asked of each code, no two forms have one code, so that what comes
// back to the operator of a code is the form of that name.
fn is_of_its_form(alloc: Global, numbers: &IdsToIndices, code: OpCode) -> bool {
    for (prefix, number, form) in &FORMS {
        if *prefix == code.prefix && *number == code.number {
            return has_code(alloc, numbers, form, code);
        }
    }
    false
}

// The code of each instruction by its name: a prefix, and the names with their numbers behind it, and what stands behind the code: two ids of its
// fields, in the order in which the operator has their indices.
macro_rules! codes {
    (
        $of:expr;
        $($prefix:literal [$($name:ident $number:literal),*])*
        ids { $($ids_prefix:literal [$($of_ids:ident { $first:ident, $second:ident } $ids_number:literal),*])* }
        $($other:pat => $code:expr),*
    ) => {
        match $of {
            $($(Instr::$name { .. } => ($prefix, $number, 0, 0),)*)*
            $($(Instr::$of_ids { $first, $second } => ($ids_prefix, $ids_number, $first.number(), $second.number()),)*)*
            $($other => $code,)*
        }
    };
}

/// A prefix and the number behind it, and two ids, or zeros. The prefix ff stands for none: its number 1 for a form of the table above.
pub(crate) fn named(instr: &Instr) -> (u8, u32, u32, u32) {
    codes! {
        instr;
        0 [
            Unreachable 0x00, Throw 0x08, ThrowRef 0x0a, Return 0x0f, Call 0x10, ReturnCall 0x12, CallRef 0x14, ReturnCallRef 0x15, Drop 0x1a,
            LocalGet 0x20, LocalSet 0x21, LocalTee 0x22, GlobalGet 0x23, GlobalSet 0x24, TableGet 0x25, TableSet 0x26, MemorySize 0x3f,
            MemoryGrow 0x40, RefNull 0xd0, RefIsNull 0xd1, RefFunc 0xd2, RefEq 0xd3, RefAsNonNull 0xd4
        ]
        0xfb [
            StructNew 0, StructNewDefault 1, StructGet 2, StructGetS 3, StructGetU 4, StructSet 5, ArrayNew 6, ArrayNewDefault 7,
            ArrayNewFixed 8, ArrayGet 11, ArrayGetS 12, ArrayGetU 13, ArraySet 14, ArrayLen 15, ArrayFill 16, AnyConvertExtern 26,
            ExternConvertAny 27, RefI31 28, I31GetS 29, I31GetU 30
        ]
        0xfc [DataDrop 9, MemoryFill 11, ElemDrop 13, TableGrow 15, TableSize 16, TableFill 17, I64Add128 19, I64Sub128 20]
        0xfd [I8x16Shuffle 13, I8x16Swizzle 14, V128Bitselect 82]
        0xfe [AtomicNotify 0, AtomicFence 3]
        ids {
            0 [CallIndirect { ty, table } 0x11, ReturnCallIndirect { ty, table } 0x13]
            0xfb [
                ArrayNewData { ty, data } 9, ArrayNewElem { ty, elem } 10, ArrayCopy { dst, src } 17, ArrayInitData { ty, data } 18,
                ArrayInitElem { ty, elem } 19
            ]
            0xfc [MemoryInit { data, memory } 8, MemoryCopy { dst, src } 10, TableInit { elem, table } 12, TableCopy { dst, src } 14]
        }
        Instr::Unop { .. }
        | Instr::Binop { .. }
        | Instr::TernOp { .. }
        | Instr::Load { .. }
        | Instr::Store { .. }
        | Instr::LoadSimd { .. }
        | Instr::AtomicRmw { .. }
        | Instr::Cmpxchg { .. }
        | Instr::AtomicWait { .. } => (0xff, 1, 0, 0),
        Instr::Const { value: Value::I32(_) } => (0, 0x41, 0, 0),
        Instr::Const { value: Value::I64(_) } => (0, 0x42, 0, 0),
        Instr::Const { value: Value::F32(_) } => (0, 0x43, 0, 0),
        Instr::Const { value: Value::F64(_) } => (0, 0x44, 0, 0),
        Instr::Const { value: Value::V128(_) } => (0xfd, 12, 0, 0),
        Instr::Select { ty: None } => (0, 0x1b, 0, 0),
        Instr::Select { ty: Some(_) } => (0, 0x1c, 0, 0),
        Instr::RefTest { ty } => (0xfb, if ty.is_nullable() { 21 } else { 20 }, 0, 0),
        Instr::RefCast { ty } => (0xfb, if ty.is_nullable() { 23 } else { 22 }, 0, 0),
        _ => (0xff, 0, 0, 0)
    }
}

/// Whether this is the code of the instruction's name.
pub(crate) fn is_named(alloc: Global, numbers: &IdsToIndices, instr: &Instr, code: OpCode) -> bool {
    let (prefix, number, _, _) = named(instr);
    if prefix == 0xff {
        return number == 1 && is_of_its_form(alloc, numbers, code);
    }
    prefix == code.prefix && number == code.number
}
