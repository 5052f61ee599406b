//! What adds the instructions of rows: the builder's call of each form, by the form's number (`FORMS` of `forms`).
use crate::bodies::forms::{Row, id, list, ref_type, row_of, val_type};
use std::alloc::{AllocError, Global};
use test_words::{cut, lower};
use walrus_builder::InstrSeqBuilder;
use walrus_instr::{
    AtomicOp, AtomicWidth, BinaryOp, Bits128, Instr, LoadKind, LoadSimdKind, MemArg, StoreKind,
    TernaryOp, UnaryOp, Value,
};

fn add_branch(seq: &mut InstrSeqBuilder, row: Row) -> Result<(), AllocError> {
    let (form, first, second, third) = row;
    match form {
        0 => seq.unreachable(),
        1 => seq.br(id(first)),
        2 => seq.br_if(id(first)),
        3 => seq.br_on_null(id(first)),
        4 => seq.br_on_non_null(id(first)),
        5 => seq.return_(),
        6 => seq.throw(id(first)),
        7 => seq.throw_ref(),
        8 => seq.rethrow(lower(first)),
        9 => seq.br_on_cast(id(first), ref_type(second), ref_type(third)),
        10 => seq.br_on_cast_fail(id(first), ref_type(second), ref_type(third)),
        _ => Err(AllocError),
    }
}

fn add_call(seq: &mut InstrSeqBuilder, row: Row) -> Result<(), AllocError> {
    let (form, first, second, _) = row;
    match form {
        100 => seq.call(id(first)),
        101 => seq.call_indirect(id(first), id(second)),
        102 => seq.call_ref(id(first)),
        103 => seq.return_call(id(first)),
        104 => seq.return_call_indirect(id(first), id(second)),
        105 => seq.return_call_ref(id(first)),
        _ => Err(AllocError),
    }
}

fn add_operator(seq: &mut InstrSeqBuilder, row: Row) -> Result<(), AllocError> {
    let (form, first, _, _) = row;
    match form {
        200 => seq.drop(),
        201 => seq.select(Some(val_type(first))),
        202 => seq.unop(UnaryOp::I32Popcnt),
        203 => seq.binop(BinaryOp::I64Rotr),
        204 => seq.tern_op(TernaryOp::F32x4RelaxedNmadd),
        205 => seq.i64_add128(),
        206 => seq.i64_sub128(),
        207 => seq.v128_bitselect(),
        208 => seq.i8x16_swizzle(),
        209 => seq.i8x16_shuffle([0, 1, 2, 3, 4, 5, 6, 7, 24, 25, 26, 27, 28, 29, 30, 31]),
        _ => Err(AllocError),
    }
}

fn add_constant(seq: &mut InstrSeqBuilder, row: Row) -> Result<(), AllocError> {
    let (form, number, _, _) = row;
    match form {
        300 => seq.i32_const(lower(number).cast_signed()),
        301 => seq.i64_const(number.cast_signed()),
        302 => seq.f32_const(lower(number)),
        303 => seq.f64_const(number),
        304 => seq.const_(Value::V128(Bits128::new(u128::from(number)))),
        _ => Err(AllocError),
    }
}

fn add_variable(seq: &mut InstrSeqBuilder, row: Row) -> Result<(), AllocError> {
    let (form, first, _, _) = row;
    match form {
        400 => seq.local_get(id(first)),
        401 => seq.local_set(id(first)),
        402 => seq.local_tee(id(first)),
        403 => seq.global_get(id(first)),
        404 => seq.global_set(id(first)),
        _ => Err(AllocError),
    }
}

fn add_table(seq: &mut InstrSeqBuilder, row: Row) -> Result<(), AllocError> {
    let (form, first, second, _) = row;
    match form {
        500 => seq.table_get(id(first)),
        501 => seq.table_set(id(first)),
        502 => seq.table_grow(id(first)),
        503 => seq.table_size(id(first)),
        504 => seq.table_fill(id(first)),
        505 => seq.table_init(id(first), id(second)),
        506 => seq.elem_drop(id(first)),
        507 => seq.table_copy(id(first), id(second)),
        _ => Err(AllocError),
    }
}

fn arg(align: u64, offset: u64) -> MemArg {
    MemArg {
        align: lower(align),
        offset,
    }
}

fn add_memory(seq: &mut InstrSeqBuilder, row: Row) -> Result<(), AllocError> {
    let (form, first, second, third) = row;
    match form {
        600 => seq.load(id(first), LoadKind::F64, arg(second, third)),
        601 => seq.store(id(first), StoreKind::V128, arg(second, third)),
        602 => seq.load_simd(
            id(first),
            LoadSimdKind::V128Load8Lane(2),
            arg(second, third),
        ),
        603 => seq.memory_size(id(first)),
        604 => seq.memory_grow(id(first)),
        605 => seq.memory_init(id(first), id(second)),
        606 => seq.data_drop(id(first)),
        607 => seq.memory_copy(id(first), id(second)),
        608 => seq.memory_fill(id(first)),
        _ => Err(AllocError),
    }
}

fn add_atomic(seq: &mut InstrSeqBuilder, row: Row) -> Result<(), AllocError> {
    let (form, first, second, third) = row;
    let arg = arg(second, third);
    match form {
        700 => seq.atomic_rmw(id(first), AtomicOp::Xchg, AtomicWidth::I64_16, arg),
        701 => seq.cmpxchg(id(first), AtomicWidth::I64_16, arg),
        702 => seq.atomic_notify(id(first), arg),
        703 => seq.atomic_wait(id(first), arg, true),
        704 => seq.atomic_fence(),
        _ => Err(AllocError),
    }
}

fn add_reference(seq: &mut InstrSeqBuilder, row: Row) -> Result<(), AllocError> {
    let (form, first, _, _) = row;
    match form {
        800 => seq.ref_null(ref_type(first)),
        801 => seq.ref_is_null(),
        802 => seq.ref_func(id(first)),
        803 => seq.ref_eq(),
        804 => seq.ref_as_non_null(),
        805 => seq.ref_test(ref_type(first)),
        806 => seq.ref_cast(ref_type(first)),
        807 => seq.ref_i31(),
        808 => seq.i31_get_s(),
        809 => seq.i31_get_u(),
        810 => seq.any_convert_extern(),
        811 => seq.extern_convert_any(),
        _ => Err(AllocError),
    }
}

fn add_structure(seq: &mut InstrSeqBuilder, row: Row) -> Result<(), AllocError> {
    let (form, first, second, _) = row;
    match form {
        900 => seq.struct_new(id(first)),
        901 => seq.struct_new_default(id(first)),
        902 => seq.struct_get(id(first), lower(second)),
        903 => seq.struct_get_s(id(first), lower(second)),
        904 => seq.struct_get_u(id(first), lower(second)),
        905 => seq.struct_set(id(first), lower(second)),
        _ => Err(AllocError),
    }
}

fn add_array(seq: &mut InstrSeqBuilder, row: Row) -> Result<(), AllocError> {
    let (form, first, second, _) = row;
    match form {
        1000 => seq.array_new(id(first)),
        1001 => seq.array_new_default(id(first)),
        1002 => seq.array_new_fixed(id(first), lower(second)),
        1003 => seq.array_new_data(id(first), id(second)),
        1004 => seq.array_new_elem(id(first), id(second)),
        1005 => seq.array_init_data(id(first), id(second)),
        1006 => seq.array_init_elem(id(first), id(second)),
        1007 => seq.array_get(id(first)),
        1008 => seq.array_get_s(id(first)),
        1009 => seq.array_get_u(id(first)),
        1010 => seq.array_set(id(first)),
        1011 => seq.array_len(),
        1012 => seq.array_fill(id(first)),
        1013 => seq.array_copy(id(first), id(second)),
        _ => Err(AllocError),
    }
}

// What holds sequences, for which there is no call, and so is added as an instruction.
fn holder(alloc: Global, row: Row, items: &[u8]) -> Result<Instr, AllocError> {
    let (form, first, second, _) = row;
    let seq = id(first);
    match form {
        1100 => Ok(Instr::Block { seq }),
        1101 => Ok(Instr::Loop { seq }),
        1102 => Ok(Instr::IfElse {
            consequent: seq,
            alternative: id(second),
        }),
        1103 => {
            let catches = list(alloc, items)?;
            Ok(Instr::Try { seq, catches })
        }
        1104 => {
            let catches = list(alloc, items)?;
            Ok(Instr::TryTable { seq, catches })
        }
        _ => Err(AllocError),
    }
}

fn add_holder(
    alloc: Global,
    seq: &mut InstrSeqBuilder,
    row: Row,
    word: &[u8],
) -> Result<(), AllocError> {
    let (_, fields) = cut(word, b',');
    let (_, items) = cut(fields, b',');
    if row.0 == 1105 {
        let blocks = list(alloc, items)?;
        return seq.br_table(blocks, id(row.1));
    }
    let instr = holder(alloc, row, items)?;
    seq.instr(instr)
}

/// Adds the instruction of a word: a name, and what is in its fields behind commas.
pub fn add(alloc: Global, seq: &mut InstrSeqBuilder, word: &[u8]) -> Result<(), AllocError> {
    let row = row_of(word);
    match row.0 / 100 {
        0 => add_branch(seq, row),
        1 => add_call(seq, row),
        2 => add_operator(seq, row),
        3 => add_constant(seq, row),
        4 => add_variable(seq, row),
        5 => add_table(seq, row),
        6 => add_memory(seq, row),
        7 => add_atomic(seq, row),
        8 => add_reference(seq, row),
        9 => add_structure(seq, row),
        10 => add_array(seq, row),
        _ => add_holder(alloc, seq, row, word),
    }
}
