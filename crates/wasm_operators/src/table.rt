//! The table of operators: their entries by number.

ghost use Rattle.std.specs.Prelude.{◌≡◌, None, slice_index_or};
ghost use Rattle.wasm_operators.specs.Table.{find, find_byte, find_code, fb_rows, fc_rows, fd_rows, fe_rows};

use crate::entry::{Entry, Flow, Gate, Kind};

macro_rules! entry {
    ($gate:ident, $kind:ident, $flow:ident) => {
        Some(Entry {
            gate: Gate::$gate,
            kind: Kind::$kind,
            flow: Flow::$flow,
        })
    };
}

// Of an operator that is always on, and after which a run goes on or traps.
macro_rules! plain {
    ($kind:ident) => {
        entry!(Always, $kind, Goes)
    };
}

const NONE: Option<Entry> = None;

const TRAP: Option<Entry> = entry!(Always, Bare, Traps);

const NOP: Option<Entry> = entry!(Always, Bare, Passes);

const BLOCK: Option<Entry> = entry!(Always, Block, OpensBlock);

const LOOP: Option<Entry> = entry!(Always, Block, OpensLoop);

const IF: Option<Entry> = entry!(Always, Block, OpensIf);

const ELSE: Option<Entry> = entry!(Always, Bare, Else);

const TRY: Option<Entry> = entry!(LegacyExceptions, Block, OpensTry);

const CATCH: Option<Entry> = entry!(LegacyExceptions, Tag, Catch);

const THROW: Option<Entry> = entry!(Always, Tag, Throws);

const RETHROW: Option<Entry> = entry!(LegacyExceptions, Label, Throws);

const THROW_REF: Option<Entry> = entry!(Always, Bare, ThrowsOrTraps);

const END: Option<Entry> = entry!(Always, Bare, End);

const BR: Option<Entry> = entry!(Always, Label, Branches);

const BR_IF: Option<Entry> = entry!(Always, Label, Chooses);

const BR_TABLE: Option<Entry> = entry!(Always, BrTable, Selects);

const RETURN: Option<Entry> = entry!(Always, Bare, Returns);

const CALL: Option<Entry> = entry!(Always, Function, Calls);

const CALL_TABLE: Option<Entry> = entry!(Always, TypeTable, CallsIndirectly);

const TAIL_CALL: Option<Entry> = entry!(Always, Function, TailCalls);

const TAIL_TABLE: Option<Entry> = entry!(Always, TypeTable, TailCallsIndirectly);

const CALL_REF: Option<Entry> = entry!(Always, Type, CallsIndirectly);

const TAIL_REF: Option<Entry> = entry!(Always, Type, TailCallsIndirectly);

const DELEGATE: Option<Entry> = entry!(LegacyExceptions, Label, Delegate);

const CATCH_ALL: Option<Entry> = entry!(LegacyExceptions, Bare, CatchAll);

const BARE: Option<Entry> = plain!(Bare);

const SELECT: Option<Entry> = plain!(Select);

const TRY_TABLE: Option<Entry> = entry!(Always, TryTable, OpensTryTable);

const LOCAL: Option<Entry> = plain!(Local);

const GLOBAL: Option<Entry> = plain!(Global);

const TABLE: Option<Entry> = plain!(Table);

const ACCESS: Option<Entry> = plain!(Access);

const MEMORY: Option<Entry> = plain!(Memory);

const I32: Option<Entry> = plain!(I32);

const I64: Option<Entry> = plain!(I64);

const F32: Option<Entry> = plain!(F32);

const F64: Option<Entry> = plain!(F64);

const HEAP: Option<Entry> = plain!(Heap);

const FUNC: Option<Entry> = plain!(Function);

const TYPE: Option<Entry> = plain!(Type);

const TYPE_U32: Option<Entry> = plain!(TypeNumber);

const TYPE_DATA: Option<Entry> = plain!(TypeData);

const TYPE_ELEM: Option<Entry> = plain!(TypeElement);

const TYPE_TYPE: Option<Entry> = plain!(TypeType);

const CAST: Option<Entry> = entry!(Always, Cast, Chooses);

const DATA_MEM: Option<Entry> = plain!(DataMemory);

const DATA: Option<Entry> = plain!(Data);

const MEM_MEM: Option<Entry> = plain!(MemoryMemory);

const ELEM_TABLE: Option<Entry> = plain!(ElementTable);

const ELEM: Option<Entry> = plain!(Element);

const TABLES: Option<Entry> = plain!(TableTable);

const WIDE: Option<Entry> = entry!(WideArithmetic, Bare, Goes);

const VECTOR: Option<Entry> = plain!(Vector);

const LANE: Option<Entry> = plain!(Lane);

const ACC_LANE: Option<Entry> = plain!(AccessLane);

const ZERO: Option<Entry> = plain!(Zero);

// Of bytes.
static BYTES: [Option<Entry>; 215] = [
    TRAP, NOP, BLOCK, LOOP, IF, ELSE, TRY, CATCH, THROW, RETHROW, THROW_REF, END, BR, BR_IF,
    BR_TABLE, RETURN, CALL, CALL_TABLE, TAIL_CALL, TAIL_TABLE, CALL_REF, TAIL_REF, NONE, NONE,
    DELEGATE, CATCH_ALL, BARE, BARE, SELECT, NONE, NONE, TRY_TABLE, LOCAL, LOCAL, LOCAL, GLOBAL,
    GLOBAL, TABLE, TABLE, NONE, ACCESS, ACCESS, ACCESS, ACCESS, ACCESS, ACCESS, ACCESS, ACCESS,
    ACCESS, ACCESS, ACCESS, ACCESS, ACCESS, ACCESS, ACCESS, ACCESS, ACCESS, ACCESS, ACCESS, ACCESS,
    ACCESS, ACCESS, ACCESS, MEMORY, MEMORY, I32, I64, F32, F64, BARE, BARE, BARE, BARE, BARE, BARE,
    BARE, BARE, BARE, BARE, BARE, BARE, BARE, BARE, BARE, BARE, BARE, BARE, BARE, BARE, BARE, BARE,
    BARE, BARE, BARE, BARE, BARE, BARE, BARE, BARE, BARE, BARE, BARE, BARE, BARE, BARE, BARE, BARE,
    BARE, BARE, BARE, BARE, BARE, BARE, BARE, BARE, BARE, BARE, BARE, BARE, BARE, BARE, BARE, BARE,
    BARE, BARE, BARE, BARE, BARE, BARE, BARE, BARE, BARE, BARE, BARE, BARE, BARE, BARE, BARE, BARE,
    BARE, BARE, BARE, BARE, BARE, BARE, BARE, BARE, BARE, BARE, BARE, BARE, BARE, BARE, BARE, BARE,
    BARE, BARE, BARE, BARE, BARE, BARE, BARE, BARE, BARE, BARE, BARE, BARE, BARE, BARE, BARE, BARE,
    BARE, BARE, BARE, BARE, BARE, BARE, BARE, BARE, BARE, BARE, BARE, BARE, BARE, BARE, BARE, BARE,
    BARE, BARE, BARE, BARE, BARE, BARE, BARE, BARE, BARE, BARE, NONE, NONE, NONE, NONE, NONE, NONE,
    NONE, NONE, NONE, NONE, NONE, HEAP, BARE, FUNC, BARE, BARE, BR_IF, BR_IF,
];

// Behind fb: garbage-collected objects.
static OBJECTS: [Option<Entry>; 31] = [
    TYPE, TYPE, TYPE_U32, TYPE_U32, TYPE_U32, TYPE_U32, TYPE, TYPE, TYPE_U32, TYPE_DATA, TYPE_ELEM,
    TYPE, TYPE, TYPE, TYPE, BARE, TYPE, TYPE_TYPE, TYPE_DATA, TYPE_ELEM, HEAP, HEAP, HEAP, HEAP,
    CAST, CAST, BARE, BARE, BARE, BARE, BARE,
];

// Behind fc: saturating conversions, bulk operators and wide arithmetic.
static BULK: [Option<Entry>; 23] = [
    BARE, BARE, BARE, BARE, BARE, BARE, BARE, BARE, DATA_MEM, DATA, MEM_MEM, MEMORY, ELEM_TABLE,
    ELEM, TABLES, TABLE, TABLE, TABLE, NONE, WIDE, WIDE, WIDE, WIDE,
];

// Behind fd: vectors.
static VECTORS: [Option<Entry>; 276] = [
    ACCESS, ACCESS, ACCESS, ACCESS, ACCESS, ACCESS, ACCESS, ACCESS, ACCESS, ACCESS, ACCESS, ACCESS,
    VECTOR, VECTOR, BARE, BARE, BARE, BARE, BARE, BARE, BARE, LANE, LANE, LANE, LANE, LANE, LANE,
    LANE, LANE, LANE, LANE, LANE, LANE, LANE, LANE, BARE, BARE, BARE, BARE, BARE, BARE, BARE, BARE,
    BARE, BARE, BARE, BARE, BARE, BARE, BARE, BARE, BARE, BARE, BARE, BARE, BARE, BARE, BARE, BARE,
    BARE, BARE, BARE, BARE, BARE, BARE, BARE, BARE, BARE, BARE, BARE, BARE, BARE, BARE, BARE, BARE,
    BARE, BARE, BARE, BARE, BARE, BARE, BARE, BARE, BARE, ACC_LANE, ACC_LANE, ACC_LANE, ACC_LANE,
    ACC_LANE, ACC_LANE, ACC_LANE, ACC_LANE, ACCESS, ACCESS, BARE, BARE, BARE, BARE, BARE, BARE,
    BARE, BARE, BARE, BARE, BARE, BARE, BARE, BARE, BARE, BARE, BARE, BARE, BARE, BARE, BARE, BARE,
    BARE, BARE, BARE, BARE, BARE, BARE, BARE, BARE, BARE, BARE, BARE, BARE, BARE, BARE, BARE, BARE,
    BARE, BARE, BARE, BARE, BARE, BARE, BARE, BARE, BARE, BARE, BARE, BARE, BARE, BARE, BARE, BARE,
    BARE, BARE, BARE, BARE, BARE, BARE, NONE, BARE, BARE, BARE, BARE, BARE, BARE, BARE, NONE, BARE,
    BARE, NONE, NONE, BARE, BARE, BARE, BARE, BARE, BARE, BARE, BARE, NONE, NONE, BARE, NONE, NONE,
    NONE, BARE, BARE, BARE, BARE, BARE, BARE, NONE, BARE, BARE, BARE, BARE, BARE, BARE, NONE, BARE,
    BARE, NONE, NONE, BARE, BARE, BARE, BARE, BARE, BARE, BARE, BARE, NONE, NONE, BARE, NONE, NONE,
    NONE, BARE, BARE, BARE, BARE, BARE, BARE, BARE, BARE, BARE, BARE, BARE, BARE, BARE, NONE, BARE,
    BARE, BARE, BARE, BARE, BARE, BARE, BARE, BARE, BARE, BARE, NONE, BARE, BARE, BARE, BARE, BARE,
    BARE, BARE, BARE, BARE, BARE, BARE, BARE, BARE, BARE, BARE, BARE, BARE, BARE, BARE, BARE, BARE,
    BARE, BARE, BARE, BARE, BARE, BARE, BARE, BARE, BARE, BARE, BARE, BARE, BARE, BARE, BARE, BARE,
];

// Behind fe: atomic operators.
static ATOMICS: [Option<Entry>; 79] = [
    ACCESS, ACCESS, ACCESS, ZERO, NONE, NONE, NONE, NONE, NONE, NONE, NONE, NONE, NONE, NONE, NONE,
    NONE, ACCESS, ACCESS, ACCESS, ACCESS, ACCESS, ACCESS, ACCESS, ACCESS, ACCESS, ACCESS, ACCESS,
    ACCESS, ACCESS, ACCESS, ACCESS, ACCESS, ACCESS, ACCESS, ACCESS, ACCESS, ACCESS, ACCESS, ACCESS,
    ACCESS, ACCESS, ACCESS, ACCESS, ACCESS, ACCESS, ACCESS, ACCESS, ACCESS, ACCESS, ACCESS, ACCESS,
    ACCESS, ACCESS, ACCESS, ACCESS, ACCESS, ACCESS, ACCESS, ACCESS, ACCESS, ACCESS, ACCESS, ACCESS,
    ACCESS, ACCESS, ACCESS, ACCESS, ACCESS, ACCESS, ACCESS, ACCESS, ACCESS, ACCESS, ACCESS, ACCESS,
    ACCESS, ACCESS, ACCESS, ACCESS,
];

// The entry of a number.
#[inline]
fn at(entries: &[Option<Entry>], number: u32) -> Option<Entry>
    ensures { result ≡ slice_index_or entries.now number None }
{
    match entries.get(number as usize) {
        Some(found) => *found,
        None => None,
    }
}

// Each table by a function of its own, so that a wrong entry breaks the proof of one of them alone.
#[inline]
fn of_byte(number: u32) -> Option<Entry>
    ensures { result ≡ find_byte number }
{
    at(&BYTES, number)
}

#[inline]
fn of_object(number: u32) -> Option<Entry>
    ensures { result ≡ find fb_rows number }
{
    at(&OBJECTS, number)
}

#[inline]
fn of_bulk(number: u32) -> Option<Entry>
    ensures { result ≡ find fc_rows number }
{
    at(&BULK, number)
}

#[inline]
fn of_vector(number: u32) -> Option<Entry>
    ensures { result ≡ find fd_rows number }
{
    at(&VECTORS, number)
}

#[inline]
fn of_atomic(number: u32) -> Option<Entry>
    ensures { result ≡ find fe_rows number }
{
    at(&ATOMICS, number)
}

// Of a number behind a prefix, where the prefix 0 stands for a byte alone.
#[inline]
pub(crate) fn code_entry(prefix: u8, number: u32) -> Option<Entry>
    ensures { result ≡ find_code prefix number }
{
    match prefix {
        0 => of_byte(number),
        0xfb => of_object(number),
        0xfc => of_bulk(number),
        0xfd => of_vector(number),
        0xfe => of_atomic(number),
        _ => None,
    }
}
