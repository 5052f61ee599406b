//! The rows: words with a blank between them, and a row a line, but for lines that begin with `//`.
//!
//! An instruction is the name of its form (`FORMS` of `forms`), and what is in its fields in their order behind commas: numbers of ids, names of types, of a
//! place in memory the alignment and the offset. Labels, handlers and clauses come last, those of a `try` and a `try_table` as a kind, a tag and a label behind
//! colons.

/// Each form of instruction once, and behind `|` what it names, by the table of operators in the order of its fields. A count, a lane, a depth, an offset
/// or the number of a field is no id and has no word; nor has a sequence that is held.
pub const FORMS: &str = "block,1
loop,2
if_else,3,4
try,5,catch:0:6,all:7,delegate:0 | tag
try_table,8,catch:0:0,ref:0:0,all:0,all_ref:0 | tag label tag label label label
br_table,5,8,3 | label label label
unreachable
br,3 | label
br_if,3 | label
br_on_null,3 | label
br_on_non_null,3 | label
return
throw,3 | tag
throw_ref
rethrow,3
br_on_cast,3,5,7 | label type type
br_on_cast_fail,3,5,7 | label type type
call,3 | function
call_indirect,3,5 | type table
call_ref,3 | type
return_call,3 | function
return_call_indirect,3,5 | type table
return_call_ref,3 | type
drop
select,3 | type
v128_const,17 | value
unop_popcnt
binop_rotr
tern_op_nmadd
i64_add128
i64_sub128
v128_bitselect
i8x16_swizzle
i8x16_shuffle,7,24
local_get,3 | local
local_set,3 | local
local_tee,3 | local
global_get,3 | global
global_set,3 | global
table_get,3 | table
table_set,3 | table
table_grow,3 | table
table_size,3 | table
table_fill,3 | table
table_init,3,5 | table element
elem_drop,3 | element
table_copy,3,5 | table table
load_f64,3,8,4096 | memory
store_v128,3,8,4096 | memory
load_simd_lane,3,8,4096 | memory
memory_size,3 | memory
memory_grow,3 | memory
memory_init,3,5 | memory data
data_drop,3 | data
memory_copy,3,5 | memory memory
memory_fill,3 | memory
atomic_rmw_xchg,3,8,4096 | memory
cmpxchg_i64_16,3,8,4096 | memory
atomic_notify,3,8,4096 | memory
atomic_wait_64,3,8,4096 | memory
atomic_fence
ref_null,3 | type
ref_is_null
ref_func,3 | function
ref_eq
ref_as_non_null
ref_test,5 | type
ref_cast,7 | type
ref_i31
i31_get_s
i31_get_u
any_convert_extern
extern_convert_any
struct_new,3 | type
struct_new_default,3 | type
struct_get,3,5 | type
struct_get_s,3,5 | type
struct_get_u,3,5 | type
struct_set,3,5 | type
array_new,3 | type
array_new_default,3 | type
array_new_fixed,3,5 | type
array_new_data,3,5 | type data
array_new_elem,3,5 | type element
array_init_data,3,5 | type data
array_init_elem,3,5 | type element
array_get,3 | type
array_get_s,3 | type
array_get_u,3 | type
array_set,3 | type
array_len
array_fill,3 | type
array_copy,3,5 | type type";

/// The same of types that name no id, of two clauses, and of lists whose items differ.
pub const MORE: &str = "select,i32
br_on_cast,0,anyref,0 | label type
try_table,8,ref:0:0,all:0 | tag label label
select,i64
br_on_cast,3,externref,i31ref | label
br_on_cast_fail,3,externref,i31ref | label
ref_null,funcref
ref_test,funcref
ref_cast,funcref
br_table,2,3,1 | label label label
try_table,8,catch:6:3,ref:6:3,all:3,all_ref:3 | tag label tag label label label
try,8,catch:6:3,all:3,delegate:4 | tag";

/// Bodies that are filled by steps: `built`, the type of the body's own sequence, the steps, and behind `|` the sequences, as they are and copied: how
/// many, and behind each `;` the number, type (with the location of the `end`) and instructions of one.
///
/// Types of sequences are `-` of none, `#` and the number of a type, or one result. A step is an instruction, with a location behind `@` if it has one, which is
/// added to the sequence at hand: the body's own, or what `in=` names. Others there are `block=`, `loop=` and `if=`, with a type and the constants that fill them,
/// and the same with `_at` and a position; `refused`, a block whose closure fails; `at=` a position and `list=` with a location, and an instruction. `type=`,
/// `end=` and `push=` write the sequence as it is lent, and `fill=` gives it the instructions of the body's own, and an `end`. `seq=` adds a sequence of a type,
/// `seqs=` so many, and `nest` 100,000 blocks, each in the one before, of which the last is at hand then.
pub const BUILT: &str = "// Constants, whose floats are their bits.
built - i32_const,-7 i64_const,-8 f32_const,2143289345 f64_const,9 | 1; 0 - i32_const,-7 i64_const,-8 f32_const,2143289345 f64_const,9
// Blocks with what fills them, at the end and before.
built - drop block=i64,1 loop=-,2 if=i64,3,4 block_at=1,-,5 loop_at=0,i64,6 if_at=0,-,7,8 | 9; 0 - if_else,7,8 loop,6 drop block,5 block,1 loop,2 if_else,3,4; 1 i64 i32_const,1; 2 - i32_const,2; 3 i64 i32_const,3; 4 i64 i32_const,4; 5 - i32_const,5; 6 i64 i32_const,6; 7 - i32_const,7; 8 - i32_const,8
built - block=-,2 loop=-,3 if=-,4,5 | 5; 0 - block,1 loop,2 if_else,3,4; 1 - i32_const,2; 2 - i32_const,3; 3 - i32_const,4; 4 - i32_const,5
// Instructions at positions.
built - drop return at=1,array_len at=3,ref_eq | 1; 0 - drop array_len return ref_eq
// A block that is refused leaves the sequence with what is before it.
built - drop refused | any; 0 - drop
// A sequence that is added is empty and stands apart.
built - seq=f32 | 2; 0 -; 1 f32
built - seq=f32 in=1 return | 2; 0 -; 1 f32 return
// What is pushed to the list stands behind what is called.
built - drop return list=5,ref_eq | 1; 0 - drop return ref_eq@5
// A part of a `try` that passes exceptions on.
built - seq=- try,1,delegate:4 | 2; 0 - try,1,delegate:4; 1 -
// A sequence that is lent, one that is filled, and one with locations.
built - seqs=2 in=1 type=i64 end=9 push=7,drop | 3; 0 -; 1 i64@9 drop@7; 2 -
built - seqs=2 drop@3 return@4 in=1 fill=5 | 3; 0 -; 1 -@5 drop@3 return@4; 2 -
built - seqs=2 in=1 drop@8 return ref_eq@6 | 3; 0 -; 1 - drop@8 return ref_eq@6; 2 -
// A branch to itself.
built - seqs=3 seq=f32 in=4 push=7,br,4 return end=9 | 5; 4 f32@9 br,4@7 return
// A name, each form once, and types without ids: see `table`.
names -
forms -
more -";

/// The same behind a walk that changes: the body, or as `listed` a list of copies. The walk adds 10 to functions, 20 to locals and 1 to constants, and puts
/// `unreachable` in place of `drop`.
pub const CHANGED: &str =
    "// What two sequences name, each where it stands; and in a list of copies.
changed - seq=- call,1 local_get,2 drop block,1 in=1 local_tee,2@7 return_call,1@7 drop@7 memory_size,3@7 | 2; 0 - call,11 local_get,22 unreachable block,1; 1 - local_tee,22@7 return_call,11@7 unreachable@7 memory_size,3@7
listed - seq=- call,1 local_get,2 drop block,1 in=1 local_tee,2@7 return_call,1@7 drop@7 memory_size,3@7 | 2; 0 - call,11 local_get,22 unreachable block,1; 1 - local_tee,22@7 return_call,11@7 unreachable@7 memory_size,3@7
// A sequence that two instructions hold is handed over twice, the second time as it was left.
changed - seq=- block,1 loop,1 in=1 i32_const,5 | 2; 0 - block,1 loop,1; 1 - i32_const,7";

/// What is told by the walk in `order`, the same over a `list` of sequences, that of a `body`, and that which is `changing`.
pub const TOLD: &str = "// A block that holds an `if`, and a legacy `try` with two handlers.
order - seqs=6 in=1 i32_const,4 drop in=2 i32_const,3 drop in=3 i32_const,2 drop in=4 i32_const,7 drop in=5 i32_const,8 drop in=6 i32_const,9 drop in=3 if_else,2,1 i32_const,5 drop in=0 i32_const,1 drop block,3 i32_const,6 drop try,4,catch:0:5,all:6 i32_const,10 drop | start 1 drop block start 2 drop if-else start 3 drop end start 4 drop end 5 drop end 6 drop try tag start 7 drop end start 8 drop end start 9 drop end 10 drop end
// A shared sequence is told of twice.
order - seq=- block,1 block,1 | start block start end block start end end
// Three blocks.
list - block=-,2 loop=-,3 if=-,4,5 | start block start 2 end start 3 end if-else start 4 end start 5 end end
order - block=-,2 loop=-,3 if=-,4,5 | start block start 2 end start 3 end if-else start 4 end start 5 end end
// Four blocks, each in the one before, and five in the last of them.
order - seqs=9 block,1 in=1 block,2 in=2 block,3 in=3 block,4 in=4 block,5 block,6 block,7 block,8 block,9 | start block start block start block start block start block start end block start end block start end block start end block start end end end end end end
// The type of the own sequence is told of by the walk of the sequence alone.
order #0 block=#0,2 drop | start type block start type 2 end drop end
body #0 block=#0,2 drop | start block start type 2 end drop end
// In the walk that changes a sequence is done before what it holds; what its last instruction holds comes first.
changing - seqs=6 in=1 i32_const,4 drop in=2 i32_const,3 drop in=3 i32_const,2 drop in=4 i32_const,7 drop in=5 i32_const,8 drop in=6 i32_const,9 drop in=3 if_else,2,1 i32_const,5 drop in=0 i32_const,1 drop block,3 i32_const,6 drop try,4,catch:0:5,all:6 i32_const,10 drop | start 1 drop block 6 drop try tag 10 drop end start 7 drop end start 8 drop end start 9 drop end start 2 drop if-else 5 drop end start 3 drop end start 4 drop end
changing - seqs=9 block,1 in=1 block,2 in=2 block,3 in=3 block,4 in=4 block,5 block,6 block,7 block,8 block,9 | start block end start block end start block end start block end start block block block block block end start end start end start end start end start end";

/// Whether the sequence of a number is a tree, only nests, or neither.
pub const TREES: &str = "// Empty, and a number that isn't there.
trees - seqs=3 | 0:tree 4:none
// Held by themselves, or by none.
trees - loop,0 | 0:none 7:none
trees - seqs=3 block,1 block,2 in=0 loop,0 | 0:none
trees - seqs=3 block,1 block,2 in=2 loop,0 | 0:none
trees - seqs=3 block,1 block,2 in=2 loop,2 | 0:none
trees - seqs=3 block,1 block,2 in=2 block,4 | 0:none
// What isn't reached isn't looked at.
trees - seqs=3 block,1 block,2 in=3 loop,3 | 0:tree
// Labels: itself, what is around it, what is beside it, what it holds, what isn't there.
trees - seqs=3 block,1 block,2 in=2 br,2 | 0:tree
trees - seqs=3 block,1 block,2 in=2 br_if,0 | 0:tree
trees - seqs=3 block,1 block,2 in=2 br,1 | 0:nests
trees - seqs=3 block,1 block,2 in=1 br_on_null,2 | 0:nests
trees - seqs=3 block,1 block,2 in=0 br_if,1 | 0:nests
trees - seqs=3 block,1 block,2 in=1 br,4 | 0:nests
trees - seqs=3 block,1 block,2 in=2 br_table,0,0,2 | 0:tree
trees - seqs=3 block,1 block,2 in=2 br_table,0,0,1 | 0:nests
trees - seqs=3 block,1 block,2 in=2 br_table,1,0,2 | 0:nests
// Arms of an `if`: what is beside them, and one that holds the other.
trees - seqs=3 if_else,1,2 in=1 br,1 | 0:tree
trees - seqs=3 if_else,1,2 in=1 br,2 | 0:nests
trees - seqs=3 if_else,1,2 in=2 br,1 | 0:nests
trees - seqs=3 if_else,1,2 in=2 block,1 | 0:nests
// A handler is inside what is around the `try`: with its own two frames are open.
trees - seqs=3 try,1,catch:0:2,all:3 in=3 rethrow,0 | 0:tree
trees - seqs=3 try,1,catch:0:2,all:3 in=3 rethrow,1 | 0:tree
trees - seqs=3 try,1,catch:0:2,all:3 in=3 rethrow,2 | 0:nests
trees - seqs=3 try,1,catch:0:2,all:3 in=3 br,1 | 0:nests
trees - seqs=3 try,1,catch:0:2,all:3 in=3 br,2 | 0:nests
trees - seqs=3 try,1,catch:0:2,all:3 in=1 loop,3 | 0:nests
// A sequence that is held twice: the body only nests, one of its sequences is a tree.
trees - seqs=3 block,1 in=1 block,3 in=0 if_else,2,3 | 0:nests 1:tree
// The frame of the `try` doesn't count for `delegate`: in a body one is open. Nothing stands behind it.
trees - seqs=3 try,1,delegate:0 | 0:tree
trees - seqs=3 try,1,delegate:1 | 0:nests
trees - seqs=3 try,1,all:2,delegate:0 | 0:tree
trees - seqs=3 try,1,delegate:0,all:2 | 0:nests
trees - seqs=3 try,1,delegate:0,delegate:0 | 0:nests
// Clauses: the own sequence of a `try_table` isn't around it.
trees - seqs=3 block,1 in=1 try_table,2,catch:0:0 | 0:tree
trees - seqs=3 block,1 in=1 try_table,2,all_ref:1 | 0:tree
trees - seqs=3 block,1 in=1 try_table,2,all:2 | 0:nests
trees - seqs=3 block,1 in=1 try_table,2,ref:0:3 | 0:nests";

/// The same of a nest of 100,000 blocks, which has 100,001 frames with the body's.
pub const NESTS: &str = "trees - nest br,0 | 0:tree
trees - nest rethrow,100000 | 0:tree
trees - nest rethrow,100001 | 0:nests";

/// The nest changed to its innermost sequence, and how many bytes are told of it: 100,001 times ` start` and ` end`, and 100,000 times ` block`.
pub const LONG: &str = "changed - nest i32_const,5 | 100001; 100000 - i32_const,6
length - nest | 1600010";

/// Constant expressions: whether they have a short form, and their operators.
pub const CONSTANTS: &str = "// In a short form where a single operator has one.
short i32_const:7
long i32_const:7,i32_const:8,i32_add
long i64_const:1,i64_const:2,i64_mul
long i32_const:7,v128_const:9,global_get:1,i32_add,ref_null:exact4,ref_func:2,ref_null:anyref,array_new_fixed:4:3
// Each other form alone.
short i32_const:-7
short i64_const:-8
short f32_const:9
short f64_const:10
short v128_const:11
short global_get:3
short ref_null:i31ref
short ref_func:3
long ref_i31";
