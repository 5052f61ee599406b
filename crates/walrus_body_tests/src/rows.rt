//! The rows: words with a blank between them, and a row a line, but for lines that begin with `//`. Bytes stand as two digits each,
//! `-` is none.

/// All rows, each behind its kind.
///
/// Bodies that are read: `SETTING START REFUSED BODY | WRITTEN PLACES SEGMENT`, or `! FAULT OFFSET`. The contents of the code section
/// begin at START, the body two bytes behind that, in a file with a data count (`counted`) or without one (`bare`; `wasm3`: with the
/// features of 3.0; `any`: beside some type for each handler). A body is its bytes, or so many blocks inside one another with what stands
/// behind `*` in the innermost. The validator refuses what stands at REFUSED, or nothing. `=` is the body that was read. Places are those
/// of the operators in what was read, and behind `/` in what is written where they are other ones; or `#` and how many there are. Behind
/// `types` stand those of the sequences once the handlers are given theirs.
pub(crate) const ROWS: &str = "// `nop` is left out.
counted 27 0 00010b | 000b 4/3 -
// An `if` gets an `else`, which has no place.
counted 27 0 00410104400b0b | 0041010440050b0b 3,5,7,8/9 -
// Of two locals the second is used.
counted 27 0 02017f017e20011a0b | 01017e20001a0b 7/5,9/7,10/8 -
// Dead code is left out.
counted 27 0 000f41071a0b | 000f0b 3,7/4 -
// A call behind a tail call stays.
counted 27 0 00120010000b | = 3,5,7 -
// What follows a branch out of a block is left out up to its end.
counted 27 0 0002400c000141071a0b41081a0b | 0002400c000b41081a0b 3,5,11/7,12/8,14/10,15/11 -
// A data segment that is named stays so, and a handler of a legacy `try` has its type.
counted 27 0 00fc09000b | = 3,6 0
counted 27 0 00067f410107000b1a0b | = 3,5,7,9,10,11 -
// Nothing.
counted 27 0 000b | = 3 -
// Branches of each kind that may go on, out of a loop and back to its beginning; a `delegate`, which has no place, to the outer `try`,
// whose handler throws again.
counted 27 0 0003400d00d501d600fb1900016e6bfb1901006e6bfb1802006e6b0b0640064018001909000b0b | = 3,5,7,9,11,17,23,29,30,32,36,37,39,40 -
// Labels in a list, clauses in a list.
counted 27 0 00024041000e0100010b0b | = 3,5,7,11,12 -
counted 27 0 001f400200000002000b0b | = 3,11,12 -
// A `select` of one type, a cast from any reference to a structure that branches.
counted 27 0 001c017f0b | = 3,6 -
counted 27 0 00fb1803006e6b0b | = 3,9 -
// if (br 1) else (drop; br_if 0) end, drop, end
counted 27 0 0004400c01051a0d000b1a0b | = #8 -
// try (try delegate 0) catch 0 (rethrow 0) catch_all end, try_table (catch 0 0, catch_all 0) (br 1) end, end
counted 27 0 0006400640180007000900190b1f400200000002000c010b0b | = #11 -
// A global is read and written, and a function called; constants, of which the last have the bits 01020304 and 8000000001020304.
counted 27 0 00230024001000413f41c000414041bf7f427f43040302014404030201000000800b | = #11 -
// Accesses to memory, and numeric instructions, the lane being 3.
counted 27 0 002802ac02fe1702006afd1b030b | = #5 -
// Deep nests: an empty one; a branch out of the body by a label of one byte, and of two.
counted 27 0 100000* | = #200001 -
counted 27 0 127*0c7f | = #256 -
counted 27 0 128*0c8001 | = #258 -
// A local that isn't there, behind a `return`; a data segment in a file without a data count.
bare 27 0 000f20000b ! 6 31
bare 32 0 00fc09000b ! 11 35
// A legacy `try` that is switched off; a null of a heap type whose number is negative, its first byte that of no abstract type; a block
// type that has no pick.
wasm3 36 0 00067f410107000b1a0b ! 12 39
bare 27 0 00d0f07f1a0b ! 1 31
bare 43 0 00067f410107000b02020b1a0b ! 7 53
// More locals than there may be, before their type; a block that isn't closed; an operator behind the end.
bare 27 0 01ffffffff0f7f0b ! 16 30
bare 27 0 0002400b ! 1 33
bare 27 0 000b010b ! 10 31
// A label of a list that names nothing, a `delegate` to its own `try`; a `select` of two types.
bare 27 0 000e0100010b ! 6 30
bare 27 0 00064018010b ! 6 32
bare 27 0 001c027f7f0b ! 13 30
// Two locals, and `i32.const 1 drop return nop end`: the run stands at 30, the operators at 32, 34, 35, 36 and 37, the end at 38. The
// validator is told of these, of what is dropped behind a `return`, too, but not of immediates and of the counts in front of runs.
bare 27 30 01027f41011a0f010b ! 19 -
bare 27 32 01027f41011a0f010b ! 19 -
bare 27 34 01027f41011a0f010b ! 19 -
bare 27 35 01027f41011a0f010b ! 19 -
bare 27 36 01027f41011a0f010b ! 19 -
bare 27 37 01027f41011a0f010b ! 19 -
bare 27 38 01027f41011a0f010b ! 19 -
bare 27 29 01027f41011a0f010b | 0041011a0f0b 5/3,7/5,8/6,10/7 -
bare 27 31 01027f41011a0f010b | 0041011a0f0b 5/3,7/5,8/6,10/7 -
bare 27 33 01027f41011a0f010b | 0041011a0f0b 5/3,7/5,8/6,10/7 -
bare 27 39 01027f41011a0f010b | 0041011a0f0b 5/3,7/5,8/6,10/7 -
// Two handlers of one tag share the type that is added; that of all tags has the short one.
any 27 0 00067f4101070007001941020b1a0b | types -,i32,2,2,i32";
