//! Rows of what is read: a set of features (`own` are those that a reader has by itself), the place of the first byte, the bytes (two digits
//! each, `-` is none), and then steps, each followed by what it has to tell: the value that is read, or the fault (its kind, with how many
//! bytes are missing or the feature that is off, and its place). Types are in words as in the text format, without its parentheses. The
//! step `.` asks that the bytes are at their end. What stands in parentheses is a remark.

/// From the Core Specification, its proposals, and worked by hand.
pub const ROWS: &str =
    "(LEB128 numbers at and one past each bound, padded as far as their width allows and further, and cut short: Core Specification, binary format, values)
own 9 7f var-u32 127 .
own 9 8000 var-u32 0 .
own 9 e58e26 var-u32 624485 .
own 9 00 var-u32 0 .
own 9 8080808000 var-u32 0 .
own 9 ffffffff0f var-u32 4294967295 .
own 9 8080808010 var-u32 large 13
own 9 ffffffff7f var-u32 large 13
own 9 808080808000 var-u32 long 13
own 9 8080808080 var-u32 long 13
own 9 80808080 var-u32 end 1 13
own 9 - var-u32 end 1 9
own 9 00 var-u64 0 .
own 9 80808080808080808000 var-u64 0 .
own 9 ffffffffffffffffff01 var-u64 18446744073709551615 .
own 9 80808080808080808002 var-u64 large 18
own 9 ffffffffffffffffff7f var-u64 large 18
own 9 ffffffffffffffffff8100 var-u64 long 18
own 9 808080808080808080 var-u64 end 1 18
own 9 - var-u64 end 1 9
own 9 7f var-i32 -1 .
own 9 3f var-i32 63 .
own 9 40 var-i32 -64 .
own 9 c0bb78 var-i32 -123456 .
own 9 8080808078 var-i32 -2147483648 .
own 9 ffffffff07 var-i32 2147483647 .
own 9 8080808000 var-i32 0 .
own 9 ffffffff7f var-i32 -1 .
own 9 ffffffff77 var-i32 large 13
own 9 8080808008 var-i32 large 13
own 9 ffffffff4f var-i32 large 13
own 9 ffffffffff7f var-i32 long 13
own 9 ffffffff var-i32 end 1 13
own 9 - var-i32 end 1 9
own 9 8080808070 var-s33 -4294967296 .
own 9 ffffffff0f var-s33 4294967295 .
own 9 8080808000 var-s33 0 .
own 9 ffffffff7f var-s33 -1 .
own 9 ffffffff6f var-s33 long 13
own 9 8080808010 var-s33 long 13
own 9 ffffffff4f var-s33 long 13
own 9 ffffffffff7f var-s33 long 13
own 9 80808080 var-s33 end 1 13
own 9 - var-s33 end 1 9
own 9 8080808080808080807f var-i64 -9223372036854775808 .
own 9 ffffffffffffffffff00 var-i64 9223372036854775807 .
own 9 80808080808080808000 var-i64 0 .
own 9 ffffffffffffffffff7f var-i64 -1 .
own 9 ffffffffffffffffff7e var-i64 large 18
own 9 80808080808080808001 var-i64 large 18
own 9 ffffffffffffffffff3f var-i64 large 18
own 9 ffffffffffffffffffff7f var-i64 long 18
own 9 808080808080808080 var-i64 end 1 18
own 9 - var-i64 end 1 9
own 5 80 u7 byte 5
(Fixed widths, names, windows, vecs and places. No UTF-8, a name that is cut short, and one past the limit; a second list past its limit, and vecs of too many numbers and of too few bytes)
own 0 0061736d010000000b u32 1836278016 u64 end 3 4 bytes 4 01000000 last peek 11 u7 11 .
own 0 0000803f f32 1065353216 . (1.0)
own 0 000000000000f03f f64 4607182418800017408 . (1.0)
own 100 046e616d6503e282ac string 6e616d65 unlimited-string e282ac place 109 .
own 0 046e616d65 skipped-string .
own 7 a08d06 name-size 100000 . (the longest)
mvp 1000 0280017f window from 1001 to 1003 features mvp u8 128 rest-from 1002 bytes 3 end 2 1002
mvp 1000 0280017f past window read 3 left 1 rest-place 1003 u8 127 .
own 1000 0280017f window from 1001 to 1003 features all u8 128 rest-from 1002 bytes 3 end 2 1002
own 0 0280017f set-features mvp skipped bytes 3 028001 .
own 0 0280017f set-features mvp past skipped read 3 back . place 7
own 0 800102e282ac value-u32 128 rest-text utf8 3
own 0 03e282ac text e282ac .
own 7 02030a8001000001 vec-of-vecs 2 3 10 128 0 0 place 14 u8 1 .
own 0 030586010708 one-by-one 3 5 5 134 7 none none read 5 left 1 u8 8 .
own 0 030586010708 one-by-one 3 1 5 read 5 left 1 u8 8 . (dropped early)
own 4 0380808080100102 one-by-one 100 2 large 9 none read 6 left 2 u8 1 u8 2 .
own 4 03050607 one-by-one 2 0 limit 4 from 4 to 8 left-at-most 4
own 100 02e282ac string utf8 101
own 100 056e616d65 string end 1 101
own 100 a18d06 string limit 100
own 100 02e282ac skipped-string utf8 101
own 100 056e616d65 skipped-string end 1 101
own 100 a18d06 skipped-string limit 100
own 7 02030a8001000401 vec-of-vecs limit 13
own 7 8300000000 vec-of-u32 2 limit 7
own 7 83000102 vec-of-u32 3 end 1 11
(Heap types, reference types and value types, shared ones too: Core Specification, binary format, types. The nullable reference to an abstract type has two spellings)
mvp 11 7f value i32 .
mvp 11 7e value i64 .
mvp 11 7d value f32 .
mvp 11 7c value f64 .
mvp 11 7b value v128 .
own 0 70 abstract func .
own 11 70 constant FUNCREF .
own 11 6370 constant FUNCREF .
own 11 6470 constant FUNC .
own 11 6570 reference null shared func .
own 11 646570 reference ref shared func .
own 0 6f abstract extern .
own 11 6f constant EXTERNREF .
own 11 636f constant EXTERNREF .
own 11 646f constant EXTERN .
own 11 656f reference null shared extern .
own 11 64656f reference ref shared extern .
own 0 6e abstract any .
own 11 6e constant ANYREF .
own 11 636e constant ANYREF .
own 11 646e constant ANY .
own 11 656e reference null shared any .
own 11 64656e reference ref shared any .
own 0 71 abstract none .
own 11 71 constant NULLREF .
own 11 6371 constant NULLREF .
own 11 6471 constant NONE .
own 11 6571 reference null shared none .
own 11 646571 reference ref shared none .
own 0 72 abstract noextern .
own 11 72 constant NULLEXTERNREF .
own 11 6372 constant NULLEXTERNREF .
own 11 6472 constant NOEXTERN .
own 11 6572 reference null shared noextern .
own 11 646572 reference ref shared noextern .
own 0 73 abstract nofunc .
own 11 73 constant NULLFUNCREF .
own 11 6373 constant NULLFUNCREF .
own 11 6473 constant NOFUNC .
own 11 6573 reference null shared nofunc .
own 11 646573 reference ref shared nofunc .
own 0 6d abstract eq .
own 11 6d constant EQREF .
own 11 636d constant EQREF .
own 11 646d constant EQ .
own 11 656d reference null shared eq .
own 11 64656d reference ref shared eq .
own 0 6b abstract struct .
own 11 6b constant STRUCTREF .
own 11 636b constant STRUCTREF .
own 11 646b constant STRUCT .
own 11 656b reference null shared struct .
own 11 64656b reference ref shared struct .
own 0 6a abstract array .
own 11 6a constant ARRAYREF .
own 11 636a constant ARRAYREF .
own 11 646a constant ARRAY .
own 11 656a reference null shared array .
own 11 64656a reference ref shared array .
own 0 6c abstract i31 .
own 11 6c constant I31REF .
own 11 636c constant I31REF .
own 11 646c constant I31 .
own 11 656c reference null shared i31 .
own 11 64656c reference ref shared i31 .
own 0 69 abstract exn .
own 11 69 constant EXNREF .
own 11 6369 constant EXNREF .
own 11 6469 constant EXN .
own 11 6569 reference null shared exn .
own 11 646569 reference ref shared exn .
own 0 74 abstract noexn .
own 11 74 constant NULLEXNREF .
own 11 6374 constant NULLEXNREF .
own 11 6474 constant NOEXN .
own 11 6574 reference null shared noexn .
own 11 646574 reference ref shared noexn .
own 11 6400 reference ref 0 .
own 11 63ac02 reference null 300 .
own 11 6405 reference ref 5 .
own 11 8000 heap 0 .
own 11 ffff3f heap 1048575 .
own 11 f07f heap byte 11 (a padded func)
own 11 6200 heap byte 11 (exact)
own 11 808080808000 heap long 15
all 11 - value end 1 11
all 11 63 value end 1 12
all 11 6380 value end 1 13
all 11 40 value byte 11
all 11 00 value byte 11
all 11 68 value byte 11
all 11 636500 value byte 13
all 11 6560 value byte 12
all 11 638080c000 value limit 12
usual 11 6570 value off shared 11
usual 11 636500 value off shared 12
floats 11 63 value off gc 11
floats 11 64 value off gc 11
floats 11 6e value off gc 11
floats 11 71 value off gc 11
floats 11 72 value off gc 11
floats 11 73 value off gc 11
floats 11 6d value off gc 11
floats 11 6b value off gc 11
floats 11 6a value off gc 11
floats 11 6c value off gc 11
floats 11 74 value off gc 11
floats 11 70 value null func .
floats 11 6f value null extern .
floats 11 69 value null exn .
(Fields, composite types, subtypes, and types that are made anew of what is read: Core Specification, binary format, types)
own 11 78 storage i8 .
own 11 77 storage i16 .
own 11 7e storage i64 .
own 11 78 unpacked yes i32 .
own 11 77 unpacked yes i32 .
own 11 7e unpacked no i64 .
own 11 7700 field const i16 .
own 11 7001 field mut null func .
own 11 7801 field mut i8 .
own 11 7700 array const i16 .
own 11 7001 array mut null func .
own 11 7801 array mut i8 .
own 11 027f7e017d function param i32 i64 result f32 .
own 11 027f007801 structure struct field const i32 field mut i8 .
own 11 017801 structure struct field mut i8 .
own 11 60017b00 composite func param v128 result .
own 11 65600000 composite shared func param result .
own 11 5f017801 composite struct field mut i8 .
own 11 5e7c005f016e01 composites < (an array and a structure)
own 11 5e7c005f016e01 composite array const f64 composite struct field mut null any .
own 11 4f00600000 subtype final func param result .
own 11 5000600000 subtype open func param result .
own 11 4f01075f00 subtype final sub 7 struct .
own 11 600000 subtype final func param result .
own 11 4f00600000600000 subtypes = .
own 11 5e640501 subtype final array mut ref 5 .
own 11 017f00 made final func param i32 result .
own 11 017f00 made-shared final shared func param i32 result .
own 11 037e7d7e027c7f made final func param i64 f32 i64 result f64 i32 .
all 11 7f02 field byte 12
all 11 79 storage byte 11
all 11 5001808040600000 subtype limit 13 (a supertype past 20 bits)
all 11 5001ffff3f600000 subtype open sub 1048575 func param result . (and the last below)
all 11 5d00 subtype byte 11
all 11 50005000 subtype byte 13
all 11 656560 subtype byte 12
(Groups with the places of their types, with their indices changed in their order, and sections of them: Core Specification, binary format, recursive types)
own 11 600000 group single final func param result .
own 11 4e01600000 group rec 1 final func param result .
own 11 4e00 group rec 0 .
own 11 4e01600000600000 groups = .
own 11 4e00600000 groups < .
own 11 4e0260000050005f00 places 2 13 final func param result 16 open struct none .
own 11 4e0260000050005f00 types 2 final func param result open struct none .
own 11 4e0260016301005001015f01640100 renumbered 20 ok 2 final func param null 10 result open sub 11 struct field const ref 12 none .
own 11 4e0260016301005001015f01640100 renumbered 11 refused 11 2 final func param null 10 result open sub 1 struct field const ref 1 none .
own 10 026000004e025f005f00 section 4 single final func param result rec 2 final struct final struct none none
own 10 0160000000 section 3 single final func param result trailing 14 none (a byte is left over)
own 10 ffffffff0f section 2 end 1 15 none (more types than bytes)
own 10 8080808010 section large 14 (a count past 32 bits)
own 10 0560017f004e014f006000005f0050006000004e00 functions 6 param i32 result param result off gc 22 off gc 24 off gc 29 none
all 11 4effffffff0f group limit 12
all 11 60ffffffff0f group limit 12
all 11 60e907 group limit 12 (1001 parameters)
all 11 60e807 group end 1 14 (1000, of which the first is missing)
all 11 6000e907 group limit 13
all 11 5f914e group limit 12 (10001 fields)
all 11 4ec1843d group limit 12 (1000001 members)
all 11 50020000 group limit 12 (two supertypes)
all 11 4e014e00 group byte 13
all 11 - group end 1 11
no-gc 11 4e00 group off gc 11
no-gc 11 5000600000 group off gc 11
no-gc 11 4f00600000 group off gc 11
no-gc 11 5f00 group off gc 11
no-gc 11 5e7f00 group off gc 11
no-shared 11 65600000 group off shared 11
no-gc 11 600000 group single final func param result .
shared 11 65600000 group single final shared func param result .
(Whether an abstract type is below another)
own 0 716e below yes (none, any)
own 0 6c6d below yes (i31, eq)
own 0 6d6c below no (eq, i31)
own 0 7370 below yes (nofunc, func)
own 0 736e below no (nofunc, any)
own 0 6969 below yes (exn, exn)";
