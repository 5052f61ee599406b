//! The rows, by the standard's tables of instructions: words with a space between them, and a row a line. Bytes stand as two digits each,
//! `-` is none. Codes are ranges: of one byte in hexadecimal where the prefix is 00, else of decimal numbers behind the prefix.

/// All rows, each with a first word that says what is asked, and behind each kind the sum of what it asks of: of operators, codes or rows.
///
/// - `code` are the codes of operators: a prefix, the first and the last code, the form of the immediates, and what pairing makes of them. Of
///   the form `unknown` are those that are no operator's, up to the number 400 behind a prefix. 575 codes stand with all immediates of
///   their forms.
/// - `fault`: which feature is off, the bytes, and the fault with the count of missing bytes and its place. Where what an operator needs is
///   off, the rest being on, the code is no operator's, and what follows isn't looked at. Of the faults: codes whose number is too long or
///   too large; a heap type whose number is negative, its first byte that of no abstract type; block types below zero that are no value
///   types; a handler's kind; flags of a cast; a fence; types before the table, whose index is too long; missing bytes of a float and a
///   vector; missing labels.
/// - `padded` numbers are read, and the shortest are written: of a memory 0 in so many words nothing, of a nullable abstract reference one
///   byte.
/// - `ids`: what indices name in the fields of instructions, index 130 being that of the largest id.
/// - `renumbered`: what is written where ids have the largest number: those of the data segments and locals of index 64.
/// - `missing`: codes of no operator, and some whose immediates are missing, have no instruction.
pub(crate) const ROWS: &str = "code 00 00 00 bare back
code 00 01 01 bare none
code 00 02 04 block none
code 00 05 05 bare none
code 00 06 06 block none
code 00 07 07 tag none
code 00 08 08 tag back
code 00 09 09 label none
code 00 0a 0a bare back
code 00 0b 0b bare none
code 00 0c 0d label none
code 00 0e 0e labels none
code 00 0f 0f bare back
code 00 10 10 function back
code 00 11 11 type-table back
code 00 12 12 function back
code 00 13 13 type-table back
code 00 14 15 type back
code 00 18 18 label none
code 00 19 19 bare none
code 00 1a 1b bare back
code 00 1c 1c values back
code 00 1f 1f handlers none
code 00 20 22 local back
code 00 23 24 global back
code 00 25 26 table back
code 00 28 3e access back
code 00 3f 40 memory back
code 00 41 41 i32 back
code 00 42 42 i64 back
code 00 43 43 f32 back
code 00 44 44 f64 back
code 00 45 c4 bare back
code 00 d0 d0 heap back
code 00 d1 d1 bare back
code 00 d2 d2 function back
code 00 d3 d4 bare back
code 00 d5 d6 label none
code fb 0 1 type back
code fb 2 5 type-number back
code fb 6 7 type back
code fb 8 8 type-number back
code fb 9 9 type-data back
code fb 10 10 type-element back
code fb 11 14 type back
code fb 15 15 bare back
code fb 16 16 type back
code fb 17 17 type-type back
code fb 18 18 type-data back
code fb 19 19 type-element back
code fb 20 23 heap back
code fb 24 25 cast none
code fb 26 30 bare back
code fc 0 7 bare back
code fc 8 8 data-memory back
code fc 9 9 data back
code fc 10 10 memory-memory back
code fc 11 11 memory back
code fc 12 12 element-table back
code fc 13 13 element back
code fc 14 14 table-table back
code fc 15 17 table back
code fc 19 22 bare back
code fd 0 11 access back
code fd 12 13 vector back
code fd 14 20 bare back
code fd 21 34 lane back
code fd 35 83 bare back
code fd 84 91 access-lane back
code fd 92 93 access back
code fd 94 153 bare back
code fd 155 161 bare back
code fd 163 164 bare back
code fd 167 174 bare back
code fd 177 177 bare back
code fd 181 186 bare back
code fd 188 193 bare back
code fd 195 196 bare back
code fd 199 206 bare back
code fd 209 209 bare back
code fd 213 225 bare back
code fd 227 237 bare back
code fd 239 275 bare back
code fe 0 2 access back
code fe 3 3 zero back
code fe 16 78 access back
sum 2116
code 00 16 17 unknown
code 00 1d 1e unknown
code 00 27 27 unknown
code 00 c5 cf unknown
code 00 d7 fa unknown
code 00 ff ff unknown
code fb 31 400 unknown
code fc 18 18 unknown
code fc 23 400 unknown
code fd 154 154 unknown
code fd 162 162 unknown
code fd 165 166 unknown
code fd 175 176 unknown
code fd 178 180 unknown
code fd 187 187 unknown
code fd 194 194 unknown
code fd 197 198 unknown
code fd 207 208 unknown
code fd 210 212 unknown
code fd 226 226 unknown
code fd 238 238 unknown
code fd 276 400 unknown
code fe 4 15 unknown
code fe 79 400 unknown
code fc 16383 16383 unknown
code fd 16000 16000 unknown
sum 1283
fault legacy 0640 unknown 0 11
fault - 0640 none 0 0
fault legacy 0700 unknown 0 11
fault - 0700 none 0 0
fault legacy 0900 unknown 0 11
fault - 0900 none 0 0
fault legacy 1800 unknown 0 11
fault - 1800 none 0 0
fault legacy 19 unknown 0 11
fault - 19 none 0 0
fault wide fc13 unknown 0 11
fault - fc13 none 0 0
fault wide fc14 unknown 0 11
fault - fc14 none 0 0
fault wide fc15 unknown 0 11
fault - fc15 none 0 0
fault wide fc16 unknown 0 11
fault - fc16 none 0 0
fault - - end 1 11
fault - fd end 1 12
fault - fc808080808000 long 0 16
fault - fc8080808010 large 0 16
fault - d0f07f bad 0 12
fault - 0250 bad 0 12
fault - 02c07f bad 0 12
fault - 1f400104 bad 0 14
fault - fb1804007070 bad 0 13
fault - fe0301 bad 0 13
fault - 1105808080808000 long 0 17
fault - 430000 end 2 12
fault - fd0c00 end 15 13
fault - 0effffffff0f00 end 1 18
sum 32
padded fc8000 fc00
padded 20818000 2001
padded 41ff7f 417f
padded 42c08000 42c000
padded 2842008000 280200
padded d08000 d000
padded 026370 0270
padded 1c8100636f 1c016f
padded 0e8100800001 0e010001
sum 9
ids 110100 201 600
ids 130100 201 600
ids fb090100 201 1600
ids fb0a0100 201 1400
ids fb110100 201 200
ids fb120100 201 1600
ids fb130100 201 1400
ids fc080100 1601 800
ids fc0a0001 800 801
ids fc0c0100 1401 600
ids fc0e0001 600 601
ids 1182018201 4294967295 4294967295
ids fb0982018201 4294967295 4294967295
ids fb0a82018201 4294967295 4294967295
ids fc0882018201 4294967295 4294967295
sum 15
renumbered fc0940 fc09ffffffff0f
renumbered 2040 20ffffffff0f
renumbered 2140 21ffffffff0f
renumbered 2240 22ffffffff0f
sum 4
missing fd 154
missing fd 226
missing fd 276
missing fe 3
missing 01 69
sum 5";

/// What follows the codes of each form: its bytes, and what pairing makes of it. `back` is an instruction that gives the same operator, where the code has
/// one; `none` is no instruction, and all else a refusal. The maps have 131 items of each space.
pub(crate) const IMMEDIATES: &str = "bare - back
zero 00 back
tag 00 back
tag 7f back
tag 8001 back
tag ffffffff0f no-tag
label 00 none
label 7f none
label 8001 none
label ffffffff0f none
function 00 back
function 7f back
function 8001 back
function ffffffff0f no-function
type 00 back
type 7f back
type 8001 back
type ffffffff0f no-type
local 00 back
local 7f back
local 8001 back
local ffffffff0f no-local
global 00 back
global 7f back
global 8001 back
global ffffffff0f no-global
table 00 back
table 7f back
table 8001 back
table ffffffff0f no-table
memory 00 back
memory 7f back
memory 8001 back
memory ffffffff0f no-memory
data 00 back
data 7f back
data 8001 back
data ffffffff0f no-data
element 00 back
element 7f back
element 8001 back
element ffffffff0f no-element
type-table 810100 back
type-table 81017f back
type-table 81018001 back
type-table 8101ffffffff0f no-table
type-table 0005 back
type-table 7f05 back
type-table 800105 back
type-table ffffffff0f05 no-type
data-memory 810100 back
data-memory 81017f back
data-memory 81018001 back
data-memory 8101ffffffff0f no-memory
data-memory 0005 back
data-memory 7f05 back
data-memory 800105 back
data-memory ffffffff0f05 no-data
memory-memory 810100 back
memory-memory 81017f back
memory-memory 81018001 back
memory-memory 8101ffffffff0f no-memory
memory-memory 0005 back
memory-memory 7f05 back
memory-memory 800105 back
memory-memory ffffffff0f05 no-memory
element-table 810100 back
element-table 81017f back
element-table 81018001 back
element-table 8101ffffffff0f no-table
element-table 0005 back
element-table 7f05 back
element-table 800105 back
element-table ffffffff0f05 no-element
table-table 810100 back
table-table 81017f back
table-table 81018001 back
table-table 8101ffffffff0f no-table
table-table 0005 back
table-table 7f05 back
table-table 800105 back
table-table ffffffff0f05 no-table
type-number 810100 back
type-number 81017f back
type-number 81018001 back
type-number 8101ffffffff0f back
type-number 0005 back
type-number 7f05 back
type-number 800105 back
type-number ffffffff0f05 no-type
type-data 810100 back
type-data 81017f back
type-data 81018001 back
type-data 8101ffffffff0f no-data
type-data 0005 back
type-data 7f05 back
type-data 800105 back
type-data ffffffff0f05 no-type
type-element 810100 back
type-element 81017f back
type-element 81018001 back
type-element 8101ffffffff0f no-element
type-element 0005 back
type-element 7f05 back
type-element 800105 back
type-element ffffffff0f05 no-type
type-type 810100 back
type-type 81017f back
type-type 81018001 back
type-type 8101ffffffff0f no-type
type-type 0005 back
type-type 7f05 back
type-type 800105 back
type-type ffffffff0f05 no-type
access 0000 back
access 1f7f back
access 3f8001 alignment
access 1fffffffffffffffffff01 back
access 800100 alignment
access bfffffff0f00 alignment
access 427f8001 back
access 5f80017f back
access 40ffffffff0f00 no-memory
access ffffffff0f0105 alignment
lane 00 back
lane 7f back
lane 80 back
lane ff back
access-lane 1f800100 back
access-lane 1f80017f back
access-lane 1f800180 back
access-lane 1f8001ff back
access-lane 437f0700 back
access-lane 437f077f back
access-lane 437f0780 back
access-lane 437f07ff back
access-lane 83010700 alignment
access-lane 8301077f alignment
access-lane 83010780 alignment
access-lane 830107ff alignment
access-lane 00007f back
access-lane 4080017f00 back
access-lane 1fffffffffffffffffff0100 back
access-lane 40ffffffff0f0000 no-memory
i32 00 back
i32 3f back
i32 40 back
i32 c000 back
i32 bf7f back
i32 ff00 back
i32 8001 back
i32 ffffffff07 back
i32 8080808078 back
i64 00 back
i64 7f back
i64 3f back
i64 40 back
i64 c000 back
i64 bf7f back
i64 ff00 back
i64 8001 back
i64 807f back
i64 ffffffffffffffffff00 back
i64 8080808080808080807f back
f32 00000000 back
f32 01020384 back
f32 ffffffff back
f64 0100000000000080 back
f64 ffffffffffffffff back
vector 000102030405060708090a0b0c0d0e0f back
vector ffffffffffffffffffffffffffffff80 back
block 40 none
block 7f none
block 7b none
block 6f none
block 00 none
block 3f none
block c000 none
block ff00 none
block 8001 none
block ffffffff0f none
heap 70 back
heap 6570 back
heap 6f back
heap 656f back
heap 6e back
heap 656e back
heap 71 back
heap 6571 back
heap 72 back
heap 6572 back
heap 73 back
heap 6573 back
heap 6d back
heap 656d back
heap 6b back
heap 656b back
heap 6a back
heap 656a back
heap 6c back
heap 656c back
heap 69 back
heap 6569 back
heap 74 back
heap 6574 back
heap 00 back
heap 3f back
heap c000 back
heap ff00 back
heap 8001 back
heap ffff3f no-type
cast 00006e70 none
cast 017f80016e none
cast 028001006f none
cast 03ffffffff0f6effff3f none
cast 000000ff00 none
cast 0000ff008001 none
cast 0000ffff3f00 none
labels 0000 none
labels 007f none
labels 008001 none
labels 01ffffffff0fffffffff0f none
labels 03007f800105 none
handlers 0504007f800101ffffffff0f00027f03ffffffff0f none
handlers 05020002030304 none
handlers 40020000000180018001 none
values 017f back
values 017c back
values 016300 back
values 0164ff00 back
values 01638001 back
values 0163ffff3f no-type
values 027f63ffff3f no-type
values 027f6f select";
