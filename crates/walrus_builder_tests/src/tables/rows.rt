//! The rows: what is done to a new table of types, and what it answers and writes.
//!
//! Types are told by words (see `values`, `forms` and `records`), ids and indices by their numbers. What is wanted was worked out by hand, from
//! what the calls say.

use crate::tables::tables::is_so;
use std::alloc::Global;
use test_words::{cut, head};

// Whether a row is so of a new table. A `#` says what the next row is about.
fn is_right(alloc: Global, row: &[u8]) -> bool {
    head(row) == b'#' || matches!(is_so(alloc, row), Ok(true))
}

fn all_are_right(alloc: Global, rows: &str) -> bool {
    let mut agree = true;
    let mut rest = rows.as_bytes();
    for _ in 0..rows.len() {
        if rest.is_empty() {
            break;
        }
        let (row, behind) = cut(rest, b'\n');
        rest = behind;
        agree &= is_right(alloc, row);
    }
    agree
}

// What adds answer: the latest equal live type, or the next id.
const ADDS: &str = "\
# an equal live type, where there is one
func:i64>@0 func:>i64@1 func:i64>@0
struct:@0 array:i8@1 array:i8/final@1 array:i8/open@2
entry:>@0 func:>@1 entry:>@0
# a type with its entry type: the first is there before; then the entry type of the second is, and then both are
func:f64>f32 both:f64>f32@0,1 both:i32>f32@2,1 both:i32>f32@2,1 both:i32>i64@3,4
# two that name each other
ring:2@0,1
# a group of another count than was asked for is refused, and leaves no id behind
half:2 func:>@0";

// Groups stand by rising id. Those that are marked, and types that name a type or have a supertype, stay; single types between them are sorted.
const WRITTEN: &str = "\
# single types are written once, and sorted
func:i64> struct: func:i32> func:i64> | func:i32> func:i64> struct: @1,2,0
# a type that names a type stays
func:i64> struct:0 func:i32> | func:i64> struct:0 func:i32> @0,1,2
# a group stays, and so does one of one type
func:i64> func:i32> ring:2 func:f64> func:f32> | func:i32> func:i64> +struct:3&struct:2 func:f32> func:f64> @1,0,2,3,5,4
func:i64> group:1 func:i32> | func:i64> +struct: func:i32> @0,1,2
# a group of several types that is read without a mark is explicit
func:i64> pair:@1,2 func:i32> || func:i64> +array:i8&array:i8 func:i32> @0,1,2,3
# an open type, and a final one below it
func:i64> array:i8/open array:i8/final<1 | func:i64> array:i8/open array:i8/final<1 @0,1,2
# entry types are not written
entry:>i32 func:>i32 | func:>i32 @-,0
# the ids stand in the order of indices
func:i64> struct: func:i32> | func:i32> func:i64> struct: @1,2,0 #2,0,1
# more types than stand in two blocks, each of which names the one before
chain:600 | 601
# a second round changes nothing
func:i64> func:i32> ring:2 func:i32>i64 || func:i32> func:i64> +struct:3&struct:2 func:i32>i64 @1,0,2,3,4";

// Types that are added in the opposite order of that in which they are written: functions, structures, arrays; by parameters and then results,
// or fields; open ones before final ones.
const ORDER: &str = "\
# fields
array:i16 array:i8 array:noexn array:exn array:i31 array:array array:struct array:eq array:nofunc array:noextern array:none array:any array:extern array:func array:noexn! array:func! array:v128 array:f64 array:f32 array:i64 array:i32* array:i32 | array:i32 array:i32* array:i64 array:f32 array:f64 array:v128 array:func! array:noexn! array:func array:extern array:any array:none array:noextern array:nofunc array:eq array:struct array:array array:i31 array:exn array:noexn array:i8 array:i16 @21,20,19,18,17,16,15,14,13,12,11,10,9,8,7,6,5,4,3,2,1,0
# functions
func:i64> func:i32,i64> func:i32,i32> func:i32>i64 func:i32> func:>i64 | func:>i64 func:i32> func:i32>i64 func:i32,i32> func:i32,i64> func:i64> @5,4,3,2,1,0
# structures
struct:i64 struct:i32,i64 struct:i32,i32 struct:i32 struct: | struct: struct:i32 struct:i32,i32 struct:i32,i64 struct:i64 @4,3,2,1,0
# one of each form
array:i8/final array:i8/open struct: func:i64> | func:i64> struct: array:i8/open array:i8 @3,2,1,0
# of one rank, by a parameter past the twentieth and by what stands behind references, between others
func:extern,i32> func:func,i64> func:v128> func:f64> func:f32,i32> func:i32,i32,i32,i32,i32,i32,i32,i32,i32,i32,i32,i32,i32,i32,i32,i32,i32,i32,i32,i32,i64> func:i32,i32,i32,i32,i32,i32,i32,i32,i32,i32,i32,i32,i32,i32,i32,i32,i32,i32,i32,i32,i32> | func:i32,i32,i32,i32,i32,i32,i32,i32,i32,i32,i32,i32,i32,i32,i32,i32,i32,i32,i32,i32,i32> func:i32,i32,i32,i32,i32,i32,i32,i32,i32,i32,i32,i32,i32,i32,i32,i32,i32,i32,i32,i32,i64> func:f32,i32> func:f64> func:v128> func:func,i64> func:extern,i32> @6,5,4,3,2,1,0";

// What is refused when it is written.
const FAULTS: &str = "\
# a name of an entry type, and of a later type
entry:>i64 struct:0 | !entry
struct:1 func:> | !later
# the first fault is answered
entry:>i64 struct:3,0 struct:9 func:> | !later
# behind the first block
chain:600 struct:1000 | !dead";

#[test]
fn tables_are_changed(rt: HostRuntime) {
    assert!(rt; all_are_right(rt.alloc(), ADDS));
}

#[test]
fn the_index_of_a_long_chain_is_low(rt: HostRuntime) {
    assert!(rt; all_are_right(rt.alloc(), "long"));
}

#[test]
fn tables_are_written(rt: HostRuntime) {
    for rows in [WRITTEN, ORDER, FAULTS] {
        assert!(rt; all_are_right(rt.alloc(), rows));
    }
}
