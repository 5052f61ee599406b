//! What stands in the place of locations. They count from the count of bodies in the file's code section.

use crate::callback::{Act, read_with};
use crate::files::{CALLS, IF};
use crate::helpers::{Ask, Call, has, read_by, refused};
use std::alloc::{AllocError, Global};
use walrus_config::ModuleConfig;
use walrus_errors::Result;
use walrus_index_maps::IndicesToIds;
use walrus_instr::{InstrLocId, InstrSeq};
use walrus_module::Module;
use walrus_parse::Parse;

// The numbers of the locations of a sequence: those of its instructions, then that of its end.
fn push_seq(numbers: &mut Vec<u32>, seq: &InstrSeq) -> std::result::Result<(), AllocError> {
    for (_instr, place) in seq.instrs.iter() {
        numbers.push(place.data())?;
    }
    numbers.push(seq.end.data())?;
    Ok(())
}

// Those of a module, by rising function and sequence.
fn numbers(alloc: Global, module: &Module<()>) -> std::result::Result<Vec<u32>, AllocError> {
    let mut numbers = Vec::new(alloc);
    for (_id, local) in module.funcs.iter_local() {
        for seq in local.builder().seqs() {
            push_seq(&mut numbers, seq)?;
        }
    }
    Ok(numbers)
}

/// Whether these are those of the module.
pub(crate) fn are_at(alloc: Global, module: &Module<()>, places: &[u32]) -> bool {
    match numbers(alloc, module) {
        Ok(found) => found.as_slice() == places,
        Err(_) => false,
    }
}

/// The location so many numbers later, none past the last.
pub(crate) fn later(place: u32, by: u32) -> InstrLocId {
    match place.checked_add(by) {
        Some(number) if number < u32::MAX => InstrLocId::new(number),
        _ => InstrLocId::default(),
    }
}

fn is_plain(alloc: Global, bytes: &[u8], places: &[u32]) -> bool {
    let read = read_by(alloc, Call::FromBuffer, &ModuleConfig::new(), bytes);
    has(alloc, read, Ask::Places(places))
}

// The alternative that is added to an `if` has no end in the file.
#[test]
fn places_of_the_file_stand(rt: HostRuntime) {
    assert!(rt; is_plain(rt.alloc(), CALLS, &[3, 5, 8, 10, 11]));
    assert!(rt; is_plain(rt.alloc(), IF, &[3, 5, 8, 7, u32::MAX]));
}

// Whether they are, where each is answered by one so many numbers later.
fn is_moved(alloc: Global, bytes: &[u8], by: u32, places: &[u32]) -> bool {
    let read = read_with(alloc, bytes, by, Act::Nothing);
    has(alloc, read, Ask::Places(places))
}

#[test]
fn answers_stand_in_their_place(rt: HostRuntime) {
    assert!(rt; is_moved(rt.alloc(), CALLS, 0, &[3, 5, 8, 10, 11]));
    assert!(rt; is_moved(rt.alloc(), CALLS, 1000, &[1003, 1005, 1008, 1010, 1011]));
    assert!(rt; is_moved(rt.alloc(), IF, 1000, &[1003, 1005, 1008, 1007, u32::MAX]));
}

// Whether these numbers are asked, in this order.
fn is_asked(alloc: Global, bytes: &[u8], wanted: &[u32]) -> bool {
    let mut asked = Vec::new(alloc);
    let read: Result<Module<()>> = ModuleConfig::new().parse_with(
        alloc,
        bytes,
        |place: u32| {
            let _ = asked.push(place);
            InstrLocId::new(7)
        },
        |_module: &mut Module<()>, _indices: &IndicesToIds| Ok(()),
    );
    refused(read).is_none() && asked.as_slice() == wanted
}

#[test]
fn each_place_is_asked_once_in_order(rt: HostRuntime) {
    assert!(rt; is_asked(rt.alloc(), CALLS, &[3, 5, 8, 10, 11]));
    assert!(rt; is_asked(rt.alloc(), IF, &[3, 5, 8, 7]));
}
