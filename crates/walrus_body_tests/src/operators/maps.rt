//! Maps of 132 items in each space: no index is its own id, and no space has another's but the two last.
ghost use Rattle.std.specs.Prelude.{◌≡◌, ◌≤◌, ◌<◌, ◌+◌, ◌^◌, OnOk};
ghost use Rattle.walrus_index_maps.specs.Views.{indices};
ghost use Rattle.walrus_body_tests.specs.Given.{given};

use std::alloc::AllocError;
use walrus_arena::{FunctionId, Id};
use walrus_index_maps::{IdsToIndices, IndicesToIds, Space};

/// What indices name, and what numbers ids have.
#[derive(Drop)]
pub(crate) struct Maps {
    pub(crate) ids: IndicesToIds,
    pub(crate) numbers: IdsToIndices,
}

/// The id of this number. It has no contract, so that no caller's proof computes what it makes.
pub(crate) fn id<S>(number: u32) -> Id<S> {
    Id::from_index(number as usize)
}

/// The function that has the locals.
pub(crate) fn body() -> FunctionId {
    id(7)
}

// The next index of the space names the id.
fn push(ids: &mut IndicesToIds, space: Space, at: u32) -> Result<u32, AllocError> {
    match space {
        Space::Type => ids.push_type(id(at)),
        Space::Function => ids.push_func(id(at)),
        Space::Table => ids.push_table(id(at)),
        Space::Memory => ids.push_memory(id(at)),
        Space::Tag => ids.push_tag(id(at)),
        Space::Global => ids.push_global(id(at)),
        Space::Element => ids.push_element(id(at)),
        Space::Data => ids.push_data(id(at)),
        _ => ids.push_local(body(), id(at)),
    }
}

// The id has the next number of the space, if it has none yet; of data segments and locals, this number.
fn give(numbers: &mut IdsToIndices, space: Space, at: u32, number: u32) -> Result<u32, AllocError>
    requires room { given (indices numbers.old) < 2 ^ 32 }
    ensures { OnOk result (given (indices numbers.new) ≤ given (indices numbers.old) + 1) }
{
    match space {
        Space::Type => {
            let id = id(at);
            match numbers.get_type_index(id) {
                None => numbers.push_type(id),
                Some(number) => Ok(number),
            }
        }
        Space::Function => {
            let id = id(at);
            match numbers.get_func_index(id) {
                None => numbers.push_func(id),
                Some(number) => Ok(number),
            }
        }
        Space::Table => {
            let id = id(at);
            match numbers.get_table_index(id) {
                None => numbers.push_table(id),
                Some(number) => Ok(number),
            }
        }
        Space::Memory => {
            let id = id(at);
            match numbers.get_memory_index(id) {
                None => numbers.push_memory(id),
                Some(number) => Ok(number),
            }
        }
        Space::Tag => {
            let id = id(at);
            match numbers.get_tag_index(id) {
                None => numbers.push_tag(id),
                Some(number) => Ok(number),
            }
        }
        Space::Global => {
            let id = id(at);
            match numbers.get_global_index(id) {
                None => numbers.push_global(id),
                Some(number) => Ok(number),
            }
        }
        Space::Element => {
            let id = id(at);
            match numbers.get_element_index(id) {
                None => numbers.push_element(id),
                Some(number) => Ok(number),
            }
        }
        Space::Data => {
            match numbers.set_data_index(id(at), number) {
                Ok(()) => Ok(number),
                Err(fault) => Err(fault),
            }
        }
        _ => {
            match numbers.set_local_index(body(), id(at), number) {
                Ok(()) => Ok(number),
                Err(fault) => Err(fault),
            }
        }
    }
}

// A space, and the id of its first item.
const FIRST: [(Space, u32); 9] = [
    (Space::Type, 200),
    (Space::Function, 400),
    (Space::Table, 600),
    (Space::Memory, 800),
    (Space::Tag, 1000),
    (Space::Global, 1200),
    (Space::Element, 1400),
    (Space::Data, 1600),
    (Space::Local, 1800),
];

// An item by its turn: its space, its id, and its number, if it is to have one. Indices 0 to 129 of each space, 130 for the largest id, and
// 131 for one below all others; numbers 0 to 129 of the same, of data segments and locals the largest in place of 64.
fn item(turn: u32) -> (Space, u32, u32) {
    let (space, first) = FIRST[(turn % 9) as usize];
    match turn / 9 {
        64 if turn % 9 >= 7 => (space, first.saturating_add(64), 4294967295),
        130 => (space, 4294967295, 130),
        131 => (space, 4, 131),
        index => (space, first.saturating_add(index), index),
    }
}

/// Each index names its id.
pub(crate) fn fill_ids(ids: &mut IndicesToIds) -> bool {
    for turn in 0..1188u32 {
        let (space, id, _) = item(turn);
        if push(ids, space, id) != Ok(turn / 9) {
            return false;
        }
    }
    true
}

/// Each id has its own number.
pub(crate) fn fill_numbers(numbers: &mut IdsToIndices) -> bool
    requires { given (indices numbers.old) ≡ 0 }
{
    for turn in 0..1170u32 {
        let (space, id, number) = item(turn);
        let Ok(given) = give(numbers, space, id, number) else {
            return false;
        };
        if given != number {
            return false;
        }
    }
    true
}
