//! The locations of functions.

ghost use Rattle.std.specs.Prelude.{◌<◌, OnOk};
ghost use Rattle.walrus_arena.specs.Arena.{IsLive, next_id};
ghost use Rattle.walrus_locations.specs.Sent.{AnswersLocations, FunctionSent, FunctionsSent, IsSentAt};

use crate::bodies::send_body;
use std::alloc::AllocError;
use walrus_arena::FunctionId;
use walrus_collections::ModuleFunctions;
use walrus_collections::module_items::{Function, FunctionKind};
use walrus_walks::instr::InstrLocId;

// The locations of a function, if it has a body.
fn send_function<F: FnMut(u32) -> InstrLocId>(
    sends: &mut F,
    function: &mut Function,
) -> Result<(), AllocError>
    requires { AnswersLocations F.pre }
    ensures { OnOk result (FunctionSent F.step sends.old function.old sends.new function.new) }
{
    match &mut function.kind {
        FunctionKind::Local(local) => send_body(sends, local.builder_mut()),
        FunctionKind::Import(_) | FunctionKind::Uninitialized(_) => Ok(()),
    }
}

// Those of the function of this id, if it lives.
fn send_at<F: FnMut(u32) -> InstrLocId>(
    sends: &mut F,
    functions: &mut ModuleFunctions,
    id: FunctionId,
) -> Result<(), AllocError>
    requires calls { AnswersLocations F.pre }
    ensures { OnOk result (IsSentAt F.step id sends.old functions.old sends.new functions.new) }
{
    if functions.contains(id) {
        return send_function(sends, functions.get_mut(id));
    }
    Ok(())
}

/// Sends the location of each instruction of each body, and that of the end of each sequence, through a callback: what it answers for its
/// number stands in its place. The callback is called for one function after another, by rising id, in each for one sequence after
/// another, by rising id, in each for one instruction after another and then for the end. It isn't called where there is no location.
/// Takes no memory, and time in proportion to the instructions.
///
/// Asks for a callback that may be called, in whatever state it is, with each number of a location.
///
/// # Errors
///
/// Want of memory, where a body has more than 2^32 sequences, as many as there are ids. Functions before it have been given their locations.
pub fn send_locations<F: FnMut(u32) -> InstrLocId>(
    sends: &mut F,
    functions: &mut ModuleFunctions,
) -> Result<(), AllocError>
    requires { AnswersLocations F.pre }
    ensures { OnOk result (FunctionsSent F.step sends.old functions.old sends.new functions.new) }
{
    for index in 0..functions.next_id().index() {
        send_at(sends, functions, FunctionId::from_index(index))?;
    }
    Ok(())
}
