//! The locations of a body.

ghost use Rattle.std.specs.Prelude.{OnOk};
ghost use Rattle.walrus_locations.specs.Sent.{AnswersLocations, BodySent, ItemSent, LocationSent, SeqSent};
ghost use Rattle.walrus_walks.specs.Changes.{Threads};

use std::alloc::AllocError;
use walrus_arena::InstrSeqId;
use walrus_builder::FunctionBuilder;
use walrus_walks::instr::{Instr, InstrLocId, InstrSeq};

// A body has at most so many sequences, as many as there are ids.
const MAX_SEQS: usize = 1 << 32;

// What stands in the place of a location.
fn send<F: FnMut(u32) -> InstrLocId>(sends: &mut F, place: InstrLocId) -> InstrLocId
    requires { AnswersLocations F.pre }
    ensures { LocationSent F.step sends.old place sends.new result }
{
    if place.is_default() {
        return place;
    }
    sends(place.data())
}

// The location of an instruction.
fn send_item<F: FnMut(u32) -> InstrLocId>(sends: &mut F, item: &mut (Instr, InstrLocId))
    requires { AnswersLocations F.pre }
    ensures { ItemSent F.step sends.old item.old sends.new item.new }
{
    item.1 = send(sends, item.1);
}

// Those of these instructions, in their order.
fn send_items<F: FnMut(u32) -> InstrLocId>(sends: &mut F, items: &mut [(Instr, InstrLocId)])
    requires { AnswersLocations F.pre }
    ensures { Threads (ItemSent F.step) sends.old items.old sends.new items.new }
{
    for item in items.iter_mut() {
        send_item(sends, item);
    }
}

// Those of the instructions of a sequence, then that of its end.
fn send_seq<F: FnMut(u32) -> InstrLocId>(sends: &mut F, seq: &mut InstrSeq)
    requires { AnswersLocations F.pre }
    ensures { SeqSent F.step sends.old seq.old sends.new seq.new }
{
    send_items(sends, seq.instrs.as_mut_slice());
    seq.end = send(sends, seq.end);
}

/// Sends the locations of the sequences of a body through a callback, by rising id.
///
/// # Errors
///
/// Want of memory, where there are more sequences than ids. The body then stays as it was.
pub(crate) fn send_body<F: FnMut(u32) -> InstrLocId>(
    sends: &mut F,
    body: &mut FunctionBuilder,
) -> Result<(), AllocError>
    requires { AnswersLocations F.pre }
    ensures { OnOk result (BodySent F.step sends.old body.old sends.new body.new) }
{
    let count = body.seqs().len();
    if count > MAX_SEQS {
        return Err(AllocError);
    }
    for index in 0..count {
        let id = InstrSeqId::from_index(index);
        send_seq(sends, body.seq_mut(id));
    }
    Ok(())
}
