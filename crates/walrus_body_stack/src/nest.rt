//! Open sequences with their instructions, which lie in one list.

ghost use Rattle.std.specs.Prelude.{◌≡◌, ◌≤◌, ◌<◌, [], ◌∷◌, ◌++◌, length, take, drop, slice_get, true, IfOk, OnOk, OnErr};
ghost use Rattle.std.specs.Option.{option_map};
ghost use Rattle.std.specs.Vec.{vec_len, vec_capacity};
ghost use Rattle.walrus_body_nesting.specs.declared.frames.Reach.TheVariants.{Cut as cut_reach};
ghost use Rattle.walrus_body_stack.specs.Held.{IsLeft, added, as_frame, bare, emptied, entered, seqs_in, turned};
ghost use Rattle.walrus_body_stack.specs.Slots.{further, lower};

use crate::frame::{Frame, Sort, next_reach};
use crate::pile::Pile;
use std::alloc::{AllocError, Global};
use std::marker::Model;
use std::mem;
use walrus_arena::InstrSeqId;
use walrus_body_nesting::Reach;
use walrus_instr::{Instr, InstrLocId};

/// An open sequence, and where its instructions lie.
#[derive(Clone, Copy)]
pub(crate) struct Slot {
    pub(crate) frame: Frame,
    // Where they begin in the list. What lies before them is short, as what is long is set aside.
    pub(crate) begin: u16,
    // Whether those of the sequences around it lie in the next list.
    pub(crate) apart: bool,
}

/// The open sequences of a body. Their instructions lie in one list, each sequence's behind those of the one around it, so that no room
/// is kept for each; what has become long is set aside.
#[derive(Drop)]
pub(crate) struct Nest {
    // The innermost, which is always there, and those around it.
    inner: Slot,
    outer: Pile<Slot>,
    list: Vec<(Instr, InstrLocId)>,
    // The lists that were set aside.
    aside: Pile<Vec<(Instr, InstrLocId)>>,
    // The room of a list that is done with, for the next one.
    spare: Vec<(Instr, InstrLocId)>,
}

impl Model for Nest {
    ghost use Rattle.std.specs.Prelude.{◌∷◌};
    ghost use Rattle.walrus_body_stack.specs.Held.{Nested};
    ghost use Rattle.walrus_body_stack.specs.Slots.{Fits, nested_in};

    ghost Value = { Nested };

    ghost view = { λ n. nested_in n.inner n.outer n.list.items n.aside };

    ghost invariant = { λ n. Fits (n.inner ∷ n.outer) n.list.items n.aside };
}

// A list of fewer instructions isn't set aside.
const LONG: usize = 2032;

// A sequence in a list of fewer isn't moved to one of its own.
const LONGER: usize = 4064;

// Room that a list has from the beginning where another was set aside for it: more than it holds when it is set aside itself, so that it
// is never copied to grow.
const ROOM: usize = 2048;

// Room that a body's list begins with: enough for most, so that it isn't copied to grow.
const FIRST: usize = 64;

// A list of more is given as it is, less its room, where all of it is asked for; what is shorter is copied.
const SHORT: usize = 256;

// Room for one more. Growth stands apart, so that what is inlined stays small.
#[inline(always)]
fn make_room(list: &mut Vec<(Instr, InstrLocId)>) -> Result<(), AllocError>
    ensures room { OnOk result (vec_len list.new < vec_capacity list.new) }
    ensures rest { list.new.items ≡ list.old.items }
{
    if list.len() < list.capacity() {
        return Ok(());
    }
    grow(list)
}

#[inline(never)]
fn grow(list: &mut Vec<(Instr, InstrLocId)>) -> Result<(), AllocError>
    ensures room { OnOk result (vec_len list.new < vec_capacity list.new) }
    ensures rest { list.new.items ≡ list.old.items }
{
    if list.capacity() == 0 {
        return list.reserve(FIRST);
    }
    list.reserve(1)
}

// Takes off what begins there, in a list of just its number: one with room to spare would cost each later walk its time.
fn taken(
    list: &mut Vec<(Instr, InstrLocId)>,
    begin: usize,
) -> Result<Vec<(Instr, InstrLocId)>, AllocError>
    requires { begin ≤ length list.old.items }
    ensures taken { IfOk result (λ own. own.items ≡ drop begin list.old.items) }
    ensures left { OnOk result (list.new.items ≡ take begin list.old.items) }
    ensures refused { OnErr result (list.new.items ≡ list.old.items) }
{
    if begin == 0 && list.len() > SHORT {
        let empty = Vec::new(*list.allocator());
        let mut own = mem::replace(list, empty);
        own.shrink_to_fit();
        return Ok(own);
    }
    list.split_off(begin)
}

// An empty list with room: that of a list that is done with, if it was kept.
fn roomy(spare: &mut Vec<(Instr, InstrLocId)>) -> Result<Vec<(Instr, InstrLocId)>, AllocError>
    ensures { IfOk result (λ room. room.items ≡ []) }
{
    let empty = Vec::new(*spare.allocator());
    let mut room = mem::replace(spare, empty);
    room.clear();
    room.reserve(ROOM)?;
    Ok(room)
}

// Keeps the room of a list that is done with, unless it is large: then what ends next finds room there.
fn keep(spare: &mut Vec<(Instr, InstrLocId)>, done: Vec<(Instr, InstrLocId)>) {
    if done.capacity() <= ROOM {
        *spare = done;
    }
}

// Goes on with the list that was set aside last.
#[inline(never)]
fn rejoin(
    list: &mut Vec<(Instr, InstrLocId)>,
    aside: &mut Pile<Vec<(Instr, InstrLocId)>>,
    spare: &mut Vec<(Instr, InstrLocId)>,
)
    ensures list { list.new.items ≡ lower true 0 list.old.items aside.old }
    ensures aside { aside.new ≡ further true aside.old }
{
    let last = match aside.pop() {
        Some(last) => last,
        None => Vec::new(*list.allocator()),
    };
    keep(spare, mem::replace(list, last));
}

// What is there.
#[inline(always)]
fn seq_of(slot: Option<Slot>) -> Option<InstrSeqId>
    ensures { result ≡ option_map (λ s. s.frame.seq) slot }
{
    match slot {
        Some(slot) => Some(slot.frame.seq),
        None => None,
    }
}

impl Nest {
    /// This sequence alone. Takes no memory.
    pub(crate) fn new(alloc: Global, frame: Frame) -> Self
        ensures { result ≡ record { inner = bare frame; outer = [] } }
    {
        Nest {
            inner: Slot {
                frame,
                begin: 0,
                apart: false,
            },
            outer: Pile::new(alloc),
            list: Vec::new(alloc),
            aside: Pile::new(alloc),
            spare: Vec::new(alloc),
        }
    }

    /// The innermost.
    #[inline(always)]
    pub(crate) fn frame(&self) -> Frame
        ensures { result ≡ self.now.inner.frame }
    {
        self.inner.frame
    }

    /// Whether what comes next in it is reached.
    #[inline(always)]
    pub(crate) fn reach(&self) -> Reach
        ensures { result ≡ self.now.inner.frame.reach }
    {
        self.inner.frame.reach
    }

    /// Goes on with this sequence, as this part of the innermost block; it keeps its instructions.
    #[inline(always)]
    pub(crate) fn turn(&mut self, seq: InstrSeqId, sort: Sort)
        ensures { self.new ≡ as_frame (turned seq sort self.old.inner.frame) self.old }
    {
        self.inner.frame.seq = seq;
        self.inner.frame.sort = sort;
        self.inner.frame.reach = next_reach(self.inner.frame.reach);
    }

    /// Says that nothing that follows in the innermost is reached.
    #[inline(always)]
    pub(crate) fn cut(&mut self)
        ensures { self.new ≡ as_frame (record self.old.inner.frame { reach = cut_reach }) self.old }
    {
        self.inner.frame.reach = Reach::Cut;
    }

    // A sequence that has become long gets a list of its own, so that it needn't be copied as it ends.
    #[inline(never)]
    fn part(&mut self) -> Result<(), AllocError>
        ensures { OnOk result (self.new ≡ self.old) }
    {
        if self.inner.apart || self.inner.begin == 0 || self.list.len() < LONGER {
            return Ok(());
        }
        let own = self.list.split_off(usize::from(self.inner.begin))?;
        self.aside.push_from(&mut self.list, own)?;
        self.inner.begin = 0;
        self.inner.apart = true;
        Ok(())
    }

    // As the list is to grow, it may be time for that.
    #[inline(always)]
    fn parted(&mut self) -> Result<(), AllocError>
        ensures { OnOk result (self.new ≡ self.old) }
    {
        if self.list.len() < self.list.capacity() {
            return Ok(());
        }
        self.part()
    }

    /// Adds an instruction to the innermost.
    #[inline(always)]
    pub(crate) fn add(&mut self, instr: Instr, place: InstrLocId) -> Result<(), AllocError>
        ensures { OnOk result (self.new ≡ added (instr, place) self.old) }
    {
        self.parted()?;
        make_room(&mut self.list)?;
        self.list.push_reserved((instr, place));
        Ok(())
    }

    /// Enters a sequence, which has no instructions so far: they are to lie behind those around it.
    #[inline(always)]
    pub(crate) fn enter(&mut self, frame: Frame) -> Result<(), AllocError>
        ensures { OnOk result (self.new ≡ entered frame self.old) }
    {
        let Ok(begin) = u16::try_from(self.list.len()) else {
            return Err(AllocError);
        };
        self.outer.push_copy(&self.inner)?;
        self.inner = Slot {
            frame,
            begin,
            apart: false,
        };
        Ok(())
    }

    /// The same, with a list of its own.
    #[inline(never)]
    pub(crate) fn enter_apart(&mut self, frame: Frame) -> Result<(), AllocError>
        ensures { OnOk result (self.new ≡ entered frame self.old) }
    {
        let room = roomy(&mut self.spare)?;
        self.outer.push(self.inner)?;
        if let Err(error) = self.aside.push_from(&mut self.list, room) {
            let _ = self.outer.pop();
            return Err(error);
        }
        self.inner = Slot {
            frame,
            begin: 0,
            apart: true,
        };
        Ok(())
    }

    /// Whether what is entered gets a list of its own.
    #[inline(always)]
    pub(crate) fn is_long(&self) -> bool {
        self.list.len() >= LONG
    }

    /// Takes the innermost one's instructions.
    pub(crate) fn take(&mut self) -> Result<Vec<(Instr, InstrLocId)>, AllocError>
        ensures taken { IfOk result (λ own. own.items ≡ self.old.inner.instrs) }
        ensures left { OnOk result (self.new ≡ emptied self.old) }
    {
        taken(&mut self.list, usize::from(self.inner.begin))
    }

    /// Leaves the innermost, if there is one around it; says whether there is.
    #[inline(always)]
    pub(crate) fn leave(&mut self) -> bool
        ensures { IsLeft result self.old self.new }
    {
        let begin = usize::from(self.inner.begin);
        let apart = self.inner.apart;
        let Some(slot) = self.outer.pop() else {
            return false;
        };
        // It is put in its place at once, so that it is copied but once.
        self.inner = slot;
        if apart {
            rejoin(&mut self.list, &mut self.aside, &mut self.spare);
            self.outer.give_up();
        } else if self.list.len() > begin {
            self.list.truncate(begin);
        }
        true
    }

    /// How many lie around the innermost.
    pub(crate) fn outer_count(&self) -> usize
        ensures { result ≡ length self.now.outer }
    {
        self.outer.len()
    }

    /// The sequence that a label names: the innermost has the label 0.
    #[inline(always)]
    pub(crate) fn seq_at(&self, depth: u32) -> Option<InstrSeqId>
        ensures { result ≡ slice_get (seqs_in self.now) depth }
    {
        let depth = depth as usize;
        if depth == 0 {
            return Some(self.inner.frame.seq);
        }
        seq_of(self.outer.at(depth - 1))
    }
}
