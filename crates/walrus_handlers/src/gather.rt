//! Which sequences of a body are handlers, and of what.

ghost use Rattle.std.specs.Prelude.{◌≡◌, ◌≤◌, ◌^◌, ℕ, [], ◌∷◌, IfOk, None, Option, false, length, map, replicate};
ghost use Rattle.walrus_handlers.specs.Gathering.{AreHandlers, has_try, have_try, is_try, put, put_all};
ghost use Rattle.walrus_handler_laws.specs.Handlers.{known_handler, part_slots, slots, slots_in, tree_ids};
ghost use Rattle.walrus_handler_laws.specs.walrus_body_steps.walrus_body_nesting.Opens.{type_at};
ghost use Rattle.walrus_handler_laws.specs.walrus_body_steps.walrus_body_nesting.Stands.{Handles, HandlesAll};
ghost use Rattle.walrus_handler_laws.specs.walrus_tree.Trees.{IsTree};
ghost use Rattle.walrus_handler_laws.specs.walrus_tree.walrus_builder.Built.{seq_of};
ghost use Rattle.walrus_handler_laws.specs.walrus_tree.walrus_builder.Functions.{seqs_of};

use std::alloc::{AllocError, Global};
use walrus_arena::{
    DataId, ElementId, FunctionId, GlobalId, InstrSeqId, LocalId, MemoryId, TableId, TagId, TypeId,
};
use walrus_body_env::BodyEnv;
use walrus_handler_laws::{Handler, tree};
use walrus_instr::{Instr, InstrLocId, InstrSeq, InstrSeqType, LegacyCatch, Value};
use walrus_tree::builder::tree_walks::Visitor;
use walrus_tree::builder::{FunctionBuilder, dfs_in_order};

// The type of a sequence, if there is one of that id.
fn type_at(seqs: &[InstrSeq], id: InstrSeqId) -> Option<InstrSeqType>
    ensures { result ≡ type_at (map seq_of seqs.now) id }
{
    match seqs.get(id.index()) {
        Some(seq) => Some(seq.ty.get()),
        None => None,
    }
}

// The handler of a tag in a block of this type.
fn tag_handler<E: BodyEnv>(env: &E, tag: TagId, block: Option<InstrSeqType>) -> Option<Handler>
    ensures { result ≡ known_handler (E.tag_type env.now) block (Handles tag) }
{
    let Some(block) = block else {
        return None;
    };
    match env.tag_type(tag) {
        Some(ty) => Some(Handler {
            tag_type: Some(ty),
            block,
        }),
        None => None,
    }
}

// The handler of all tags in a block of this type.
fn last_handler(block: Option<InstrSeqType>) -> Option<Handler>
    ensures { (tags : ℕ → Option ℕ) → result ≡ known_handler tags block HandlesAll }
{
    match block {
        Some(block) => Some(Handler {
            tag_type: None,
            block,
        }),
        None => None,
    }
}

// Puts what a sequence is in the list, if that reaches so far.
fn put(told: &mut [Option<Handler>], id: InstrSeqId, handler: Option<Handler>)
    ensures { told.new ≡ put id handler told.old }
{
    if let Some(handler) = handler {
        let index = id.index();
        if index < told.len() {
            told[index] = Some(handler);
        }
    }
}

// Puts what a part of a `try` of this type is.
fn put_part<E: BodyEnv>(
    env: &E,
    told: &mut [Option<Handler>],
    block: Option<InstrSeqType>,
    part: LegacyCatch,
)
    ensures { told.new ≡ put_all (part_slots (E.tag_type env.now) block (part ∷ [])) told.old }
{
    match part {
        LegacyCatch::Catch { tag, handler } => put(told, handler, tag_handler(env, tag, block)),
        LegacyCatch::CatchAll { handler } => put(told, handler, last_handler(block)),
        LegacyCatch::Delegate { .. } => {}
    }
}

// Puts what the parts of a `try` are, by its first sequence.
fn put_parts<E: BodyEnv>(
    env: &E,
    seqs: &[InstrSeq],
    told: &mut [Option<Handler>],
    first: InstrSeqId,
    parts: &[LegacyCatch],
)
    ensures { told.new ≡ put_all (part_slots (E.tag_type env.now) (type_at (map seq_of seqs.now) first) parts.now) told.old }
{
    for part in parts {
        put_part(env, told, type_at(seqs, first), *part);
    }
}

// Puts what the sequences that an instruction holds are.
fn put_instr<E: BodyEnv>(env: &E, seqs: &[InstrSeq], told: &mut [Option<Handler>], instr: &Instr)
    ensures { told.new ≡ put_all (slots (E.tag_type env.now) (map seq_of seqs.now) instr.now) told.old }
{
    if let Instr::Try { seq, catches } = instr {
        put_parts(env, seqs, told, *seq, catches.as_slice());
    }
}

// Puts what the sequences that these instructions hold are.
fn put_instrs<E: BodyEnv>(
    env: &E,
    seqs: &[InstrSeq],
    told: &mut [Option<Handler>],
    instrs: &[(Instr, InstrLocId)],
)
    ensures { told.new ≡ put_all (slots_in (E.tag_type env.now) (map seq_of seqs.now) instrs.now) told.old }
{
    for item in instrs {
        put_instr(env, seqs, told, &item.0);
    }
}

// Gathers what the sequences are that begun ones hold.
#[derive(Drop)]
struct Gatherer<'a, E: BodyEnv> {
    env: &'a E,
    seqs: &'a [InstrSeq],
    told: Vec<Option<Handler>>,
}

impl<'a, E: BodyEnv> Visitor for Gatherer<'a, E> {
    ghost use Rattle.std.specs.Prelude.{◌≡◌, map};
    ghost use Rattle.walrus_handlers.specs.Gathering.{put_event};
    ghost use Rattle.walrus_handler_laws.specs.walrus_tree.walrus_builder.Built.{seq_of};

    ghost step = { λ old event new. (new.env ≡ old.env) × (new.seqs ≡ old.seqs) × (new.told.items ≡ put_event (E.tag_type old.env.now) (map seq_of old.seqs.now) event old.told.items) };

    fn start_instr_seq(&mut self, seq: &InstrSeq) {
        put_instrs(
            self.env,
            self.seqs,
            self.told.as_mut_slice(),
            seq.instrs.as_slice(),
        );
    }

    fn end_instr_seq(&mut self, _seq: &InstrSeq) {}

    fn visit_instr(&mut self, _instr: &Instr, _place: &InstrLocId) {}

    fn visit_instr_seq_id(&mut self, _id: &InstrSeqId) {}

    fn visit_local_id(&mut self, _id: &LocalId) {}

    fn visit_memory_id(&mut self, _id: &MemoryId) {}

    fn visit_table_id(&mut self, _id: &TableId) {}

    fn visit_global_id(&mut self, _id: &GlobalId) {}

    fn visit_function_id(&mut self, _id: &FunctionId) {}

    fn visit_data_id(&mut self, _id: &DataId) {}

    fn visit_type_id(&mut self, _id: &TypeId) {}

    fn visit_element_id(&mut self, _id: &ElementId) {}

    fn visit_tag_id(&mut self, _id: &TagId) {}

    fn visit_value(&mut self, _value: &Value) {}
}

// So many sequences that are no handlers.
fn untold(alloc: Global, count: usize) -> Result<Vec<Option<Handler>>, AllocError>
    ensures { IfOk result (λ told. told.items ≡ replicate count None) }
{
    let mut told = Vec::new(alloc);
    for _index in 0..count {
        told.extend_from_slice(&[None])?;
    }
    Ok(told)
}

// Whether an instruction is a legacy `try`.
fn is_try(instr: &Instr) -> bool
    ensures { result ≡ is_try instr.now }
{
    match instr {
        Instr::Try { .. } => true,
        _ => false,
    }
}

// Whether one of these is.
fn has_try(instrs: &[(Instr, InstrLocId)]) -> bool
    ensures { result ≡ has_try instrs.now }
{
    instrs.iter().any(|entry| is_try(&entry.0))
}

// Whether one of these sequences has one.
fn have_try(seqs: &[InstrSeq]) -> bool
    ensures { result ≡ have_try seqs.now }
{
    seqs.iter().any(|seq| has_try(seq.instrs.as_slice()))
}

/// By sequence of a body that forms a tree, the handler that it is, if it is one; a list of none where there is no legacy `try`. Takes time in proportion to the sequences and to the
/// instructions of the tree.
///
/// # Errors
///
/// Want of memory.
pub fn handlers<E: BodyEnv>(
    alloc: Global,
    env: &E,
    body: &FunctionBuilder,
) -> Result<Vec<Option<Handler>>, AllocError>
    requires { IsTree (seqs_of body.now) 0 }
    ensures told { IfOk result (λ hs. (t : IsTree (seqs_of body.now) 0) → AreHandlers (E.tag_type env.now) (seqs_of body.now) (tree_ids t) hs.items) }
    ensures ids { IfOk result (λ hs. length hs.items ≤ 2 ^ 32) }
{
    tree::laws::trees_are_nested();
    tree::laws::trees_are_walked_once();
    if !have_try(body.seqs()) {
        return Ok(Vec::new(alloc));
    }
    let count = body.seqs().len();
    if count > u32::MAX as usize {
        return Err(AllocError);
    }
    let told = untold(alloc, count)?;
    let mut gatherer = Gatherer {
        env,
        seqs: body.seqs(),
        told,
    };
    let start = body.func_body_id();
    dfs_in_order(alloc, &mut gatherer, body, start)?;
    Ok(gatherer.told)
}

/// The same of a body that has no legacy `try` where `any` is false: then its instructions aren't gone through.
///
/// # Errors
///
/// Want of memory.
pub fn handlers_if<E: BodyEnv>(
    alloc: Global,
    env: &E,
    body: &FunctionBuilder,
    any: bool,
) -> Result<Vec<Option<Handler>>, AllocError>
    requires tree { IsTree (seqs_of body.now) 0 }
    requires untried { any ≡ false → have_try (seqs_of body.now) ≡ false }
    ensures told { IfOk result (λ hs. (t : IsTree (seqs_of body.now) 0) → AreHandlers (E.tag_type env.now) (seqs_of body.now) (tree_ids t) hs.items) }
    ensures ids { IfOk result (λ hs. length hs.items ≤ 2 ^ 32) }
{
    if any {
        return handlers(alloc, env, body);
    }
    Ok(Vec::new(alloc))
}
