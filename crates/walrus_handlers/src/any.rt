//! An environment in which each handler has some type.

ghost use Rattle.std.specs.Prelude.{◌≡◌, List, None, Some};
ghost use Rattle.walrus_handler_laws.specs.walrus_tree.walrus_walks.walrus_forms.declared.value.ValType.{ValType as Value};
ghost use Rattle.walrus_handler_laws.specs.walrus_tree.walrus_walks.walrus_instr.declared.seq.InstrSeqType.TheVariants.{Simple};

use walrus_arena::{LocalId, MemoryId, TagId, TypeId};
use walrus_body_env::BodyEnv;
use walrus_instr::InstrSeqType;
use walrus_instr::type_table::ValType;

/// An environment of bodies that answers as another one does, but has a type for each handler of a legacy `try`, whatever it is: a body is
/// never refused for want of one. Once it was read, its handlers are to be given their types.
#[derive(Drop)]
pub struct AnyHandler<'a, E: BodyEnv> {
    env: &'a E,
}

impl<'a, E: BodyEnv> AnyHandler<'a, E> {
    /// It, around this one.
    pub fn new(env: &'a E) -> Self
        ensures params { ⟦<AnyHandler<'a, E> as BodyEnv>⟧.type_params result ≡ E.type_params env.now }
        ensures results { ⟦<AnyHandler<'a, E> as BodyEnv>⟧.type_results result ≡ E.type_results env.now }
        ensures handlers { (params results : List Value) → ⟦<AnyHandler<'a, E> as BodyEnv>⟧.handler_type result params results ≡ Some (Simple None) }
        ensures blocks { ⟦<AnyHandler<'a, E> as BodyEnv>⟧.block_type result ≡ E.block_type env.now }
        ensures locals { ⟦<AnyHandler<'a, E> as BodyEnv>⟧.local_type result ≡ E.local_type env.now }
        ensures tags { ⟦<AnyHandler<'a, E> as BodyEnv>⟧.tag_type result ≡ E.tag_type env.now }
        ensures memories { ⟦<AnyHandler<'a, E> as BodyEnv>⟧.is_wide result ≡ E.is_wide env.now }
        ensures counted { ⟦<AnyHandler<'a, E> as BodyEnv>⟧.has_data_count result ≡ E.has_data_count env.now }
        ensures start { ⟦<AnyHandler<'a, E> as BodyEnv>⟧.code_start result ≡ E.code_start env.now }
    {
        AnyHandler { env }
    }
}

impl<'a, E: BodyEnv> BodyEnv for AnyHandler<'a, E> {
    ghost use Rattle.std.specs.Prelude.{Some, None};
    ghost use Rattle.walrus_handler_laws.specs.walrus_tree.walrus_walks.walrus_instr.declared.seq.InstrSeqType.TheVariants.{Simple};

    ghost type_params = { λ a. E.type_params a.env.now };

    ghost type_results = { λ a. E.type_results a.env.now };

    ghost block_type = { λ a. E.block_type a.env.now };

    ghost handler_type = { λ a params results. Some (Simple None) };

    ghost local_type = { λ a. E.local_type a.env.now };

    ghost tag_type = { λ a. E.tag_type a.env.now };

    ghost is_wide = { λ a. E.is_wide a.env.now };

    ghost has_data_count = { λ a. E.has_data_count a.env.now };

    ghost code_start = { λ a. E.code_start a.env.now };

    fn params(&self, ty: TypeId) -> Option<&[ValType]> {
        self.env.params(ty)
    }

    fn results(&self, ty: TypeId) -> Option<&[ValType]> {
        self.env.results(ty)
    }

    fn block_type(&self, params: &[ValType], results: &[ValType]) -> Option<InstrSeqType> {
        self.env.block_type(params, results)
    }

    fn handler_type(&self, _params: &[ValType], _results: &[ValType]) -> Option<InstrSeqType> {
        Some(InstrSeqType::Simple(None))
    }

    fn local_type(&self, local: LocalId) -> Option<ValType> {
        self.env.local_type(local)
    }

    fn tag_type(&self, tag: TagId) -> Option<TypeId> {
        self.env.tag_type(tag)
    }

    fn is_memory64(&self, memory: MemoryId) -> bool {
        self.env.is_memory64(memory)
    }

    fn has_data_count(&self) -> bool {
        self.env.has_data_count()
    }

    fn code_start(&self) -> u64 {
        self.env.code_start()
    }
}
