//! What a body's parser sees of its module.

ghost use Rattle.std.specs.Prelude.{◌≡◌, option_copied};
ghost use Rattle.walrus_index_maps.specs.Views.{ids};
ghost use Rattle.walrus_body_steps.specs.walrus_body_rules.Sights.{Sight};

use walrus_arena::{FunctionId, MemoryId, TagId, TypeId};
use walrus_body_env::BodyEnv;
use walrus_forms::ValType;
use walrus_index_maps::IndicesToIds;
use walrus_instr::InstrSeqType;

/// What the parser of a function's body sees of its module.
pub trait Scope {
    /// All of it.
    ghost sight: { Self → Sight };

    /// What indices name.
    fn indices(&self) -> &IndicesToIds
        ensures { ids result.now ≡ (sight self.now).ids };

    /// The function that the body is of.
    fn function(&self) -> FunctionId
        ensures { result ≡ (sight self.now).function };

    /// The parameters of a type; none where it is no function type.
    fn params(&self, ty: TypeId) -> Option<&[ValType]>
        ensures { option_copied result ≡ (sight self.now).params ty };

    /// The results of a type; none where it is no function type.
    fn results(&self, ty: TypeId) -> Option<&[ValType]>
        ensures { option_copied result ≡ (sight self.now).results ty };

    /// The type of a block that is written with these parameters and results; none where there is none.
    fn block_type(&self, params: &[ValType], results: &[ValType]) -> Option<InstrSeqType>
        ensures { result ≡ (sight self.now).block_type params.now results.now };

    /// The type of a handler's sequence of these parameters and results; none where there is none.
    fn handler_type(&self, params: &[ValType], results: &[ValType]) -> Option<InstrSeqType>
        ensures { result ≡ (sight self.now).handler_type params.now results.now };

    /// The function type of a tag; none where there is no such tag.
    fn tag_type(&self, tag: TagId) -> Option<TypeId>
        ensures { result ≡ (sight self.now).tag_type tag };

    /// Whether a memory has 64-bit addresses.
    fn is_memory64(&self, memory: MemoryId) -> bool
        ensures { result ≡ (sight self.now).is_wide memory };

    /// Whether the file has a data count section.
    fn has_data_count(&self) -> bool
        ensures { result ≡ (sight self.now).has_data_count };
}

/// The environment of a function's body, and what indices name in it.
#[derive(Drop)]
pub struct Operands<'a, E: BodyEnv> {
    env: &'a E,
    indices: &'a IndicesToIds,
    function: FunctionId,
}

impl<'a, E: BodyEnv> Operands<'a, E> {
    /// Those of this function's body.
    pub fn new(env: &'a E, indices: &'a IndicesToIds, function: FunctionId) -> Self
        ensures { ⟦<Operands<'a, E> as Scope>⟧.sight result ≡ record { ids = ids indices.now; function = function; params = E.type_params env.now; results = E.type_results env.now; block_type = E.block_type env.now; handler_type = E.handler_type env.now; tag_type = E.tag_type env.now; is_wide = E.is_wide env.now; has_data_count = E.has_data_count env.now } }
    {
        Operands {
            env,
            indices,
            function,
        }
    }
}

impl<'a, E: BodyEnv> Scope for Operands<'a, E> {
    ghost sight = { λ o. record { ids = ids o.indices.now; function = o.function; params = E.type_params o.env.now; results = E.type_results o.env.now; block_type = E.block_type o.env.now; handler_type = E.handler_type o.env.now; tag_type = E.tag_type o.env.now; is_wide = E.is_wide o.env.now; has_data_count = E.has_data_count o.env.now } };

    fn indices(&self) -> &IndicesToIds {
        self.indices
    }

    fn function(&self) -> FunctionId {
        self.function
    }

    fn params(&self, ty: TypeId) -> Option<&[ValType]> {
        self.env.params(ty)
    }

    fn results(&self, ty: TypeId) -> Option<&[ValType]> {
        self.env.results(ty)
    }

    fn block_type(&self, params: &[ValType], results: &[ValType]) -> Option<InstrSeqType> {
        self.env.block_type(params, results)
    }

    fn handler_type(&self, params: &[ValType], results: &[ValType]) -> Option<InstrSeqType> {
        self.env.handler_type(params, results)
    }

    fn tag_type(&self, tag: TagId) -> Option<TypeId> {
        self.env.tag_type(tag)
    }

    fn is_memory64(&self, memory: MemoryId) -> bool {
        self.env.is_memory64(memory)
    }

    fn has_data_count(&self) -> bool {
        self.env.has_data_count()
    }
}
