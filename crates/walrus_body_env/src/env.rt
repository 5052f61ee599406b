//! What a body needs to know of its module.

ghost use Rattle.std.specs.Prelude.{◌≡◌, ℕ, Bool, List, Option, option_copied};
ghost use Rattle.walrus_instr.specs.walrus_forms.declared.value.ValType.{ValType as Value};
ghost use Rattle.walrus_instr.specs.declared.seq.InstrSeqType.{InstrSeqType as BlockTy};

use walrus_arena::{LocalId, MemoryId, TagId, TypeId};
use walrus_instr::InstrSeqType;
use walrus_instr::type_table::ValType;

/// What a body needs to know of its module. Each answer is a function of the module.
pub trait BodyEnv {
    /// The parameters of a function type.
    ghost type_params: { Self → ℕ → Option (List Value) };

    /// The results of a function type.
    ghost type_results: { Self → ℕ → Option (List Value) };

    /// The block type that a written one picks.
    ghost block_type: { Self → List Value → List Value → Option BlockTy };

    /// The type of a handler's sequence.
    ghost handler_type: { Self → List Value → List Value → Option BlockTy };

    /// The type of a local.
    ghost local_type: { Self → ℕ → Option Value };

    /// The function type of a tag.
    ghost tag_type: { Self → ℕ → Option ℕ };

    /// Whether a memory has 64-bit addresses.
    ghost is_wide: { Self → ℕ → Bool };

    /// Whether the file has a data count section.
    ghost has_data_count: { Self → Bool };

    /// Where the contents of the code section begin.
    ghost code_start: { Self → ℕ };

    /// The parameters of a type; none where it is no function type.
    fn params(&self, ty: TypeId) -> Option<&[ValType]>
        ensures { option_copied result ≡ type_params self.now ty };

    /// The results of a type; none where it is no function type.
    fn results(&self, ty: TypeId) -> Option<&[ValType]>
        ensures { option_copied result ≡ type_results self.now ty };

    /// The block type that a written one of these parameters and results picks: the short one where there are no parameters and at
    /// most one result, or else that of the latest final function type without supertype of just these lists among those of the file;
    /// none where there is none. A type that was added for a handler is never picked.
    fn block_type(&self, params: &[ValType], results: &[ValType]) -> Option<InstrSeqType>
        ensures { result ≡ block_type self.now params.now results.now };

    /// The type of a handler's sequence of these parameters and results, also one that was added for a handler; none where
    /// there is none.
    fn handler_type(&self, params: &[ValType], results: &[ValType]) -> Option<InstrSeqType>
        ensures { result ≡ handler_type self.now params.now results.now };

    /// The type of a local; none where there is no such local.
    fn local_type(&self, local: LocalId) -> Option<ValType>
        ensures { result ≡ local_type self.now local };

    /// The function type of a tag; none where there is no such tag.
    fn tag_type(&self, tag: TagId) -> Option<TypeId>
        ensures { result ≡ tag_type self.now tag };

    /// Whether a memory has 64-bit addresses.
    fn is_memory64(&self, memory: MemoryId) -> bool
        ensures { result ≡ is_wide self.now memory };

    /// Whether the file has a data count section, as a body that names a data segment asks.
    fn has_data_count(&self) -> bool
        ensures { result ≡ has_data_count self.now };

    /// Where the contents of the code section begin: its function count. Places of operators count from there.
    fn code_start(&self) -> u64
        ensures { result ≡ code_start self.now };
}
