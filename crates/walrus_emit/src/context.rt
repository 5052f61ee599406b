//! What is at hand as sections are written.
ghost use Rattle.std.specs.Prelude.{◌≡◌, ◌⊎◌, [], IfErr, IfOk};
ghost use Rattle.wasm_formats.specs.declared.fault.Space.TheVariants as spaces;
ghost use Rattle.walrus_errors.specs.declared.error.ModuleError.TheVariants as refusals;
ghost use Rattle.walrus_index_maps.specs.Views.{indices};
ghost use Rattle.walrus_emit_numbers.specs.Numbers.{functions_at, numbers_of};
ghost use Rattle.walrus_emit_numbers.specs.Order.{AreWithin, IsOrder};
ghost use Rattle.walrus_emit.specs.Settled.{AreEmitted};

use std::alloc::Global;
use walrus_emit_code::Emission;
use walrus_emit_numbers::{BodyFacts, function_order, number};
use walrus_errors::{ModuleError, Result, Space};
use walrus_module::Module;
use walrus_types::{EmittedTypes, IrError, ModuleTypes};

/// What is at hand as sections are written: the module, the numbers of its items, the bytes, what is known of its bodies, and the places
/// of operators.
#[derive(Drop)]
pub struct EmitContext<'a, B> {
    pub(crate) alloc: Global,
    /// The module.
    pub module: &'a Module<B>,
    /// What is known of its bodies, by rising id.
    pub facts: &'a [BodyFacts],
    /// The positions of the bodies' facts, in the order in which they are written.
    pub order: Vec<usize>,
    /// Its types as they are written.
    pub types: EmittedTypes,
    /// What was written.
    pub emission: Emission,
    ghost within: { AreWithin facts.now order.items },
}

fn refusal_of(error: IrError) -> ModuleError
    ensures { (result ≡ refusals.Memory) ⊎ (result ≡ refusals.DeadReference spaces.Type) }
{
    match error {
        IrError::Memory => ModuleError::Memory,
        _ => ModuleError::DeadReference { space: Space::Type },
    }
}

/// The types of a module as they are written.
///
/// # Errors
///
/// `DeadReference` of a type, where a type names what isn't written, or a later one past its group; want of memory.
#[tactic(auto, using(crate::proofs::WholeLemmas::are_emitted))]
pub(crate) fn emitted_types(types: &ModuleTypes) -> Result<EmittedTypes>
    ensures emitted { IfOk result (λ emitted. AreEmitted types.now emitted) }
    ensures refused { IfErr result (λ e. (e ≡ refusals.Memory) ⊎ (e ≡ refusals.DeadReference spaces.Type)) }
{
    match types.emit() {
        Ok(types) => Ok(types),
        Err(error) => Err(refusal_of(error)),
    }
}

impl<'a, B> EmitContext<'a, B> {
    /// All items of a linked module have their numbers, and nothing is written.
    ///
    /// # Errors
    ///
    /// `DeadReference` of a type, where a type names what isn't written, or a later one past its group; want of memory.
    pub fn new(alloc: Global, input: &'a Module<B>, facts: &'a [BodyFacts]) -> Result<Self>
        ensures module { IfOk result (λ cx. cx.«module».now ≡ input.now) }
        ensures facts { IfOk result (λ cx. cx.facts.now ≡ facts.now) }
        ensures types { IfOk result (λ cx. AreEmitted input.now.types cx.types) }
        ensures order { IfOk result (λ cx. IsOrder facts.now cx.order.items) }
        ensures within { IfOk result (λ cx. AreWithin facts.now cx.order.items) }
        ensures numbers { IfOk result (λ cx. indices cx.emission.indices ≡ numbers_of input.now cx.types.ids.items (functions_at facts.now cx.order.items)) }
        ensures written { IfOk result (λ cx. cx.emission.bytes.items ≡ []) }
        ensures locations { IfOk result (λ cx. cx.emission.locations.items ≡ []) }
        ensures ranges { IfOk result (λ cx. cx.emission.ranges.items ≡ []) }
        ensures start { IfOk result (λ cx. cx.emission.code_section_start ≡ 0) }
        ensures refused { IfErr result (λ e. (e ≡ refusals.Memory) ⊎ (e ≡ refusals.DeadReference spaces.Type)) }
    {
        let types = emitted_types(&input.types)?;
        let order = function_order(alloc, facts)?;
        let indices = number(alloc, input, types.ids.as_slice(), facts, order.as_slice())?;
        Ok(EmitContext {
            alloc,
            module: input,
            facts,
            order,
            types,
            emission: Emission {
                indices,
                bytes: Vec::new(alloc),
                locations: Vec::new(alloc),
                ranges: Vec::new(alloc),
                code_section_start: 0,
            },
        })
    }
}
