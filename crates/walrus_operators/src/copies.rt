//! Copies of operators.

ghost use Rattle.std.specs.Prelude.{◌≡◌, true, MatchResult};
ghost use Rattle.wasm_operators.specs.Kinds.{takes_memory};
ghost use Rattle.walrus_operators.specs.Immediates.{kind_is};
ghost use Rattle.walrus_operators.specs.Copies.{IsImmediatesCopy, IsOperatorCopy};

use crate::immediates::Immediates;
use crate::operator::Operator;
use std::alloc::AllocError;

impl Immediates {
    /// Equal immediates.
    ///
    /// # Errors
    ///
    /// Want of memory, where they hold a list.
    pub fn clone(&self) -> Result<Self, AllocError>
        ensures { MatchResult result (λ copy. IsImmediatesCopy self.now copy) (λ _. takes_memory (kind_is self.now) ≡ true) }
    {
        match self {
            Immediates::Bare => Ok(Immediates::Bare),
            Immediates::Block(ty) => Ok(Immediates::Block(*ty)),
            Immediates::TryTable(ty, clauses) => {
                Ok(Immediates::TryTable(*ty, got!(clauses.clone())))
            }
            Immediates::Tag(n) => Ok(Immediates::Tag(*n)),
            Immediates::Label(n) => Ok(Immediates::Label(*n)),
            Immediates::BrTable(labels, otherwise) => {
                Ok(Immediates::BrTable(got!(labels.clone()), *otherwise))
            }
            Immediates::Function(n) => Ok(Immediates::Function(*n)),
            Immediates::TypeTable(m, n) => Ok(Immediates::TypeTable(*m, *n)),
            Immediates::Type(n) => Ok(Immediates::Type(*n)),
            Immediates::Select(types) => Ok(Immediates::Select(got!(types.clone()))),
            Immediates::Local(n) => Ok(Immediates::Local(*n)),
            Immediates::Global(n) => Ok(Immediates::Global(*n)),
            Immediates::Table(n) => Ok(Immediates::Table(*n)),
            Immediates::Access(access) => Ok(Immediates::Access(*access)),
            Immediates::Memory(n) => Ok(Immediates::Memory(*n)),
            Immediates::I32(n) => Ok(Immediates::I32(*n)),
            Immediates::I64(n) => Ok(Immediates::I64(*n)),
            Immediates::F32(x) => Ok(Immediates::F32(*x)),
            Immediates::F64(x) => Ok(Immediates::F64(*x)),
            Immediates::Heap(ty) => Ok(Immediates::Heap(*ty)),
            Immediates::DataMemory(m, n) => Ok(Immediates::DataMemory(*m, *n)),
            Immediates::Data(n) => Ok(Immediates::Data(*n)),
            Immediates::MemoryMemory(m, n) => Ok(Immediates::MemoryMemory(*m, *n)),
            Immediates::ElementTable(m, n) => Ok(Immediates::ElementTable(*m, *n)),
            Immediates::Element(n) => Ok(Immediates::Element(*n)),
            Immediates::TableTable(m, n) => Ok(Immediates::TableTable(*m, *n)),
            Immediates::TypeNumber(m, n) => Ok(Immediates::TypeNumber(*m, *n)),
            Immediates::TypeData(m, n) => Ok(Immediates::TypeData(*m, *n)),
            Immediates::TypeElement(m, n) => Ok(Immediates::TypeElement(*m, *n)),
            Immediates::TypeType(m, n) => Ok(Immediates::TypeType(*m, *n)),
            Immediates::Cast(flags, label, from, to) => {
                Ok(Immediates::Cast(*flags, *label, *from, *to))
            }
            Immediates::Vector(bytes) => Ok(Immediates::Vector(*bytes)),
            Immediates::Lane(lane) => Ok(Immediates::Lane(*lane)),
            Immediates::AccessLane(access, lane) => Ok(Immediates::AccessLane(*access, *lane)),
            Immediates::Zero => Ok(Immediates::Zero),
        }
    }
}

impl Operator {
    /// An equal operator.
    ///
    /// # Errors
    ///
    /// Want of memory, where it holds a list.
    pub fn clone(&self) -> Result<Self, AllocError>
        ensures { MatchResult result (λ copy. IsOperatorCopy self.now copy) (λ _. takes_memory (kind_is self.now.immediates) ≡ true) }
    {
        Ok(Operator {
            code: self.code,
            immediates: got!(self.immediates.clone()),
        })
    }
}
