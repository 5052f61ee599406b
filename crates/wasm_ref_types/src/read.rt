//! Types are read (Core Specification, binary format: types).

ghost use Rattle.std.specs.Prelude.{◌≡◌, IfOk};
ghost use Rattle.wasm_reader.specs.Reading.{Reads, plain};
ghost use Rattle.wasm_ref_types.specs.Heaps.{HasSmallIndex};
ghost use Rattle.wasm_ref_types.specs.ReadTypes.{abstract_byte, is_basic, heap_at, index_at, long_at, shared_at};

use crate::heap::{AbstractHeapType, HeapType};
use crate::index::UnpackedIndex;
use crate::reference::RefType;
use crate::value::ValType;
use std::alloc::Global;
use wasm_reader::{BinaryReader, Error, ErrorKind, FromReader, Result, WasmFeatures};

const SHARED: u8 = 0x65;

impl AbstractHeapType {
    fn of_byte(byte: u8) -> Option<AbstractHeapType>
        ensures { result ≡ abstract_byte byte }
    {
        match byte {
            0x70 => Some(AbstractHeapType::Func),
            0x6f => Some(AbstractHeapType::Extern),
            0x6e => Some(AbstractHeapType::Any),
            0x71 => Some(AbstractHeapType::None),
            0x72 => Some(AbstractHeapType::NoExtern),
            0x73 => Some(AbstractHeapType::NoFunc),
            0x6d => Some(AbstractHeapType::Eq),
            0x6b => Some(AbstractHeapType::Struct),
            0x6a => Some(AbstractHeapType::Array),
            0x6c => Some(AbstractHeapType::I31),
            0x69 => Some(AbstractHeapType::Exn),
            0x74 => Some(AbstractHeapType::NoExn),
            _ => None,
        }
    }

    // It stands whatever features are on.
    fn is_basic(&self) -> bool
        ensures { result ≡ is_basic self.now }
    {
        matches!(
            self,
            AbstractHeapType::Func | AbstractHeapType::Extern | AbstractHeapType::Exn
        )
    }
}

impl<'a> FromReader<'a> for AbstractHeapType {
    ghost use Rattle.std.specs.Prelude.{false};
    ghost use Rattle.wasm_ref_types.specs.declared.heap.AbstractHeapType.{AbstractHeapType};
    ghost use Rattle.wasm_ref_types.specs.ReadTypes.{abstract_at};
    ghost use Rattle.wasm_ref_types.specs.TypesFinal.{abstract_begins};

    ghost Seen = { AbstractHeapType };

    ghost seen = { λ ty. ty };

    ghost reading = { abstract_at };

    ghost takes_memory = { false };

    #[tactic(auto, unfolding(crate::specs::ReadTypes::abstract_at))]
    fn from_reader(_alloc: Global, reader: &mut BinaryReader<'a>) -> Result<Self> {
        let offset = reader.original_position();
        let byte = reader.read_u8()?;
        let Some(ty) = AbstractHeapType::of_byte(byte) else {
            return Err(Error::new(ErrorKind::BadByte, offset));
        };
        if !ty.is_basic() && !reader.features().gc_types() {
            return Err(Error::new(ErrorKind::Feature(WasmFeatures::GC_TYPES), offset));
        }
        Ok(ty)
    }

    ghost is_final = { λ features. (abstract_begins features).final };
}

impl HeapType {
    #[tactic(auto, unfolding(crate::specs::ReadTypes::shared_at))]
    fn read_shared(alloc: Global, reader: &mut BinaryReader<'_>) -> Result<HeapType>
        ensures reads { Reads (shared_at reader.old.window.features) plain reader.old reader.new result }
        ensures small { IfOk result (λ ty. HasSmallIndex ty) }
    {
        let offset = reader.original_position();
        reader.read_u8()?;
        if !reader.features().shared_everything_threads() {
            let kind = ErrorKind::Feature(WasmFeatures::SHARED_EVERYTHING_THREADS);
            return Err(Error::new(kind, offset));
        }
        let ty = AbstractHeapType::from_reader(alloc, reader)?;
        Ok(HeapType::Abstract { shared: true, ty })
    }

    #[tactic(auto, unfolding(crate::specs::ReadTypes::index_at))]
    fn read_index(reader: &mut BinaryReader<'_>) -> Result<HeapType>
        ensures reads { Reads index_at plain reader.old reader.new result }
        ensures small { IfOk result (λ ty. HasSmallIndex ty) }
    {
        let offset = reader.original_position();
        let index = reader.read_var_s33()?;
        if index < 0 {
            return Err(Error::new(ErrorKind::BadByte, offset));
        }
        if index >= 1 << 20 {
            return Err(Error::new(ErrorKind::Limit, offset));
        }
        Ok(HeapType::Concrete(UnpackedIndex::Module(index as u32)))
    }

    #[tactic(auto, unfolding(crate::specs::ReadTypes::heap_at))]
    fn read(alloc: Global, reader: &mut BinaryReader<'_>) -> Result<HeapType>
        ensures reads { Reads (heap_at reader.old.window.features) plain reader.old reader.new result }
        ensures small { IfOk result (λ ty. HasSmallIndex ty) }
    {
        let byte = reader.peek()?;
        if AbstractHeapType::of_byte(byte).is_some() {
            let ty = AbstractHeapType::from_reader(alloc, reader)?;
            return Ok(HeapType::Abstract { shared: false, ty });
        }
        if byte == SHARED {
            return HeapType::read_shared(alloc, reader);
        }
        HeapType::read_index(reader)
    }
}

impl<'a> FromReader<'a> for HeapType {
    ghost use Rattle.std.specs.Prelude.{false};
    ghost use Rattle.wasm_ref_types.specs.declared.heap.HeapType.{HeapType};
    ghost use Rattle.wasm_ref_types.specs.ReadTypes.{heap_at};
    ghost use Rattle.wasm_ref_types.specs.TypesFinal.{heap_begins};

    ghost Seen = { HeapType };

    ghost seen = { λ ty. ty };

    ghost reading = { heap_at };

    ghost takes_memory = { false };

    fn from_reader(alloc: Global, reader: &mut BinaryReader<'a>) -> Result<Self> {
        HeapType::read(alloc, reader)
    }

    ghost is_final = { λ features. (heap_begins features).final };
}

impl RefType {
    #[tactic(auto, unfolding(crate::specs::ReadTypes::long_at))]
    fn read_long(alloc: Global, nullable: bool, reader: &mut BinaryReader<'_>) -> Result<RefType>
        ensures { Reads (long_at reader.old.window.features nullable) plain reader.old reader.new result }
    {
        let offset = reader.original_position();
        reader.read_u8()?;
        if !reader.features().gc_types() {
            return Err(Error::new(ErrorKind::Feature(WasmFeatures::GC_TYPES), offset));
        }
        let heap_type = HeapType::read(alloc, reader)?;
        Ok(RefType::new(nullable, heap_type).unwrap())
    }
}

impl<'a> FromReader<'a> for RefType {
    ghost use Rattle.std.specs.Prelude.{false};
    ghost use Rattle.wasm_ref_types.specs.Reference.{Reference};
    ghost use Rattle.wasm_ref_types.specs.ReadTypes.{reference_at};
    ghost use Rattle.wasm_ref_types.specs.TypesFinal.{reference_begins};

    ghost Seen = { Reference };

    ghost seen = { λ ty. ty };

    ghost reading = { reference_at };

    ghost takes_memory = { false };

    #[tactic(auto, unfolding(crate::specs::ReadTypes::reference_at))]
    fn from_reader(alloc: Global, reader: &mut BinaryReader<'a>) -> Result<Self> {
        match reader.peek()? {
            0x63 => RefType::read_long(alloc, true, reader),
            0x64 => RefType::read_long(alloc, false, reader),
            SHARED => {
                let heap_type = HeapType::read_shared(alloc, reader)?;
                Ok(RefType::new(true, heap_type).unwrap())
            }
            _ => {
                let ty = AbstractHeapType::from_reader(alloc, reader)?;
                Ok(RefType::of_abstract(true, false, ty))
            }
        }
    }

    ghost is_final = { λ features. (reference_begins features).final };
}

impl<'a> FromReader<'a> for ValType {
    ghost use Rattle.std.specs.Prelude.{false};
    ghost use Rattle.wasm_ref_types.specs.declared.value.ValType.{ValType};
    ghost use Rattle.wasm_ref_types.specs.ReadTypes.{value_at};
    ghost use Rattle.wasm_ref_types.specs.TypesFinal.{value_begins};

    ghost Seen = { ValType };

    ghost seen = { λ ty. ty };

    ghost reading = { value_at };

    ghost takes_memory = { false };

    #[tactic(auto, unfolding(crate::specs::ReadTypes::value_at, crate::specs::ReadTypes::plain_at))]
    fn from_reader(alloc: Global, reader: &mut BinaryReader<'a>) -> Result<Self> {
        let ty = match reader.peek()? {
            0x7f => ValType::I32,
            0x7e => ValType::I64,
            0x7d => ValType::F32,
            0x7c => ValType::F64,
            0x7b => ValType::V128,
            _ => return Ok(ValType::Ref(RefType::from_reader(alloc, reader)?)),
        };
        reader.read_u8()?;
        Ok(ty)
    }

    ghost is_final = { λ features. (value_begins features).final };
}
