//! Plain reference, structure and array instructions, one call each.
ghost use Rattle.walrus_builder.specs.Built.{pushes, Edits};

use crate::seq_builder::InstrSeqBuilder;
use std::alloc::AllocError;
use walrus_arena::{DataId, ElementId, FunctionId, TypeId};
use walrus_walks::instr::Instr;
use walrus_walks::type_table::RefType;

impl InstrSeqBuilder {
    /// Appends `ref.null`.
    ///
    /// # Errors
    ///
    /// Want of memory. The sequences stay as they were.
    pub fn ref_null(&mut self, ty: RefType) -> Result<(), AllocError>
        ensures { Edits self.old (pushes (Instr.RefNull ty)) result self.new }
    {
        self.instr(Instr::RefNull { ty })
    }

    /// Appends `ref.is_null`.
    ///
    /// # Errors
    ///
    /// Want of memory. The sequences stay as they were.
    pub fn ref_is_null(&mut self) -> Result<(), AllocError>
        ensures { Edits self.old (pushes Instr.RefIsNull) result self.new }
    {
        self.instr(Instr::RefIsNull)
    }

    /// Appends `ref.func`.
    ///
    /// # Errors
    ///
    /// Want of memory. The sequences stay as they were.
    pub fn ref_func(&mut self, func: FunctionId) -> Result<(), AllocError>
        ensures { Edits self.old (pushes (Instr.RefFunc func)) result self.new }
    {
        self.instr(Instr::RefFunc { func })
    }

    /// Appends `ref.eq`.
    ///
    /// # Errors
    ///
    /// Want of memory. The sequences stay as they were.
    pub fn ref_eq(&mut self) -> Result<(), AllocError>
        ensures { Edits self.old (pushes Instr.RefEq) result self.new }
    {
        self.instr(Instr::RefEq)
    }

    /// Appends `ref.as_non_null`.
    ///
    /// # Errors
    ///
    /// Want of memory. The sequences stay as they were.
    pub fn ref_as_non_null(&mut self) -> Result<(), AllocError>
        ensures { Edits self.old (pushes Instr.RefAsNonNull) result self.new }
    {
        self.instr(Instr::RefAsNonNull)
    }

    /// Appends `ref.test`.
    ///
    /// # Errors
    ///
    /// Want of memory. The sequences stay as they were.
    pub fn ref_test(&mut self, ty: RefType) -> Result<(), AllocError>
        ensures { Edits self.old (pushes (Instr.RefTest ty)) result self.new }
    {
        self.instr(Instr::RefTest { ty })
    }

    /// Appends `ref.cast`.
    ///
    /// # Errors
    ///
    /// Want of memory. The sequences stay as they were.
    pub fn ref_cast(&mut self, ty: RefType) -> Result<(), AllocError>
        ensures { Edits self.old (pushes (Instr.RefCast ty)) result self.new }
    {
        self.instr(Instr::RefCast { ty })
    }

    /// Appends `ref.i31`.
    ///
    /// # Errors
    ///
    /// Want of memory. The sequences stay as they were.
    pub fn ref_i31(&mut self) -> Result<(), AllocError>
        ensures { Edits self.old (pushes Instr.RefI31) result self.new }
    {
        self.instr(Instr::RefI31)
    }

    /// Appends `i31.get_s`.
    ///
    /// # Errors
    ///
    /// Want of memory. The sequences stay as they were.
    pub fn i31_get_s(&mut self) -> Result<(), AllocError>
        ensures { Edits self.old (pushes Instr.I31GetS) result self.new }
    {
        self.instr(Instr::I31GetS)
    }

    /// Appends `i31.get_u`.
    ///
    /// # Errors
    ///
    /// Want of memory. The sequences stay as they were.
    pub fn i31_get_u(&mut self) -> Result<(), AllocError>
        ensures { Edits self.old (pushes Instr.I31GetU) result self.new }
    {
        self.instr(Instr::I31GetU)
    }

    /// Appends `any.convert_extern`.
    ///
    /// # Errors
    ///
    /// Want of memory. The sequences stay as they were.
    pub fn any_convert_extern(&mut self) -> Result<(), AllocError>
        ensures { Edits self.old (pushes Instr.AnyConvertExtern) result self.new }
    {
        self.instr(Instr::AnyConvertExtern)
    }

    /// Appends `extern.convert_any`.
    ///
    /// # Errors
    ///
    /// Want of memory. The sequences stay as they were.
    pub fn extern_convert_any(&mut self) -> Result<(), AllocError>
        ensures { Edits self.old (pushes Instr.ExternConvertAny) result self.new }
    {
        self.instr(Instr::ExternConvertAny)
    }

    /// Appends `struct.new`.
    ///
    /// # Errors
    ///
    /// Want of memory. The sequences stay as they were.
    pub fn struct_new(&mut self, ty: TypeId) -> Result<(), AllocError>
        ensures { Edits self.old (pushes (Instr.StructNew ty)) result self.new }
    {
        self.instr(Instr::StructNew { ty })
    }

    /// Appends `struct.new_default`.
    ///
    /// # Errors
    ///
    /// Want of memory. The sequences stay as they were.
    pub fn struct_new_default(&mut self, ty: TypeId) -> Result<(), AllocError>
        ensures { Edits self.old (pushes (Instr.StructNewDefault ty)) result self.new }
    {
        self.instr(Instr::StructNewDefault { ty })
    }

    /// Appends `struct.get`.
    ///
    /// # Errors
    ///
    /// Want of memory. The sequences stay as they were.
    pub fn struct_get(&mut self, ty: TypeId, field: u32) -> Result<(), AllocError>
        ensures { Edits self.old (pushes (Instr.StructGet ty field)) result self.new }
    {
        self.instr(Instr::StructGet { ty, field })
    }

    /// Appends `struct.get_s`.
    ///
    /// # Errors
    ///
    /// Want of memory. The sequences stay as they were.
    pub fn struct_get_s(&mut self, ty: TypeId, field: u32) -> Result<(), AllocError>
        ensures { Edits self.old (pushes (Instr.StructGetS ty field)) result self.new }
    {
        self.instr(Instr::StructGetS { ty, field })
    }

    /// Appends `struct.get_u`.
    ///
    /// # Errors
    ///
    /// Want of memory. The sequences stay as they were.
    pub fn struct_get_u(&mut self, ty: TypeId, field: u32) -> Result<(), AllocError>
        ensures { Edits self.old (pushes (Instr.StructGetU ty field)) result self.new }
    {
        self.instr(Instr::StructGetU { ty, field })
    }

    /// Appends `struct.set`.
    ///
    /// # Errors
    ///
    /// Want of memory. The sequences stay as they were.
    pub fn struct_set(&mut self, ty: TypeId, field: u32) -> Result<(), AllocError>
        ensures { Edits self.old (pushes (Instr.StructSet ty field)) result self.new }
    {
        self.instr(Instr::StructSet { ty, field })
    }

    /// Appends `array.new`.
    ///
    /// # Errors
    ///
    /// Want of memory. The sequences stay as they were.
    pub fn array_new(&mut self, ty: TypeId) -> Result<(), AllocError>
        ensures { Edits self.old (pushes (Instr.ArrayNew ty)) result self.new }
    {
        self.instr(Instr::ArrayNew { ty })
    }

    /// Appends `array.new_default`.
    ///
    /// # Errors
    ///
    /// Want of memory. The sequences stay as they were.
    pub fn array_new_default(&mut self, ty: TypeId) -> Result<(), AllocError>
        ensures { Edits self.old (pushes (Instr.ArrayNewDefault ty)) result self.new }
    {
        self.instr(Instr::ArrayNewDefault { ty })
    }

    /// Appends `array.new_fixed`.
    ///
    /// # Errors
    ///
    /// Want of memory. The sequences stay as they were.
    pub fn array_new_fixed(&mut self, ty: TypeId, size: u32) -> Result<(), AllocError>
        ensures { Edits self.old (pushes (Instr.ArrayNewFixed ty size)) result self.new }
    {
        self.instr(Instr::ArrayNewFixed { ty, size })
    }

    /// Appends `array.new_data`.
    ///
    /// # Errors
    ///
    /// Want of memory. The sequences stay as they were.
    pub fn array_new_data(&mut self, ty: TypeId, data: DataId) -> Result<(), AllocError>
        ensures { Edits self.old (pushes (Instr.ArrayNewData ty «data»)) result self.new }
    {
        self.instr(Instr::ArrayNewData { ty, data })
    }

    /// Appends `array.new_elem`.
    ///
    /// # Errors
    ///
    /// Want of memory. The sequences stay as they were.
    pub fn array_new_elem(&mut self, ty: TypeId, elem: ElementId) -> Result<(), AllocError>
        ensures { Edits self.old (pushes (Instr.ArrayNewElem ty elem)) result self.new }
    {
        self.instr(Instr::ArrayNewElem { ty, elem })
    }

    /// Appends `array.get`.
    ///
    /// # Errors
    ///
    /// Want of memory. The sequences stay as they were.
    pub fn array_get(&mut self, ty: TypeId) -> Result<(), AllocError>
        ensures { Edits self.old (pushes (Instr.ArrayGet ty)) result self.new }
    {
        self.instr(Instr::ArrayGet { ty })
    }

    /// Appends `array.get_s`.
    ///
    /// # Errors
    ///
    /// Want of memory. The sequences stay as they were.
    pub fn array_get_s(&mut self, ty: TypeId) -> Result<(), AllocError>
        ensures { Edits self.old (pushes (Instr.ArrayGetS ty)) result self.new }
    {
        self.instr(Instr::ArrayGetS { ty })
    }

    /// Appends `array.get_u`.
    ///
    /// # Errors
    ///
    /// Want of memory. The sequences stay as they were.
    pub fn array_get_u(&mut self, ty: TypeId) -> Result<(), AllocError>
        ensures { Edits self.old (pushes (Instr.ArrayGetU ty)) result self.new }
    {
        self.instr(Instr::ArrayGetU { ty })
    }

    /// Appends `array.set`.
    ///
    /// # Errors
    ///
    /// Want of memory. The sequences stay as they were.
    pub fn array_set(&mut self, ty: TypeId) -> Result<(), AllocError>
        ensures { Edits self.old (pushes (Instr.ArraySet ty)) result self.new }
    {
        self.instr(Instr::ArraySet { ty })
    }

    /// Appends `array.len`.
    ///
    /// # Errors
    ///
    /// Want of memory. The sequences stay as they were.
    pub fn array_len(&mut self) -> Result<(), AllocError>
        ensures { Edits self.old (pushes Instr.ArrayLen) result self.new }
    {
        self.instr(Instr::ArrayLen)
    }

    /// Appends `array.fill`.
    ///
    /// # Errors
    ///
    /// Want of memory. The sequences stay as they were.
    pub fn array_fill(&mut self, ty: TypeId) -> Result<(), AllocError>
        ensures { Edits self.old (pushes (Instr.ArrayFill ty)) result self.new }
    {
        self.instr(Instr::ArrayFill { ty })
    }

    /// Appends `array.copy`.
    ///
    /// # Errors
    ///
    /// Want of memory. The sequences stay as they were.
    pub fn array_copy(&mut self, src: TypeId, dst: TypeId) -> Result<(), AllocError>
        ensures { Edits self.old (pushes (Instr.ArrayCopy src dst)) result self.new }
    {
        self.instr(Instr::ArrayCopy { src, dst })
    }

    /// Appends `array.init_data`.
    ///
    /// # Errors
    ///
    /// Want of memory. The sequences stay as they were.
    pub fn array_init_data(&mut self, ty: TypeId, data: DataId) -> Result<(), AllocError>
        ensures { Edits self.old (pushes (Instr.ArrayInitData ty «data»)) result self.new }
    {
        self.instr(Instr::ArrayInitData { ty, data })
    }

    /// Appends `array.init_elem`.
    ///
    /// # Errors
    ///
    /// Want of memory. The sequences stay as they were.
    pub fn array_init_elem(&mut self, ty: TypeId, elem: ElementId) -> Result<(), AllocError>
        ensures { Edits self.old (pushes (Instr.ArrayInitElem ty elem)) result self.new }
    {
        self.instr(Instr::ArrayInitElem { ty, elem })
    }
}
