//! Each call on a collection is an edit that leaves the items' own ids, whatever it answers: so an item keeps the id by which it
//! is found until it is deleted, while no whole item is exchanged.
ghost use Rattle.std.specs.Prelude.{ℕ};
ghost use Rattle.walrus_arena.specs.Arena.{IsLive};
ghost use Rattle.walrus_module_items.specs.declared.import.Import.{Import};
ghost use Rattle.walrus_module_items.specs.declared.export.Export.{Export};
ghost use Rattle.walrus_module_items.specs.declared.function.Function.{Function};
ghost use Rattle.walrus_module_items.specs.declared.table.Table.{Table};
ghost use Rattle.walrus_module_items.specs.declared.memory.Memory.{Memory};
ghost use Rattle.walrus_module_items.specs.declared.global.Global.{Global};
ghost use Rattle.walrus_module_items.specs.declared.tag.Tag.{Tag};
ghost use Rattle.walrus_module_items.specs.declared.data.Data.{Data};
ghost use Rattle.walrus_module_items.specs.declared.element.Element.{Element};
ghost use Rattle.walrus_linked.specs.OwnIds.{Edit};

use std::alloc::AllocError;
use walrus_arena::{
    DataId, ElementId, ExportId, FunctionId, GlobalId, Id, ImportId, MemoryId, TableId, TagId,
    Tombstone, TypeId,
};
use walrus_collections::{
    Collection, ModuleData, ModuleElements, ModuleExports, ModuleFunctions, ModuleGlobals,
    ModuleImports, ModuleMemories, ModuleTables, ModuleTags,
};
use walrus_forms::{RefType, ValType};
use walrus_instr::ConstExpr;
use walrus_module_items::local_function::LocalFunction;
use walrus_module_items::{DataKind, ElementItems, ElementKind, ExportItem, ImportKind};

/// Deleting an item.
pub fn delete<T: Tombstone + Drop, S>(items: &mut Collection<T, S>, id: Id<S>)
    requires { IsLive items.old id }
    ensures { (id_of : T → ℕ) → Edit id_of items.old items.new }
{
    items.delete(id)
}

/// Adding an import.
pub fn add_import(
    imports: &mut ModuleImports,
    module: &str,
    name: &str,
    kind: ImportKind,
) -> Result<ImportId, AllocError>
    ensures { Edit (λ (x : Import). x.id) imports.old imports.new }
{
    imports.add(module, name, kind)
}

/// Adding an export.
pub fn add_export(
    exports: &mut ModuleExports,
    name: &str,
    item: ExportItem,
) -> Result<ExportId, AllocError>
    ensures { Edit (λ (x : Export). x.id) exports.old exports.new }
{
    exports.add(name, item)
}

/// Adding a function that an import brings.
pub fn add_imported_function(
    functions: &mut ModuleFunctions,
    ty: TypeId,
    import: ImportId,
) -> Result<FunctionId, AllocError>
    ensures { Edit (λ (x : Function). x.id) functions.old functions.new }
{
    functions.add_import(ty, import)
}

/// Adding a function with a body.
pub fn add_function(
    functions: &mut ModuleFunctions,
    function: LocalFunction,
) -> Result<FunctionId, AllocError>
    ensures { Edit (λ (x : Function). x.id) functions.old functions.new }
{
    functions.add_local(function)
}

/// Adding a table that an import brings.
pub fn add_imported_table(
    tables: &mut ModuleTables,
    table64: bool,
    initial: u64,
    maximum: Option<u64>,
    element_ty: RefType,
    import: ImportId,
) -> Result<TableId, AllocError>
    ensures { Edit (λ (x : Table). x.id) tables.old tables.new }
{
    tables.add_import(table64, initial, maximum, element_ty, import)
}

/// Adding a table.
pub fn add_table(
    tables: &mut ModuleTables,
    table64: bool,
    initial: u64,
    maximum: Option<u64>,
    element_ty: RefType,
    init: Option<ConstExpr>,
) -> Result<TableId, AllocError>
    ensures { Edit (λ (x : Table). x.id) tables.old tables.new }
{
    tables.add_local_with_init(table64, initial, maximum, element_ty, init)
}

/// Adding a memory that an import brings.
pub fn add_imported_memory(
    memories: &mut ModuleMemories,
    shared: bool,
    memory64: bool,
    initial: u64,
    maximum: Option<u64>,
    page_size_log2: Option<u32>,
    import: ImportId,
) -> Result<MemoryId, AllocError>
    ensures { Edit (λ (x : Memory). x.id) memories.old memories.new }
{
    memories.add_import(shared, memory64, initial, maximum, page_size_log2, import)
}

/// Adding a memory.
pub fn add_memory(
    memories: &mut ModuleMemories,
    shared: bool,
    memory64: bool,
    initial: u64,
    maximum: Option<u64>,
    page_size_log2: Option<u32>,
) -> Result<MemoryId, AllocError>
    ensures { Edit (λ (x : Memory). x.id) memories.old memories.new }
{
    memories.add_local(shared, memory64, initial, maximum, page_size_log2)
}

/// Adding a global that an import brings.
pub fn add_imported_global(
    globals: &mut ModuleGlobals,
    ty: ValType,
    mutable: bool,
    shared: bool,
    import: ImportId,
) -> Result<GlobalId, AllocError>
    ensures { Edit (λ (x : Global). x.id) globals.old globals.new }
{
    globals.add_import(ty, mutable, shared, import)
}

/// Adding a global.
pub fn add_global(
    globals: &mut ModuleGlobals,
    ty: ValType,
    mutable: bool,
    shared: bool,
    init: ConstExpr,
) -> Result<GlobalId, AllocError>
    ensures { Edit (λ (x : Global). x.id) globals.old globals.new }
{
    globals.add_local(ty, mutable, shared, init)
}

/// Adding a tag that an import brings.
pub fn add_imported_tag(
    tags: &mut ModuleTags,
    ty: TypeId,
    import: ImportId,
) -> Result<TagId, AllocError>
    ensures { Edit (λ (x : Tag). x.id) tags.old tags.new }
{
    tags.add_import(ty, import)
}

/// Adding a tag.
pub fn add_tag(tags: &mut ModuleTags, ty: TypeId) -> Result<TagId, AllocError>
    ensures { Edit (λ (x : Tag). x.id) tags.old tags.new }
{
    tags.add(ty)
}

/// Adding a data segment.
pub fn add_data(
    segments: &mut ModuleData,
    kind: DataKind,
    value: Vec<u8>,
) -> Result<DataId, AllocError>
    ensures { Edit (λ (x : Data). x.id) segments.old segments.new }
{
    segments.add(kind, value)
}

/// Adding an element segment.
pub fn add_element(
    segments: &mut ModuleElements,
    kind: ElementKind,
    items: ElementItems,
) -> Result<ElementId, AllocError>
    ensures { Edit (λ (x : Element). x.id) segments.old segments.new }
{
    segments.add(kind, items)
}
