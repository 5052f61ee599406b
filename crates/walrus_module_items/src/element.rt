//! Element segments.
ghost use Rattle.std.specs.Prelude.{◌≡◌, None, IfOk};
ghost use Rattle.std.specs.List.{AllZip};
ghost use Rattle.walrus_instr.specs.Copies.{IsExprCopy};
ghost use Rattle.walrus_module_items.specs.Copies.{IsElementCopy, IsElementKindCopy, IsItemsCopy};

use std::alloc::AllocError;
use walrus_arena::{ElementId, FunctionId, TableId, Tombstone};
use walrus_forms::RefType;
use walrus_instr::ConstExpr;

/// When an element segment is copied.
#[derive(Drop)]
pub enum ElementKind {
    /// Where an instruction says so.
    Passive,
    /// Never: it only declares what it holds.
    Declared,
    /// At instantiation, into this table at this offset.
    Active { table: TableId, offset: ConstExpr },
}

/// What an element segment holds.
#[derive(Drop)]
pub enum ElementItems {
    /// References to functions.
    Functions(Vec<FunctionId>),
    /// What these expressions give, of this type.
    Expressions(RefType, Vec<ConstExpr>),
}

/// An element segment (Core Specification, element segments).
#[derive(Drop)]
pub struct Element {
    id: ElementId,
    /// When it is copied.
    pub kind: ElementKind,
    /// What it holds.
    pub items: ElementItems,
    /// The name that is written for it.
    pub name: Option<String>,
}

impl Tombstone for Element {
    fn on_delete(&mut self) {}
}

impl ElementKind {
    /// An equal kind.
    ///
    /// # Errors
    ///
    /// Want of memory.
    pub fn clone(&self) -> Result<Self, AllocError>
        ensures { IfOk result (λ copy. IsElementKindCopy self.now copy) }
    {
        match self {
            ElementKind::Passive => Ok(ElementKind::Passive),
            ElementKind::Declared => Ok(ElementKind::Declared),
            ElementKind::Active { table, offset } => Ok(ElementKind::Active {
                table: *table,
                offset: offset.clone()?,
            }),
        }
    }
}

// Equal expressions.
fn clone_exprs(exprs: &Vec<ConstExpr>) -> Result<Vec<ConstExpr>, AllocError>
    ensures { IfOk result (λ copies. AllZip IsExprCopy exprs.now.items copies.items) }
{
    let mut copies = Vec::new(*exprs.allocator());
    for expr in exprs.iter() {
        copies.push(expr.clone()?)?;
    }
    Ok(copies)
}

impl ElementItems {
    /// Equal items.
    ///
    /// # Errors
    ///
    /// Want of memory.
    pub fn clone(&self) -> Result<Self, AllocError>
        ensures { IfOk result (λ copy. IsItemsCopy self.now copy) }
    {
        match self {
            ElementItems::Functions(functions) => Ok(ElementItems::Functions(functions.clone()?)),
            ElementItems::Expressions(ty, exprs) => {
                Ok(ElementItems::Expressions(*ty, clone_exprs(exprs)?))
            }
        }
    }
}

impl Element {
    /// A segment of this id, without a name.
    pub fn new(id: ElementId, kind: ElementKind, items: ElementItems) -> Self
        ensures { result ≡ record { id = id; kind = kind; items = items; name = None } }
    {
        Element {
            id,
            kind,
            items,
            name: None,
        }
    }

    /// Its id.
    pub fn id(&self) -> ElementId
        ensures { result ≡ self.now.id }
    {
        self.id
    }

    /// An equal segment, of the same id.
    ///
    /// # Errors
    ///
    /// Want of memory.
    pub fn clone(&self) -> Result<Self, AllocError>
        ensures { IfOk result (λ copy. IsElementCopy self.now copy) }
    {
        Ok(Element {
            id: self.id,
            kind: self.kind.clone()?,
            items: self.items.clone()?,
            name: self.name.clone()?,
        })
    }
}
