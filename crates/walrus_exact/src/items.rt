//! Exact heap types in items.
ghost use Rattle.std.specs.Prelude.{◌≡◌};
ghost use Rattle.std.specs.List.{list_any};
ghost use Rattle.walrus_item_meaning.specs.Meaning.{table_init};
ghost use Rattle.walrus_exact.specs.Exact.{data_exact, element_exact, expr_exact, global_exact, held_exact, init_exact, op_exact, place_exact, table_exact, value_exact};

use crate::types::{ref_exact, val_exact};
use walrus_instr::{ConstExpr, ConstOp};
use walrus_item_meaning::table_init;
use walrus_module_items::{
    DataKind, Element, ElementItems, ElementKind, Global, GlobalKind, Table,
};

fn op_exact(op: &ConstOp) -> bool
    ensures { result ≡ op_exact op.now }
{
    match op {
        ConstOp::RefNull(ty) => ref_exact(ty),
        _ => false,
    }
}

fn ops_exact(ops: &[ConstOp]) -> bool
    ensures { result ≡ list_any op_exact ops.now }
{
    ops.iter().any(|op| op_exact(op))
}

fn expr_exact(expr: &ConstExpr) -> bool
    ensures { result ≡ expr_exact expr.now }
{
    match expr {
        ConstExpr::RefNull(ty) => ref_exact(ty),
        ConstExpr::Extended(ops) => ops_exact(ops.as_slice()),
        ConstExpr::Value(_) | ConstExpr::Global(_) | ConstExpr::RefFunc(_) => false,
    }
}

fn exprs_exact(exprs: &[ConstExpr]) -> bool
    ensures { result ≡ list_any expr_exact exprs.now }
{
    exprs.iter().any(|expr| expr_exact(expr))
}

fn init_exact(table: &Table) -> bool
    ensures { result ≡ init_exact (table_init table.now) }
{
    match table_init(table) {
        Some(init) => expr_exact(init),
        None => false,
    }
}

/// Whether there is one in a table: in its element type or its initialiser.
pub fn table_exact(table: &Table) -> bool
    ensures { result ≡ table_exact table.now }
{
    ref_exact(&table.element_ty) || init_exact(table)
}

fn value_exact(kind: &GlobalKind) -> bool
    ensures { result ≡ value_exact kind.now }
{
    match kind {
        GlobalKind::Import(_) => false,
        GlobalKind::Local(init) => expr_exact(init),
    }
}

/// Whether there is one in a global: in its type or its initialiser.
pub fn global_exact(global: &Global) -> bool
    ensures { result ≡ global_exact global.now }
{
    val_exact(&global.ty) || value_exact(&global.kind)
}

/// Whether there is one in the offset of a data segment.
pub fn data_exact(kind: &DataKind) -> bool
    ensures { result ≡ data_exact kind.now }
{
    match kind {
        DataKind::Active { offset, .. } => expr_exact(offset),
        DataKind::Passive => false,
    }
}

fn place_exact(kind: &ElementKind) -> bool
    ensures { result ≡ place_exact kind.now }
{
    match kind {
        ElementKind::Active { offset, .. } => expr_exact(offset),
        ElementKind::Passive | ElementKind::Declared => false,
    }
}

fn held_exact(items: &ElementItems) -> bool
    ensures { result ≡ held_exact items.now }
{
    match items {
        ElementItems::Functions(_) => false,
        ElementItems::Expressions(ty, exprs) => ref_exact(ty) || exprs_exact(exprs.as_slice()),
    }
}

/// Whether there is one in an element segment: in its offset, the type of its elements or these.
pub fn element_exact(element: &Element) -> bool
    ensures { result ≡ element_exact element.now }
{
    place_exact(&element.kind) || held_exact(&element.items)
}
