//! Operators that open blocks with handlers.

ghost use Rattle.std.specs.Prelude.{◌≡◌, length, Some};
ghost use Rattle.wasm_operators.specs.Items.{Tags};
ghost use Rattle.walrus_body_steps.specs.walrus_body_nesting.Faults.{Answers};
ghost use Rattle.walrus_body_steps.specs.walrus_body_rules.Sights.{look, written_block};
ghost use Rattle.walrus_body_steps.specs.Meanings.{AreClauses, IsClause};
ghost use Rattle.walrus_body_operands.specs.Asked.{Meets, clause_test, index_test, tests_of, try_test};

use crate::faults::no_item;
use crate::labels::{Labels, label};
use crate::scope::Scope;
use crate::types::{block_type, check_block};
use std::alloc::Global;
use walrus_arena::TagId;
use walrus_body_env::BodyError;
use walrus_instr::{InstrSeqType, TryTableCatch};
use wasm_formats::Space;
use wasm_operators::{BlockType, Clause};

/// The tag that an index names.
pub(crate) fn tag_id<S: Scope>(scope: &S, index: u32, offset: u64) -> Result<TagId, BodyError>
    ensures { Meets result (index_test (S.sight scope.now) Tags index) offset (λ id. look (S.sight scope.now) Tags index ≡ Some id) }
{
    match scope.indices().get_tag(index) {
        Ok(id) => Ok(id),
        Err(_) => Err(no_item(Space::Tag, offset)),
    }
}

fn handler<S: Scope, L: Labels>(
    scope: &S,
    clause: Clause,
    labels: &L,
    offset: u64,
) -> Result<TryTableCatch, BodyError>
    ensures { Meets result (clause_test (S.sight scope.now) (L.ids labels.now) clause) offset (IsClause (S.sight scope.now) (L.ids labels.now) clause) }
{
    match clause {
        Clause::Catch { tag, label: depth } => {
            let tag = tag_id(scope, tag, offset)?;
            let block = label(labels, depth, offset)?;
            Ok(TryTableCatch::Catch { tag, label: block })
        }
        Clause::CatchRef { tag, label: depth } => {
            let tag = tag_id(scope, tag, offset)?;
            let block = label(labels, depth, offset)?;
            Ok(TryTableCatch::CatchRef { tag, label: block })
        }
        Clause::CatchAll { label: depth } => {
            let block = label(labels, depth, offset)?;
            Ok(TryTableCatch::CatchAll { label: block })
        }
        Clause::CatchAllRef { label: depth } => {
            let block = label(labels, depth, offset)?;
            Ok(TryTableCatch::CatchAllRef { label: block })
        }
    }
}

fn handlers<S: Scope, L: Labels>(
    alloc: Global,
    scope: &S,
    clauses: &[Clause],
    labels: &L,
    offset: u64,
) -> Result<Vec<TryTableCatch>, BodyError>
    ensures { Answers result (tests_of (clause_test (S.sight scope.now) (L.ids labels.now)) clauses.now) offset (λ made. AreClauses (S.sight scope.now) (L.ids labels.now) clauses.now made.items) }
{
    let mut made = Vec::new(alloc);
    for clause in clauses {
        let part = handler(scope, *clause, labels, offset)?;
        made.push(part)?;
    }
    Ok(made)
}

/// The handlers of a `try_table` and its block's type: its names go before the form of that type.
pub(crate) fn try_table<S: Scope, L: Labels>(
    alloc: Global,
    scope: &S,
    ty: BlockType,
    clauses: &[Clause],
    labels: &L,
    offset: u64,
) -> Result<(Vec<TryTableCatch>, InstrSeqType), BodyError>
    ensures { Answers result (try_test (S.sight scope.now) (L.ids labels.now) ty clauses.now) offset (λ made. AreClauses (S.sight scope.now) (L.ids labels.now) clauses.now made.0.items × (written_block (S.sight scope.now) ty ≡ Some made.1)) }
{
    let written = ty;
    check_block(scope, ty, offset)?;
    let made = handlers(alloc, scope, clauses, labels, offset)?;
    let ty = block_type(scope, written, offset)?;
    Ok((made, ty))
}
