//! Constant expressions (Core Specification, valid expressions: constant expressions).

ghost use Rattle.std.specs.Prelude.{◌≡◌, IfOk, IfErr};
ghost use Rattle.std.specs.List.{Any};
ghost use Rattle.walrus_operators.specs.Operators.{seen};
ghost use Rattle.walrus_pairing.specs.Read.{instr_at};
ghost use Rattle.walrus_index_maps.specs.Views.{ids};
ghost use Rattle.walrus_instr.specs.Constants.{ops_of};
ghost use Rattle.walrus_sections_into.specs.Becomes.{look_of, OpBecomes, OpsBecome};
ghost use Rattle.walrus_sections_into.specs.Consts.{plain_of, OpLacks};
ghost use Rattle.walrus_sections_into.specs.declared.error.IntoError.TheVariants.{Unknown};

use crate::consts::const_of;
use crate::error::IntoError;
use std::alloc::Global;
use walrus_arena::FunctionId;
use walrus_index_maps::IndicesToIds;
use walrus_instr::{ConstExpr, ConstOp, Instr};
use walrus_operators::Operator;
use walrus_pairing::instr_of;

// The instruction of an operator that names no locals, so that any function will do.
fn plain_instr(op: &Operator, maps: &IndicesToIds) -> Option<Instr>
    ensures { result ≡ plain_of (instr_at (look_of (ids maps.now)) (seen op.now)) }
{
    match instr_of(op, FunctionId::from_index(0), maps) {
        Ok(instr) => instr,
        Err(_) => None,
    }
}

// An operator, its names as ids.
#[tactic(auto, using(crate::specs::Consts::none_lacks, crate::specs::Consts::other_lacks))]
fn read_op(op: &Operator, maps: &IndicesToIds) -> Result<ConstOp, IntoError>
    ensures becomes { IfOk result (λ c. OpBecomes (look_of (ids maps.now)) op.now c) }
    ensures unknown { IfErr result (λ e. (e ≡ Unknown) × OpLacks (look_of (ids maps.now)) op.now) }
{
    let Some(instr) = plain_instr(op, maps) else {
        return Err(IntoError::Unknown);
    };
    match const_of(&instr) {
        Some(op) => Ok(op),
        None => Err(IntoError::Unknown),
    }
}

/// The expression of these operators, their names as ids.
///
/// # Errors
///
/// Want of memory; `Unknown` only where one names nothing, or isn't constant.
pub fn read_expr(
    alloc: Global,
    operators: &[Operator],
    maps: &IndicesToIds,
) -> Result<ConstExpr, IntoError>
    ensures becomes { IfOk result (λ expr. OpsBecome (look_of (ids maps.now)) operators.now (ops_of expr)) }
    ensures unknown { IfErr result (λ e. e ≡ Unknown → Any (OpLacks (look_of (ids maps.now))) operators.now) }
{
    let mut ops = Vec::new(alloc);
    for operator in operators {
        let op = read_op(operator, maps)?;
        ops.push(op)?;
    }
    Ok(ConstExpr::from_ops(ops))
}
