//! The types of the handlers of a legacy `try`.

ghost use Rattle.std.specs.Prelude.{◌≡◌, [], Some};
ghost use Rattle.walrus_body_steps.specs.walrus_body_rules.Sights.{handler_of, results_of, tag_params, value_list};

use crate::scope::Scope;
use walrus_arena::{TagId, TypeId};
use walrus_forms::ValType;
use walrus_instr::InstrSeqType;

// Of a handler that is given values of these types, and gives this one, if it gives one.
fn giving_value<S: Scope>(
    scope: &S,
    params: &[ValType],
    result_ty: Option<ValType>,
) -> Option<InstrSeqType>
    ensures { result ≡ handler_of (S.sight scope.now) (Some params.now) (Some (value_list result_ty)) }
{
    match result_ty {
        None => scope.handler_type(params, &[]),
        Some(ty) => {
            let results = [ty];
            scope.handler_type(params, &results)
        }
    }
}

// Of a handler that is given values of these types, and gives the results of this type.
fn giving_results<S: Scope>(scope: &S, params: &[ValType], ty: TypeId) -> Option<InstrSeqType>
    ensures { result ≡ handler_of (S.sight scope.now) (Some params.now) ((S.sight scope.now).results ty) }
{
    let results = scope.results(ty)?;
    scope.handler_type(params, results)
}

// Of a handler that is given values of these types.
fn handler_given<S: Scope>(
    scope: &S,
    params: &[ValType],
    block: InstrSeqType,
) -> Option<InstrSeqType>
    ensures { result ≡ handler_of (S.sight scope.now) (Some params.now) (results_of (S.sight scope.now) block) }
{
    match block {
        InstrSeqType::Simple(ty) => giving_value(scope, params, ty),
        InstrSeqType::MultiValue(ty) => giving_results(scope, params, ty),
    }
}

/// The type of the sequence of a handler for the exceptions of a tag, in a block of this type; none where there is none.
pub fn handler_type<S: Scope>(scope: &S, block: InstrSeqType, tag: TagId) -> Option<InstrSeqType>
    ensures { result ≡ handler_of (S.sight scope.now) (tag_params (S.sight scope.now) ((S.sight scope.now).tag_type tag)) (results_of (S.sight scope.now) block) }
{
    let ty = scope.tag_type(tag)?;
    let params = scope.params(ty)?;
    handler_given(scope, params, block)
}

/// The type of the sequence of a handler for all exceptions, in a block of this type; none where there is none.
pub fn last_handler_type<S: Scope>(scope: &S, block: InstrSeqType) -> Option<InstrSeqType>
    ensures { result ≡ handler_of (S.sight scope.now) (Some []) (results_of (S.sight scope.now) block) }
{
    handler_given(scope, &[], block)
}
