//! A law of whole bodies in normal form: a function with nothing to do but to call the laws on operators.
#![tactic(auto)]

ghost use Rattle.wasm_normal_laws.specs.Laws.{NormalBodiesAreNormal};

use wasm_normal_form::laws::normal_forms_are_normal;

/// The normal form of a body in normal form is itself, with its locals and their numbers.
pub fn normal_bodies_are_normal()
    ensures { NormalBodiesAreNormal }
{
    normal_forms_are_normal();
}
