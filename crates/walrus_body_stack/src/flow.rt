//! What an operator does to what follows it.

ghost use Rattle.std.specs.Prelude.{◌≡◌};
ghost use Rattle.walrus_body_nesting.specs.wasm_normal_form.Roles.{cuts_in};

use wasm_operators::Flow;

/// Whether what follows an operator in its sequence is cut off. Behind a tail call it isn't.
pub fn cuts(flow: Option<Flow>) -> bool
    ensures { result ≡ cuts_in flow }
{
    matches!(
        flow,
        Some(
            Flow::Traps
                | Flow::Branches
                | Flow::Selects
                | Flow::Returns
                | Flow::Throws
                | Flow::ThrowsOrTraps
        )
    )
}
