//! Laws of the order of functions.

ghost use Rattle.walrus_emit_numbers.specs.Order.{OrdersAreOne};

/// There is one order in which functions with these facts are written.
pub fn orders_are_one()
    ensures { OrdersAreOne }
{}
