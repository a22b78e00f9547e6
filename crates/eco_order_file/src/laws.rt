//! Laws of orders and of what is written for them.

ghost use Rattle.eco_order_file.specs.FieldByField.{SaysExactly};
ghost use Rattle.eco_order_file.specs.Laws.{WrittenIsRead};

/// A law: a JSON value says an order exactly where it is an object of the order's fields and no others.
pub fn documents_say_orders()
    ensures { SaysExactly }
{}

/// A law: what is written for an order in form that keeps rules 3 to 5 says that order.
pub fn written_is_read()
    ensures { WrittenIsRead }
{}
