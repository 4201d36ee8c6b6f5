// Orders read back from the bus.
#![tactic(auto)]

ghost use Rattle.reader_laws.specs.Format.{OrdersAreReadBack};

// The words of an order's history alone say exactly the items of its frame.
pub fn orders_are_read_back()
    ensures { OrdersAreReadBack }
{}
