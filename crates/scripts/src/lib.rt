// What an order comes to on the wires: its script, its history alone, and the 7-bit format. Each function asks for one theorem.
#![tactic(auto)]

ghost use Rattle.scripts.specs.Alone.{AloneHistories};
ghost use Rattle.scripts.specs.Frames.{OrdersAreFramed};

// Each order has exactly one history alone, and it is short.
pub fn alone_histories()
    ensures { AloneHistories }
{}

// Each order goes over the bus in the 7-bit format, and its slots show its answer.
pub fn orders_are_framed()
    ensures { OrdersAreFramed }
{}
