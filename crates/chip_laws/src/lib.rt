// What orders get of the slaves of `chips`: laws that the checker holds them to, with nothing to run.
#![tactic(auto)]

ghost use Rattle.chip_laws.specs.Laws.{OrdersAreServed, AssemblyAltersNone, NewChipsAreReady};
ghost use Rattle.chip_laws.specs.Gauges.{GaugesKeepTheirLaw};
ghost use Rattle.chip_laws.specs.Memories.{MemoriesKeepTheirLaw};
ghost use Rattle.chip_laws.specs.Unaddressed.{UnaddressedChipsAreSilent, UnaddressedChipsAreUnaltered};

// Every lawful order, at every chip over any device.
pub fn orders_are_served()
    ensures { OrdersAreServed }
{}

// And so after it is put on a bench.
pub fn assembly_alters_none()
    ensures { AssemblyAltersNone }
{}

// The laws of gauges and memories hold of new ones.
pub fn new_chips_are_ready()
    ensures { NewChipsAreReady }
{}

// What a master finds of a gauge.
pub fn gauges_keep_their_law()
    ensures { GaugesKeepTheirLaw }
{}

// What a master finds of a memory.
pub fn memories_keep_their_law()
    ensures { MemoriesKeepTheirLaw }
{}

// Chips that an order does not address have no part in what it finds of another slave,
pub fn unaddressed_chips_are_silent()
    ensures { UnaddressedChipsAreSilent }
{}

// and are not altered by it.
pub fn unaddressed_chips_are_unaltered()
    ensures { UnaddressedChipsAreUnaltered }
{}
