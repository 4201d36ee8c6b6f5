// Laws of the block, each over all blocks: what a wrong rule would break, were it written down and programmed alike.
#![tactic(auto)]

ghost use Rattle.block_laws.specs.Laws.{LossStays, AfterStop, AfterStart, Loses, SlavesSpare, WaitsOn, Directed, Refused, ControlReads, StatusReads, Off, Sends, Waits, Silent, Unacknowledged};
ghost use Rattle.block_laws.specs.Rows.{StatusRows, FurtherRows, OfferRows, RefusalRows};

// What a slot does to the flags.
pub fn after_slots()
    ensures stop { AfterStop }
    ensures start { AfterStart }
    ensures loses { Loses }
    ensures spare { SlavesSpare }
    ensures waits { WaitsOn }
    ensures directed { Directed }
{}

// What a write does, and what a read shows.
pub fn after_accesses()
    ensures lost { LossStays }
    ensures refused { Refused }
    ensures control { ControlReads }
    ensures status { StatusReads }
{}

// What holds since reset, whatever slots and writes have come.
pub fn from_reset()
    ensures off { Off }
    ensures sends { Sends }
    ensures waits { Waits }
    ensures silent { Silent }
    ensures unacknowledged { Unacknowledged }
{}

// The status in a few short runs.
pub fn status_rows()
    ensures { StatusRows }
{}

// The status after writes, and after a second S on a free bus.
pub fn further_rows()
    ensures { FurtherRows }
{}

// What a few short runs offer.
pub fn offer_rows()
    ensures { OfferRows }
{}

// What is refused in a few short runs.
pub fn refusal_rows()
    ensures { RefusalRows }
{}
