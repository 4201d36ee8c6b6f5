// The law of contests, of every bench and every list of calls, whatever its masters and slaves are. The function asks for the theorem.
#![tactic(auto)]

ghost use Rattle.law.specs.Law.{ContestsAreLawful};

// The law holds of whatever is assembled of slaves that keep to the turns.
pub fn holds()
    ensures { ContestsAreLawful }
{}
