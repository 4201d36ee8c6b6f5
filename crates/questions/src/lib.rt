// The keyed questions, answered from the rules.
#![tactic(auto)]

ghost use Rattle.block_laws.specs.Rows.{StatusRows};
ghost use Rattle.questions.specs.Contests.{WriteAgainstRead, ShortAgainst200, ShortAgainst7, OneAgainstTwo, EqualOrders, NobodyAt81, GaugeWritten4};

// What the contests of the keyed questions come to, by the definitions that the bench's contracts use; and the status of the
// register block after an address, a byte and P, and of one that has lost, by those of the block's contracts.
pub fn keyed_questions()
    ensures direction { WriteAgainstRead }
    ensures stop { ShortAgainst200 }
    ensures zero { ShortAgainst7 }
    ensures more { OneAgainstTwo }
    ensures equal { EqualOrders }
    ensures nobody { NobodyAt81 }
    ensures refused { GaugeWritten4 }
    ensures status { StatusRows }
{}
