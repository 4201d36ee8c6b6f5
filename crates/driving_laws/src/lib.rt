// What the register master makes of its block is what a master does. Each function asks for one theorem.
#![tactic(auto)]

ghost use Rattle.driving_laws.specs.Agreement.{RegistersAgree};
ghost use Rattle.driving_laws.specs.Rows.{StatusRows};

// Whatever the order and the slots are, the block offers what the contender offers, and both come on alike.
pub fn registers_agree()
    ensures { RegistersAgree }
{}

// What IICSE0 reads as in a few short runs.
pub fn status_rows()
    ensures { StatusRows }
{}
