// What is proved of contests, whatever the marks M, the turns T and the contenders I are. Each function asks for one theorem.
ghost use Rattle.history.specs.Contest.{ContestsAreFair, ContestsAreFairToTheKept, AloneIsOne, AloneGrows};

// What several contenders carry together is the least of what each would have carried alone.
pub fn contests_are_fair<M, T, I>()
    ensures { ContestsAreFair M T I }
{}

// The same of the contenders that are kept, where others are dropped on the way.
pub fn contests_are_fair_to_the_kept<M, T, I>()
    ensures { ContestsAreFairToTheKept M T I }
{}

// A script has at most one history alone; it grows, slot by slot, by the least of what is offered.
pub fn alone_is_one<M, T>()
    ensures one { AloneIsOne M T }
    ensures grows { AloneGrows M T }
{}
