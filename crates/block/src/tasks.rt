// What the block is about.
ghost use Rattle.std.specs.Prelude.{◌≡◌};
ghost use Rattle.block.specs.Tasks.{waits as waits_of, has_byte};

use crate::Task;

impl Task {
    pub(crate) fn waits(self) -> bool
        ensures { result ≡ waits_of self }
    {
        matches!(self, Task::StartWait | Task::NinthWait)
    }

    // A byte was asked for, and its ninth slot was not heard yet.
    pub(crate) fn has_byte(self) -> bool
        ensures { result ≡ has_byte self }
    {
        matches!(self, Task::Send(_) | Task::Receive)
    }
}
