// A bench that is worked by lines.
use bench::Bench;
use masters::Masters;
use slaves::Slaves;

mod answering;

pub struct Session<M: Masters, S: Slaves> {
    bench: Bench<M, S>,
}
