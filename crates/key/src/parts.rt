// The bench of `key`, as it is at first.
ghost use Rattle.std.specs.Prelude.{◌≡◌};
ghost use Rattle.law.specs.Law.{Always};
ghost use Rattle.key.specs.Start.{model_of, start};

use bench::Bench;
use bus::Pair;
use chips::{Gauge, Memory};
use driver::Driver;
use line::Line;

pub(crate) type KeyMasters = Pair<Driver, Line>;

pub(crate) type KeySlaves = Pair<Gauge, Memory>;

// A register master, a line master, a gauge at 72 and a memory at 80, all bytes 0. The law holds of every list of calls from here.
pub(crate) fn key_bench() -> Bench<KeyMasters, KeySlaves>
    ensures made { model_of result ≡ start }
    ensures law { Always (model_of result) }
{
    let masters = Pair {
        left: Driver::new(),
        right: Line::new(),
    };
    let slaves = Pair {
        left: Gauge::new(72, [0; 4]).unwrap(),
        right: Memory::new(80).unwrap(),
    };
    Bench::assemble(masters, slaves)
}
