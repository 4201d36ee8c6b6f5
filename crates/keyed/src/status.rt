// The status of a register master, slot by slot.
use crate::Tally;
use crate::contests::Ask;
use chips::Gauge;
use driver::Driver;
use line::Line;
use masters::Master;
use slaves::Slaves;

// The order of a register master, perhaps one of a line master against it, the numbers of some slots, counted from 1,
// and the upper eight bits of the register master's status after each of these.
#[derive(Clone, Copy)]
pub struct Row {
    pub what: &'static str,
    pub asked: Ask,
    pub against: Option<Ask>,
    pub slots: &'static [u8],
    pub expected: &'static str,
}

const READ: Ask = Ask::Read {
    address: 72,
    count: 1,
};

pub const ROWS: [Row; 3] = [
    Row {
        what: "a write of one byte: after address, byte, P",
        asked: Ask::Write {
            address: 72,
            bytes: &[1],
        },
        against: None,
        slots: &[10, 19, 20],
        expected: " 10001110 10001100 00000001",
    },
    Row {
        what: "a read of one byte: after address, byte, P",
        asked: READ,
        against: None,
        slots: &[10, 19, 20],
        expected: " 10000110 10000000 00000001",
    },
    Row {
        what: "a write to 80 that loses to a read of 72: after slot 4",
        asked: Ask::Write {
            address: 80,
            bytes: &[0, 7],
        },
        against: Some(READ),
        slots: &[4],
        expected: " 01000010",
    },
];

// The row, at a gauge whose registers are 0.
pub fn check(rt: &(impl Print + AllocGlobal), tally: &mut Tally, row: Row) -> anyhow::Result<()> {
    let mut driver = Driver::new();
    let mut other = Line::new();
    let mut gauge = Gauge::new(72, [0; 4])?;
    driver.place(row.asked.order()?)?;
    if let Some(ask) = row.against {
        other.place(ask.order()?)?;
    }
    let mut came = String::new(rt.alloc());
    for number in 1..=20u8 {
        let carried = driver.offer().lesser(other.offer()).lesser(gauge.offer());
        driver.hear(carried);
        other.hear(carried);
        gauge.hear(carried);
        if row.slots.contains(&number) {
            write!(came, " {:08b}", driver.status() >> 8)?;
        }
    }
    Ok(tally.show(rt, row.what, row.expected, came.as_str())?)
}
