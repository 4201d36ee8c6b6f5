// The status of a register master, slot by slot; the slots of slaves and of another master are given.
use crate::parts::{hear_bits, hear_own};
use crate::status::check_flags;
use bus::Symbol;
use driver::Driver;
use masters::Master;
use orders::{Order, RawSegment};
use std::process::Abort;
use std::test::Fail;

// A register master with an order of one segment.
fn placed(segment: RawSegment, bytes: &[u8]) -> Result<Driver, Fail> {
    let order = Order::filled(&[segment], bytes)
        .ok()
        .ok_or("the order is refused")?;
    let mut driver = Driver::new();
    driver.place(order).ok().ok_or("it has an order")?;
    Ok(driver)
}

fn check_status(rt: &impl Abort, driver: &Driver, row: &[u8]) {
    check_flags(rt, driver.status(), row);
}

#[test]
fn writes_one_byte(rt: HostRuntime) -> Result<(), Fail> {
    let mut driver = placed(RawSegment::write(72, 1), &[1])?;
    hear_own(&mut driver, 9);
    driver.hear(Symbol::Zero);
    check_status(&rt, &driver, b"10001110");
    hear_own(&mut driver, 8);
    driver.hear(Symbol::Zero);
    check_status(&rt, &driver, b"10001100");
    hear_own(&mut driver, 1);
    check_status(&rt, &driver, b"00000001");
    Ok(())
}

#[test]
fn reads_one_byte(rt: HostRuntime) -> Result<(), Fail> {
    let mut driver = placed(RawSegment::read(72, 1), &[])?;
    hear_own(&mut driver, 9);
    driver.hear(Symbol::Zero);
    check_status(&rt, &driver, b"10000110");
    hear_bits(&mut driver, 25, 8);
    hear_own(&mut driver, 1);
    check_status(&rt, &driver, b"10000000");
    hear_own(&mut driver, 1);
    check_status(&rt, &driver, b"00000001");
    let mut buffer = [0; 32];
    let answer = driver.collect(&mut buffer).ok().ok_or("it has no answer")?;
    assert_eq!(rt; answer.bytes(&buffer), [25].as_slice());
    Ok(())
}

// A write to 80 against a read of one byte from 72, which wins in the fourth slot.
#[test]
fn loses_and_starts_again(rt: HostRuntime) -> Result<(), Fail> {
    let mut driver = placed(RawSegment::write(80, 2), &[0, 7])?;
    hear_own(&mut driver, 3);
    driver.hear(Symbol::Zero);
    check_status(&rt, &driver, b"01000010");
    hear_bits(&mut driver, 0x91, 5);
    driver.hear(Symbol::Zero);
    check_status(&rt, &driver, b"01000110");
    hear_bits(&mut driver, 25, 8);
    driver.hear(Symbol::One);
    check_status(&rt, &driver, b"01000000");
    driver.hear(Symbol::Stop);
    check_status(&rt, &driver, b"00000000");
    hear_own(&mut driver, 1);
    check_status(&rt, &driver, b"10001010");
    Ok(())
}
