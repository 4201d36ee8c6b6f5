// The manual's status rows, with WTIM0 = 1, of a master that keeps the bus and of a block that takes no part.
// They are taken after each ninth slot and after P. An x stands where a row leaves a flag open.
use crate::parts::{hear_bits, hear_own};
use block::{Block, IIC0, IICC0, IICSE0};
use bus::Symbol;
use std::process::Abort;
use std::test::Fail;

// IICE0 and WTIM0, alone and with one bit more.
const ON: u32 = 0x88;

const STOP: u32 = 0x89;

const START: u32 = 0x8A;

const ACKNOWLEDGE: u32 = 0x8C;

const RECEIVE: u32 = 0xA8;

const RECEIVE_MORE: u32 = 0xAC;

// MSTS0 ALD0 EXC0 COI0 TRC0 ACKD0 STD0 SPD0, and below them 0s.
pub(crate) fn check_flags(rt: &impl Abort, status: u16, row: &[u8]) {
    let mut left = status;
    for flag in row {
        let is_set = left >= 0x8000;
        assert!(rt; *flag == b'x' || (*flag == b'1') == is_set);
        left = left << 1;
    }
    assert_eq!(rt; left, 0);
}

fn check_row(rt: &impl Abort, block: &Block, row: &[u8]) -> Result<(), Fail> {
    let status = block.read(IICSE0).ok().ok_or("IICSE0 is refused")?;
    check_flags(rt, status, row);
    Ok(())
}

fn check_byte(rt: &impl Abort, block: &Block, byte: u8) -> Result<(), Fail> {
    let register = block.read(IIC0).ok().ok_or("IIC0 is refused")?;
    assert_eq!(rt; register, u16::from(byte));
    Ok(())
}

fn write(rt: &impl Abort, block: &mut Block, offset: u32, value: u32) {
    assert!(rt; block.write(offset, value).is_ok());
}

fn start(rt: &impl Abort, block: &mut Block) {
    write(rt, block, IICC0, START);
    hear_own(block, 1);
}

fn stop(rt: &impl Abort, block: &mut Block) -> Result<(), Fail> {
    write(rt, block, IICC0, STOP);
    hear_own(block, 1);
    check_row(rt, block, b"00000001")
}

fn send(rt: &impl Abort, block: &mut Block, byte: u8, ninth: Symbol) -> Result<(), Fail> {
    write(rt, block, IIC0, u32::from(byte));
    hear_own(block, 8);
    block.hear(ninth);
    check_byte(rt, block, byte)
}

fn receive(rt: &impl Abort, block: &mut Block, control: u32, byte: u8) -> Result<(), Fail> {
    write(rt, block, IICC0, control);
    hear_bits(block, byte, 8);
    hear_own(block, 1);
    check_byte(rt, block, byte)
}

fn switched_on(rt: &impl Abort) -> Block {
    let mut block = Block::new();
    write(rt, &mut block, IICC0, ON);
    block
}

// An address byte and two bytes are sent, the last one not acknowledged; the row after each.
fn send_two_bytes(rt: &impl Abort, address: u8, rows: [&[u8]; 3]) -> Result<(), Fail> {
    let mut block = switched_on(rt);
    start(rt, &mut block);
    send(rt, &mut block, address, Symbol::Zero)?;
    check_row(rt, &block, rows[0])?;
    send(rt, &mut block, 0x07, Symbol::Zero)?;
    check_row(rt, &block, rows[1])?;
    send(rt, &mut block, 0xC8, Symbol::One)?;
    check_row(rt, &block, rows[2])?;
    stop(rt, &mut block)
}

#[test]
fn sends_two_bytes(rt: HostRuntime) -> Result<(), Fail> {
    send_two_bytes(&rt, 0xA0, [b"1000x110", b"1000x100", b"1000xx00"])
}

#[test]
fn receives_two_bytes(rt: HostRuntime) -> Result<(), Fail> {
    let mut block = switched_on(&rt);
    start(&rt, &mut block);
    send(&rt, &mut block, 0x91, Symbol::Zero)?;
    check_row(&rt, &block, b"1000x110")?;
    write(&rt, &mut block, IICC0, ACKNOWLEDGE);
    receive(&rt, &mut block, RECEIVE_MORE, 0x19)?;
    check_row(&rt, &block, b"1000x100")?;
    write(&rt, &mut block, IICC0, ON);
    receive(&rt, &mut block, RECEIVE, 0x0D)?;
    check_row(&rt, &block, b"1000xx00")?;
    stop(&rt, &mut block)
}

#[test]
fn sends_then_receives(rt: HostRuntime) -> Result<(), Fail> {
    let mut block = switched_on(&rt);
    start(&rt, &mut block);
    send(&rt, &mut block, 0xA0, Symbol::Zero)?;
    check_row(&rt, &block, b"1000x110")?;
    send(&rt, &mut block, 0x07, Symbol::Zero)?;
    check_row(&rt, &block, b"1000xx00")?;
    start(&rt, &mut block);
    send(&rt, &mut block, 0x91, Symbol::Zero)?;
    check_row(&rt, &block, b"1000x110")?;
    receive(&rt, &mut block, RECEIVE, 0x19)?;
    check_row(&rt, &block, b"1000xx00")?;
    stop(&rt, &mut block)
}

#[test]
fn sends_after_an_extension_code(rt: HostRuntime) -> Result<(), Fail> {
    send_two_bytes(&rt, 0xF0, [b"1010x110", b"1010x100", b"1010xx00"])
}

// Another master writes, and then reads from another address.
#[test]
fn takes_no_part(rt: HostRuntime) -> Result<(), Fail> {
    let mut block = switched_on(&rt);
    block.hear(Symbol::Start);
    hear_bits(&mut block, 0xA0, 8);
    block.hear(Symbol::Zero);
    hear_bits(&mut block, 0x07, 8);
    block.hear(Symbol::Zero);
    block.hear(Symbol::Start);
    hear_bits(&mut block, 0x91, 8);
    block.hear(Symbol::One);
    check_row(&rt, &block, b"00000x10")?;
    block.hear(Symbol::Stop);
    check_row(&rt, &block, b"00000001")
}
