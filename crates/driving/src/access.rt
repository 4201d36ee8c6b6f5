// The block's registers, as the register master works them.
ghost use Rattle.std.specs.Prelude.{◌≡◌, ◌+◌};
ghost use Rattle.block.specs.Tasks.{starts};
ghost use Rattle.block.specs.Access.{IICC0 as control_register, IICSE0 as status_register, written, read_value};
ghost use Rattle.driving.specs.Driving.{shown, assembled as assembled_block, moved_byte, begun, ended, released as released_of, renewed, received, sent};

use block::{Block, IIC0, IICC0, IICSE0};
use block_laws::after_accesses;

// IICC0 with IICE0 and WTIM0 set.
const ON: u8 = 0x88;

// Further bits of IICC0.
const LREL0: u8 = 0x40;

const WREL0: u8 = 0x20;

const ACKE0: u8 = 0x04;

const STT0: u8 = 0x02;

const SPT0: u8 = 0x01;

// The flags of IICSE0 that are asked for.
#[derive(Clone, Copy, Debug, PartialEq, Eq, Hash)]
pub(crate) enum Flag {
    Msts0,
    Ald0,
    Ackd0,
}

// IICC0 with IICE0, WTIM0 and these bits set. A refused write alters nothing.
fn control(block: &mut Block, bits: u8)
    ensures { block.new ≡ written block.old control_register (136 + bits) }
{
    let _ = block.write(IICC0, u32::from(ON) + u32::from(bits));
}

// A block at assembly.
pub fn assembled() -> Block
    ensures { result ≡ assembled_block }
{
    let mut block = Block::new();
    control(&mut block, 0);
    block
}

// An S next. On a busy bus with no wait this is refused.
pub fn begin(block: &mut Block)
    ensures { block.new ≡ begun block.old }
{
    control(block, STT0);
}

// A P next.
pub(crate) fn end(block: &mut Block)
    ensures { block.new ≡ ended block.old }
{
    control(block, SPT0);
}

// Drops the S that was asked for.
pub fn release(block: &mut Block)
    ensures { block.new ≡ released_of block.old }
{
    control(block, LREL0);
}

// IICE0 0, then 1, and every other bit as it was.
pub(crate) fn renew(block: &mut Block)
    ensures { block.new ≡ renewed block.old }
{
    if let Ok(word) = block.read(IICC0) {
        let off = u32::from(word) % 0x80;
        let _ = block.write(IICC0, off);
        let _ = block.write(IICC0, off + 0x80);
    }
}

// A byte more is read; ACKE0 is written before WREL0.
pub(crate) fn receive(block: &mut Block, more: bool)
    ensures { block.new ≡ received more block.old }
{
    let bits = if more { ACKE0 } else { 0 };
    control(block, bits);
    control(block, bits + WREL0);
}

// The byte goes out next.
pub(crate) fn send(block: &mut Block, byte: u8)
    ensures { block.new ≡ sent byte block.old }
{
    let _ = block.write(IIC0, u32::from(byte));
}

// What IICSE0 reads as.
pub fn status(block: &Block) -> u16
    ensures { result ≡ read_value block.now status_register }
{
    block.read(IICSE0).unwrap_or(0)
}

// Whether IICSE0 shows the flag.
pub(crate) fn shows(block: &Block, flag: Flag) -> bool
    ensures { result ≡ shown flag block.now.status }
{
    after_accesses();
    let status = status(block);
    match flag {
        Flag::Msts0 => status / 0x8000 % 2 == 1,
        Flag::Ald0 => status / 0x4000 % 2 == 1,
        Flag::Ackd0 => status / 0x0400 % 2 == 1,
    }
}

// Whether STT0 is set.
pub fn is_starting(block: &Block) -> bool
    ensures { result ≡ starts block.now.task }
{
    block.read(IICC0).is_ok_and(|control| control / 2 % 2 == 1)
}

// The byte that was moved, unless one moves.
pub(crate) fn moved_byte(block: &Block) -> Option<u8>
    ensures { result ≡ moved_byte block.now }
{
    block.read(IIC0).ok().map(|byte| byte as u8)
}
