// Bytes in their order as numbers, 255 the greatest.
ghost use Rattle.std.specs.Prelude.{◌≡◌};
ghost use Rattle.history.specs.Bytes.{bytes};

use super::Byte;
use crate::Mark;
use std::cmp::Ordering;

impl From<u8> for Byte {
    ghost from_gives = { λ n b. b.value ≡ n };

    fn from(value: u8) -> Byte {
        Byte { value }
    }
}

impl From<Byte> for u8 {
    ghost from_gives = { λ b n. n ≡ b.value };

    fn from(byte: Byte) -> u8 {
        let Byte { value } = byte;
        value
    }
}

impl Mark for Byte {
    ghost marks = { bytes };

    fn against(self, other: Byte) -> Ordering {
        self.cmp(&other)
    }

    fn greatest() -> Byte {
        Byte::from(255)
    }
}
