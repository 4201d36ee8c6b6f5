// What is held, byte by byte.
ghost use Rattle.std.specs.Prelude.{◌≡◌, [], ◌∷◌, ◌++◌, length, take, if◌then◌else◌, nat_lt, slice_index};
ghost use Rattle.orders.specs.Held.{held};

use super::Bytes;
use array_vec::ArrayVec;

impl Bytes {
    // None yet.
    pub fn new() -> Self
        ensures { held result ≡ [] }
    {
        Bytes {
            list: ArrayVec::new(0),
        }
    }

    // As many of some bytes as there is room for: what a slice of u8 holds are bytes.
    fn front(bytes: &[u8]) -> Self
        ensures { held result ≡ take 32 bytes.now }
    {
        Bytes {
            list: ArrayVec::from_slice(bytes, 0),
        }
    }

    // The first 32 of some bytes.
    pub fn copied(bytes: &[u8]) -> Self
        ensures { held result ≡ take 32 bytes.now }
    {
        Bytes::front(bytes)
    }

    pub fn len(&self) -> u8
        ensures { result ≡ length (held self.now) }
    {
        self.list.len() as u8
    }

    // The byte at a place, or 0 past the end.
    pub fn at(&self, place: u8) -> u8
        ensures { result ≡ slice_index (held self.now) place }
    {
        self.as_slice()
            .get(usize::from(place))
            .copied()
            .unwrap_or(0)
    }

    // One byte more; where 32 are held, nothing is altered.
    pub fn push(&mut self, byte: u8)
        ensures { held self.new ≡ (if nat_lt (length (held self.old)) 32 then held self.old ++ (byte ∷ []) else held self.old) }
    {
        let _ = self.list.push(byte);
    }

    // All of them.
    pub fn as_slice(&self) -> &[u8]
        ensures { result.now ≡ held self.now }
    {
        self.list.as_slice()
    }
}
