// How a line is kept, byte after byte.
ghost use Rattle.std.specs.Prelude.{◌≡◌, [], ◌∷◌, ◌++◌, take};
ghost use Rattle.numerals.specs.Lines.{LongLinesAreWrong};
ghost use Rattle.numerals.specs.Held.{bytes_of};

use super::Kept;
use array_vec::ArrayVec;

impl Kept {
    pub fn new() -> Self
        ensures { bytes_of result ≡ [] }
    {
        Kept {
            list: ArrayVec::new(0),
        }
    }

    // A new line begins.
    pub fn clear(&mut self)
        ensures { bytes_of self.new ≡ [] }
    {
        self.list.clear();
    }

    // One byte more of the line.
    #[tactic(auto, using(crate::proofs::Keeping::one_more))]
    pub fn keep(&mut self, byte: u8)
        ensures { bytes_of self.new ≡ take 188 (bytes_of self.old ++ (byte ∷ [])) }
    {
        let _ = self.list.push(byte);
    }

    pub fn line(&self) -> &[u8]
        ensures { result.now ≡ bytes_of self.now }
    {
        self.list.as_slice()
    }
}

// A line of over 187 bytes is no list of numbers, and neither are its first 188 bytes.
pub fn long_lines_are_wrong()
    ensures { LongLinesAreWrong }
{}
