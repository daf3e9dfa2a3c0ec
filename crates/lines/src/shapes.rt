// Whether a line of the script has the numbers that it can have.
ghost use Rattle.std.specs.Prelude.{◌≡◌, true, false};

use crate::words::Line;

// The highest number of each kind.
pub const BYTE: u64 = u8::MAX as u64;

pub const CELL: u64 = u16::MAX as u64;

pub const TICKET: u64 = u32::MAX as u64;

pub const IDENTITY: u64 = u64::MAX;

// How many numbers stand before the sign, at least and at most; the highest for each place, the last one for all behind it too; and whether there is
// a sign.
#[derive(Clone, Copy, Debug, PartialEq, Eq)]
pub struct Shape {
    pub least: usize,
    pub most: usize,
    pub highest: &'static [u64],
    pub sign: bool,
}

impl Shape {
    // From so many numbers to so many, none higher than these, and no sign.
    pub fn new(least: usize, most: usize, highest: &'static [u64]) -> Shape
        ensures many { (result.least ≡ least) × (result.most ≡ most) }
        ensures highest { result.highest.now ≡ highest.now }
        ensures sign { result.sign ≡ false }
    {
        Shape {
            least,
            most,
            highest,
            sign: false,
        }
    }

    // The same with a sign behind the numbers.
    pub fn with_sign(self) -> Shape
        ensures many { (result.least ≡ self.least) × (result.most ≡ self.most) }
        ensures highest { result.highest.now ≡ self.highest.now }
        ensures sign { result.sign ≡ true }
    {
        Shape { sign: true, ..self }
    }

    // Whether all words of a line could be read, its numbers before the sign are so many, none too high for its place, and it has a sign if it has to.
    pub fn fits(&self, line: &Line) -> bool {
        let many = line.given.count;
        line.right
            && self.least <= many
            && many <= self.most
            && line.given.within(self.highest)
            && line.said.is_some() == self.sign
    }
}
