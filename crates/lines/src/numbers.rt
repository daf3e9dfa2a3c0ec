// Numbers as the script writes them, decimal, or hexadecimal with an h behind: 9, 09h.
ghost use Rattle.std.specs.Prelude.{◌≡◌, ◌≤◌, slice_get, unwrap_or};

use crate::list::List;
use std::io;
use std::io::Write;

// Up to 24 numbers. No line of the script has as many.
pub type Numbers = List<u64, 24>;

impl Numbers {
    // No numbers.
    pub fn none() -> Numbers
        ensures { result.count ≡ 0 }
    {
        List::new(0)
    }

    // One number.
    pub fn one(number: u64) -> Numbers {
        Numbers::none().with(number)
    }

    // One number more, as long as there is a place.
    pub fn with(mut self, number: u64) -> Numbers {
        self.push(number);
        self
    }

    // These numbers more.
    pub fn with_all<T: Copy + Into<u64>>(mut self, more: &[T]) -> Numbers {
        for number in more {
            self.push((*number).into());
        }
        self
    }

    // The number at a place, 0 where there is none. (No Option: a line is played only if its shape has seen that it is there.)
    pub fn at(&self, place: usize) -> u64
        ensures { result ≡ unwrap_or (slice_get self.now.places place) 0 }
    {
        self.places.get(place).copied().unwrap_or(0)
    }

    // Whether none is higher than the highest for its place. The last of these is for all places behind it too.
    pub fn within(&self, highest: &[u64]) -> bool {
        let last = highest.last().copied().unwrap_or(0);
        let most = |place: usize| highest.get(place).copied().unwrap_or(last);
        let mut placed = self.as_slice().iter().enumerate();
        placed.all(|(place, number)| *number <= most(place))
    }

    // Writes the numbers, each behind a blank.
    pub fn print(&self, out: &mut impl Write) -> io::Result<()> {
        for number in self.as_slice() {
            write!(out, " {number}")?;
        }
        Ok(())
    }

    // The numbers from a place on, as bytes.
    pub fn bytes_from(&self, first: usize) -> List<u8, 24> {
        let mut bytes = List::new(0);
        for number in self.as_slice().iter().skip(first) {
            bytes.push(byte(*number));
        }
        bytes
    }
}

// ---- a word read

// The number that a word is, if it is one.
pub fn read(word: &[u8]) -> Option<u64> {
    match word {
        [digits @ .., b'h'] => number_of(digits, 16),
        digits => number_of(digits, 10),
    }
}

// The number of these digits; no digits are no number.
fn number_of(digits: &[u8], base: u64) -> Option<u64>
    requires { base ≤ 16 }
{
    if digits.is_empty() {
        return None;
    }
    digits
        .iter()
        .try_fold(0, |number, byte| with_digit(number, *byte, base))
}

// The number with one digit more. One that might not fit 64 bits is none: the highest ones are written in hexadecimal.
fn with_digit(number: u64, byte: u8, base: u64) -> Option<u64>
    requires { base ≤ 16 }
{
    let digit = digit(byte)?;
    if number > 0x0FFF_FFFF_FFFF_FFFF || base <= digit {
        return None;
    }
    Some(number * base + digit)
}

// What a byte is worth as a digit, if it is one.
fn digit(byte: u8) -> Option<u64> {
    match byte {
        b'0'..=b'9' => Some(u64::from(byte - b'0')),
        b'A'..=b'F' => Some(u64::from(byte - b'A' + 10)),
        _ => None,
    }
}

// ---- the numbers of a line as the calls take them, each in range: the shape of its line has seen to it. (A name for each kind of
// number: one generic function would leave the type and the number out of range to every call.)

// A number as a byte.
pub fn byte(number: u64) -> u8 {
    u8::try_from(number).unwrap_or(0)
}

// A number as a ticket.
pub fn ticket(number: u64) -> u32 {
    u32::try_from(number).unwrap_or(0)
}

// A number as a cell.
pub fn cell(number: u64) -> u16 {
    u16::try_from(number).unwrap_or(u16::MAX)
}

// A number as a place or a count.
pub fn place(number: u64) -> usize {
    number.min(255) as usize
}

// A number as a size, or a place in many.
pub fn size(number: u64) -> usize {
    number.min(65535) as usize
}

// A size, or the most that it may be. (Kept beside `min`: wrong answers are tried of this promise, `text_wrong` and `text_wrong_again`.)
pub fn at_most(size: usize, most: usize) -> usize
    ensures { result ≤ most }
{
    size.min(most)
}
