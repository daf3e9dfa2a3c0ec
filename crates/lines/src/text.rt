// The text of a script, and where its lines end.
ghost use Rattle.std.specs.Prelude.{◌≡◌, ◌≤◌, ◌-◌, length, take, IfOk, IfSome};
ghost use Rattle.std.specs.Io.{ReadsAtMost};
ghost use Rattle.std.specs.Iterator.{at_most};

use std::io;
use std::io::{Read, Write};

// The room for a script.
pub const ROOM: usize = 65536;

// Reads the script, and says how long it is. If it fills its room, there may be more of it, which is written.
pub fn read<R: Read>(input: &mut R, out: &mut impl Write, text: &mut [u8]) -> io::Result<usize>
    ensures bound { ReadsAtMost result text.new }
    ensures bytes { IfOk result (λ n. IfSome (R.remaining input.old) (λ xs. take n text.new ≡ take (length text.new) xs)) }
{
    let n = fills::read_full(input, text)?;
    if n == ROOM {
        writeln!(
            out,
            "the script has more than 65,535 bytes; what follows them is not played"
        )?;
    }
    Ok(n)
}

// Where the line that begins at a place ends: at the next line feed, or with the text. (No `split`: wrong answers are tried of this promise,
// `text_wrong` and `text_wrong_again`.)
pub fn line_end(text: &[u8], from: usize) -> usize
    ensures { (result ≤ length text.now) × (from ≤ length text.now → from ≤ result) }
{
    let start = from.min(text.len());
    match text[start..].iter().position(|byte| *byte == b'\n') {
        Some(n) => start + n,
        None => text.len(),
    }
}

// The lines of a text, one after the other: the text, and where the next one begins.
#[derive(Drop)]
pub struct Lines<'a> {
    pub text: &'a [u8],
    pub from: usize,
}

impl<'a> Lines<'a> {
    // All of them.
    pub fn new(text: &'a [u8]) -> Lines<'a>
        ensures text { result.text.now ≡ text.now }
        ensures from { result.from ≡ 0 }
    {
        Lines { text, from: 0 }
    }
}

impl<'a> Iterator for Lines<'a> {
    type Item = &'a [u8];

    ghost remaining = { λ s. at_most (length s.text.now - s.from) };

    fn next(&mut self) -> Option<&'a [u8]> {
        let from = self.from;
        if self.text.len() <= from {
            return None;
        }
        let to = line_end(self.text, from);
        self.from = to + 1;
        Some(&self.text[from..to])
    }
}
