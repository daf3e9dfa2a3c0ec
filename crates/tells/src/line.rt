// Cells and bytes in a line.
ghost use Rattle.std.specs.Prelude.{◌<◌};
ghost use Rattle.std.specs.Str.{IsAscii};

use lines::cells::BLANK_CELL;
use std::fmt;

// What every byte is before a call.
pub const BLANK_BYTE: u8 = 255;

// Bytes, in two hexadecimal digits each.
#[derive(Clone, Copy)]
pub struct Hex<'a>(pub &'a [u8]);

impl fmt::Display for Hex<'_> {
    fn fmt<W: fmt::Write>(&self, f: &mut fmt::Formatter<W>) -> fmt::Result {
        let (eights, rest) = self.0.as_chunks();
        for bytes in eights {
            f.write_str(str::from_utf8(&digits(bytes)).unwrap())?;
        }
        for byte in rest {
            write!(f, "{byte:02X}")?;
        }
        Ok(())
    }
}

// The digits of eight bytes. (Made here: byte by byte the library's formatter takes several times as long.)
fn digits(bytes: &[u8; 8]) -> [u8; 16]
    ensures { IsAscii result }
{
    let mut digits = [0; 16];
    for i in 0..8 {
        digits[2 * i] = digit(bytes[i] / 16);
        digits[2 * i + 1] = digit(bytes[i] % 16);
    }
    digits
}

// The character of a digit: the lowest of a number.
fn digit(value: u8) -> u8
    ensures { result < 128 }
{
    let value = value % 16;
    if value < 10 {
        b'0' + value
    } else {
        b'A' + (value - 10)
    }
}

// The word `cells` and the lent cells, up to the last one that is not blank.
#[derive(Clone, Copy)]
pub struct Cells<'a>(pub &'a [u16]);

impl fmt::Display for Cells<'_> {
    fn fmt<W: fmt::Write>(&self, f: &mut fmt::Formatter<W>) -> fmt::Result {
        write!(f, "cells")?;
        for cell in told(self.0, BLANK_CELL) {
            write!(f, " {cell}")?;
        }
        Ok(())
    }
}

// The lent bytes up to the last one that is not blank, in hexadecimal; a `-` if there is none.
#[derive(Clone, Copy)]
pub struct Bytes<'a>(pub &'a [u8]);

impl fmt::Display for Bytes<'_> {
    fn fmt<W: fmt::Write>(&self, f: &mut fmt::Formatter<W>) -> fmt::Result {
        match told(self.0, BLANK_BYTE) {
            [] => write!(f, "-"),
            bytes => write!(f, "{}", Hex(bytes)),
        }
    }
}

// What was lent, up to the last place that is not blank.
fn told<T: Copy + PartialEq>(lent: &[T], blank: T) -> &[T] {
    match lent.iter().rposition(|x| *x != blank) {
        Some(last) => &lent[..=last],
        None => &[],
    }
}
