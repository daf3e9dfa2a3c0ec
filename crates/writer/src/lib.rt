// The writer: the cells of the one record that reads as a reading and its offers.
#![tactic(auto)]

ghost use Rattle.std.specs.Prelude.{◌≡◌, length};
ghost use Rattle.lists.specs.Buffers.{lay};
ghost use Rattle.writer.specs.Write.{to_write, written, write_answer};

mod fits;
mod puts;

use readings::{MOST_CELLS, Reading};
use refusals::Refusal;

// The record of a reading with its offers, ten bytes each, goes to the front of the cells, and the answer is how many; what lies behind them stays, and
// all of it after a refusal: fewer than 1,024 cells lent, no layout, which here means that no record of at most 1,024 cells reads as what was given.
// Bytes behind the last offer are not looked at.
pub fn write(reading: &Reading, offers: &[u8], cells: &mut [u16]) -> Result<usize, Refusal>
    ensures value { written result ≡ write_answer reading.now offers.now (length cells.old) }
    ensures cells_after { cells.new ≡ lay (to_write reading.now offers.now (length cells.old)) cells.old }
{
    if cells.len() < MOST_CELLS {
        return Err(Refusal::TooFewLent);
    }
    if !fits::writable(reading, offers) {
        return Err(Refusal::NoLayout);
    }
    Ok(puts::record(reading, offers, cells))
}
