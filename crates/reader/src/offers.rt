// The offers of a record that was read, ten bytes each.
ghost use Rattle.std.specs.Prelude.{◌≡◌, ◌+◌, ◌*◌, ◌^◌, ◌≤◌, ◌<◌, length, drop};
ghost use Rattle.lists.specs.Buffers.{lay_at, lay};
ghost use Rattle.reader.specs.Read.{cell_at, ten_of, rounds_at, offers_of};

use crate::kinds;
use readings::{Joining, Reading};

// What is read past the end.
const NO_CELL: u16 = 65535;

// The cell at a place.
fn cell_at(cells: &[u16], place: usize) -> u16
    ensures { result ≡ cell_at cells.now place }
{
    cells.get(place).copied().unwrap_or(NO_CELL)
}

// How many cells stand before the first round header.
fn rounds_at(joining: Joining) -> usize
    ensures small { result < 8 }
    ensures value { result ≡ rounds_at joining }
{
    match joining {
        Joining::None => 4,
        Joining::Refused => 0,
        Joining::Answered => 6,
    }
}

// The ten bytes of the offer whose round header stands at `from`, into the buffer from `at` on. (Places, and no parts cut off: a cell past the end is
// read too, as one that leads nowhere, so that the bytes of any cells are defined.)
fn put_one(cells: &[u16], from: usize, at: usize, buffer: &mut [u8])
    requires { (from + 9 < 2 ^ 64) × (at + 10 ≤ length buffer.old) }
    ensures { buffer.new ≡ lay_at at (ten_of (drop from cells.now)) buffer.old }
{
    for k in 0..8 {
        buffer[at + k] = (cell_at(cells, from + 1 + k) % 256) as u8;
    }
    let offered = cell_at(cells, from + 9);
    buffer[at + 8] = kinds::byte_of(offered);
    buffer[at + 9] = (offered % 2) as u8;
}

// The ten bytes of every offer of a record that says this.
pub fn put(cells: &[u16], reading: Reading, buffer: &mut [u8])
    requires { 10 * reading.offers ≤ length buffer.old }
    ensures { buffer.new ≡ lay (offers_of reading cells.now) buffer.old }
{
    let from = rounds_at(reading.joining);
    for i in 0..reading.offers {
        put_one(cells, from + 11 * i, 10 * i, buffer);
    }
}
