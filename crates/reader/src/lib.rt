// The reader: what a record says, or where it breaks.
//
// A record is START to STOP, one cell for each thing that stood on the bus. The reading says joining, command, addresses and how many offers; the
// offers themselves, ten bytes each, go to a lent buffer.
#![tactic(auto)]

ghost use Rattle.std.specs.Prelude.{◌≡◌, length};
ghost use Rattle.lists.specs.Buffers.{lay};
ghost use Rattle.reader.specs.Read.{fault_answer, answer_of, answer_to, breaks, offers_to};

mod kinds;
mod offers;
mod place;
mod points;

use place::Place;
use readings::{MOST_CELLS, Reading};
use refusals::Refusal;

// Why a record is refused, and where. With NoLayout the place is that of the first cell that can't continue a layout, counted from 0, or the length of
// a record that breaks off; else it is 0.
#[derive(Clone, Copy, Debug, PartialEq, Eq)]
pub struct Fault {
    pub refusal: Refusal,
    pub place: usize,
}

impl Fault {
    // The cell at this place can't continue a layout, or the record breaks off there.
    fn at(place: usize) -> Self
        ensures { fault_answer result ≡ breaks place }
    {
        Fault {
            refusal: Refusal::NoLayout,
            place,
        }
    }
}

// The record as a whole is refused, at no place.
impl From<Refusal> for Fault {
    ghost from_gives = { λ r f. f ≡ record { refusal = r; place = 0 } };

    fn from(refusal: Refusal) -> Self {
        Fault { refusal, place: 0 }
    }
}

// What these cells say, or a refusal: over 1,024 cells, no layout, a buffer shorter than ten bytes an offer. The offers go to the front of the buffer,
// ten bytes each; what lies behind them stays, and all of it after a refusal.
pub fn read(cells: &[u16], buffer: &mut [u8]) -> Result<Reading, Fault>
    ensures value { answer_of result ≡ answer_to cells.now (length buffer.old) }
    ensures buffer_after { buffer.new ≡ lay (offers_to cells.now (length buffer.old)) buffer.old }
{
    if MOST_CELLS < cells.len() {
        return Err(Fault::from(Refusal::TooLong));
    }
    let reading = Place { cells, at: 0 }.record()?;
    // divided, since ten times the count might not fit
    if buffer.len() / 10 < reading.offers {
        return Err(Fault::from(Refusal::NoRoom));
    }
    offers::put(cells, reading, buffer);
    Ok(reading)
}
