// The reader, as a line of the script calls it.
use crate::desk::{BLANK_BYTE, Desk};
use crate::writes;
use lines::came::{Came, Flaw};
use lines::cells::blank_from;
use lines::numbers::{Numbers, at_most};
use reader::Fault;
use readings::Reading;
use refusals::Refusal;

// ---- a record, and what it says

// What these cells say; the reader is lent the first `room` bytes.
fn read_part(cells: &[u16], bytes: &mut [u8], room: usize) -> Result<Reading, Fault> {
    let many = at_most(room, bytes.len());
    reader::read(cells, &mut bytes[..many])
}

// `says`, `breaks` and `refused`. The record is read into a blank buffer, which is then the desk's. Behind the offers it has to stay blank. What is
// read is written back.
pub fn read(desk: &mut Desk) -> Came {
    desk.bytes = [BLANK_BYTE; 1000];
    match read_part(desk.record.as_slice(), &mut desk.bytes, desk.room) {
        Ok(reading) => Came {
            numbers: numbers_of(&reading).with(0).with(0),
            flaw: flaw_of(desk, &reading),
        },
        Err(fault) => Came {
            numbers: refused(fault.refusal.number().into(), fault.place as u64),
            flaw: (!blank_from(&desk.bytes, 0, &BLANK_BYTE)).then_some(Flaw::Touched),
        },
    }
}

// What is wrong with a reading that is read to this desk.
fn flaw_of(desk: &Desk, reading: &Reading) -> Option<Flaw> {
    let written = 10 * at_most(reading.offers, 100);
    if !blank_from(&desk.bytes, written, &BLANK_BYTE) {
        Some(Flaw::Touched)
    } else if !writes::echoes(desk, reading) {
        Some(Flaw::NotEchoed)
    } else {
        None
    }
}

// Joining, command, header, new address, whether the direct header answered, whether the last round header answered, offers.
fn numbers_of(reading: &Reading) -> Numbers {
    Numbers::one(reading.joining.number().into())
        .with(reading.command.number().into())
        .with_all(&[reading.header, reading.new])
        .with(reading.direct.into())
        .with(reading.last.into())
        .with(reading.offers as u64)
}

// The numbers of a refusal: 0 in every one but its own and the place.
pub fn refused(refusal: u64, place: u64) -> Numbers {
    Numbers::none()
        .with_all(&[0u64; 7])
        .with(refusal)
        .with(place)
}

// `ten PLACE`. The place, and the ten bytes that the buffer has for the offer there.
pub fn ten(desk: &Desk, place: usize) -> Came {
    let first = 10 * at_most(place, 99);
    Came::seen(Numbers::one(place as u64).with_all(&desk.bytes[first..first + 10]))
}

// ---- many records

// Whether these cells break off, and leave a blank buffer blank.
fn breaks_off(cells: &[u16]) -> bool {
    let mut bytes = [BLANK_BYTE; 1000];
    breaks(cells, cells.len(), &mut bytes) && blank_from(&bytes, 0, &BLANK_BYTE)
}

// Whether a record breaks at this place.
fn breaks(cells: &[u16], place: usize, bytes: &mut [u8]) -> bool {
    let at_place = Fault {
        refusal: Refusal::NoLayout,
        place,
    };
    read_part(cells, bytes, 1000) == Err(at_place)
}

// `off`. How many beginnings of the record, each one cell longer than the one before it, break off at their length.
pub fn off(desk: &Desk) -> Came {
    let record = desk.record.as_slice();
    let many = (0..record.len())
        .take_while(|n| breaks_off(&record[..*n]))
        .count();
    Came::seen(Numbers::one(many as u64))
}

// `fits PLACE`. The place, and how many of the 65,536 numbers can stand there, behind the record's cells up to it.
pub fn fits(desk: &Desk, place: usize) -> Came {
    let mut cells = desk.record.places;
    let last = at_most(place, 1099);
    let many = (0..=u16::MAX)
        .filter(|number| {
            cells[last] = *number;
            !breaks(&cells[..last + 1], last, &mut [BLANK_BYTE; 1000])
        })
        .count();
    Came::seen(Numbers::one(place as u64).with(many as u64))
}
