// The writer, as a line of the script calls it.
use crate::desk::Desk;
use lines::came::{Came, Flaw};
use lines::cells::{BLANK_CELL, blank_from};
use lines::list::List;
use lines::numbers::{Numbers, at_most, byte};
use readings::{Command, Joining, Reading};
use refusals::Refusal;

// The writer's answer to a reading with the first `span` bytes, lent the first `lent` cells.
fn write_part(
    reading: &Reading,
    bytes: &[u8],
    span: usize,
    cells: &mut [u16],
    lent: usize,
) -> Result<usize, Refusal> {
    let many = at_most(span, bytes.len());
    let n = at_most(lent, cells.len());
    writer::write(reading, &bytes[..many], &mut cells[..n])
}

// Whether the writer, handed a reading and the very bytes that the reader was lent, gives the record that was read, and leaves the cells behind it
// blank.
pub fn echoes(desk: &Desk, reading: &Reading) -> bool {
    let record = desk.record.as_slice();
    let mut out = [BLANK_CELL; 1100];
    write_part(reading, &desk.bytes, desk.room, &mut out, 1100) == Ok(record.len())
        && out.starts_with(record)
        && blank_from(&out, record.len(), &BLANK_CELL)
}

// `write`. Refusal, count and place. What was written is then the record, if it was not refused.
pub fn write(desk: &mut Desk, given: &Numbers) -> Came {
    let reading = reading_of(given);
    let mut cells = [BLANK_CELL; 1100];
    match write_part(&reading, &desk.bytes, desk.span, &mut cells, desk.lent) {
        Ok(count) => {
            desk.record = List::first(cells, count);
            written(0, count, &cells)
        }
        Err(refusal) => written(refusal.number(), 0, &cells),
    }
}

// What it came to with this refusal and so many cells: behind them the lent ones have to be blank.
fn written(refusal: u8, count: usize, cells: &[u16]) -> Came {
    Came {
        numbers: Numbers::one(refusal.into()).with(count as u64).with(0),
        flaw: (!blank_from(cells, count, &BLANK_CELL)).then_some(Flaw::Touched),
    }
}

// The reading of a line: joining, command, header, new address, direct, last, offers.
fn reading_of(given: &Numbers) -> Reading {
    Reading {
        joining: Joining::try_from(byte(given.at(0))).unwrap_or(Joining::Answered),
        command: Command::try_from(byte(given.at(1))).unwrap_or(Command::Allow),
        header: byte(given.at(2)),
        new: byte(given.at(3)),
        direct: given.at(4) != 0,
        last: given.at(5) != 0,
        offers: given.at(6) as usize,
    }
}
