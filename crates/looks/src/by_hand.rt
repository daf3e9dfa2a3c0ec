// A machine made by hand: one field is given another value, which no call would give it.
use lines::numbers::{Numbers, byte, place, ticket};
use lines::shapes::{BYTE, IDENTITY, Shape, TICKET};
use machine::{Machine, Moment};
use rows::Row;

// Gives the field of this letter the numbers of a line: Moment, Flags, Ticket (the last), Legacy, Row; Choice, Asked, Wanted, Identity, Offered,
// Succession (the refusals).
pub fn change(m: &mut Machine, letter: u8, given: &Numbers) {
    let number = given.at(0);
    match letter {
        b'M' => m.moment = Moment::try_from(byte(number)).unwrap_or(Moment::Direct),
        b'F' => m.table.facts.flags = byte(number),
        b'T' => m.table.facts.last = ticket(number),
        b'L' => {
            if let Some(legacy) = m.table.facts.legacy.get_mut(place(number)) {
                *legacy = byte(given.at(1));
            }
        }
        b'R' => {
            if let Some(row) = m.table.rows.get_mut(place(number)) {
                *row = row_of(given);
            }
        }
        b'C' => m.choice = byte(number),
        b'A' => m.asked = byte(number),
        b'W' => m.wanted = byte(number),
        b'I' => m.identity = number,
        b'O' => m.offered = byte(number),
        _ => m.refusals = byte(number),
    }
}

// What a line has for a row, behind its place.
fn row_of(given: &Numbers) -> Row {
    Row {
        address: byte(given.at(1)),
        ticket: ticket(given.at(2)),
        unknown: given.at(3) != 0,
        identity: given.at(4),
        from_static: byte(given.at(5)),
    }
}

// Which numbers a line has that changes a machine by hand, by its letter; none for a letter that is no such line's. Those of a row are: place, address,
// ticket, mark "identity unknown", identity, static address.
pub fn shape(letter: u8) -> Option<Shape> {
    Some(match letter {
        b'M' => Shape::new(1, 1, &[5]),
        b'T' => Shape::new(1, 1, &[TICKET]),
        b'I' => Shape::new(1, 1, &[IDENTITY]),
        b'C' | b'A' | b'W' | b'O' | b'S' | b'F' => Shape::new(1, 1, &[BYTE]),
        b'L' => Shape::new(2, 2, &[BYTE]),
        b'R' => Shape::new(6, 6, &[BYTE, BYTE, TICKET, BYTE, IDENTITY, BYTE]),
        _ => return None,
    })
}
