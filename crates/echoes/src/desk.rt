// What lies before the reader and the writer: a record, a buffer of offers, and how much of what they are lent.
use crate::{reads, shapes, writes};
use lines::came::Came;
use lines::cells::BLANK_CELL;
use lines::list::List;
use lines::numbers::{Numbers, at_most, byte, cell, size};
use lines::shapes::Shape;
use lines::stage::Stage;
use lines::words::Line;

// The record. Of the bytes the reader is lent `room` and the writer `span`; of its own cells the writer is lent `lent`: a script
// says how much of fixed memory a call is lent.
#[derive(Drop)]
pub struct Desk {
    pub record: List<u16, 1100>,
    pub bytes: [u8; 1000],
    pub room: usize,
    pub span: usize,
    pub lent: usize,
}

// What every byte is before a call.
pub const BLANK_BYTE: u8 = 170;

impl Stage for Desk {
    // No record, a blank buffer, and all of it lent.
    fn begun() -> Desk {
        Desk {
            record: List::new(BLANK_CELL),
            bytes: [BLANK_BYTE; 1000],
            room: 1000,
            span: 1000,
            lent: 1100,
        }
    }

    fn shape(letter: u8) -> Option<Shape> {
        shapes::shape(letter)
    }

    fn play(&mut self, letter: u8, given: &Numbers) -> Option<Came> {
        let number = size(given.at(0));
        match letter {
            b't' => Some(reads::ten(self, number)),
            b'o' => Some(reads::off(self)),
            b'f' => Some(reads::fits(self, number)),
            b'w' => Some(writes::write(self, given)),
            b's' | b'b' | b'r' => Some(reads::read(self)),
            _ => {
                self.change(letter, given);
                None
            }
        }
    }

    fn said(letter: u8, line: Line) -> Numbers {
        shapes::said(letter, line)
    }
}

impl Desk {
    // What a line does that only changes what the next ones meet, by its letter: Room, Span, Lent, Byte; cells, more, again.
    fn change(&mut self, letter: u8, given: &Numbers) {
        let number = size(given.at(0));
        match letter {
            b'R' => self.room = number,
            b'S' => self.span = number,
            b'L' => self.lent = number,
            b'B' => {
                if let Some(place) = self.bytes.get_mut(number) {
                    *place = byte(given.at(1));
                }
            }
            b'c' => {
                self.record.clear();
                self.more(given);
            }
            b'm' => self.more(given),
            _ => self.again(number),
        }
    }

    // These numbers go behind the record, as cells, as long as there is a place: from 1,025 cells on, each record is read alike.
    fn more(&mut self, given: &Numbers) {
        for number in given.as_slice() {
            self.record.push(cell(*number));
        }
    }

    // The record's last eleven cells go so many times more behind it. It has 0 for those that it lacks.
    fn again(&mut self, times: usize) {
        for _ in 0..11 * at_most(times, 100) {
            let cell = self.record.as_slice().iter().rev().nth(10).copied();
            self.record.push(cell.unwrap_or(0));
        }
    }
}
