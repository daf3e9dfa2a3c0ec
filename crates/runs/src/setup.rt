// What a run is given, and the cells of the last one.
use crate::{played, seen, shapes};
use boards::Board;
use lent::NO_BOARD;
use lines::came::Came;
use lines::cells::BLANK_CELL;
use lines::list::List;
use lines::numbers::{Numbers, at_most, byte, place, size, ticket};
use lines::shapes::Shape;
use lines::stage::Stage;
use lines::words::Line;
use looks::by_hand;
use machine::Machine;

// The machine; 40 boards, of which a run is lent the first `count`, a number that may be too high for them; the flips; and how many of 1,100 cells
// it is lent: a script says how much of fixed memory.
#[derive(Drop)]
pub struct Setup {
    pub machine: Machine,
    pub boards: [Board; 40],
    pub count: usize,
    pub flips: List<u8, 100>,
    pub lent: usize,
    pub cells: [u16; 1100],
}

impl Stage for Setup {
    // The machine of a refused start, no boards and no flips, all cells lent, and each blank.
    fn begun() -> Setup {
        Setup {
            machine: machine::start(0, &[0], 0).machine,
            boards: [NO_BOARD; 40],
            count: 0,
            flips: List::new(0),
            lent: 1100,
            cells: [BLANK_CELL; 1100],
        }
    }

    fn shape(letter: u8) -> Option<Shape> {
        shapes::shape(letter)
    }

    fn play(&mut self, letter: u8, given: &Numbers) -> Option<Came> {
        match letter {
            b's' => Some(played::start(self, given)),
            b'r' => Some(played::retire(self, ticket(given.at(0)))),
            b'p' => Some(played::play(self)),
            b'c' => Some(Came::seen(seen::cells(self, given))),
            b'h' => Some(Came::seen(seen::addresses(self, given))),
            b'o' => Some(Came::seen(seen::offer(self, place(given.at(0))))),
            b't' => Some(Came::seen(looks::place(&self.machine, place(given.at(0))))),
            b'f' => Some(Came::seen(looks::facts(&self.machine))),
            _ => {
                self.change(letter, given);
                None
            }
        }
    }

    fn said(letter: u8, line: Line) -> Numbers {
        shapes::said(letter, line)
    }
}

impl Setup {
    // What a line does that only changes what the next run is given, by its letter: boards, more, wire, again, lent; Number, Board, and what is changed
    // in the machine by hand.
    fn change(&mut self, letter: u8, given: &Numbers) {
        let number = size(given.at(0));
        match letter {
            b'b' => {
                self.boards = [NO_BOARD; 40];
                self.count = 0;
                self.more(given);
            }
            b'm' => self.more(given),
            b'w' => {
                self.flips.clear();
                self.wire(given);
            }
            b'a' => self.again(number),
            b'l' => self.lent = number,
            b'N' => self.count = number,
            b'B' => self.put_board(number, given.at(1), byte(given.at(2))),
            _ => by_hand::change(&mut self.machine, letter, given),
        }
    }

    // This board goes to a place, if there is such a place.
    fn put_board(&mut self, place: usize, identity: u64, address: u8) {
        if let Some(board) = self.boards.get_mut(place) {
            *board = Board { identity, address };
        }
    }

    // Boards of these identities go behind those that are told, each without an address.
    fn more(&mut self, given: &Numbers) {
        for identity in given.as_slice() {
            self.put_board(self.count, *identity, 0);
            self.count = at_most(self.count, 39) + 1;
        }
    }

    // These flips go behind the others.
    fn wire(&mut self, given: &Numbers) {
        for flip in given.as_slice() {
            self.flips.push(byte(*flip));
        }
    }

    // The flips over and over, so many in all.
    fn again(&mut self, all: usize) {
        let period = self.flips.count;
        for _ in period..all {
            let place = self.flips.count.saturating_sub(period);
            let flip = self.flips.places.get(place).copied();
            self.flips.push(flip.unwrap_or(0));
        }
    }
}
