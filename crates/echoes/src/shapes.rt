// Which numbers a line of the script can have, and what it says a step comes to.
use crate::reads;
use lines::numbers::Numbers;
use lines::shapes::{BYTE, CELL, Shape};
use lines::words::Line;

// By its letter. Only `write` has a sign. The numbers of a reading are: joining, command, header, new address, direct, last, offers.
pub fn shape(letter: u8) -> Option<Shape> {
    Some(match letter {
        b'c' => Shape::new(0, 23, &[CELL]),
        b'm' => Shape::new(1, 23, &[CELL]),
        b's' => Shape::new(7, 7, &READING),
        b'w' => Shape::new(7, 7, &READING).with_sign(),
        b't' => Shape::new(11, 11, &[99, BYTE]),
        b'f' => Shape::new(2, 2, &[1099, 65536]),
        b'B' => Shape::new(2, 2, &[999, BYTE]),
        b'R' | b'S' => Shape::new(1, 1, &[1000]),
        b'L' | b'o' => Shape::new(1, 1, &[1100]),
        b'a' => Shape::new(1, 1, &[100]),
        b'b' | b'r' => Shape::new(1, 1, &[CELL]),
        _ => return None,
    })
}

// The highest numbers of a reading.
const READING: [u64; 7] = [2, 6, BYTE, BYTE, 1, 1, u64::MAX];

// What a line says that it comes to. `says`, `breaks` and `refused` are all a reading with refusal and place.
pub fn said(letter: u8, line: Line) -> Numbers {
    match letter {
        b's' => line.given.with(0).with(0),
        b'b' => reads::refused(14, line.given.at(0)),
        b'r' => reads::refused(line.given.at(0), 0),
        b'w' => line.said.unwrap_or(Numbers::none()).with(0),
        _ => line.given,
    }
}
