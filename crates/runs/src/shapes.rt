// Which numbers a line of the script can have, and what it says a step comes to.
use crate::seen;
use lines::numbers::Numbers;
use lines::shapes::{BYTE, CELL, IDENTITY, Shape, TICKET};
use lines::words::Line;
use looks::by_hand;

// By its letter. A look at cells or boards has no sign, nor has a line that only changes what the next ones meet.
pub fn shape(letter: u8) -> Option<Shape> {
    Some(match letter {
        b's' => Shape::new(2, 18, &[BYTE, TICKET, BYTE]).with_sign(),
        b'r' => Shape::new(1, 1, &[TICKET]).with_sign(),
        b't' => Shape::new(1, 1, &[BYTE]).with_sign(),
        b'p' | b'f' => Shape::new(0, 0, &[]).with_sign(),
        b'c' => Shape::new(2, 23, &[1099, CELL]),
        b'h' => Shape::new(2, 23, &[39, BYTE]),
        b'o' => Shape::new(4, 4, &[92, IDENTITY, CELL]),
        b'b' => Shape::new(0, 23, &[IDENTITY]),
        b'm' => Shape::new(1, 23, &[IDENTITY]),
        b'w' => Shape::new(0, 23, &[BYTE]),
        b'a' => Shape::new(1, 1, &[100]),
        b'l' => Shape::new(1, 1, &[1100]),
        b'N' => Shape::new(1, 1, &[CELL]),
        b'B' => Shape::new(3, 3, &[39, IDENTITY, BYTE]),
        _ => return by_hand::shape(letter),
    })
}

// What a line says that it comes to.
pub fn said(letter: u8, line: Line) -> Numbers {
    match letter {
        b'o' => seen::offered(&line.given),
        b'c' | b'h' => line.given,
        _ => line.said.unwrap_or(Numbers::none()),
    }
}
