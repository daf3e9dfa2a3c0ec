// Which numbers a line of the script can have.
use lines::shapes::{BYTE, Shape, TICKET};
use looks::by_hand;

// By its letter. A call or a look has a sign, and says behind it what it comes to; `lent`, and a capital letter, only change what the next ones meet.
pub fn shape(letter: u8) -> Option<Shape> {
    Some(match letter {
        b's' => Shape::new(2, 23, &[BYTE, TICKET, BYTE]).with_sign(),
        b'b' => Shape::new(4, 4, &[BYTE, BYTE, BYTE, TICKET]).with_sign(),
        b'i' => Shape::new(0, 23, &[BYTE]).with_sign(),
        b'c' => Shape::new(2, 2, &[65535]).with_sign(),
        b'r' | b'q' => Shape::new(1, 1, &[TICKET]).with_sign(),
        b'j' | b't' => Shape::new(1, 1, &[BYTE]).with_sign(),
        b'h' | b'n' | b'u' | b'm' | b'f' | b'd' => Shape::new(0, 0, &[]).with_sign(),
        b'l' => Shape::new(1, 1, &[12]),
        _ => return by_hand::shape(letter),
    })
}
