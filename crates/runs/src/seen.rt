// What is looked at after a run: cells and boards.
use crate::setup::Setup;
use lines::numbers::{Numbers, at_most, size};

// `cells PLACE CELLS..`. The place, and as many cells from there on as the line has, 0 behind all of them.
pub fn cells(setup: &Setup, given: &Numbers) -> Numbers {
    from_place(given, |place| {
        setup.cells.get(place).map_or(0, |cell| u64::from(*cell))
    })
}

// `holds PLACE ADDRESSES..`. The place, and as many boards' addresses from there on as the line has, 0 behind all of them.
pub fn addresses(setup: &Setup, given: &Numbers) -> Numbers {
    from_place(given, |place| {
        setup
            .boards
            .get(place)
            .map_or(0, |board| u64::from(board.address))
    })
}

// The place that a line has first, and what stands there and behind it, as much as the line has.
fn from_place<F: Fn(usize) -> u64>(given: &Numbers, at: F) -> Numbers
    requires { F.IsAlwaysCallable at }
{
    let first = at_most(size(given.at(0)), 1100);
    let mut out = Numbers::one(given.at(0));
    for more in 1..given.count {
        out.push(at(first + (more - 1)));
    }
    out
}

// `offer PLACE IDENTITY CELL NEXT`. The place, and the eleven cells of the offer there, from its round header on.
pub fn offer(setup: &Setup, place: usize) -> Numbers {
    let first = 4 + 11 * at_most(place, 92);
    Numbers::one(place as u64).with_all(&setup.cells[first..first + 11])
}

// What it says: 506, the eight cells of the identity, the cell of the address and the one behind it. The cell of an identity byte is the lowest one
// of this number.
pub fn offered(given: &Numbers) -> Numbers {
    let mut out = Numbers::one(given.at(0)).with(506);
    for byte in given.at(1).to_be_bytes() {
        out.push(1024 + u64::from(byte));
    }
    out.with(given.at(2)).with(given.at(3))
}
