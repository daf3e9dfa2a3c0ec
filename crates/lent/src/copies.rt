// Boards copied from a lent list into 32 places, and back.
ghost use Rattle.std.specs.Prelude.{◌≡◌, ◌≤◌, length, take, replicate};
ghost use Rattle.lists.specs.Buffers.{lay};
ghost use Rattle.lent.specs.Places.{no_board};

use crate::NO_BOARD;
use boards::Board;

// The first `n` boards of the list, in the first of 32 places; the others hold none.
pub fn load(boards: &[Board], n: usize) -> [Board; 32]
    requires { (n ≤ length boards.now) × (n ≤ 32) }
    ensures { result ≡ lay (take n boards.now) (replicate 32 no_board) }
{
    let mut places = [NO_BOARD; 32];
    places[..n].copy_from_slice(&boards[..n]);
    places
}

// The list with the boards of the first `n` places in front.
pub fn save(boards: &mut [Board], places: &[Board; 32], n: usize)
    requires { (n ≤ length boards.old) × (n ≤ 32) }
    ensures { boards.new ≡ lay (take n places.now) boards.old }
{
    boards[..n].copy_from_slice(&places[..n]);
}
