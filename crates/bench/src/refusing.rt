// The refusals of a run, in their order.
ghost use Rattle.std.specs.Prelude.{◌≡◌, ltb, take};
ghost use Rattle.lists.specs.Lists.{any};
ghost use Rattle.refusals.specs.Refusals as refused;
ghost use Rattle.bench.specs.Runs.{refusal_of};

use crate::MOST_CELLS;
use boards::Board;
use machine::Machine;
use refusals::Refusal;

// Whether one of the first `count` boards has an address over 127.
fn address_over_127(boards: &[Board; 32], count: usize) -> bool
    ensures { result ≡ any (λ b. ltb 127 b.address) (take count boards.now) }
{
    boards.iter().take(count).any(|board| 127 < board.address)
}

// Whether a flip is over 8, used or not.
fn flip_over_8(flips: &[u8]) -> bool
    ensures { result ≡ any (ltb 8) flips.now }
{
    flips.iter().any(|flip| 8 < *flip)
}

// A run that is lent so many cells.
pub fn run_refusal(
    m: &Machine,
    boards: &[Board; 32],
    count: usize,
    flips: &[u8],
    room: usize,
) -> Result<(), Refusal>
    ensures { refused.refusal_of result ≡ refusal_of m.now boards.now count flips.now room }
{
    if room < MOST_CELLS {
        return Err(Refusal::TooFewLent);
    }
    m.rest_refusal()?;
    if 32 < count {
        return Err(Refusal::TooManyBoards);
    }
    if address_over_127(boards, count) {
        return Err(Refusal::OutOfRange);
    }
    if flip_over_8(flips) {
        return Err(Refusal::FlipOver8);
    }
    begins::choice_refusal(&m.table, begins::ASSIGN, 0, 0, 0)
}
