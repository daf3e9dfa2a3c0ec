// The bench, lent its boards as one list of any length. When a run is over they have the addresses that they took; a refused run leaves list and
// cells as they were.
//
// At most the first 32 boards, and the length of the list, go to `bench::run`, which refuses or plays; as many are copied back.
#![tactic(auto)]

ghost use Rattle.std.specs.Prelude.{◌≡◌, length};
ghost use Rattle.lists.specs.Buffers.{lay};
ghost use Rattle.lent.specs.Runs.{reported, lent_run, lent_cells, owned_run, owned_cells};

mod copies;

use bench::Ran;
use boards::Board;
use machine::Machine;

// What stands in a place that holds no board.
pub const NO_BOARD: Board = Board {
    identity: 0,
    address: 0,
};

// What a run over a lent list hands back: the machine, how many cells it wrote, its ending, the answered rounds and the clocks of these cells, and its
// refusal, 0 for none. A refused run has the machine as given, and 0 in every other number. The boards are in the list. (No `Result`: document 01 has the
// counters and the refusal side by side in the bench's result, and the theorems on runs speak of these fields.)
#[derive(Clone, Copy)]
pub struct Report {
    pub machine: Machine,
    pub count: usize,
    pub ending: u8,
    pub rounds: usize,
    pub clocks: usize,
    pub refusal: u8,
}

// What is reported of a run by value: all but its boards.
impl From<Ran> for Report {
    ghost from_gives = { λ ran report. report ≡ reported ran };

    fn from(ran: Ran) -> Report {
        Report {
            machine: ran.machine,
            count: ran.count,
            ending: ran.ending,
            rounds: ran.rounds,
            clocks: ran.clocks,
            refusal: ran.refusal,
        }
    }
}

// One run over all boards of a list, as `bench::run` plays it. More than 32 are too many: 16.
pub fn run(machine: Machine, boards: &mut [Board], flips: &[u8], cells: &mut [u16]) -> Report
    ensures value { result ≡ reported (lent_run machine boards.old flips.now (length cells.old)) }
    ensures boards_after { boards.new ≡ (lent_run machine boards.old flips.now (length cells.old)).boards }
    ensures cells_after { cells.new ≡ lay (lent_cells machine boards.old flips.now (length cells.old)) cells.old }
{
    let count = boards.len();
    let copied = count.min(32);
    let places = copies::load(boards, copied);
    let ran = bench::run(machine, places, count, flips, cells);
    copies::save(boards, &ran.boards, copied);
    Report::from(ran)
}

// What a run over boards of the caller's own hands back: the report, and the boards.
#[derive(Clone, Copy)]
pub struct Owned {
    pub report: Report,
    pub boards: [Board; 40],
}

// The same for a caller with boards by value, who then lends nothing but flips and cells: the first `count` of its 40 places are lent for it, all 40 if
// `count` is more. Those behind are not looked at, and stay. A run takes 32; the other places are there so that too many can be lent, and refused:
// hence 40 places with a count, in fixed memory.
pub fn run_owned(
    machine: Machine,
    mut boards: [Board; 40],
    count: usize,
    flips: &[u8],
    cells: &mut [u16],
) -> Owned
    ensures value { result ≡ owned_run machine boards count flips.now (length cells.old) }
    ensures cells_after { cells.new ≡ lay (owned_cells machine boards count flips.now (length cells.old)) cells.old }
{
    let many = count.min(40);
    let report = run(machine, &mut boards[..many], flips, cells);
    Owned { report, boards }
}
