// The bench: boards on the wire, and the machine's own calls over them, from Begin until idle.
//
//     512 504 14 513 | 506 identity, eight cells | address 513 | 506 .. | 507 514
//     opened           a round                                   ..       silent: all have an address
#![tactic(auto)]

ghost use Rattle.std.specs.Prelude.{◌≡◌, ◌≤◌, length};
ghost use Rattle.lists.specs.Buffers.{lay};
ghost use Rattle.bench.specs.Play.{clocks_in};
ghost use Rattle.bench.specs.Runs.{benched, bench_cells};

mod play;
mod refusing;

use boards::Board;
use machine::Machine;
use play::Played;

// The cells that a run must be lent.
pub const MOST_CELLS: usize = 1024;

// Endings: a round header was silent; two refusals in succession; 32 rows; no free address; no ticket left; the first header was silent.
// (Kept as numbers: the definitions of a run and the theorems over them speak of its ending by its number.)
pub const NOBODY_LEFT: u8 = 0;

pub const TWO_REFUSALS: u8 = 1;

pub const ROWS_FULL: u8 = 2;

pub const NO_FREE_ADDRESS: u8 = 3;

pub const NO_TICKET: u8 = 4;

pub const NO_BOARDS: u8 = 5;

// What a run hands back: the machine, the boards, how many cells it wrote, its ending, the answered rounds and the clocks of these cells, and its refusal,
// 0 for none. A refused run has 0 in every other number.
// (Kept as numbers: document 01 has counters in the bench's result, and the theorems of `demand` and `lent` speak of its fields.)
#[derive(Clone, Copy)]
pub struct Ran {
    pub machine: Machine,
    pub boards: [Board; 32],
    pub count: usize,
    pub ending: u8,
    pub rounds: usize,
    pub clocks: usize,
    pub refusal: u8,
}

// The clocks of a record.
fn clocks(cells: &[u16]) -> usize
    requires { length cells.now ≤ 1024 }
    ensures { result ≡ clocks_in cells.now }
{
    cells
        .iter()
        .map(|cell| usize::from(parity::clocks(*cell)))
        .sum()
}

// One run over the first `count` boards, from Begin until idle; the places behind them are not looked at, and stay. Each offer uses the next flip: 0 to 7
// for the bit of the address byte that the boards see the other way, 8 or the end of the list for none. The record is written from the first of at least
// 1,024 cells on. (Boards by value with a count beside them: document 01 names the form, boards first as an array by value.)
pub fn run(
    machine: Machine,
    boards: [Board; 32],
    count: usize,
    flips: &[u8],
    cells: &mut [u16],
) -> Ran
    ensures value { result ≡ benched machine boards count flips.now (length cells.old) }
    ensures cells_after { cells.new ≡ lay (bench_cells machine boards count flips.now (length cells.old)) cells.old }
{
    if let Err(refusal) = refusing::run_refusal(&machine, &boards, count, flips, cells.len()) {
        return Ran {
            machine,
            boards,
            count: 0,
            ending: 0,
            rounds: 0,
            clocks: 0,
            refusal: refusal.number(),
        };
    }
    let Played {
        machine,
        boards,
        at,
        rounds,
        ending,
    } = play::play(machine, boards, count, flips, cells);
    let clocks = clocks(&cells[..at]);
    Ran {
        machine,
        boards,
        count: at,
        ending,
        rounds,
        clocks,
        refusal: 0,
    }
}
