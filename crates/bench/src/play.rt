// A run on the wire: the machine calls, and the boards answer.
ghost use Rattle.std.specs.Prelude.{◌≡◌, cond, ◌≤◌, ◌<◌, ◌-◌, length, take, drop, get_or};
ghost use Rattle.lists.specs.Bits.{bytes_of};
ghost use Rattle.lists.specs.Buffers.{lay_at};
ghost use Rattle.machine.specs.Calls.{answered, identified, stepped};
ghost use Rattle.machine.specs.Moments.{is_idle};
ghost use Rattle.bench.specs.Play.{offer_ending};
ghost use Rattle.bench.specs.Wire.{on_wire};
ghost use Rattle.bench.specs.Wire.{opened};
ghost use Rattle.bench.specs.Keeps.{told, Keeps, KeepsRound, KeepsOffer};

use crate::{NO_BOARDS, NO_FREE_ADDRESS, NO_TICKET, NOBODY_LEFT, ROWS_FULL, TWO_REFUSALS};
use boards::{Board, Heard};
use machine::Machine;

// The rounds that are enough: at most 64 are answered by 32 boards, and one may be silent.
const MOST_ROUNDS: usize = 65;

// A run as far as it is played: `at` cells are written. As long as it goes on, its ending is the one that a silent round header leaves.
#[derive(Clone, Copy)]
pub struct Played {
    pub machine: Machine,
    pub boards: [Board; 32],
    pub at: usize,
    pub rounds: usize,
    pub ending: u8,
}

// How a run ends behind an offer, if it does; else as a silent header would end it.
fn ending(accepted: bool, m: &Machine) -> u8
    ensures { result ≡ cond (is_idle m.now.moment) (offer_ending accepted m.now.table.facts m.now.table.rows) 0 }
{
    if !m.is_idle() {
        return NOBODY_LEFT;
    }
    if !accepted {
        return TWO_REFUSALS;
    }
    if free::full(&m.table.rows) {
        return ROWS_FULL;
    }
    if free::no_free_address(&m.table) {
        return NO_FREE_ADDRESS;
    }
    NO_TICKET
}

// The flip of a round: 8, none, behind the end of the list.
fn flip_at(flips: &[u8], i: usize) -> u8
    ensures { result ≡ get_or flips.now i 8 }
{
    flips.get(i).copied().unwrap_or(8)
}

// Begin, and the first header, which any board answers.
fn opened(machine: Machine, boards: [Board; 32], count: usize, cells: &mut [u16]) -> Played
    requires { count ≤ 32 }
    ensures { Keeps (drop count boards) cells.old result cells.new (opened (length cells.old) machine (take count boards)) }
{
    let begun = machine.begin(begins::ASSIGN, 0, 0, 0, cells);
    let heard = 0 < count;
    let mut run = Played {
        machine: begun.machine,
        boards,
        at: begun.count,
        rounds: 0,
        ending: if heard { NOBODY_LEFT } else { NO_BOARDS },
    };
    run.answer(heard, cells);
    run
}

impl Played {
    // The machine is answered, or not.
    fn answer(&mut self, heard: bool, cells: &mut [u16])
        requires { self.old.at ≤ length cells.old }
        ensures value { self.new ≡ told self.old (stepped (answered self.old.machine heard (length cells.old - self.old.at))) }
        ensures cells_after { cells.new ≡ lay_at self.old.at (answered self.old.machine heard (length cells.old - self.old.at)).cells cells.old }
    {
        let step = self.machine.answer(heard, &mut cells[self.at..]);
        self.machine = step.machine;
        self.at += step.count;
    }

    // The machine is told the eight bytes of an identity, highest first.
    fn identify(&mut self, identity: u64, cells: &mut [u16])
        requires { self.old.at ≤ length cells.old }
        ensures value { self.new ≡ told self.old (stepped (identified self.old.machine (bytes_of 8 identity) (length cells.old - self.old.at))) }
        ensures cells_after { cells.new ≡ lay_at self.old.at (identified self.old.machine (bytes_of 8 identity) (length cells.old - self.old.at)).cells cells.old }
    {
        let step = self
            .machine
            .identity(&identity.to_be_bytes(), &mut cells[self.at..]);
        self.machine = step.machine;
        self.at += step.count;
    }

    // Behind the bits of the identities: the machine is told what was heard, and all see the address byte that it offers, perhaps with one bit flipped.
    fn offer(&mut self, heard: &Heard, flip: u8, cells: &mut [u16])
        requires { (self.old.at ≤ length cells.old) × (self.old.rounds < 65) }
        ensures { KeepsOffer heard.now flip self.old cells.old self.new cells.new }
    {
        self.identify(heard.identity, cells);
        let byte = parity::flipped(flip, parity::offered_byte(self.machine.offered));
        let taken = boards::anyone(&heard.still) & parity::odd_ones(byte);
        self.answer(taken, cells);
        self.boards = boards::offer(&self.boards, &heard.still, byte);
        self.rounds += 1;
        self.ending = ending(taken, &self.machine);
    }

    // A round: its header, which only boards without an address answer; then they send their identities, all at once.
    fn round(&mut self, count: usize, flip: u8, cells: &mut [u16])
        requires { (self.old.at ≤ length cells.old) × (self.old.rounds < 65) }
        ensures { KeepsRound count flip self.old cells.old self.new cells.new }
    {
        let still = boards::waiting(&self.boards, count);
        let heard = boards::anyone(&still);
        self.answer(heard, cells);
        if heard {
            let identities = boards::listen(&self.boards, &still);
            self.offer(&identities, flip, cells);
        }
    }
}

// The whole run: rounds until the machine is idle.
pub fn play(
    machine: Machine,
    boards: [Board; 32],
    count: usize,
    flips: &[u8],
    cells: &mut [u16],
) -> Played
    requires { count ≤ 32 }
    ensures { Keeps (drop count boards) cells.old result cells.new (on_wire (length cells.old) machine (take count boards) flips.now) }
{
    let mut run = opened(machine, boards, count, cells);
    for i in 0..MOST_ROUNDS {
        if run.machine.is_idle() {
            return run;
        }
        run.round(count, flip_at(flips, i), cells);
    }
    run
}
