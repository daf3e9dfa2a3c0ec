// The bench, as a line of the script plays it; and what else is done with its machine.
use crate::setup::Setup;
use boards::Board;
use lent::{Owned, Report};
use lines::came::{Came, Flaw};
use lines::cells::{BLANK_CELL, blank_from};
use lines::numbers::{Numbers, at_most, byte, ticket};
use lines::stage::Stage;

// `play`. Machine, boards and cells are then the run's.
pub fn play(setup: &mut Setup) -> Came {
    let mut cells = [BLANK_CELL; 1100];
    let owned = lent::run_owned(
        setup.machine,
        setup.boards,
        setup.count,
        setup.flips.as_slice(),
        &mut cells[..at_most(setup.lent, 1100)],
    );
    let came = Came {
        numbers: numbers_of(&owned.report),
        flaw: flaw_of(setup, &owned, &cells),
    };
    setup.machine = owned.report.machine;
    setup.boards = owned.boards;
    setup.cells = cells;
    came
}

// Refusal, count, ending, rounds, clocks.
fn numbers_of(report: &Report) -> Numbers {
    Numbers::one(report.refusal.into())
        .with(report.count as u64)
        .with(report.ending.into())
        .with(report.rounds as u64)
        .with(report.clocks as u64)
}

// What is wrong with a run of what is given, and of blank cells, which are now these.
fn flaw_of(setup: &Setup, owned: &Owned, cells: &[u16]) -> Option<Flaw> {
    if !blank_from(cells, owned.report.count, &BLANK_CELL) {
        Some(Flaw::WroteBehind)
    } else if !kept(setup, owned) {
        Some(Flaw::KeptChanged)
    } else {
        None
    }
}

// Whether a run kept what it has to. Refused: machine and boards. Else: the machine is idle and remembers nothing, the boards have their identities,
// and those behind the count are as they were.
fn kept(setup: &Setup, owned: &Owned) -> bool {
    let after = &owned.report.machine;
    if owned.report.refusal != 0 {
        return setup.machine == *after && same_boards(&setup.boards, &owned.boards, 0);
    }
    looks::moment(after) == Numbers::none().with_all(&[0u64; 7])
        && same_boards(&setup.boards, &owned.boards, setup.count)
}

// Whether all identities are the same, and from a place on the addresses too.
fn same_boards(before: &[Board; 40], after: &[Board; 40], first: usize) -> bool {
    before.iter().zip(after).enumerate().all(|(i, (b, a))| b.identity == a.identity
        && (i < first || b.address == a.address))
}

// `start FLAGS LAST LEGACY..`. All but the machine is as in a new group (so it is not that of `plays`).
pub fn start(setup: &mut Setup, given: &Numbers) -> Came {
    let legacy = given.bytes_from(2);
    let done = machine::start(byte(given.at(0)), &legacy.places[..16], ticket(given.at(1)));
    *setup = Setup {
        machine: done.machine,
        ..Setup::begun()
    };
    Came::seen(Numbers::one(done.refusal.into()))
}

// `retire TICKET`.
pub fn retire(setup: &mut Setup, ticket: u32) -> Came {
    let done = setup.machine.retire(ticket);
    setup.machine = done.machine;
    Came::seen(Numbers::one(done.refusal.into()))
}
