// The calls, each from its numbers to its line.
use crate::given::{Call, MOST_BOARDS, MOST_CELLS, MOST_LENT, Step};
use arrayvec::ArrayString;
use boards::Board;
use lent::NO_BOARD;
use lines::cells::BLANK_CELL;
use machine::{Machine, Stepped};
use readings::{Command, Joining, Reading};
use refusals::Refusal;
use std::fmt;
use std::fmt::Write;
use tells::line::{BLANK_BYTE, Bytes, Cells};
use tells::seen::{Boards, Said, Seen};

// A line in the making, with more room than any needs: 1,024 cells, 40 boards and 32 rows come to less than 9,000 bytes.
pub type Line = ArrayString<16384>;

// The machine before any call: the one that a refused start hands back.
pub fn first_machine() -> Machine {
    machine::start(0, &[0], 0).machine
}

// Plays a call, writes its line but for the end, and hands back the machine that it leaves.
pub fn play(machine: Machine, call: Call<'_>, line: &mut Line) -> Result<Machine, fmt::Error> {
    match call {
        Call::Start {
            flags,
            legacy,
            last,
        } => stepped(line, machine::start(flags, legacy, last), &[]),
        Call::Step { lent, step: taken } => step(line, machine, taken, lent),
        Call::Retire { ticket } => stepped(line, machine.retire(ticket), &[]),
        Call::Made(machine) => made(line, machine),
        Call::Run {
            lent,
            flips,
            boards,
        } => run(line, machine, boards, flips, lent),
        Call::Ask { ticket } => {
            ask(line, machine, ticket)?;
            Ok(machine)
        }
        Call::SlotTest {
            flags,
            legacy,
            last,
            address,
        } => {
            slot_test(line, flags, legacy, last, address)?;
            Ok(machine)
        }
        Call::Read { lent, record } => {
            read(line, record, lent)?;
            Ok(machine)
        }
        Call::Write {
            lent,
            reading,
            offers,
        } => {
            write(line, reading, offers, lent)?;
            Ok(machine)
        }
    }
}

// ---- the machine's calls

// `m`: a machine made by hand, and no call.
fn made(line: &mut Line, machine: Machine) -> Result<Machine, fmt::Error> {
    let done = Stepped {
        machine,
        count: 0,
        refusal: 0,
    };
    stepped(line, done, &[])
}

// `b`, `a`, `i`, `g`, `j`: a call that writes cells.
fn step(
    line: &mut Line,
    machine: Machine,
    step: Step<'_>,
    lent: usize,
) -> Result<Machine, fmt::Error> {
    let mut cells = [BLANK_CELL; MOST_LENT];
    let cells = &mut cells[..lent.min(MOST_LENT)];
    let done = match step {
        Step::Begin {
            choice,
            from,
            new,
            ticket,
        } => machine.begin(choice, from, new, ticket, cells),
        Step::Answer(answered) => machine.answer(answered, cells),
        Step::Identity(bytes) => machine.identity(bytes, cells),
        Step::GiveUp => machine.give_up(cells),
        Step::Join(choice) => machine.join(choice, cells),
    };
    stepped(line, done, cells)
}

// The line of a call that hands a machine back.
fn stepped(line: &mut Line, done: Stepped, cells: &[u16]) -> Result<Machine, fmt::Error> {
    let machine = done.machine;
    write!(line, "refused {} wrote {} ", done.refusal, done.count)?;
    write!(line, "{} {}", Cells(cells), Seen(&machine))?;
    Ok(machine)
}

// ---- questions

// The number of a refusal, 0 for none, and what is said, 0 after a refusal.
fn numbered<T: Default>(said: Result<T, Refusal>) -> (u8, T) {
    match said {
        Ok(value) => (0, value),
        Err(refusal) => (refusal.number(), T::default()),
    }
}

// `q`: ask for a ticket.
fn ask(line: &mut Line, machine: Machine, ticket: u32) -> fmt::Result {
    let (refusal, address) = numbered(machine.ask(ticket));
    write!(line, "refused {refusal} address {address}")
}

// `t`: the slot test.
fn slot_test(line: &mut Line, flags: u8, legacy: &[u8], last: u32, address: u8) -> fmt::Result {
    let (refusal, open) = numbered(slots::slot_test(flags, legacy, last, address));
    write!(line, "refused {refusal} open {}", open as u8)
}

// ---- the bench

// `n`: a bench run.
fn run(
    line: &mut Line,
    machine: Machine,
    boards: &[[u8; 9]],
    flips: &[u8],
    lent: usize,
) -> Result<Machine, fmt::Error> {
    let mut cells = [BLANK_CELL; MOST_LENT];
    let cells = &mut cells[..lent.min(MOST_LENT)];
    let count = boards.len().min(MOST_BOARDS);
    let owned = lent::run_owned(machine, boards_of(boards), count, flips, cells);
    let report = owned.report;
    write!(
        line,
        "refused {} wrote {} {}",
        report.refusal,
        report.count,
        Cells(cells)
    )?;
    write!(
        line,
        " end {} rounds {} clocks {}",
        report.ending, report.rounds, report.clocks
    )?;
    write!(
        line,
        " {} {}",
        Boards(&owned.boards[..count]),
        Seen(&report.machine)
    )?;
    Ok(report.machine)
}

// The boards of these bytes: eight of the identity, and the address.
fn boards_of(bytes: &[[u8; 9]]) -> [Board; MOST_BOARDS] {
    let mut boards = [NO_BOARD; MOST_BOARDS];
    for (board, [a, b, c, d, e, f, g, h, address]) in boards.iter_mut().zip(bytes) {
        board.identity = u64::from_be_bytes([*a, *b, *c, *d, *e, *f, *g, *h]);
        board.address = *address;
    }
    boards
}

// ---- records

// `d`: a record is read.
fn read(line: &mut Line, record: &[[u8; 2]], lent: usize) -> fmt::Result {
    let cells = cells_of(record);
    let cells = &cells[..record.len().min(MOST_CELLS)];
    let mut offers = [BLANK_BYTE; MOST_LENT];
    let offers = &mut offers[..lent.min(MOST_LENT)];
    match reader::read(cells, offers) {
        Ok(reading) => write!(line, "refused 0 place 0 {}", Said(&reading))?,
        Err(fault) => {
            let nothing = readings::bare(Joining::None, Command::None);
            let refusal = fault.refusal.number();
            write!(
                line,
                "refused {refusal} place {} {}",
                fault.place,
                Said(&nothing)
            )?;
        }
    }
    write!(line, " bytes {}", Bytes(offers))
}

// The cells of these bytes.
fn cells_of(bytes: &[[u8; 2]]) -> [u16; MOST_CELLS] {
    let mut cells = [0; MOST_CELLS];
    for (cell, bytes) in cells.iter_mut().zip(bytes) {
        *cell = u16::from_be_bytes(*bytes);
    }
    cells
}

// `w`: a record is written.
fn write(line: &mut Line, reading: Reading, offers: &[u8], lent: usize) -> fmt::Result {
    let mut cells = [BLANK_CELL; MOST_LENT];
    let cells = &mut cells[..lent.min(MOST_LENT)];
    let (refusal, count) = numbered(writer::write(&reading, offers, cells));
    write!(
        line,
        "refused {refusal} place 0 wrote {count} {}",
        Cells(cells)
    )
}
