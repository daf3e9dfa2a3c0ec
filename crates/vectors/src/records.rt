// Whole records of 01, made of the named cells, and their clocks.
use parity::{
    ALLOW, ASSIGN, BROADCAST_READ_ANSWERED, BROADCAST_READ_SILENT, BROADCAST_WRITE_ANSWERED,
    BROADCAST_WRITE_SILENT, HOT_JOIN_ANSWERED, HOT_JOIN_REFUSED, JOINING, MOVE, REPEATED_START,
    RESET_ALL, SET_FROM_STATIC, SILENCE, START, STOP,
};
use std::io;
use std::io::Write;
use tally::Tally;

// How many there are, as a number for a tally.
fn many(count: usize) -> u32 {
    u32::try_from(count).unwrap_or(u32::MAX)
}

// How many cells of a record are what they should be.
fn agreeing(cells: &[u16], should: &[u16]) -> u32 {
    let right = cells
        .iter()
        .zip(should)
        .filter(|(cell, should)| cell == should);
    many(right.count())
}

// The clocks of a record.
fn clocks(cells: &[u16]) -> u32 {
    cells
        .iter()
        .map(|cell| parity::clocks(*cell) as u32)
        .fold(0, u32::saturating_add)
}

// One record against the cells and clocks that it should have.
pub fn record<const N: usize>(
    out: &mut impl Write,
    t: Tally,
    cells: &[u16; N],
    should: &[u16; N],
    clocked: u32,
) -> io::Result<Tally> {
    let n = many(N);
    t.number(out, n, agreeing(cells, should), n)?
        .number(out, n, clocks(cells), clocked)
}

// Records without a board's own bytes.
pub fn named(out: &mut impl Write) -> io::Result<()> {
    let mut t = Tally::new();
    let nobody = [START, BROADCAST_WRITE_SILENT, STOP];
    t = record(out, t, &nobody, &[512, 505, 514], 9)?;
    let served = [
        START,
        BROADCAST_WRITE_ANSWERED,
        ASSIGN,
        REPEATED_START,
        BROADCAST_READ_SILENT,
        STOP,
    ];
    t = record(out, t, &served, &[512, 504, 14, 513, 507, 514], 27)?;
    let reset = [START, BROADCAST_WRITE_ANSWERED, RESET_ALL, STOP];
    t = record(out, t, &reset, &[512, 504, 13, 514], 18)?;
    let allowed = [START, BROADCAST_WRITE_ANSWERED, ALLOW, JOINING, STOP];
    t = record(out, t, &allowed, &[512, 504, 1, 16, 514], 27)?;
    let refused = [START, HOT_JOIN_REFUSED, STOP];
    t = record(out, t, &refused, &[512, 9, 514], 9)?;
    let silenced = [
        START,
        HOT_JOIN_ANSWERED,
        REPEATED_START,
        BROADCAST_WRITE_ANSWERED,
        SILENCE,
        JOINING,
        STOP,
    ];
    t = record(out, t, &silenced, &[512, 8, 513, 504, 2, 16, 514], 36)?;
    t.report(
        out,
        b"records of named cells, and their clocks (01, by 01's rules)",
    )
}

// A set from static 50h to 09h, and a move from 09h to 0Bh.
pub fn direct(out: &mut impl Write) -> io::Result<()> {
    let from_static = parity::answer_cell(parity::write_byte(0x50), true);
    let to_09 = parity::data_cell(parity::write_byte(0x09));
    let from_09 = parity::answer_cell(parity::write_byte(0x09), true);
    let to_0b = parity::data_cell(parity::write_byte(0x0B));
    let mut t = Tally::new();
    let set = [
        START,
        BROADCAST_WRITE_ANSWERED,
        SET_FROM_STATIC,
        REPEATED_START,
        from_static,
        to_09,
        STOP,
    ];
    t = record(out, t, &set, &[512, 504, 271, 513, 320, 37, 514], 36)?;
    let moved = [
        START,
        BROADCAST_WRITE_ANSWERED,
        MOVE,
        REPEATED_START,
        from_09,
        to_0b,
        STOP,
    ];
    t = record(out, t, &moved, &[512, 504, 273, 513, 36, 44, 514], 36)?;
    t.report(
        out,
        b"records of a set and a move, and their clocks (by 01's rules)",
    )
}

// A round of 01's example: the board with byte 4 of its identity `four` is offered an address, with this answer.
fn round(
    out: &mut impl Write,
    t: Tally,
    four: u8,
    address: u8,
    answered: bool,
    should: u16,
) -> io::Result<Tally> {
    let offer = parity::answer_cell(parity::offered_byte(address), answered);
    let cells = [
        BROADCAST_READ_ANSWERED,
        parity::identity_cell(0x02),
        parity::identity_cell(0x00),
        parity::identity_cell(0x00),
        parity::identity_cell(0x00),
        parity::identity_cell(four),
        parity::identity_cell(0x00),
        parity::identity_cell(0x06),
        parity::identity_cell(0x41),
        offer,
        REPEATED_START,
    ];
    let fourth = 1024 + (four as u16);
    record(
        out,
        t,
        &cells,
        &[
            506, 1026, 1024, 1024, 1024, fourth, 1024, 1030, 1089, should, 513,
        ],
        82,
    )
}

// 01's example run: two boards, the first offer flipped. The opening's 18 clocks, three rounds' 82 each and the ending's 9 are its 273.
pub fn example(out: &mut impl Write) -> io::Result<()> {
    let mut t = Tally::new();
    let opening = [START, BROADCAST_WRITE_ANSWERED, ASSIGN, REPEATED_START];
    t = record(out, t, &opening, &[512, 504, 14, 513], 18)?;
    t = round(out, t, 0x00, 0x08, false, 33)?;
    t = round(out, t, 0x00, 0x08, true, 32)?;
    t = round(out, t, 0x10, 0x09, true, 38)?;
    let ending = [BROADCAST_READ_SILENT, STOP];
    t = record(out, t, &ending, &[507, 514], 9)?;
    t.report(out, b"the example run, piece by piece, and its clocks (01)")
}
