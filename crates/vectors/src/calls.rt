// The numbers of 01 that take the machine's calls; crates/plays has many more of them, as a script.
use crate::records;
use std::io;
use std::io::Write;
use tally::Tally;

// Every address from 08h to 77h a legacy device.
fn every_device() -> [u8; 16] {
    let mut legacy = [255u8; 16];
    legacy[0] = 0;
    legacy[15] = 0;
    legacy
}

// The refusal of an assign on these facts.
fn assign_refusal(flags: u8, legacy: &[u8], last: u32) -> u32 {
    let mut cells = [0u16; 8];
    let started = machine::start(flags, legacy, last);
    let begun = started.machine.begin(begins::ASSIGN, 0, 0, 0, &mut cells);
    begun.refusal as u32
}

// No board answers: 512, then 505, 514.
fn nobody(out: &mut impl Write, t: Tally) -> io::Result<Tally> {
    let mut cells = [0u16; 8];
    let started = machine::start(1, &[0; 16], 0);
    let begun = started.machine.begin(begins::ASSIGN, 0, 0, 0, &mut cells);
    let first = cells[0];
    begun.machine.answer(false, &mut cells);
    records::record(out, t, &[first, cells[0], cells[1]], &[512, 505, 514], 9)
}

pub fn numbers(out: &mut impl Write) -> io::Result<()> {
    let mut t = Tally::new();
    t = t.number(out, 1, assign_refusal(1, &[0; 16], 0), 0)?;
    t = t.number(out, 1, assign_refusal(1, &every_device(), 0), 6)?;
    t = t.number(out, 1, assign_refusal(1, &[0; 16], u32::MAX), 7)?;
    nobody(out, t)?.report(
        out,
        b"refusals of an assign, and a bus with no boards, by the machine's calls (01)",
    )
}
