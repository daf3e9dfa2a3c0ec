// Address slots.
use crate::sweep::{near, never_open, open, passing};
use std::io;
use std::io::Write;
use tally::Tally;

// How many addresses from first to last are of a class.
fn of_class(class: u8, first: u8, last: u8) -> u32 {
    passing(first, last, |address| slots::class_of(address) == class)
}

// How many addresses from first to last are open with these flags, no legacy device.
fn opened(flags: u8, first: u8, last: u8) -> u32 {
    passing(first, last, |address| open(flags, address))
}

// 000 table 8: how many addresses are free for use, by range.
pub fn free_for_use(out: &mut impl Write) -> io::Result<()> {
    let ranges = [
        (0x08, 0x3D, 54),
        (0x3F, 0x5D, 31),
        (0x5F, 0x6D, 15),
        (0x6F, 0x75, 7),
        (0x77, 0x77, 1),
        (0x00, 0x7F, 108),
    ];
    let mut t = Tally::new();
    for (first, last, many) in ranges {
        t = t.number(out, first as u32, of_class(4, first, last), many)?;
    }
    t.report(
        out,
        b"addresses free for use, by range and in all (000 table 8, 01)",
    )
}

// 01's table, row by row, and how many of each class there are. Class 1 is exactly what 000 table 59 lists: one bit away from 7Eh.
pub fn classes(out: &mut impl Write) -> io::Result<()> {
    let mut t = Tally::new();
    t = t.number(out, 0x00, of_class(0, 0x00, 0x02), 3)?;
    t = t.number(out, 0x7E, of_class(0, 0x7E, 0x7E), 1)?;
    t = t.number(out, 0x00, of_class(0, 0x00, 0x7F), 4)?;
    t = t.number(out, 0x00, of_class(1, 0x00, 0x7F), 7)?;
    t = t.number(out, 0x00, passing(0x00, 0x7F, near), 128)?;
    t = t.number(out, 0x03, of_class(2, 0x03, 0x03), 1)?;
    t = t.number(out, 0x00, of_class(2, 0x00, 0x7F), 1)?;
    t = t.number(out, 0x04, of_class(3, 0x04, 0x07), 4)?;
    t = t.number(out, 0x00, of_class(3, 0x00, 0x7F), 4)?;
    t = t.number(out, 0x78, of_class(5, 0x78, 0x79), 2)?;
    t = t.number(out, 0x7B, of_class(5, 0x7B, 0x7B), 1)?;
    t = t.number(out, 0x7D, of_class(6, 0x7D, 0x7D), 1)?;
    t = t.number(out, 0x80, of_class(7, 0x80, 0xFF), 128)?;
    t.report(out, b"classes of all 128 addresses (01, 000 table 59)")
}

// 01's marked numbers, and how many addresses its rules leave open.
pub fn opens(out: &mut impl Write) -> io::Result<()> {
    let mut t = Tally::new();
    t = t.number(out, 0x3E, of_class(1, 0x3E, 0x3E), 1)?;
    t = t.number(out, 0x3F, opened(0, 0x3F, 0x3F), 1)?;
    t = t.number(out, 0x07, opened(1, 0x07, 0x07), 0)?;
    t = t.number(out, 0x08, opened(1, 0x08, 0x08), 1)?;
    t = t.number(out, 0, opened(0, 0x00, 0xFF), 112)?;
    t = t.number(out, 1, opened(1, 0x00, 0xFF), 108)?;
    t = t.number(out, 2, opened(2, 0x00, 0xFF), 113)?;
    t = t.number(out, 3, opened(3, 0x00, 0xFF), 109)?;
    t = t.number(out, 0xFF, passing(0x00, 0xFF, never_open), 256)?;
    t.report(
        out,
        b"3Eh, 3Fh, 07h, 08h, open addresses by flags, none one bit away from 7Eh with any flag byte (01, by 01's rules)",
    )
}

// The slot test as one number: the refusal times 10, plus 1 for open.
fn asked(flags: u8, legacy: &[u8], address: u8) -> u32 {
    match slots::slot_test(flags, legacy, 0, address) {
        Ok(open) => open as u32,
        Err(refusal) => refusal.number() as u32 * 10,
    }
}

// Refusal 1 for the facts, then 2 for the address.
pub fn refusals(out: &mut impl Write) -> io::Result<()> {
    let none = [0u8; 17];
    let mut low = [0u8; 16];
    low[0] = 128;
    let mut high = [0u8; 16];
    high[15] = 1;
    let mut t = Tally::new();
    t = t.number(out, 0x08, asked(1, &none[..16], 0x08), 1)?;
    t = t.number(out, 0x08, asked(4, &none[..16], 0x08), 10)?;
    t = t.number(out, 0xFF, asked(128, &none[..16], 0xFF), 10)?;
    t = t.number(out, 0x80, asked(1, &none[..16], 0x80), 20)?;
    t = t.number(out, 0x09, asked(1, &low, 0x09), 10)?;
    t = t.number(out, 0x09, asked(1, &high, 0x09), 10)?;
    t = t.number(out, 0x09, asked(1, &none, 0x09), 10)?;
    t = t.number(out, 0x09, asked(1, &none[..15], 0x09), 10)?;
    t = t.number(out, 0x09, asked(1, &none[..0], 0x09), 10)?;
    t.report(out, b"refusals 1 and 2 of the slot test (by 01's rules)")
}

// Legacy addresses close their slots and no other.
pub fn legacy(out: &mut impl Write) -> io::Result<()> {
    let mut some = [0u8; 16];
    some[1] = 1;
    some[14] = 128;
    let mut t = Tally::new();
    for (address, open) in [(0x08, 0), (0x09, 1), (0x75, 1), (0x77, 0)] {
        t = t.number(out, address as u32, asked(1, &some, address), open)?;
    }
    t.report(
        out,
        b"slots of legacy addresses 08h and 77h (by 01's rules)",
    )
}
