// Bytes, ninth bits and cells.
use crate::sweep::{ninth, offer, passing, turns};
use std::io;
use std::io::Write;
use tally::Tally;

// Bytes against the cells that they should be as data.
fn cells(out: &mut impl Write, bytes: &[(u8, u16)]) -> io::Result<Tally> {
    let mut t = Tally::new();
    for (byte, should) in bytes {
        t = t.number(
            out,
            *byte as u32,
            parity::data_cell(*byte) as u32,
            *should as u32,
        )?;
    }
    Ok(t)
}

// 000 5.1.2.3.3, and the codes of the examples in annex D.
pub fn ninth_bits(out: &mut impl Write) -> io::Result<()> {
    let bytes = [
        (0xFF, 511),
        (0x00, 1),
        (0xFE, 508),
        (0x01, 2),
        (0x8D, 283),
        (0x20, 64),
        (0x23, 70),
    ];
    cells(out, &bytes)?.report(out, b"ninth bits (000 5.1.2.3.3, D.2, D.4, D.7)")
}

// 000 tables 16, 17 and 54; the Hot-Join event is bit 3 of tables 18 and 19.
pub fn commands(out: &mut impl Write) -> io::Result<()> {
    let bytes = [
        (0x00, 1),
        (0x01, 2),
        (0x06, 13),
        (0x07, 14),
        (0x2C, 88),
        (0x87, 271),
        (0x88, 273),
        (0x8D, 283),
        (0x8E, 285),
        (0x8F, 286),
        (0x9B, 310),
        (0x9C, 313),
        (0x08, 16),
    ];
    cells(out, &bytes)?.report(
        out,
        b"command codes and the event byte (000 tables 16 to 19, 54)",
    )
}

// 000 annex D.1: 7Eh/W, then 2Bh/R, answered and silent; the byte read, 4Ah, has a ninth bit of 1, which is the board's and no parity. 000 5.1.5:
// a board asks to join with 02h/W, byte 04h.
pub fn frames(out: &mut impl Write) -> io::Result<()> {
    let mut t = Tally::new();
    t = t.number(out, 0xFC, parity::answer_cell(0xFC, true) as u32, 504)?;
    t = t.number(out, 0xFC, parity::answer_cell(0xFC, false) as u32, 505)?;
    t = t.number(out, 0x57, parity::answer_cell(0x57, true) as u32, 174)?;
    t = t.number(out, 0x57, parity::answer_cell(0x57, false) as u32, 175)?;
    t = t.number(out, 0x4A, parity::answer_cell(0x4A, false) as u32, 149)?;
    t = t.number(out, 0x02, parity::write_byte(0x02) as u32, 0x04)?;
    t = t.number(out, 0x04, parity::answer_cell(0x04, true) as u32, 8)?;
    t = t.number(out, 0x04, parity::answer_cell(0x04, false) as u32, 9)?;
    t.report(out, b"headers and answers (000 D.1, 5.1.5)")
}

// An address in its three roles, as an answered header, as data and as an accepted offer.
fn role(
    out: &mut impl Write,
    t: Tally,
    address: u8,
    header: u32,
    data: u32,
    offer: u32,
) -> io::Result<Tally> {
    let asked = address as u32;
    let byte = parity::write_byte(address);
    let u = t.number(out, asked, parity::answer_cell(byte, true) as u32, header)?;
    let v = u.number(out, asked, parity::data_cell(byte) as u32, data)?;
    v.number(
        out,
        asked,
        parity::answer_cell(parity::offered_byte(address), true) as u32,
        offer,
    )
}

// With a single 1 the three are the same cell; with two ones each is another.
pub fn roles(out: &mut impl Write) -> io::Result<()> {
    let mut t = Tally::new();
    t = role(out, t, 0x08, 32, 32, 32)?;
    t = role(out, t, 0x09, 36, 37, 38)?;
    t.report(
        out,
        b"08h and 09h as header, data and offer (by 01's rules)",
    )
}

// 01's numbers; 000 5.1.4.2 step 9 for every address.
pub fn offers(out: &mut impl Write) -> io::Result<()> {
    let mut t = Tally::new();
    for (address, should) in [(0x08, 0x10), (0x09, 0x13), (0x0B, 0x16), (0x77, 0xEF)] {
        t = t.number(
            out,
            address as u32,
            parity::offered_byte(address) as u32,
            should,
        )?;
    }
    t = t.number(out, 0x7F, passing(0x00, 0x7F, offer), 128)?;
    t.report(
        out,
        b"offered bytes, and the rule for all 128 (01, 000 5.1.4.2)",
    )
}

// Every byte: the ninth bit makes all nine odd; flips 0 to 7 turn its parity, and 8 leaves it.
pub fn every_byte(out: &mut impl Write) -> io::Result<()> {
    let mut t = Tally::new();
    t = t.number(out, 0xFF, passing(0x00, 0xFF, ninth), 256)?;
    for k in 0..8 {
        t = t.number(
            out,
            k as u32,
            passing(0x00, 0xFF, |byte| turns(k, byte)),
            256,
        )?;
    }
    t = t.number(
        out,
        8,
        passing(0x00, 0xFF, |byte| parity::flipped(8, byte) == byte),
        256,
    )?;
    t.report(
        out,
        b"ninth bit and flips 0 to 8 of every byte (000 5.1.2.3.3, by 01's rules)",
    )
}
