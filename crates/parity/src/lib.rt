// Parity, and the cells that a record is made of.
//
// A cell is a 16-bit number: a byte times 2 plus its ninth bit, or one of the numbers below.
#![tactic(auto)]

ghost use Rattle.std.specs.Prelude.{◌≡◌, ◌<◌};
ghost use Rattle.parity.specs.Parity.{odd_bit, odd_ones};
ghost use Rattle.parity.specs.Parity.{flipped};
ghost use Rattle.parity.specs.Cells.{data_cell, answer_cell, identity_cell, write_byte, offered_byte, named_cells};
ghost use Rattle.parity.specs.Cells.{clocks};

mod ninths;

use ninths::NINTH;

// What opens, reopens and ends a record: no clocks.
pub const START: u16 = 512;

pub const REPEATED_START: u16 = 513;

pub const STOP: u16 = 514;

// The header that all boards hear, 7Eh with the write bit, and the one that boards without an address answer, 7Eh with the read bit.
pub const BROADCAST_WRITE_ANSWERED: u16 = 504;

pub const BROADCAST_WRITE_SILENT: u16 = 505;

pub const BROADCAST_READ_ANSWERED: u16 = 506;

pub const BROADCAST_READ_SILENT: u16 = 507;

// A board's request to join, 02h with the write bit: here the controller answers.
pub const HOT_JOIN_ANSWERED: u16 = 8;

pub const HOT_JOIN_REFUSED: u16 = 9;

// The commands, with their ninth bits.
pub const ASSIGN: u16 = 14; // ENTDAA, 07h

pub const RESET_ALL: u16 = 13; // RSTDAA, 06h

pub const SET_FROM_STATIC: u16 = 271; // SETDASA, 87h

pub const MOVE: u16 = 273; // SETNEWDA, 88h

pub const SILENCE: u16 = 2; // DISEC, 01h

pub const ALLOW: u16 = 1; // ENEC, 00h

pub const JOINING: u16 = 16; // the data byte of silence and allow, 08h

// An identity byte is added to this number; it has no ninth bit.
pub const IDENTITY: u16 = 1024;

// Every named cell, in the order above: this is what ties the constants to the definitions.
pub fn named_cells() -> [u16; 16]
    ensures { result ≡ named_cells }
{
    [
        START,
        REPEATED_START,
        STOP,
        BROADCAST_WRITE_ANSWERED,
        BROADCAST_WRITE_SILENT,
        BROADCAST_READ_ANSWERED,
        BROADCAST_READ_SILENT,
        HOT_JOIN_ANSWERED,
        HOT_JOIN_REFUSED,
        ASSIGN,
        RESET_ALL,
        SET_FROM_STATIC,
        MOVE,
        SILENCE,
        ALLOW,
        JOINING,
    ]
}

// The ninth bit after a command or data byte: it makes the count of ones in all nine odd. It is read from a list: the bus interrupt counts no bits.
pub fn ninth_bit(byte: u8) -> u8
    ensures small { result < 2 }
    ensures value { result ≡ odd_bit 8 byte }
{
    NINTH[byte as usize]
}

// The cell of a command or data byte.
pub fn data_cell(byte: u8) -> u16
    ensures { result ≡ data_cell byte }
{
    u16::from(byte) * 2 + u16::from(ninth_bit(byte))
}

// The cell of a header or of an offered address byte, by whether it was answered.
pub fn answer_cell(byte: u8, answered: bool) -> u16
    ensures { result ≡ answer_cell byte answered }
{
    let cell = u16::from(byte) * 2;
    if answered { cell } else { cell + 1 }
}

// The cell of an identity byte.
pub fn identity_cell(byte: u8) -> u16
    ensures { result ≡ identity_cell byte }
{
    IDENTITY + u16::from(byte)
}

// How many clocks a cell took on the bus.
#[tactic(auto, unfolding(crate::specs::Cells::is_identity))]
pub fn clocks(cell: u16) -> u16
    ensures small { result < 10 }
    ensures value { result ≡ clocks cell }
{
    match cell {
        ..512 => 9,
        1024..=1279 => 8,
        _ => 0,
    }
}

// The byte of a header that writes to an address, and of a new address sent as data: the address above a 0. An address is seven bits, and of a
// number over 127 only the lowest seven count.
pub fn write_byte(address: u8) -> u8
    ensures { result ≡ write_byte address }
{
    address % 128 * 2
}

// The byte that offers an address: where the header has a 0, it has the bit that makes its own count of ones odd.
pub fn offered_byte(address: u8) -> u8
    ensures { result ≡ offered_byte address }
{
    let byte = write_byte(address);
    byte + ninth_bit(byte)
}

// Whether a byte's ones are odd: a board takes an offered address just then.
pub fn odd_ones(byte: u8) -> bool
    ensures { result ≡ odd_ones byte }
{
    ninth_bit(byte) == 0
}

// A byte after a flip: 0 to 7 turns the bit of value 2 to that power, 8 and more turn none.
pub fn flipped(k: u8, byte: u8) -> u8
    ensures { result ≡ flipped k byte }
{
    if k < 8 { byte ^ (1 << k) } else { byte }
}
