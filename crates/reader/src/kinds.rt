// What a cell is.
#![tactic(auto, unfolding(parity::specs::Cells::is_identity, crate::specs::Points::is_write_byte, crate::specs::Points::is_new_address, crate::specs::Points::is_offered))]

ghost use Rattle.std.specs.Prelude.{◌≡◌};
ghost use Rattle.parity.specs.Cells.{is_identity};
ghost use Rattle.reader.specs.Points.{byte_of, address_in, answered_in, is_write_byte, is_new_address, is_offered, command_of};

use readings::Command;

// The byte of a cell: the eight bits above the ninth.
pub fn byte_of(cell: u16) -> u8
    ensures { result ≡ byte_of cell }
{
    (cell / 2 % 256) as u8
}

// The address in that byte: its seven higher bits.
pub fn address_in(cell: u16) -> u8
    ensures { result ≡ address_in cell }
{
    byte_of(cell) / 2
}

// Whether a header, or an offered address, was answered.
pub fn answered_in(cell: u16) -> bool
    ensures { result ≡ answered_in cell }
{
    cell % 2 == 0
}

// An identity byte.
pub fn is_identity(cell: u16) -> bool
    ensures { result ≡ is_identity cell }
{
    matches!(cell, 1024..=1279)
}

// A byte with a 0 as its lowest bit: a header that writes, or a new address.
pub fn is_write_byte(cell: u16) -> bool
    ensures { result ≡ is_write_byte cell }
{
    (cell < 512) & (byte_of(cell) % 2 == 0)
}

// A new address: a 0 below it, and the right ninth bit.
pub fn is_new_address(cell: u16) -> bool
    ensures { result ≡ is_new_address cell }
{
    is_write_byte(cell) & (parity::data_cell(byte_of(cell)) == cell)
}

// An offered address byte: its own ones are odd.
pub fn is_offered(cell: u16) -> bool
    ensures { result ≡ is_offered cell }
{
    (cell < 512) & parity::odd_ones(byte_of(cell))
}

// The command of a cell with its right ninth bit; none for any other cell.
#[tactic(auto, using(crate::proofs::Commands::command_numbers))]
pub fn command_of(cell: u16) -> Command
    ensures { result ≡ command_of cell }
{
    match cell {
        parity::ASSIGN => Command::Assign,
        parity::RESET_ALL => Command::ResetAll,
        parity::SET_FROM_STATIC => Command::SetFromStatic,
        parity::MOVE => Command::Move,
        parity::SILENCE => Command::Silence,
        parity::ALLOW => Command::Allow,
        _ => Command::None,
    }
}
