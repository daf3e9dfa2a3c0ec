// The layouts. Each function writes its cells to the front of what it is lent, and all but `offer`, which writes eleven, say how many.
//
//   S  START    Sr  repeated START    P  STOP    /W /R  a header's write and read bit    A  answered    N  not answered
ghost use Rattle.std.specs.Prelude.{[], ◌∷◌, ◌≡◌, true, ◌*◌, ◌≤◌, length};
ghost use Rattle.lists.specs.Buffers.{lay};
ghost use Rattle.parity.specs.Cells.{broadcast_write, joining_cell, stop_cell};
ghost use Rattle.readings.specs.Layouts.{offer_cells, offers_cells, rounds_end, direct_cells, command_cells, cells_of};

use parity::{
    ALLOW, ASSIGN, BROADCAST_READ_ANSWERED, BROADCAST_READ_SILENT, BROADCAST_WRITE_ANSWERED,
    BROADCAST_WRITE_SILENT, HOT_JOIN_ANSWERED, HOT_JOIN_REFUSED, JOINING, MOVE, REPEATED_START,
    RESET_ALL, SET_FROM_STATIC, SILENCE, START, STOP,
};
use readings::{Command, Joining, Reading};

// These cells.
fn put(out: &[u16], cells: &mut [u16]) -> usize
    requires { length out.now ≤ length cells.old }
    ensures value { result ≡ length out.now }
    ensures cells_after { cells.new ≡ lay out.now cells.old }
{
    cells[..out.len()].copy_from_slice(out);
    out.len()
}

// An offer, from its ten bytes:
//   Sr  7Eh/R A  eight identity bytes  address byte A or N
fn offer(bytes: &[u8], cells: &mut [u16])
    requires { (10 ≤ length bytes.now) × (11 ≤ length cells.old) }
    ensures { cells.new ≡ lay (offer_cells bytes.now) cells.old }
{
    cells[0] = REPEATED_START;
    cells[1] = BROADCAST_READ_ANSWERED;
    for k in 0..8 {
        cells[2 + k] = parity::identity_cell(bytes[k]);
    }
    cells[10] = parity::answer_cell(bytes[8], bytes[9] == 0);
}

// So many offers, eleven cells each.
fn offers(count: usize, bytes: &[u8], cells: &mut [u16]) -> usize
    requires { (10 * count ≤ length bytes.now) × (11 * count ≤ length cells.old) }
    ensures value { result ≡ length (offers_cells count bytes.now) }
    ensures cells_after { cells.new ≡ lay (offers_cells count bytes.now) cells.old }
{
    for i in 0..count {
        offer(&bytes[10 * i..], &mut cells[11 * i..]);
    }
    11 * count
}

// The end of the rounds:
//   P    or    Sr  7Eh/R N  P
fn rounds_end(last: bool, cells: &mut [u16]) -> usize
    requires { 3 ≤ length cells.old }
    ensures value { result ≡ length (rounds_end last) }
    ensures cells_after { cells.new ≡ lay (rounds_end last) cells.old }
{
    if last {
        put(&[STOP], cells)
    } else {
        put(&[REPEATED_START, BROADCAST_READ_SILENT, STOP], cells)
    }
}

// Silence or allow, from 7Eh/W on, by its command's cell:
//   7Eh/W A  command  08h  P
fn event(command: u16, cells: &mut [u16]) -> usize
    requires { 4 ≤ length cells.old }
    ensures value { result ≡ 4 }
    ensures cells_after { cells.new ≡ lay (broadcast_write true ∷ command ∷ joining_cell ∷ stop_cell ∷ []) cells.old }
{
    put(&[BROADCAST_WRITE_ANSWERED, command, JOINING, STOP], cells)
}

// A set or a move, from 7Eh/W on, by its command's cell:
//   7Eh/W A  command  Sr  address/W A  new address  P    or    7Eh/W A  command  Sr  address/W N  P
fn direct(command: u16, r: &Reading, cells: &mut [u16]) -> usize
    requires { 6 ≤ length cells.old }
    ensures value { result ≡ length (broadcast_write true ∷ command ∷ direct_cells r.now.header r.now.new r.now.direct) }
    ensures cells_after { cells.new ≡ lay (broadcast_write true ∷ command ∷ direct_cells r.now.header r.now.new r.now.direct) cells.old }
{
    let header = parity::answer_cell(parity::write_byte(r.header), r.direct);
    let n = put(
        &[BROADCAST_WRITE_ANSWERED, command, REPEATED_START, header],
        cells,
    );
    if r.direct {
        let new = parity::data_cell(parity::write_byte(r.new));
        n + put(&[new, STOP], &mut cells[n..])
    } else {
        n + put(&[STOP], &mut cells[n..])
    }
}

// From 7Eh/W on, by command:
//   none      7Eh/W N  P
//   assign    7Eh/W A  07h  offers and the end of the rounds
//   reset all 7Eh/W A  06h  P
//   set       7Eh/W A  87h  its own part
//   move      7Eh/W A  88h  its own part
//   silence   7Eh/W A  01h  08h  P
//   allow     7Eh/W A  00h  08h  P
fn command(r: &Reading, bytes: &[u8], cells: &mut [u16]) -> usize
    requires { (r.now.offers ≤ 92) × (10 * r.now.offers ≤ length bytes.now) × (1021 ≤ length cells.old) }
    ensures value { result ≡ length (command_cells r.now.command r.now bytes.now) }
    ensures cells_after { cells.new ≡ lay (command_cells r.now.command r.now bytes.now) cells.old }
{
    match r.command {
        Command::None => put(&[BROADCAST_WRITE_SILENT, STOP], cells),
        Command::Assign => {
            let n = put(&[BROADCAST_WRITE_ANSWERED, ASSIGN], cells);
            let n = n + offers(r.offers, bytes, &mut cells[n..]);
            n + rounds_end(r.last, &mut cells[n..])
        }
        Command::ResetAll => put(&[BROADCAST_WRITE_ANSWERED, RESET_ALL, STOP], cells),
        Command::SetFromStatic => direct(SET_FROM_STATIC, r, cells),
        Command::Move => direct(MOVE, r, cells),
        Command::Silence => event(SILENCE, cells),
        Command::Allow => event(ALLOW, cells),
    }
}

// The whole record, by joining:
//   none      S  from 7Eh/W on
//   refused   S  02h/W N  P
//   answered  S  02h/W A  Sr  from 7Eh/W on
pub fn record(r: &Reading, bytes: &[u8], cells: &mut [u16]) -> usize
    requires { (r.now.offers ≤ 92) × (10 * r.now.offers ≤ length bytes.now) × (1024 ≤ length cells.old) }
    ensures value { result ≡ length (cells_of r.now bytes.now) }
    ensures cells_after { cells.new ≡ lay (cells_of r.now bytes.now) cells.old }
{
    match r.joining {
        Joining::None => {
            let n = put(&[START], cells);
            n + command(r, bytes, &mut cells[n..])
        }
        Joining::Refused => put(&[START, HOT_JOIN_REFUSED, STOP], cells),
        Joining::Answered => {
            let n = put(&[START, HOT_JOIN_ANSWERED, REPEATED_START], cells);
            n + command(r, bytes, &mut cells[n..])
        }
    }
}
