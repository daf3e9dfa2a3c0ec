// What a table has left to give: a place, a free address, a ticket; and which address an identity is offered.
#![tactic(auto)]

ghost use Rattle.std.specs.Prelude.{ℕ, ◌<◌, ◌≡◌, false, get_or};
ghost use Rattle.std.specs.Option.{unwrap_or, is_none};
ghost use Rattle.rows.specs.Rows.{holds_address};
ghost use Rattle.free.specs.Free.{is_free, lowest_free, address_for, no_free_address, no_ticket_left, can_assign};
ghost use Rattle.free.specs.Free.{full};

use rows::Row;
use table::Table;

// Whether an address is free: open, and no row holds it.
pub fn is_free(t: &Table, address: u8) -> bool
    ensures { result ≡ is_free t.now.facts t.now.rows address }
{
    if t.facts.is_open(address) {
        !rows::holds_address(&t.rows, address)
    } else {
        false
    }
}

// Which addresses the rows hold: a mark for each.
fn held(rows: &[Row; 32]) -> [bool; 128]
    ensures { (a : ℕ) → a < 128 → get_or result a false ≡ holds_address a rows.now }
{
    let mut marks = [false; 128];
    for r in rows {
        if r.in_use() & (r.address < 128) {
            marks[r.address as usize] = true;
        }
    }
    marks
}

// The lowest free address: the rows are asked once, for all addresses.
fn lowest_free(t: &Table) -> Option<u8>
    ensures value { unwrap_or result 0 ≡ lowest_free t.now.facts t.now.rows }
    ensures none { is_none result ≡ no_free_address t.now.facts t.now.rows }
{
    let marks = held(&t.rows);
    for address in 0..128u8 {
        if t.facts.is_open(address) & !marks[address as usize] {
            return Some(address);
        }
    }
    None
}

// The address that an identity is offered: that of the row which holds it, else the lowest free one, 0 if none is. (Kept as a number: a machine
// remembers it so, and can be handed in with any.)
pub fn address_for(t: &Table, identity: u64) -> u8
    ensures { result ≡ address_for t.now.facts t.now.rows identity }
{
    match rows::row_of_identity(&t.rows, identity) {
        Some(row) => row.address,
        None => lowest_free(t).unwrap_or(0),
    }
}

// Whether there are 32 rows.
pub fn full(rows: &[Row; 32]) -> bool
    ensures { result ≡ full rows.now }
{
    !(rows::used_rows(rows) < 32)
}

// Whether no address is free.
pub fn no_free_address(t: &Table) -> bool
    ensures { result ≡ no_free_address t.now.facts t.now.rows }
{
    lowest_free(t).is_none()
}

// Whether the highest ticket is given.
pub fn no_ticket_left(t: &Table) -> bool
    ensures { result ≡ no_ticket_left t.now.facts }
{
    t.facts.last == u32::MAX
}

// Whether one row more can be given: fewer than 32 rows, a free address, a ticket left.
pub fn can_assign(t: &Table) -> bool
    ensures { result ≡ can_assign t.now.facts t.now.rows }
{
    if full(&t.rows) {
        return false;
    }
    if no_ticket_left(t) {
        return false;
    }
    !no_free_address(t)
}
