// The rows changed: one more, one less, one renewed, one moved, all gone.
//
// Nothing here judges the rows: every function takes any 32 of them.
#![tactic(auto)]

ghost use Rattle.std.specs.Prelude.{◌≡◌, position, replicate};
ghost use Rattle.rows.specs.Rows.{no_row};
ghost use Rattle.changes.specs.Changes.{comes_behind, with_row};
ghost use Rattle.changes.specs.Changes.{without, renewed, moved};

use rows::{NO_ROW, Row};

// Whether a place comes behind a row of this address: it is unused, or its address is higher.
fn comes_behind(r: Row, address: u8) -> bool
    ensures { result ≡ comes_behind address r }
{
    !r.in_use() | (address < r.address)
}

// Where a row of this address goes in: the first place that comes behind it.
fn place_for(rows: &[Row; 32], address: u8) -> Option<usize>
    ensures { result ≡ position (comes_behind address) rows.now }
{
    rows.iter().position(|r| comes_behind(*r, address))
}

// The rows with one more, in its place by address. What is pushed past the end goes: an unused place, as long as there are fewer than 32 rows.
pub fn with_row(rows: &[Row; 32], new: Row) -> [Row; 32]
    ensures { result ≡ with_row new rows.now }
{
    let mut out = *rows;
    let mut held = new;
    let place = place_for(rows, new.address).unwrap_or(32);
    for i in place..32 {
        out[i] = held;
        held = rows[i];
    }
    out
}

// The rows without the one at this place, and an unused place at the end; as they were if there is no such place.
pub fn without(rows: &[Row; 32], place: usize) -> [Row; 32]
    ensures { result ≡ without place rows.now }
{
    let mut out = *rows;
    if 32 <= place {
        return out;
    }
    for i in place..31 {
        out[i] = rows[i + 1];
    }
    out[31] = NO_ROW;
    out
}

// No rows: each of these goes. (Not laid into its callers: with an empty table as one constant in one of the machine's branches, the compiler takes the
// whole machine apart into single numbers in all of them.)
#[inline(never)]
pub fn emptied(rows: &[Row; 32]) -> [Row; 32]
    ensures { result ≡ replicate 32 no_row }
{
    let mut out = *rows;
    out.fill(NO_ROW);
    out
}

// The rows with the one at this place renewed: a new ticket and static address 0. As they were if there is no such place.
pub fn renewed(rows: &[Row; 32], place: usize, ticket: u32) -> [Row; 32]
    ensures { result ≡ renewed place ticket rows.now }
{
    let mut out = *rows;
    if 32 <= place {
        return out;
    }
    out[place] = Row {
        ticket,
        from_static: 0,
        ..rows[place]
    };
    out
}

// The rows with the one at this place moved to another address. As they were if there is no such place.
pub fn moved(rows: &[Row; 32], place: usize, address: u8) -> [Row; 32]
    ensures { result ≡ moved place address rows.now }
{
    if 32 <= place {
        return *rows;
    }
    let new = Row {
        address,
        ..rows[place]
    };
    with_row(&without(rows, place), new)
}
