// The table: bus facts and rows together, its tickets, and whether it keeps the rules.
#![tactic(auto)]

ghost use Rattle.std.specs.Prelude.{◌≤◌, ◌≡◌, not, drop, position};
ghost use Rattle.lists.specs.Lists.{all, pairwise};
ghost use Rattle.refusals.specs.Refusals.{refusal_of};
ghost use Rattle.rows.specs.Rows.{in_use};
ghost use Rattle.table.specs.Tickets.{ticket_refusal};
ghost use Rattle.table.specs.Sound.{static_allowed, used_right, row_right, in_order, sound};
ghost use Rattle.table.specs.Sound.{distinct};

use refusals::Refusal;
use rows::Row;
use slots::Facts;

// The bus facts, and the rows in order of address.
#[derive(Clone, Copy, Debug, PartialEq, Eq)]
pub struct Table {
    pub facts: Facts,
    pub rows: [Row; 32],
}

impl Table {
    // The refusals of a ticket: unknown, then retired.
    pub fn ticket_refusal(&self, ticket: u32) -> Result<(), Refusal>
        ensures { refusal_of result ≡ ticket_refusal self.now.facts self.now.rows ticket }
    {
        if (ticket == 0) | (self.facts.last < ticket) {
            return Err(Refusal::TicketUnknown);
        }
        match rows::place_of_ticket(&self.rows, ticket) {
            Some(_) => Ok(()),
            None => Err(Refusal::TicketRetired),
        }
    }

    // Whether every place is right by itself.
    fn rows_right(&self) -> bool
        ensures { result ≡ all (row_right self.now.facts) self.now.rows }
    {
        self.rows.iter().all(|r| row_right(self.facts, *r))
    }

    // Whether facts and rows keep all the rules.
    pub fn is_sound(&self) -> bool
        ensures { result ≡ sound self.now.facts self.now.rows }
    {
        self.facts.are_right() & self.rows_right() & rows_in_order(&self.rows)
    }
}

// Whether a row may be set from this static address: 08h to 77h, and not legacy.
pub fn static_allowed(f: Facts, address: u8) -> bool
    ensures { result ≡ static_allowed f address }
{
    (0x08 <= address) & (address <= 0x77) & !f.is_legacy(address)
}

// Whether a row keeps the rules by itself. It is done with the first rule that is broken.
fn used_right(f: Facts, r: Row) -> bool
    ensures { result ≡ used_right f r }
{
    if !f.is_open(r.address) {
        return false;
    }
    if !((1 <= r.ticket) & (r.ticket <= f.last)) {
        return false;
    }
    if r.unknown & (r.identity != 0) {
        return false;
    }
    if r.from_static == 0 {
        true
    } else {
        static_allowed(f, r.from_static)
    }
}

// Whether a place is right: a row that keeps the rules, or unused and all zero.
fn row_right(f: Facts, r: Row) -> bool
    ensures { result ≡ row_right f r }
{
    if r.in_use() {
        used_right(f, r)
    } else {
        (r.ticket == 0) & !r.unknown & (r.identity == 0) & (r.from_static == 0)
    }
}

// Whether two rows differ in whatever has to be distinct, beside their addresses.
fn distinct(x: Row, y: Row) -> bool
    ensures { result ≡ distinct x y }
{
    (x.ticket != y.ticket)
        & (x.unknown | y.unknown | (x.identity != y.identity))
        & ((x.from_static == 0) | (x.from_static != y.from_static))
}

// Whether y may stand behind x: an unused y may, whatever x is.
fn in_order(x: Row, y: Row) -> bool
    ensures { result ≡ in_order x y }
{
    if y.address == 0 {
        return true;
    }
    if x.address == 0 {
        return false;
    }
    if y.address <= x.address {
        return false;
    }
    distinct(x, y)
}

// The first unused place.
fn first_unused(rows: &[Row; 32]) -> Option<usize>
    ensures { result ≡ position (λ y. not (in_use y)) rows.now }
{
    rows.iter().position(|r| !r.in_use())
}

// Whether every place from n on is unused.
fn unused_from(rows: &[Row; 32], n: usize) -> bool
    requires { n ≤ 32 }
    ensures { result ≡ all (λ y. not (in_use y)) (drop n rows.now) }
{
    rows.iter().skip(n).all(|r| !r.in_use())
}

// Whether any two places are in order: behind the first unused place only unused ones, and the rows before it each with each.
fn rows_in_order(rows: &[Row; 32]) -> bool
    ensures { result ≡ pairwise in_order rows.now }
{
    let n = first_unused(rows).unwrap_or(32);
    if !unused_from(rows, n) {
        return false;
    }
    for i in 0..n {
        for j in i + 1..n {
            if !in_order(rows[i], rows[j]) {
                return false;
            }
        }
    }
    true
}
