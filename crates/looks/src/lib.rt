// What stands in a machine, as numbers, for a program that plays a script; and a machine made by hand.
#![tactic(auto)]

pub mod by_hand;

use lines::numbers::Numbers;
use machine::Machine;
use rows::Row;

// The moment's number, and what is remembered: choice, address asked, address wanted, identity, address offered, refusals in succession.
pub fn moment(m: &Machine) -> Numbers {
    Numbers::one(m.moment.number().into())
        .with_all(&[m.choice, m.asked, m.wanted])
        .with(m.identity)
        .with_all(&[m.offered, m.refusals])
}

// Flags and last ticket.
pub fn facts(m: &Machine) -> Numbers {
    Numbers::one(m.table.facts.flags.into()).with(m.table.facts.last.into())
}

// The sixteen bytes of the legacy set.
pub fn devices(m: &Machine) -> Numbers {
    Numbers::none().with_all(&m.table.facts.legacy)
}

// What stands at a place of the table; nothing behind its 32 places.
pub fn place(m: &Machine, place: usize) -> Numbers {
    m.table.rows.get(place).map_or(Numbers::none(), row)
}

// A row: address, ticket, mark "identity unknown", identity, static address.
fn row(r: &Row) -> Numbers {
    Numbers::one(r.address.into())
        .with(r.ticket.into())
        .with(r.unknown.into())
        .with(r.identity)
        .with(r.from_static.into())
}
