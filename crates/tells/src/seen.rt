// What is seen of a machine, of boards and of a record.
use crate::line::Hex;
use boards::Board;
use machine::Machine;
use readings::Reading;
use rows::{NO_ROW, Row};
use std::fmt;

// The machine: its facts, its moment, what it remembers, its rows.
#[derive(Clone, Copy)]
pub struct Seen<'a>(pub &'a Machine);

impl fmt::Display for Seen<'_> {
    fn fmt<W: fmt::Write>(&self, f: &mut fmt::Formatter<W>) -> fmt::Result {
        let m = self.0;
        let facts = &m.table.facts;
        write!(
            f,
            "machine flags {} legacy {} last {}",
            facts.flags,
            Hex(&facts.legacy),
            facts.last
        )?;
        write!(
            f,
            " moment {} choice {} asked {} wanted {}",
            m.moment.number(),
            m.choice,
            m.asked,
            m.wanted
        )?;
        write!(
            f,
            " identity {} offered {} refusals {}",
            Hex(&m.identity.to_be_bytes()),
            m.offered,
            m.refusals
        )?;
        write!(f, " {}", Rows(&m.table.rows))
    }
}

// The word `rows` and the used places, in the order in which they stand; the word `dirty` if an unused one is not all zero.
#[derive(Clone, Copy)]
struct Rows<'a>(&'a [Row; 32]);

impl fmt::Display for Rows<'_> {
    fn fmt<W: fmt::Write>(&self, f: &mut fmt::Formatter<W>) -> fmt::Result {
        let rows = self.0;
        write!(f, "rows")?;
        for row in rows.iter().filter(|row| row.in_use()) {
            write!(f, " {}:{}:{}", row.address, row.ticket, row.unknown as u8)?;
            let identity = row.identity.to_be_bytes();
            write!(f, ":{}:{}", Hex(&identity), row.from_static)?;
        }
        if rows.iter().any(|row| !row.in_use() & (*row != NO_ROW)) {
            write!(f, " dirty")?;
        }
        Ok(())
    }
}

// The word `boards` and these boards, each with its address.
#[derive(Clone, Copy)]
pub struct Boards<'a>(pub &'a [Board]);

impl fmt::Display for Boards<'_> {
    fn fmt<W: fmt::Write>(&self, f: &mut fmt::Formatter<W>) -> fmt::Result {
        write!(f, "boards")?;
        for board in self.0 {
            let identity = board.identity.to_be_bytes();
            write!(f, " {}:{}", Hex(&identity), board.address)?;
        }
        Ok(())
    }
}

// What a record says: what it is about, its headers, and how many offers it has.
#[derive(Clone, Copy)]
pub struct Said<'a>(pub &'a Reading);

impl fmt::Display for Said<'_> {
    fn fmt<W: fmt::Write>(&self, f: &mut fmt::Formatter<W>) -> fmt::Result {
        let r = self.0;
        write!(
            f,
            "joining {} command {}",
            r.joining.number(),
            r.command.number()
        )?;
        write!(f, " header {} new {}", r.header, r.new)?;
        write!(
            f,
            " direct {} last {} offers {}",
            r.direct as u8, r.last as u8, r.offers
        )
    }
}
