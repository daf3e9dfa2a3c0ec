// How many steps of a group came out right, for a program that holds the code to numbers from outside, and the group's line.
#![tactic(auto)]

use std::io::Write;
use std::{fmt, io};

#[derive(Clone, Copy, Debug, PartialEq, Eq)]
pub struct Tally {
    pub right: u32,
    pub all: u32,
}

impl Tally {
    // Nothing yet.
    pub fn new() -> Tally {
        Tally { right: 0, all: 0 }
    }

    // One more, which came out right or not.
    pub fn with(self, right: bool) -> Tally {
        Tally {
            right: self.right.saturating_add(u32::from(right)),
            all: self.all.saturating_add(1),
        }
    }

    // One number more: what was asked, what came out, and what should have. A wrong one is written.
    pub fn number(
        self,
        out: &mut impl Write,
        asked: u32,
        got: u32,
        should: u32,
    ) -> io::Result<Tally> {
        if got != should {
            writeln!(out, "  asked {asked}: {got}, should be {should}")?;
        }
        Ok(self.with(got == should))
    }

    // Writes the line of a group.
    pub fn report(self, out: &mut impl Write, group: &[u8]) -> io::Result<()> {
        write!(out, "{self}: ")?;
        out.write_all(group)?;
        writeln!(out)
    }
}

impl fmt::Display for Tally {
    fn fmt<W: fmt::Write>(&self, f: &mut fmt::Formatter<W>) -> fmt::Result {
        write!(f, "{} of {}", self.right, self.all)
    }
}
