// A group of a script's lines, and how many of its steps came out right.
use crate::came::Came;
use crate::numbers::Numbers;
use std::io;
use std::io::Write;
use tally::Tally;

// The number of the line that is played, the tally of its group, and the group's name, if one has begun.
#[derive(Clone, Copy)]
pub struct Group<'a> {
    number: u32,
    tally: Tally,
    name: Option<&'a [u8]>,
}

impl<'a> Group<'a> {
    // No line has been played, and there is no name.
    pub fn new() -> Group<'a> {
        Group {
            number: 0,
            tally: Tally::new(),
            name: None,
        }
    }

    // The next line is played.
    pub(crate) fn next_line(&mut self) {
        self.number = self.number.saturating_add(1);
    }

    // A line `group` begins a new one, and what this one came to is written. The name stands behind the word `group` and a blank.
    pub fn begin(&mut self, out: &mut impl Write, line: &'a [u8]) -> io::Result<()> {
        self.report(out)?;
        self.tally = Tally::new();
        self.name = Some(line.get(6..).unwrap_or(&[]));
        Ok(())
    }

    // A step came to these numbers, where the script says others or the same; it is right if they are the same and it has no flaw. A wrong one is
    // written, with the words for its flaw.
    pub fn compare(&mut self, out: &mut impl Write, came: &Came, said: &Numbers) -> io::Result<()> {
        let right = came.numbers == *said && came.flaw.is_none();
        self.count(right);
        if !right {
            write!(out, "  line {} came to", self.number)?;
            came.numbers.print(out)?;
            if let Some(flaw) = came.flaw {
                write!(out, ", and {flaw}")?;
            }
            writeln!(out)?;
        }
        Ok(())
    }

    // The line is no step that can be played, which is written, and counts as a wrong one.
    pub fn cannot_be_read(&mut self, out: &mut impl Write) -> io::Result<()> {
        self.count(false);
        writeln!(out, "  line {} cannot be read", self.number)
    }

    // One step more, right or not.
    fn count(&mut self, right: bool) {
        self.tally = self.tally.with(right);
    }

    // Writes the line of the group, if there is one.
    pub fn report(&self, out: &mut impl Write) -> io::Result<()> {
        match self.name {
            Some(name) => self.tally.report(out, name),
            None if self.tally.all == 0 => Ok(()),
            None => self.tally.report(out, &[]),
        }
    }
}
