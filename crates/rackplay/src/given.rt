// What a script gives, read from its front: numbers, of which the highest byte stands first, and the calls that are made of them.
ghost use Rattle.std.specs.Prelude.{◌≡◌, ◌<◌, length, IfSome};

use machine::{Machine, Moment};
use readings::{Command, Joining, Reading};
use rows::{NO_ROW, Row};
use slots::Facts;
use table::Table;

// The most cells, or bytes, that a call is lent.
pub const MOST_LENT: usize = 1024;

// The most cells of a record that is read.
pub const MOST_CELLS: usize = 1100;

// The most boards of a run.
pub const MOST_BOARDS: usize = 40;

// A call with its numbers. The cells of a record and the boards of a run are bytes still: two for a cell, nine for a board. How much
// of fixed memory a call is lent (`lent`), a script says.
#[derive(Clone, Copy)]
pub enum Call<'a> {
    Start {
        flags: u8,
        legacy: &'a [u8],
        last: u32,
    },
    Step {
        lent: usize,
        step: Step<'a>,
    },
    Retire {
        ticket: u32,
    },
    Ask {
        ticket: u32,
    },
    SlotTest {
        flags: u8,
        legacy: &'a [u8],
        last: u32,
        address: u8,
    },
    // no call: a machine made by hand
    Made(Machine),
    Run {
        lent: usize,
        flips: &'a [u8],
        boards: &'a [[u8; 9]],
    },
    Read {
        lent: usize,
        record: &'a [[u8; 2]],
    },
    Write {
        lent: usize,
        reading: Reading,
        offers: &'a [u8],
    },
}

// A call of the machine that writes cells.
#[derive(Clone, Copy)]
pub enum Step<'a> {
    Begin {
        choice: u8,
        from: u8,
        new: u8,
        ticket: u32,
    },
    Answer(bool),
    Identity(&'a [u8]),
    GiveUp,
    Join(u8),
}

// The rest of a script. What is read goes from its front; it is None if the script breaks off, or no call can take the number.
#[derive(Clone, Copy)]
pub struct Given<'a> {
    rest: &'a [u8],
}

impl<'a> Given<'a> {
    // All of a script.
    pub fn new(script: &'a [u8]) -> Given<'a>
        ensures { result.rest.now ≡ script.now }
    {
        Given { rest: script }
    }

    // How many bytes are left.
    pub fn len(&self) -> usize
        ensures { result ≡ length self.now.rest.now }
    {
        self.rest.len()
    }

    // The next call. None too if its letter is none.
    pub fn call(&mut self) -> Option<Call<'a>>
        ensures { IfSome result (λ _. length self.new.rest.now < length self.old.rest.now) }
    {
        let before = self.len();
        let letter = self.byte()?;
        let call = self.call_of(letter)?;
        // always so: a call has its letter at least
        if self.len() < before {
            Some(call)
        } else {
            None
        }
    }

    // The call of a letter, which has been read.
    fn call_of(&mut self, letter: u8) -> Option<Call<'a>> {
        Some(match letter {
            b's' => Call::Start {
                flags: self.byte()?,
                legacy: self.short_list()?,
                last: self.ticket()?,
            },
            b'r' => Call::Retire {
                ticket: self.ticket()?,
            },
            b'q' => Call::Ask {
                ticket: self.ticket()?,
            },
            b't' => Call::SlotTest {
                flags: self.byte()?,
                legacy: self.short_list()?,
                last: self.ticket()?,
                address: self.byte()?,
            },
            b'm' => Call::Made(self.machine()?),
            b'n' => Call::Run {
                lent: self.lent()?,
                flips: self.short_list()?,
                boards: self.boards()?,
            },
            b'd' => Call::Read {
                lent: self.lent()?,
                record: self.record()?,
            },
            b'w' => Call::Write {
                lent: self.lent()?,
                reading: self.reading()?,
                offers: self.long_list()?,
            },
            _ => Call::Step {
                lent: self.lent()?,
                step: self.step(letter)?,
            },
        })
    }

    // A call of the machine that writes cells, by its letter.
    fn step(&mut self, letter: u8) -> Option<Step<'a>> {
        Some(match letter {
            b'b' => Step::Begin {
                choice: self.byte()?,
                from: self.byte()?,
                new: self.byte()?,
                ticket: self.ticket()?,
            },
            b'a' => Step::Answer(self.mark()?),
            b'i' => Step::Identity(self.short_list()?),
            b'g' => Step::GiveUp,
            b'j' => Step::Join(self.byte()?),
            _ => return None,
        })
    }

    // ---- numbers

    // So many bytes.
    fn bytes<const N: usize>(&mut self) -> Option<[u8; N]> {
        let (bytes, rest) = self.rest.split_first_chunk::<N>()?;
        self.rest = rest;
        Some(*bytes)
    }

    fn byte(&mut self) -> Option<u8> {
        let [byte] = self.bytes::<1>()?;
        Some(byte)
    }

    // A mark: all but 0 says yes.
    fn mark(&mut self) -> Option<bool> {
        Some(self.byte()? != 0)
    }

    fn ticket(&mut self) -> Option<u32> {
        Some(u32::from_be_bytes(self.bytes()?))
    }

    fn identity(&mut self) -> Option<u64> {
        Some(u64::from_be_bytes(self.bytes()?))
    }

    // (A function for each kind of count and list: they differ in the width of the count and in how many are too many.)

    // A count of one byte.
    fn small_count(&mut self) -> Option<usize>
        ensures { IfSome result (λ n. n < 256) }
    {
        Some(self.byte()? as usize)
    }

    // A count of two bytes.
    fn large_count(&mut self) -> Option<usize>
        ensures { IfSome result (λ n. n < 65536) }
    {
        Some(u16::from_be_bytes(self.bytes()?) as usize)
    }

    // How much a call is lent.
    fn lent(&mut self) -> Option<usize> {
        let many = self.large_count()?;
        if MOST_LENT < many { None } else { Some(many) }
    }

    // A count of one byte, and as many bytes.
    fn short_list(&mut self) -> Option<&'a [u8]> {
        let many = self.small_count()?;
        self.rest.split_off(..many)
    }

    // A count of two bytes, and as many bytes.
    fn long_list(&mut self) -> Option<&'a [u8]> {
        let many = self.large_count()?;
        self.rest.split_off(..many)
    }

    // A count of one byte, and as many boards.
    fn boards(&mut self) -> Option<&'a [[u8; 9]]> {
        let many = self.small_count()?;
        if MOST_BOARDS < many {
            return None;
        }
        Some(self.rest.split_off(..9 * many)?.as_chunks().0)
    }

    // A count of two bytes, and as many cells.
    fn record(&mut self) -> Option<&'a [[u8; 2]]> {
        let many = self.large_count()?;
        if MOST_CELLS < many {
            return None;
        }
        Some(self.rest.split_off(..2 * many)?.as_chunks().0)
    }

    // ---- a machine made by hand

    fn machine(&mut self) -> Option<Machine> {
        let facts = self.facts()?;
        let moment = Moment::try_from(self.byte()?).ok()?;
        let choice = self.byte()?;
        let asked = self.byte()?;
        let wanted = self.byte()?;
        let identity = self.identity()?;
        let offered = self.byte()?;
        let refusals = self.byte()?;
        let rows = self.rows()?;
        Some(Machine {
            table: Table { facts, rows },
            moment,
            choice,
            asked,
            wanted,
            identity,
            offered,
            refusals,
        })
    }

    fn facts(&mut self) -> Option<Facts> {
        Some(Facts {
            flags: self.byte()?,
            legacy: self.bytes()?,
            last: self.ticket()?,
        })
    }

    fn rows(&mut self) -> Option<[Row; 32]> {
        let mut rows = [NO_ROW; 32];
        for row in &mut rows {
            *row = self.row()?;
        }
        Some(rows)
    }

    fn row(&mut self) -> Option<Row> {
        Some(Row {
            address: self.byte()?,
            ticket: self.ticket()?,
            unknown: self.mark()?,
            identity: self.identity()?,
            from_static: self.byte()?,
        })
    }

    // ---- what the writer is given

    fn reading(&mut self) -> Option<Reading> {
        Some(Reading {
            joining: Joining::try_from(self.byte()?).ok()?,
            command: Command::try_from(self.byte()?).ok()?,
            header: self.byte()?,
            new: self.byte()?,
            direct: self.mark()?,
            last: self.mark()?,
            offers: self.small_count()?,
        })
    }
}
