// The layouts cell by cell. Each function but `take` and `expect` reads from one point of a record on and says what the whole record says, or where it
// breaks.
ghost use Rattle.std.specs.Prelude.{◌≡◌, ◌≤◌};
ghost use Rattle.reader.specs.Points.{start, again, reopening, new_address};
ghost use Rattle.reader.specs.Points.{ending, event, header, command};
ghost use Rattle.reader.specs.Points.{round, offer};
ghost use Rattle.reader.specs.Read.{Takes, Expects, answer_of, read_from};

use crate::place::Place;
use crate::{Fault, kinds};
use readings::{Command, Joining, Reading, assigned, bare, directed};

impl<'a> Place<'a> {
    // The cell here, and the place behind it.
    fn take(self) -> Result<(u16, Place<'a>), Fault>
        ensures { Takes self.entry result }
    {
        let Place { cells, at } = self;
        match cells.get(at) {
            Some(&cell) => Ok((cell, Place { cells, at: at + 1 })),
            None => Err(Fault::at(at)),
        }
    }

    // The place behind the cell that must stand here.
    fn expect(self, cell: u16) -> Result<Place<'a>, Fault>
        ensures { Expects self.entry cell result }
    {
        let (found, next) = self.take()?;
        if found != cell {
            return Err(Fault::at(self.at));
        }
        Ok(next)
    }

    // STOP, and nothing behind it.
    fn ending(self, reading: Reading) -> Result<Reading, Fault>
        ensures { answer_of result ≡ read_from (ending reading) self.entry }
    {
        let end = self.expect(parity::STOP)?;
        if end.at < end.cells.len() {
            return Err(Fault::at(end.at));
        }
        Ok(reading)
    }

    // The data byte of silence and allow.
    fn event(self, joining: Joining, command: Command) -> Result<Reading, Fault>
        ensures { answer_of result ≡ read_from (event joining command) self.entry }
    {
        let next = self.expect(parity::JOINING)?;
        next.ending(bare(joining, command))
    }

    // The new address, behind the header to this one.
    fn new_address(self, command: Command, address: u8) -> Result<Reading, Fault>
        ensures { answer_of result ≡ read_from (new_address command address) self.entry }
    {
        let (cell, next) = self.take()?;
        if !kinds::is_new_address(cell) {
            return Err(Fault::at(self.at));
        }
        let new = kinds::address_in(cell);
        next.ending(directed(command, address, new, true))
    }

    // A repeated START, and the header of a set or a move.
    fn header(self, command: Command) -> Result<Reading, Fault>
        ensures { answer_of result ≡ read_from (again (header command)) self.entry }
    {
        let header = self.expect(parity::REPEATED_START)?;
        let (cell, next) = header.take()?;
        if !kinds::is_write_byte(cell) {
            return Err(Fault::at(header.at));
        }
        let address = kinds::address_in(cell);
        if kinds::answered_in(cell) {
            next.new_address(command, address)
        } else {
            next.ending(directed(command, address, 0, false))
        }
    }

    // A repeated START and a round header. An answer leads to an offer. Kept, that these two call each other: document 01 names the form.
    #[cycle(offer_round)]
    fn round(self, joining: Joining, offers: usize) -> Result<Reading, Fault>
        requires { offers ≤ self.at }
        ensures { answer_of result ≡ read_from (again (round joining offers)) self.entry }
    {
        let header = self.expect(parity::REPEATED_START)?;
        let (cell, next) = header.take()?;
        match cell {
            parity::BROADCAST_READ_ANSWERED => next.offer(joining, offers),
            parity::BROADCAST_READ_SILENT => next.ending(assigned(joining, offers, false)),
            _ => Err(Fault::at(header.at)),
        }
    }

    // Eight identity bytes and the address byte. STOP may follow; else a repeated START leads back to a round header.
    #[cycle(offer_round)]
    fn offer(self, joining: Joining, offers: usize) -> Result<Reading, Fault>
        requires { offers ≤ self.at }
        ensures { answer_of result ≡ read_from (offer joining offers 8) self.entry }
    {
        let mut place = self;
        for _heard in 0..8usize {
            let (cell, next) = place.take()?;
            if !kinds::is_identity(cell) {
                return Err(Fault::at(place.at));
            }
            place = next;
        }
        let (cell, next) = place.take()?;
        if !kinds::is_offered(cell) {
            return Err(Fault::at(place.at));
        }
        let (cell, _) = next.take()?;
        if cell == parity::STOP {
            return next.ending(assigned(joining, offers + 1, true));
        }
        next.round(joining, offers + 1)
    }

    // A command, behind an answered 7Eh.
    fn command(self, joining: Joining) -> Result<Reading, Fault>
        ensures { answer_of result ≡ read_from (command joining) self.entry }
    {
        let (cell, next) = self.take()?;
        let command = kinds::command_of(cell);
        if !readings::may_follow(joining, command) {
            return Err(Fault::at(self.at));
        }
        match command {
            Command::None => Err(Fault::at(self.at)),
            Command::Assign => next.round(joining, 0),
            Command::ResetAll => next.ending(bare(joining, command)),
            Command::SetFromStatic | Command::Move => next.header(command),
            Command::Silence | Command::Allow => next.event(joining, command),
        }
    }

    // A repeated START and 7Eh, behind an answered joining.
    fn joined(self) -> Result<Reading, Fault>
        ensures { answer_of result ≡ read_from (again reopening) self.entry }
    {
        let header = self.expect(parity::REPEATED_START)?;
        let (cell, next) = header.take()?;
        match cell {
            parity::BROADCAST_WRITE_ANSWERED => next.command(Joining::Answered),
            parity::BROADCAST_WRITE_SILENT => next.ending(bare(Joining::Answered, Command::None)),
            _ => Err(Fault::at(header.at)),
        }
    }

    // START, and 7Eh or a board that asks to join.
    pub fn record(self) -> Result<Reading, Fault>
        ensures { answer_of result ≡ read_from start self.entry }
    {
        let header = self.expect(parity::START)?;
        let (cell, next) = header.take()?;
        match cell {
            parity::BROADCAST_WRITE_ANSWERED => next.command(Joining::None),
            parity::BROADCAST_WRITE_SILENT => next.ending(bare(Joining::None, Command::None)),
            parity::HOT_JOIN_ANSWERED => next.joined(),
            parity::HOT_JOIN_REFUSED => next.ending(bare(Joining::Refused, Command::None)),
            _ => Err(Fault::at(header.at)),
        }
    }
}
