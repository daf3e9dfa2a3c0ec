// The step machine: it hands out addresses and tickets, one step of the bus after the other.
//
// A machine goes into every call by value, and the call hands it back. A call that writes is lent at least 8 cells, writes from the first place on,
// and says how many; what lies behind them stays. A refused call hands back the machine as it was given, and writes nothing.
//
//     start          an idle machine on these bus facts
//     begin, join    from idle; then `answer` and `identity` as the moment asks, until it is idle again
//     give_up        back to idle from any other moment
//     retire, ask    what becomes of a ticket
#![tactic(auto)]

ghost use Rattle.std.specs.Prelude.{◌≡◌, [], length};
ghost use Rattle.slots.specs.Slots.{facts_of};
ghost use Rattle.machine.specs.Steps.{did};
ghost use Rattle.machine.specs.Calls.{begun, answered, identified, given_up, joined, started, retired, asked, stepped, written, ticket_answer};

mod did;
mod identities;
mod moments;
mod refused;
mod steps;

pub use moments::UnknownMoment;
use refusals::Refusal;
use table::Table;

// The moments. What each remembers stands beside it; all else is 0.
#[derive(Clone, Copy, Debug, PartialEq, Eq)]
pub enum Moment {
    Idle, // nothing
    Opened, // choice, asked, wanted
    Round, // refusals
    Listening, // refusals
    Offered, // identity, offered, refusals
    Direct, // choice, asked, wanted
}

// The table, the moment, and what it remembers: the choice that was begun, the address that it asks (static for a set, present for a move) and the
// new address wanted; the identity heard and the address that it is offered; the refusals in succession. Kept: the choice is a number, since a machine
// can be handed in with any in its place, and is then refused 28.
#[derive(Clone, Copy, Debug, PartialEq, Eq)]
pub struct Machine {
    pub table: Table,
    pub moment: Moment,
    pub choice: u8,
    pub asked: u8,
    pub wanted: u8,
    pub identity: u64,
    pub offered: u8,
    pub refusals: u8,
}

// What a call hands back: the machine, how many cells it wrote, and its refusal, 0 for none. Kept: document 01 names this form, "returning the new
// machine with count and refusal".
#[derive(Clone, Copy, Debug, PartialEq, Eq)]
pub struct Stepped {
    pub machine: Machine,
    pub count: usize,
    pub refusal: u8,
}

impl Stepped {
    // A step of a call that is lent no cells.
    fn done(machine: Machine) -> Stepped
        ensures { result ≡ stepped (did machine []) }
    {
        Stepped {
            machine,
            count: 0,
            refusal: 0,
        }
    }
}

// An idle machine without rows on these bus facts. Refused 1 if they break a rule, and then the machine has no ticket left to give.
pub fn start(flags: u8, legacy: &[u8], last: u32) -> Stepped
    ensures { result ≡ stepped (started (facts_of flags legacy.now last)) }
{
    match slots::checked_facts(flags, legacy, last) {
        Ok(facts) => Stepped::done(Machine::without_rows(facts)),
        Err(refusal) => Stepped::refused(Machine::without_rows(slots::refused_facts()), refusal),
    }
}

impl Machine {
    // Begins, at idle: choice 0 assign, 1 reset all, 2 set from static, 3 move, 4 silence joining, 5 allow joining (`begins` names them). A set takes
    // the static and the new address, a move the ticket and the new address; what a choice does not take is not judged.
    pub fn begin(self, choice: u8, from: u8, new: u8, ticket: u32, cells: &mut [u16]) -> Stepped
        ensures value { result ≡ stepped (begun self choice from new ticket (length cells.old)) }
        ensures cells_after { cells.new ≡ written (begun self choice from new ticket (length cells.old)) cells.old }
    {
        let Some(front) = cells.first_chunk_mut() else {
            return Stepped::refused(self, Refusal::TooFewLent);
        };
        match self.begin_refusal(choice, from, new, ticket) {
            Ok(()) => self.beginning(choice, from, new, ticket, front),
            Err(refusal) => Stepped::refused(self, refusal),
        }
    }

    // An answer, or none, to the header or the offered address that went out last: at opened, round, offered and direct.
    pub fn answer(self, heard: bool, cells: &mut [u16]) -> Stepped
        ensures value { result ≡ stepped (answered self heard (length cells.old)) }
        ensures cells_after { cells.new ≡ written (answered self heard (length cells.old)) cells.old }
    {
        let Some(front) = cells.first_chunk_mut() else {
            return Stepped::refused(self, Refusal::TooFewLent);
        };
        match self.step_refusal() {
            Ok(()) => match self.moment {
                Moment::Idle | Moment::Listening => Stepped::refused(self, Refusal::WrongMoment),
                Moment::Opened => self.opened_answer(heard, front),
                Moment::Round => self.round_answer(heard, front),
                Moment::Offered => self.offered_answer(heard, front),
                Moment::Direct => self.direct_answer(heard, front),
            },
            Err(refusal) => Stepped::refused(self, refusal),
        }
    }

    // The eight bytes of the identity that won the round, highest first: at listening.
    pub fn identity(self, bytes: &[u8], cells: &mut [u16]) -> Stepped
        ensures value { result ≡ stepped (identified self bytes.now (length cells.old)) }
        ensures cells_after { cells.new ≡ written (identified self bytes.now (length cells.old)) cells.old }
    {
        let Some(front) = cells.first_chunk_mut() else {
            return Stepped::refused(self, Refusal::TooFewLent);
        };
        match self.identity_refusal(bytes.len()) {
            Ok(()) => self.listened(identities::eight(bytes), front),
            Err(refusal) => Stepped::refused(self, refusal),
        }
    }

    // Back to idle with a STOP, rows unchanged: at any moment but idle.
    pub fn give_up(self, cells: &mut [u16]) -> Stepped
        ensures value { result ≡ stepped (given_up self (length cells.old)) }
        ensures cells_after { cells.new ≡ written (given_up self (length cells.old)) cells.old }
    {
        let Some(front) = cells.first_chunk_mut() else {
            return Stepped::refused(self, Refusal::TooFewLent);
        };
        match self.give_up_refusal() {
            Ok(()) => Stepped::did(Machine::idle(self.table), &[parity::STOP], front),
            Err(refusal) => Stepped::refused(self, refusal),
        }
    }

    // A board asks to join, at idle: choice 0 turns it away, 1 answers and then silences joining, 2 answers and then assigns.
    pub fn join(self, choice: u8, cells: &mut [u16]) -> Stepped
        ensures value { result ≡ stepped (joined self choice (length cells.old)) }
        ensures cells_after { cells.new ≡ written (joined self choice (length cells.old)) cells.old }
    {
        let Some(front) = cells.first_chunk_mut() else {
            return Stepped::refused(self, Refusal::TooFewLent);
        };
        match self.join_refusal(choice) {
            Ok(()) => self.joining(choice, front),
            Err(refusal) => Stepped::refused(self, refusal),
        }
    }

    // Removes the row of a ticket, at idle.
    pub fn retire(self, ticket: u32) -> Stepped
        ensures { result ≡ stepped (retired self ticket) }
    {
        match self.retire_refusal(ticket) {
            Ok(()) => {
                let rows = steps::without(&self.table.rows, ticket);
                Stepped::done(Machine::idle(Table { rows, ..self.table }))
            }
            Err(refusal) => Stepped::refused(self, refusal),
        }
    }

    // The present address of a ticket, at any moment.
    pub fn ask(self, ticket: u32) -> Result<u8, Refusal>
        ensures { ticket_answer result ≡ asked self ticket }
    {
        self.ask_refusal(ticket)?;
        Ok(steps::address_of(&self.table.rows, ticket))
    }
}
