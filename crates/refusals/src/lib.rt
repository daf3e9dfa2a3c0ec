// The refusals, each with the paper's number. A call that refuses answers an `Err` with one of them.
#![tactic(auto)]

ghost use Rattle.std.specs.Prelude.{◌≡◌};
ghost use Rattle.refusals.specs.Refusals.{number, NumberOf};

// Why a call is refused. The first that applies is given, in the order that stands with each call.
#[derive(Clone, Copy, Debug, PartialEq, Eq)]
pub enum Refusal {
    FactsWrong, // the bus facts break a rule, or the legacy set is not 16 bytes
    OutOfRange, // an address out of range, or an identity that is not eight bytes
    NotOpen, // an address is not open, or a static one is legacy
    Held, // an address is held by a row
    Full, // 32 rows
    NoFreeAddress, // no address is free
    NoTicketLeft, // the last ticket is given
    TicketUnknown, // the ticket is 0 or above the last
    TicketRetired, // the ticket was given once, and is now of no row
    WrongMoment, // the call is not of this moment
    TooFewLent, // fewer cells or bytes are lent than the call must be
    UnknownChoice, // a choice that there is not
    TooLong, // a record of more than 1,024 cells
    NoLayout, // no layout fits
    NoRoom, // a buffer shorter than ten bytes an offer
    TooManyBoards, // over 32 boards
    FlipOver8, // a flip over 8
    SheetWrong, // a sheet breaks a rule of kind, count, offset, length or order
    BrokenMachine, // a machine that breaks the rules
}

impl Refusal {
    // The paper's number.
    pub fn number(self) -> u8
        ensures { result ≡ number self }
    {
        match self {
            Refusal::FactsWrong => 1,
            Refusal::OutOfRange => 2,
            Refusal::NotOpen => 3,
            Refusal::Held => 4,
            Refusal::Full => 5,
            Refusal::NoFreeAddress => 6,
            Refusal::NoTicketLeft => 7,
            Refusal::TicketUnknown => 8,
            Refusal::TicketRetired => 9,
            Refusal::WrongMoment => 10,
            Refusal::TooFewLent => 11,
            Refusal::UnknownChoice => 12,
            Refusal::TooLong => 13,
            Refusal::NoLayout => 14,
            Refusal::NoRoom => 15,
            Refusal::TooManyBoards => 16,
            Refusal::FlipOver8 => 17,
            Refusal::SheetWrong => 18,
            Refusal::BrokenMachine => 28,
        }
    }
}

// A number that is no refusal's, as 0.
#[derive(Clone, Copy, Debug, PartialEq, Eq)]
pub struct NoRefusal;

impl TryFrom<u8> for Refusal {
    type Error = NoRefusal;

    ghost try_from_gives = { NumberOf };

    fn try_from(number: u8) -> Result<Refusal, NoRefusal> {
        match number {
            1 => Ok(Refusal::FactsWrong),
            2 => Ok(Refusal::OutOfRange),
            3 => Ok(Refusal::NotOpen),
            4 => Ok(Refusal::Held),
            5 => Ok(Refusal::Full),
            6 => Ok(Refusal::NoFreeAddress),
            7 => Ok(Refusal::NoTicketLeft),
            8 => Ok(Refusal::TicketUnknown),
            9 => Ok(Refusal::TicketRetired),
            10 => Ok(Refusal::WrongMoment),
            11 => Ok(Refusal::TooFewLent),
            12 => Ok(Refusal::UnknownChoice),
            13 => Ok(Refusal::TooLong),
            14 => Ok(Refusal::NoLayout),
            15 => Ok(Refusal::NoRoom),
            16 => Ok(Refusal::TooManyBoards),
            17 => Ok(Refusal::FlipOver8),
            18 => Ok(Refusal::SheetWrong),
            28 => Ok(Refusal::BrokenMachine),
            _ => Err(NoRefusal),
        }
    }
}
