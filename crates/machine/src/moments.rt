// The machine at each of its moments, and whether what it remembers is what the rules allow.
ghost use Rattle.std.specs.Prelude.{◌≡◌, replicate};
ghost use Rattle.rows.specs.Rows.{no_row};
ghost use Rattle.machine.specs.Moments.{moment_number, Numbers, nothing_asked, nothing_offered, in_rounds, goes_direct, asks_right, right_at, moment_right, machine_right, is_idle, is_listening};
ghost use Rattle.machine.specs.Moments.{idle, opened, direct, round, listening, offering};
ghost use Rattle.machine.specs.declared.Moment.TheVariants.{Offered};

use crate::{Machine, Moment};
use begins::{MOVE, SET_FROM_STATIC};
use rows::NO_ROW;
use slots::Facts;
use table::Table;

impl Moment {
    // Its number, for those who show a machine or make one by hand.
    pub fn number(self) -> u8
        ensures { result ≡ moment_number self }
    {
        match self {
            Moment::Idle => 0,
            Moment::Opened => 1,
            Moment::Round => 2,
            Moment::Listening => 3,
            Moment::Offered => 4,
            Moment::Direct => 5,
        }
    }
}

// A number that no moment has.
#[derive(Clone, Copy, Debug, PartialEq, Eq)]
pub struct UnknownMoment(pub u8);

impl TryFrom<u8> for Moment {
    type Error = UnknownMoment;

    ghost try_from_gives = { Numbers };

    fn try_from(number: u8) -> Result<Moment, UnknownMoment> {
        match number {
            0 => Ok(Moment::Idle),
            1 => Ok(Moment::Opened),
            2 => Ok(Moment::Round),
            3 => Ok(Moment::Listening),
            4 => Ok(Moment::Offered),
            5 => Ok(Moment::Direct),
            _ => Err(UnknownMoment(number)),
        }
    }
}

// ---- one machine for each moment: what the moment does not need is 0

impl Machine {
    pub(crate) fn idle(table: Table) -> Machine
        ensures { result ≡ idle table.facts table.rows }
    {
        Machine {
            table,
            moment: Moment::Idle,
            choice: 0,
            asked: 0,
            wanted: 0,
            identity: 0,
            offered: 0,
            refusals: 0,
        }
    }

    // Idle, and no rows.
    pub(crate) fn without_rows(facts: Facts) -> Machine
        ensures { result ≡ idle facts (replicate 32 no_row) }
    {
        Machine::idle(Table {
            facts,
            rows: [NO_ROW; 32],
        })
    }

    pub(crate) fn opened(table: Table, choice: u8, asked: u8, wanted: u8) -> Machine
        ensures { result ≡ opened table.facts table.rows choice asked wanted }
    {
        Machine {
            moment: Moment::Opened,
            choice,
            asked,
            wanted,
            ..Machine::idle(table)
        }
    }

    pub(crate) fn direct(table: Table, choice: u8, asked: u8, wanted: u8) -> Machine
        ensures { result ≡ direct table.facts table.rows choice asked wanted }
    {
        Machine {
            moment: Moment::Direct,
            ..Machine::opened(table, choice, asked, wanted)
        }
    }

    pub(crate) fn round(table: Table, refusals: u8) -> Machine
        ensures { result ≡ round table.facts table.rows refusals }
    {
        Machine {
            moment: Moment::Round,
            refusals,
            ..Machine::idle(table)
        }
    }

    pub(crate) fn listening(table: Table, refusals: u8) -> Machine
        ensures { result ≡ listening table.facts table.rows refusals }
    {
        Machine {
            moment: Moment::Listening,
            ..Machine::round(table, refusals)
        }
    }

    pub(crate) fn offering(table: Table, identity: u64, offered: u8, refusals: u8) -> Machine
        ensures { result ≡ offering table.facts table.rows identity offered refusals }
    {
        Machine {
            moment: Moment::Offered,
            identity,
            offered,
            refusals,
            ..Machine::idle(table)
        }
    }

    // ---- what a machine at a moment must be like

    fn nothing_asked(&self) -> bool
        ensures { result ≡ nothing_asked self.now }
    {
        (self.choice == 0) & ((self.asked == 0) & (self.wanted == 0))
    }

    fn nothing_offered(&self) -> bool
        ensures { result ≡ nothing_offered self.now }
    {
        (self.identity == 0) & (self.offered == 0)
    }

    // In an assign's rounds: nothing asked, at most one refusal, and the table can give one row more.
    fn in_rounds(&self) -> bool
        ensures { result ≡ in_rounds self.now }
    {
        self.nothing_asked() & (self.refusals < 2) & free::can_assign(&self.table)
    }

    // The choice and the addresses asked are what these rows allow, and there is nothing else.
    fn asks_right(&self) -> bool
        ensures { result ≡ asks_right self.now }
    {
        begins::asked_right(&self.table, self.choice, self.asked, self.wanted)
            & self.nothing_offered()
            & (self.refusals == 0)
    }

    // The identity is offered what the table says.
    fn offers_right(&self) -> bool
        ensures { result ≡ right_at Offered self.now }
    {
        self.in_rounds() & (self.offered == free::address_for(&self.table, self.identity))
    }

    // Whether the machine remembers what the rules allow at its moment with its rows.
    fn moment_right(&self) -> bool
        ensures { result ≡ moment_right self.now }
    {
        match self.moment {
            Moment::Idle => self.nothing_asked() & self.nothing_offered() & (self.refusals == 0),
            Moment::Opened => self.asks_right(),
            Moment::Round | Moment::Listening => self.in_rounds() & self.nothing_offered(),
            Moment::Offered => self.offers_right(),
            Moment::Direct => goes_direct(self.choice) & self.asks_right(),
        }
    }

    // Whether a machine keeps all the rules.
    pub(crate) fn is_right(&self) -> bool
        ensures { result ≡ machine_right self.now }
    {
        self.table.is_sound() && self.moment_right()
    }

    // ---- moments told apart

    pub fn is_idle(&self) -> bool
        ensures { result ≡ is_idle self.now.moment }
    {
        self.moment == Moment::Idle
    }

    pub(crate) fn is_listening(&self) -> bool
        ensures { result ≡ is_listening self.now.moment }
    {
        self.moment == Moment::Listening
    }
}

// Whether a choice comes to direct: a set or a move.
pub fn goes_direct(choice: u8) -> bool
    ensures { result ≡ goes_direct choice }
{
    matches!(choice, SET_FROM_STATIC | MOVE)
}
