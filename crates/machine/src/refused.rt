// The refusals of each call, in their order.
ghost use Rattle.std.specs.Prelude.{◌≡◌};
ghost use Rattle.refusals.specs.Refusals.{refusal_of};
ghost use Rattle.machine.specs.Refusals.{step_refusal, rest_refusal, begin_refusal, join_refusal, identity_refusal, give_up_refusal, retire_refusal, ask_refusal};

use crate::Machine;
use refusals::Refusal;

impl Machine {
    // What every stepping call asks first, with its 8 cells lent: a machine that keeps the rules.
    pub(crate) fn step_refusal(&self) -> Result<(), Refusal>
        ensures { refusal_of result ≡ step_refusal 8 self.now 0 }
    {
        if !self.is_right() {
            return Err(Refusal::BrokenMachine);
        }
        Ok(())
    }

    pub(crate) fn begin_refusal(
        &self,
        choice: u8,
        from: u8,
        new: u8,
        ticket: u32,
    ) -> Result<(), Refusal>
        ensures { refusal_of result ≡ begin_refusal self.now choice from new ticket 8 }
    {
        self.step_refusal()?;
        if !self.is_idle() {
            return Err(Refusal::WrongMoment);
        }
        begins::choice_refusal(&self.table, choice, from, new, ticket)
    }

    pub(crate) fn join_refusal(&self, choice: u8) -> Result<(), Refusal>
        ensures { refusal_of result ≡ join_refusal self.now choice 8 }
    {
        self.step_refusal()?;
        if !self.is_idle() {
            return Err(Refusal::WrongMoment);
        }
        begins::joining_refusal(&self.table, choice)
    }

    pub(crate) fn identity_refusal(&self, count: usize) -> Result<(), Refusal>
        ensures { refusal_of result ≡ identity_refusal self.now count 8 }
    {
        self.step_refusal()?;
        if !self.is_listening() {
            return Err(Refusal::WrongMoment);
        }
        if count != 8 {
            return Err(Refusal::OutOfRange);
        }
        Ok(())
    }

    pub(crate) fn give_up_refusal(&self) -> Result<(), Refusal>
        ensures { refusal_of result ≡ give_up_refusal self.now 8 }
    {
        self.step_refusal()?;
        if self.is_idle() {
            return Err(Refusal::WrongMoment);
        }
        Ok(())
    }

    // What it is refused for that is for idle, before more is asked: 28 if it breaks the rules, 10 if it is at another moment. Retiring asks
    // this first, and a bench run behind its cells.
    pub fn rest_refusal(&self) -> Result<(), Refusal>
        ensures { refusal_of result ≡ rest_refusal self.now 0 }
    {
        if !self.is_right() {
            return Err(Refusal::BrokenMachine);
        }
        if !self.is_idle() {
            return Err(Refusal::WrongMoment);
        }
        Ok(())
    }

    pub(crate) fn retire_refusal(&self, ticket: u32) -> Result<(), Refusal>
        ensures { refusal_of result ≡ retire_refusal self.now ticket }
    {
        self.rest_refusal()?;
        self.table.ticket_refusal(ticket)
    }

    pub(crate) fn ask_refusal(&self, ticket: u32) -> Result<(), Refusal>
        ensures { refusal_of result ≡ ask_refusal self.now ticket }
    {
        if !self.is_right() {
            return Err(Refusal::BrokenMachine);
        }
        self.table.ticket_refusal(ticket)
    }
}
