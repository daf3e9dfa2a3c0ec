// What a step of the script came to.
ghost use Rattle.std.specs.Prelude.{◌≡◌};

use crate::numbers::Numbers;
use std::fmt;

// The numbers to compare with what the script says, and what else is wrong with the step, if anything is.
#[derive(Clone, Copy, Debug, PartialEq, Eq)]
pub struct Came {
    pub numbers: Numbers,
    pub flaw: Option<Flaw>,
}

// What a step can have done wrong beside its numbers.
#[derive(Clone, Copy, Debug, PartialEq, Eq)]
pub enum Flaw {
    WroteBehind, // a lent cell behind those that were written is not blank any more
    Touched, // nor is a byte or a cell that had to stay blank
    MachineChanged, // the call was refused, and the machine is not as it was
    KeptChanged, // a run left machine or boards as it may not
    NotEchoed, // the writer does not give back the record that was read
}

impl fmt::Display for Flaw {
    fn fmt<W: fmt::Write>(&self, f: &mut fmt::Formatter<W>) -> fmt::Result {
        f.write_str(match self {
            Flaw::WroteBehind => "wrote behind its cells",
            Flaw::Touched => "touched what had to stay",
            Flaw::MachineChanged => "changed the machine",
            Flaw::KeptChanged => "changed what had to stay",
            Flaw::NotEchoed => "was not written back",
        })
    }
}

impl Came {
    // What a look came to, and what else has no flaw.
    pub fn seen(numbers: Numbers) -> Came
        ensures { result ≡ record { numbers = numbers; flaw = None } }
    {
        Came {
            numbers,
            flaw: None,
        }
    }
}
