// What a record says: a reading, which the reader gives and the writer takes.
//
// Beside it stand ten bytes for each offer, in a buffer that is lent: the identity, highest byte first, the address byte as it was on the bus, and
// 0 for accepted or 1 for refused.
#![tactic(auto)]

ghost use Rattle.std.specs.Prelude.{◌≡◌};
ghost use Rattle.readings.specs.Readings.{joining_number, command_number, JoiningOf, CommandOf, may_follow};
ghost use Rattle.readings.specs.Readings.{bare, directed, assigned};

// The longest record.
pub const MOST_CELLS: usize = 1024;

// Whether a board asked to join, and what it was told. None is a case like the others: the paper numbers all three, and a record has a layout for each.
#[derive(Clone, Copy, Debug, PartialEq, Eq)]
pub enum Joining {
    None,
    Refused,
    Answered,
}

// The command, or none: nobody answered 7Eh, or a joining was refused. None is a case like the others: the paper numbers all seven, and a record has a
// layout for each.
#[derive(Clone, Copy, Debug, PartialEq, Eq)]
pub enum Command {
    None,
    Assign,
    ResetAll,
    SetFromStatic,
    Move,
    Silence,
    Allow,
}

// A number that stands for no joining, or for no command.
#[derive(Clone, Copy, Debug, PartialEq, Eq)]
pub struct NumberUnknown(pub u8);

// What a command doesn't use is 0 (false). (Kept as numbers and marks: document 01 gives a reading these fields, a hand-made one may have any of them,
// and the layouts and their theorems go by them.)
#[derive(Clone, Copy, Debug, PartialEq, Eq)]
pub struct Reading {
    pub joining: Joining,
    pub command: Command,
    pub header: u8, // the address of a set's or a move's header: static for a set, present for a move
    pub new: u8, // the new address behind a header that answered
    pub direct: bool, // whether the direct header answered
    pub last: bool, // whether the last round header answered
    pub offers: usize, // how many offers
}

impl Joining {
    // The number: 0 none, 1 refused, 2 answered.
    pub fn number(self) -> u8
        ensures { result ≡ joining_number self }
    {
        match self {
            Joining::None => 0,
            Joining::Refused => 1,
            Joining::Answered => 2,
        }
    }
}

impl Command {
    // The number: 0 none, else the choice of Begin plus 1.
    pub fn number(self) -> u8
        ensures { result ≡ command_number self }
    {
        match self {
            Command::None => 0,
            Command::Assign => 1,
            Command::ResetAll => 2,
            Command::SetFromStatic => 3,
            Command::Move => 4,
            Command::Silence => 5,
            Command::Allow => 6,
        }
    }
}

impl TryFrom<u8> for Joining {
    type Error = NumberUnknown;

    ghost try_from_gives = { JoiningOf };

    fn try_from(number: u8) -> Result<Self, NumberUnknown> {
        match number {
            0 => Ok(Joining::None),
            1 => Ok(Joining::Refused),
            2 => Ok(Joining::Answered),
            _ => Err(NumberUnknown(number)),
        }
    }
}

impl TryFrom<u8> for Command {
    type Error = NumberUnknown;

    ghost try_from_gives = { CommandOf };

    fn try_from(number: u8) -> Result<Self, NumberUnknown> {
        match number {
            0 => Ok(Command::None),
            1 => Ok(Command::Assign),
            2 => Ok(Command::ResetAll),
            3 => Ok(Command::SetFromStatic),
            4 => Ok(Command::Move),
            5 => Ok(Command::Silence),
            6 => Ok(Command::Allow),
            _ => Err(NumberUnknown(number)),
        }
    }
}

// Whether a command may follow a joining: any behind none, none behind a refused one; none, assign or silence behind an answered one.
pub fn may_follow(joining: Joining, command: Command) -> bool
    ensures { result ≡ may_follow joining command }
{
    match joining {
        Joining::None => true,
        Joining::Refused => command == Command::None,
        Joining::Answered => matches!(command, Command::None | Command::Assign | Command::Silence),
    }
}

// A reading of joining and command alone.
pub fn bare(joining: Joining, command: Command) -> Reading
    ensures { result ≡ bare joining command }
{
    Reading {
        joining,
        command,
        header: 0,
        new: 0,
        direct: false,
        last: false,
        offers: 0,
    }
}

// A set or a move: the address of its header, the new address, and whether the header answered.
pub fn directed(command: Command, header: u8, new: u8, answered: bool) -> Reading
    ensures { result ≡ directed command header new answered }
{
    Reading {
        header,
        new,
        direct: answered,
        ..bare(Joining::None, command)
    }
}

// An assign: how many offers, and whether the last round header answered.
pub fn assigned(joining: Joining, offers: usize, last: bool) -> Reading
    ensures { result ≡ assigned joining offers last }
{
    Reading {
        last,
        offers,
        ..bare(joining, Command::Assign)
    }
}
