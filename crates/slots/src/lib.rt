// The 128 address slots, the bus facts, and the slot test.
#![tactic(auto)]

ghost use Rattle.std.specs.Prelude.{◌≡◌, cond};
ghost use Rattle.refusals.specs.Refusals.{refusal_of};
ghost use Rattle.slots.specs.Slots.{class_of, facts_of, refused_facts, checked, checked_of, is_legacy, legacy_right, facts_right, is_open, slot_test, slot_answer};
ghost use Rattle.slots.specs.Slots.{allows};

mod classes;

use classes::{CLASS, CLOSED_BY_FLAG_1, NO_ADDRESS, OPEN, OPEN_WITH_FLAG_2};
use refusals::Refusal;

// What is known of a bus: the flag byte (1: an I2C high-speed device is present; 2: 03h may be used), the set of legacy I2C addresses (address a
// is bit a % 8 of byte a / 8), and the last ticket given.
#[derive(Clone, Copy, Debug, PartialEq, Eq)]
pub struct Facts {
    pub flags: u8,
    pub legacy: [u8; 16],
    pub last: u32,
}

// The class of an address; a number above 7Fh has a class of its own.
pub fn class_of(address: u8) -> u8
    ensures { result ≡ class_of address }
{
    if address < 128 {
        CLASS[address as usize]
    } else {
        NO_ADDRESS
    }
}

// Whether an address of this class may be used with these flags.
fn allows(flags: u8, class: u8) -> bool
    ensures { result ≡ allows flags class }
{
    (class == OPEN)
        | ((class == OPEN_WITH_FLAG_2) & (flags / 2 % 2 == 1))
        | ((class == CLOSED_BY_FLAG_1) & (flags % 2 != 1))
}

// Whether an address is in a legacy set.
pub fn is_legacy(legacy: &[u8; 16], address: u8) -> bool
    ensures { result ≡ is_legacy legacy.now address }
{
    if address < 128 {
        let byte = legacy[(address / 8) as usize];
        (byte >> (address % 8)) % 2 == 1
    } else {
        false
    }
}

impl Facts {
    // Whether an address is in the legacy set.
    pub fn is_legacy(self, address: u8) -> bool
        ensures { result ≡ is_legacy self.legacy address }
    {
        is_legacy(&self.legacy, address)
    }

    // Whether the set has legacy addresses from 08h to 77h only: none below, in byte 0, and none above, in byte 15.
    fn legacy_right(self) -> bool
        ensures { result ≡ legacy_right self.legacy }
    {
        (self.legacy[0] == 0) & (self.legacy[15] == 0)
    }

    // Whether these facts keep the rules. Every 32-bit number is a right last ticket.
    pub fn are_right(self) -> bool
        ensures { result ≡ facts_right self }
    {
        (self.flags / 4 == 0) & self.legacy_right()
    }

    // Whether an address is open: its class allows it with these flags, and no legacy device has it.
    pub fn is_open(self, address: u8) -> bool
        ensures { result ≡ is_open self address }
    {
        allows(self.flags, class_of(address)) & !self.is_legacy(address)
    }
}

// The facts of a refused start: flags 0, no legacy, no ticket left.
pub fn refused_facts() -> Facts
    ensures { result ≡ refused_facts }
{
    Facts {
        flags: 0,
        legacy: [0; 16],
        last: u32::MAX,
    }
}

// Facts from numbers and a legacy set of any length, if they keep the rules. Where they don't, those of a refused start stand in their stead.
pub fn checked_facts(flags: u8, legacy: &[u8], last: u32) -> Result<Facts, Refusal>
    ensures value { checked_of result ≡ checked (facts_of flags legacy.now last) }
    ensures refusal { refusal_of result ≡ cond (facts_right (facts_of flags legacy.now last)) 0 1 }
{
    let Ok(legacy) = <[u8; 16]>::try_from(legacy) else {
        return Err(Refusal::FactsWrong);
    };
    let given = Facts {
        flags,
        legacy,
        last,
    };
    if given.are_right() {
        Ok(given)
    } else {
        Err(Refusal::FactsWrong)
    }
}

// The slot test: whether an address is open, or a refusal, first for the facts, then for the address.
pub fn slot_test(flags: u8, legacy: &[u8], last: u32, address: u8) -> Result<bool, Refusal>
    ensures { slot_answer result ≡ slot_test (facts_of flags legacy.now last) address }
{
    let facts = checked_facts(flags, legacy, last)?;
    if 127 < address {
        return Err(Refusal::OutOfRange);
    }
    Ok(facts.is_open(address))
}
