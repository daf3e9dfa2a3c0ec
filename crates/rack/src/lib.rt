// The functions that C firmware calls; include/rack.h declares them.
#![tactic(auto)]

ghost use Rattle.std.specs.Prelude.{◌≡◌, length};
ghost use Rattle.lists.specs.Buffers.{lay};
ghost use Rattle.refusals.specs.Refusals.{number};
ghost use Rattle.slots.specs.Slots.{facts_of, slot_test};
ghost use Rattle.sheet.specs.Runs.{sheet_text, sheet_ran};
ghost use Rattle.rack.specs.Packed.{packed, slot_number, sheet_number};

use refusals::Refusal;

// What C is handed of a refusal: its number times 65,536, with 0 beside it.
fn refused(refusal: Refusal) -> u32
    ensures { result ≡ packed (number refusal) 0 }
{
    (refusal.number() as u32) * 65536
}

// The slot test: its refusal times 65,536, plus 1 for an open address and 0 for any other.
#[unsafe(no_mangle)]
pub extern "C" fn rack_slot_test(flags: u8, legacy: &[u8], last: u32, address: u8) -> u32
    ensures { result ≡ slot_number (slot_test (facts_of flags legacy.now last) address) }
{
    slots::slot_test(flags, legacy, last, address).map_or_else(refused, u32::from)
}

// The sheet run: its refusal times 65,536, plus the length of the listing.
#[unsafe(no_mangle)]
pub extern "C" fn rack_sheet_run(sheet: &[u8], listing: &mut [u8]) -> u32
    ensures value { result ≡ sheet_number (sheet_ran sheet.now (length listing.old)) }
    ensures listing_after { listing.new ≡ lay (sheet_text sheet.now (length listing.old)) listing.old }
{
    match sheet::run(sheet, listing) {
        Ok(length) => length as u32,
        Err(refusal) => refused(refusal),
    }
}
