// The sheet run: a sheet says bus facts, boards and flips; a machine is started on these facts, one run is played, and its listing is written.
#![tactic(auto)]

ghost use Rattle.std.specs.Prelude.{◌≡◌, length};
ghost use Rattle.lists.specs.Buffers.{lay};
ghost use Rattle.sheet.specs.Runs.{sheet_answer, sheet_ran, sheet_text};

mod contents;
mod right;

use refusals::Refusal;
use right::Sheet;

// A sheet run: the listing is written from the first of at least 1,100 lent bytes on, and its length said. What lies behind it stays; a refused run writes
// nothing. Refused 11 if fewer bytes are lent; 18 if the sheet is over 512 bytes or breaks a rule of kind, count, offset, length or order; 1 for its facts;
// then as the bench refuses it: 16, 17, 6, 7.
pub fn run(sheet: &[u8], out: &mut [u8]) -> Result<usize, Refusal>
    ensures value { sheet_answer result ≡ sheet_ran sheet.now (length out.old) }
    ensures out_after { out.new ≡ lay (sheet_text sheet.now (length out.old)) out.old }
{
    if out.len() < listing::MOST_BYTES {
        return Err(Refusal::TooFewLent);
    }
    let right = Sheet::read(sheet)?;
    let machine = right.start()?;
    let ran = right.play(machine)?;
    Ok(listing::write(
        &ran.machine.table.rows,
        ran.ending,
        ran.rounds,
        ran.clocks,
        out,
    ))
}
