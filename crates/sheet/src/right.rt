// A sheet that keeps its rules, and what it says: bus facts, boards and flips.
ghost use Rattle.std.specs.Prelude.{◌≡◌, true};
ghost use Rattle.sheet.specs.Sheet.{sheet_right};

use crate::contents;
use crate::contents::bytes_at;
use boards::Board;
use lent::{NO_BOARD, Report};
use machine::Machine;
use refusals::{NoRefusal, Refusal};

// The bytes of a sheet, whose contents table keeps the rules.
#[derive(Clone, Copy)]
pub struct Sheet<'a> {
    bytes: &'a [u8],
    ghost right: { sheet_right bytes.now ≡ true },
}

impl<'a> Sheet<'a> {
    ghost use Rattle.std.specs.Prelude.{cond, not, length, drop, IfOk};
    ghost use Rattle.refusals.specs.Refusals.{refusal_of};
    ghost use Rattle.machine.specs.Calls.{started};
    ghost use Rattle.lent.specs.Runs.{lent_run, lent_refusal, reported};
    ghost use Rattle.sheet.specs.Sheet.{bodies_begin, facts_in, boards_in, flips_in, in_places};
    ghost use Rattle.sheet.specs.Runs.{machine_for};

    // These bytes as a sheet. Refused 18 if they break a rule.
    pub fn read(bytes: &'a [u8]) -> Result<Sheet<'a>, Refusal>
        ensures refusal { refusal_of result ≡ cond (not (sheet_right bytes.now)) 18 0 }
        ensures same { IfOk result (λ sheet. sheet.bytes.now ≡ bytes.now) }
    {
        if !contents::is_right(bytes) {
            return Err(Refusal::SheetWrong);
        }
        Ok(Sheet { bytes })
    }

    // The bodies, that of the facts first.
    fn bodies(self) -> &'a [u8]
        ensures { result.now ≡ drop (bodies_begin self.entry.bytes.now) self.entry.bytes.now }
    {
        let count = self.bytes[0] as usize;
        &self.bytes[4 * count + 1..]
    }

    // How many boards there are: an entry each, but for that of the facts and perhaps that of the flips.
    fn count(self) -> usize
        ensures { result ≡ length (boards_in self.entry.bytes.now) }
    {
        let count = self.bytes[0] as usize;
        let last = contents::entry_at(self.bytes, count - 1);
        if last.kind == contents::FLIPS {
            count - 2
        } else {
            count - 1
        }
    }

    // The boards, in the first of 40 places: none has an address.
    fn boards(self) -> [Board; 40]
        ensures { result ≡ in_places (boards_in self.entry.bytes.now) }
    {
        let bodies = &self.bodies()[contents::FACTS_BYTES..];
        let count = self.count();
        let mut boards = [NO_BOARD; 40];
        for i in 0..count {
            boards[i] = Board {
                identity: u64::from_be_bytes(bytes_at(bodies, contents::BOARD_BYTES * i)),
                address: 0,
            };
        }
        boards
    }

    // The flips, which stand behind the boards, up to the end.
    fn flips(self) -> &'a [u8]
        ensures { result.now ≡ flips_in self.entry.bytes.now }
    {
        let count = self.count();
        &self.bodies()[contents::FACTS_BYTES + contents::BOARD_BYTES * count..]
    }

    // The machine that is started on the facts: a byte of flags, the 16 of the legacy set, the 4 of the last ticket. Refused 1 if they break a rule.
    // (Not laid into its caller, nor is `play`: a refused sheet would pay for the room of what they hand back.)
    #[inline(never)]
    pub fn start(self) -> Result<Machine, Refusal>
        ensures refusal { refusal_of result ≡ (started (facts_in self.entry.bytes.now)).refusal }
        ensures machine { IfOk result (λ machine. machine ≡ machine_for self.entry.bytes.now) }
    {
        let facts = &self.bodies()[..contents::FACTS_BYTES];
        let last = u32::from_be_bytes(bytes_at(facts, 17));
        let started = machine::start(facts[0], &facts[1..17], last);
        if started.refusal != 0 {
            return Err(Refusal::FactsWrong);
        }
        Ok(started.machine)
    }

    // One run with the boards and the flips. Refused as the bench refuses it.
    #[inline(never)]
    pub fn play(self, machine: Machine) -> Result<Report, Refusal>
        ensures refusal { refusal_of result ≡ lent_refusal machine (boards_in self.entry.bytes.now) (flips_in self.entry.bytes.now) 1024 }
        ensures report { IfOk result (λ report. report ≡ reported (lent_run machine (boards_in self.entry.bytes.now) (flips_in self.entry.bytes.now) 1024)) }
    {
        let mut cells = [0u16; 1024];
        let owned = lent::run_owned(
            machine,
            self.boards(),
            self.count(),
            self.flips(),
            &mut cells,
        );
        match Refusal::try_from(owned.report.refusal) {
            Ok(refusal) => Err(refusal),
            Err(NoRefusal) => Ok(owned.report),
        }
    }
}
