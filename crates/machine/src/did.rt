// What a call comes to: a step that writes its cells, or a refusal.
ghost use Rattle.std.specs.Prelude.{◌≡◌, ◌≤◌, length};
ghost use Rattle.refusals.specs.Refusals.{number};
ghost use Rattle.machine.specs.Steps.{did, refuse};
ghost use Rattle.machine.specs.Calls.{stepped, ComesTo};

use crate::{Machine, Stepped};
use refusals::Refusal;

impl Stepped {
    // A step: the machine after it, and its cells at the front of the eight lent.
    pub(crate) fn did(machine: Machine, out: &[u16], cells: &mut [u16; 8]) -> Stepped
        requires { length out.now ≤ 8 }
        ensures { ComesTo (did machine out.now) cells.old result cells.new }
    {
        cells[..out.len()].copy_from_slice(out);
        Stepped {
            machine,
            count: out.len(),
            refusal: 0,
        }
    }

    // A refusal: the machine as it was given, and no cells.
    pub(crate) fn refused(machine: Machine, refusal: Refusal) -> Stepped
        ensures { result ≡ stepped (refuse machine (number refusal)) }
    {
        Stepped {
            machine,
            count: 0,
            refusal: refusal.number(),
        }
    }
}
