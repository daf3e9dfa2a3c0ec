// The machine's calls, as a line of the script makes them.
use crate::shapes;
use lines::came::{Came, Flaw};
use lines::cells::{BLANK_CELL, blank_from};
use lines::numbers::{Numbers, at_most, byte, place, ticket};
use lines::shapes::Shape;
use lines::stage::Stage;
use looks::by_hand;
use machine::{Machine, Stepped};

// The machine, and how many cells its calls are lent: a script says how much of fixed memory.
#[derive(Drop)]
pub struct Bus {
    machine: Machine,
    lent: usize,
}

impl Stage for Bus {
    // The machine of a refused start, and 12 cells lent.
    fn begun() -> Bus {
        Bus {
            machine: machine::start(0, &[0], 0).machine,
            lent: 12,
        }
    }

    fn shape(letter: u8) -> Option<Shape> {
        shapes::shape(letter)
    }

    fn play(&mut self, letter: u8, given: &Numbers) -> Option<Came> {
        match letter {
            b'l' => self.lent = place(given.at(0)),
            b'A'..=b'Z' => by_hand::change(&mut self.machine, letter, given),
            _ => return Some(self.step(letter, given)),
        }
        None
    }
}

impl Bus {
    // What a call or a look comes to, by its letter.
    fn step(&mut self, letter: u8, given: &Numbers) -> Came {
        let number = given.at(0);
        match letter {
            b's' => self.start(given),
            b'b' => self.begin(given),
            b'h' => self.call(|m, cells| m.answer(true, cells)),
            b'n' => self.call(|m, cells| m.answer(false, cells)),
            b'i' => self.identity(given),
            b'u' => self.call(|m, cells| m.give_up(cells)),
            b'j' => self.call(|m, cells| m.join(byte(number), cells)),
            b'r' => self.call(|m, _cells| m.retire(ticket(number))),
            b'q' => self.ask(ticket(number)),
            b'c' => self.cards(number, given.at(1)),
            b't' => Came::seen(looks::place(&self.machine, place(number))),
            b'd' => Came::seen(looks::devices(&self.machine)),
            b'm' => Came::seen(looks::moment(&self.machine)),
            _ => Came::seen(looks::facts(&self.machine)),
        }
    }

    // What a call comes to that may write cells: it is lent the first of twelve blank ones. If it is refused, it has to hand the machine back as it was.
    fn call<F: FnOnce(Machine, &mut [u16]) -> Stepped>(&mut self, call: F) -> Came
        requires { F.IsAlwaysCallable call }
    {
        let before = self.machine;
        let mut cells = [BLANK_CELL; 12];
        let done = call(before, &mut cells[..at_most(self.lent, 12)]);
        self.machine = done.machine;
        Came {
            numbers: Numbers::one(done.refusal.into()).with_all(&cells[..at_most(done.count, 12)]),
            flaw: flaw_of(&before, &done, &cells),
        }
    }

    // `start FLAGS LAST LEGACY..`. A refused one hands back a machine of its own, so that it is compared with none.
    fn start(&mut self, given: &Numbers) -> Came {
        let legacy = given.bytes_from(2);
        let done = machine::start(byte(given.at(0)), legacy.as_slice(), ticket(given.at(1)));
        self.machine = done.machine;
        Came::seen(Numbers::one(done.refusal.into()))
    }

    // `begin CHOICE STATIC NEW TICKET`.
    fn begin(&mut self, given: &Numbers) -> Came {
        let choice = byte(given.at(0));
        let from = byte(given.at(1));
        let new = byte(given.at(2));
        let ticket = ticket(given.at(3));
        self.call(|m, cells| m.begin(choice, from, new, ticket, cells))
    }

    // `identity BYTES..`.
    fn identity(&mut self, given: &Numbers) -> Came {
        let bytes = given.bytes_from(0);
        self.call(|m, cells| m.identity(bytes.as_slice(), cells))
    }

    // `query TICKET`.
    fn ask(&mut self, ticket: u32) -> Came {
        Came::seen(match self.machine.ask(ticket) {
            Ok(address) => Numbers::one(0).with(address.into()),
            Err(refusal) => Numbers::one(refusal.number().into()).with(0),
        })
    }

    // `cards FIRST LAST`. It comes to the last refusal of any call, 0 if there was none. (A number, as
    // `Stepped` has it.)
    fn cards(&mut self, first: u64, last: u64) -> Came {
        let mut refusal = 0;
        for identity in first..=last {
            let done = card(self.machine, identity);
            self.machine = done.machine;
            if done.refusal != 0 {
                refusal = done.refusal;
            }
        }
        Came::seen(Numbers::one(refusal.into()))
    }
}

// What is wrong with a call that was given this machine, and blank cells, which are now these.
fn flaw_of(before: &Machine, done: &Stepped, cells: &[u16]) -> Option<Flaw> {
    if !blank_from(cells, done.count, &BLANK_CELL) {
        Some(Flaw::WroteBehind)
    } else if done.refusal != 0 && done.machine != *before {
        Some(Flaw::MachineChanged)
    } else {
        None
    }
}

// One board at round: it is heard, its identity comes, and it accepts the offer. The first call that is refused ends it.
fn card(m: Machine, identity: u64) -> Stepped {
    let mut cells = [BLANK_CELL; 12];
    let heard = m.answer(true, &mut cells);
    if heard.refusal != 0 {
        return heard;
    }
    let listened = heard.machine.identity(&identity.to_be_bytes(), &mut cells);
    if listened.refusal != 0 {
        return listened;
    }
    listened.machine.answer(true, &mut cells)
}
