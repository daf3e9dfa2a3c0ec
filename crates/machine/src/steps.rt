// What the machine does at each moment. Each step is lent 8 cells, and writes its own at the front.
ghost use Rattle.std.specs.Prelude.{◌≡◌, ◌≤◌, cond, ◌<◌, eqb, length};
ghost use Rattle.rows.specs.Rows.{place_of_address, place_of_ticket};
ghost use Rattle.changes.specs.Changes.{moved, without};
ghost use Rattle.table.specs.Tickets.{ticketed};
ghost use Rattle.machine.specs.Calls.{ComesTo};
ghost use Rattle.machine.specs.Steps.{address_of, address_asked, address_wanted, beginning, joining, onward_machine, onward_cell, on_to_direct, about_joining, opened_answer, round_answer, accepted_rows, offered_answer, direct_answer};
ghost use Rattle.machine.specs.Steps.{commanded, listened, accepted, declined, directed};

use crate::moments::goes_direct;
use crate::{Machine, Stepped, identities};
use begins::{ASSIGN, JOIN_REFUSED, JOIN_SILENCED, MOVE, RESET_ALL, SET_FROM_STATIC, SILENCE};
use rows::Row;
use slots::Facts;
use table::Table;

// ---- Begin and Join

// The address that a choice asks: the static address for a set, the present one of the ticket's row for a move, 0 for the others.
fn address_asked(rows: &[Row; 32], choice: u8, from: u8, ticket: u32) -> u8
    ensures { result ≡ address_asked rows.now choice from ticket }
{
    match choice {
        SET_FROM_STATIC => from,
        MOVE => address_of(rows, ticket),
        _ => 0,
    }
}

// The present address of a ticket's row, 0 if it has none: the number that a machine remembers.
pub fn address_of(rows: &[Row; 32], ticket: u32) -> u8
    ensures { result ≡ address_of rows.now ticket }
{
    match rows::row_of_ticket(rows, ticket) {
        Some(row) => row.address,
        None => 0,
    }
}

// The new address that a choice wants, 0 for those that want none.
fn address_wanted(choice: u8, new: u8) -> u8
    ensures { result ≡ address_wanted choice new }
{
    if goes_direct(choice) { new } else { 0 }
}

// What an answered joining is opened for: silence or assign.
fn joined_for(choice: u8) -> u8
    ensures { result ≡ cond (eqb choice 1) 4 0 }
{
    if choice == JOIN_SILENCED {
        SILENCE
    } else {
        ASSIGN
    }
}

// ---- the round rule

// The machine after a cell that ends a step: at the next round, or idle.
fn onward_machine(on: bool, table: Table, refusals: u8) -> Machine
    ensures { result ≡ onward_machine on table.facts table.rows refusals }
{
    if on {
        Machine::round(table, refusals)
    } else {
        Machine::idle(table)
    }
}

// That cell: REPEATED_START before a round, STOP before idle.
fn onward_cell(on: bool) -> u16
    ensures { result ≡ onward_cell on }
{
    if on {
        parity::REPEATED_START
    } else {
        parity::STOP
    }
}

// ---- offered

// The rows after an accepted offer: the identity's own row renewed, or a new row.
fn accepted_rows(rows: &[Row; 32], identity: u64, address: u8, ticket: u32) -> [Row; 32]
    ensures { result ≡ accepted_rows rows.now identity address ticket }
{
    match rows::place_of_identity(rows, identity) {
        Some(place) => changes::renewed(rows, place, ticket),
        None => {
            let new = Row {
                address,
                ticket,
                unknown: false,
                identity,
                from_static: 0,
            };
            changes::with_row(rows, new)
        }
    }
}

// The rows after a move of the one with this address.
fn moved(rows: &[Row; 32], asked: u8, wanted: u8) -> [Row; 32]
    ensures { result ≡ moved (place_of_address asked rows.now) wanted rows.now }
{
    match rows::place_of_address(rows, asked) {
        Some(place) => changes::moved(rows, place, wanted),
        None => *rows,
    }
}

// The rows without that of a ticket.
pub fn without(rows: &[Row; 32], ticket: u32) -> [Row; 32]
    ensures { result ≡ without (place_of_ticket ticket rows.now) rows.now }
{
    match rows::place_of_ticket(rows, ticket) {
        Some(place) => changes::without(rows, place),
        None => *rows,
    }
}

// The facts after a new ticket. Kept: that one is left is asked here and of the three calls behind it, since `answer` knows it of a machine that keeps
// the rules at its moment; a type of tables with a ticket left would stand beside `Table` for these alone, no plainer.
fn ticketed(f: Facts) -> Facts
    requires { f.last < 4294967295 }
    ensures { result ≡ ticketed f }
{
    Facts {
        last: f.last + 1,
        ..f
    }
}

impl Machine {
    // ---- Begin and Join

    // START; opened.
    pub(crate) fn beginning(
        &self,
        choice: u8,
        from: u8,
        new: u8,
        ticket: u32,
        cells: &mut [u16; 8],
    ) -> Stepped
        ensures { ComesTo (beginning self.now choice from new ticket) cells.old result cells.new }
    {
        let asked = address_asked(&self.table.rows, choice, from, ticket);
        let next = Machine::opened(self.table, choice, asked, address_wanted(choice, new));
        Stepped::did(next, &[parity::START], cells)
    }

    // A board asks to join:
    //     choice 0: 512 9 514   turned away
    //     choice 1: 512 8 513   opened for silence
    //     choice 2: 512 8 513   opened for assign
    pub(crate) fn joining(&self, choice: u8, cells: &mut [u16; 8]) -> Stepped
        ensures { ComesTo (joining self.now choice) cells.old result cells.new }
    {
        if choice == JOIN_REFUSED {
            let out = [parity::START, parity::HOT_JOIN_REFUSED, parity::STOP];
            Stepped::did(Machine::idle(self.table), &out, cells)
        } else {
            let out = [
                parity::START,
                parity::HOT_JOIN_ANSWERED,
                parity::REPEATED_START,
            ];
            let next = Machine::opened(self.table, joined_for(choice), 0, 0);
            Stepped::did(next, &out, cells)
        }
    }

    // ---- opened

    // A set's or a move's command, and on to direct: 504, the command, 513.
    fn on_to_direct(&self, command: u16, cells: &mut [u16; 8]) -> Stepped
        ensures { ComesTo (on_to_direct self.now command) cells.old result cells.new }
    {
        let next = Machine::direct(self.table, self.choice, self.asked, self.wanted);
        let out = [
            parity::BROADCAST_WRITE_ANSWERED,
            command,
            parity::REPEATED_START,
        ];
        Stepped::did(next, &out, cells)
    }

    // A command about joining, and back to idle: 504, the command, 16, 514.
    fn about_joining(&self, command: u16, cells: &mut [u16; 8]) -> Stepped
        ensures { ComesTo (about_joining self.now command) cells.old result cells.new }
    {
        let out = [
            parity::BROADCAST_WRITE_ANSWERED,
            command,
            parity::JOINING,
            parity::STOP,
        ];
        Stepped::did(Machine::idle(self.table), &out, cells)
    }

    // After 7Eh/W has been answered, by command:
    //     0 assign            504 14 513      round (or 514, idle, by the round rule)
    //     1 reset all         504 13 514      idle without rows
    //     2 set from static   504 271 513     direct
    //     3 move              504 273 513     direct
    //     4 silence           504 2 16 514    idle
    //     5 allow             504 1 16 514    idle
    fn commanded(&self, cells: &mut [u16; 8]) -> Stepped
        ensures { ComesTo (commanded self.now) cells.old result cells.new }
    {
        match self.choice {
            ASSIGN => {
                let on = free::can_assign(&self.table);
                let out = [
                    parity::BROADCAST_WRITE_ANSWERED,
                    parity::ASSIGN,
                    onward_cell(on),
                ];
                Stepped::did(onward_machine(on, self.table, 0), &out, cells)
            }
            RESET_ALL => {
                let empty = Table {
                    rows: changes::emptied(&self.table.rows),
                    ..self.table
                };
                let out = [
                    parity::BROADCAST_WRITE_ANSWERED,
                    parity::RESET_ALL,
                    parity::STOP,
                ];
                Stepped::did(Machine::idle(empty), &out, cells)
            }
            SET_FROM_STATIC => self.on_to_direct(parity::SET_FROM_STATIC, cells),
            MOVE => self.on_to_direct(parity::MOVE, cells),
            SILENCE => self.about_joining(parity::SILENCE, cells),
            _ => self.about_joining(parity::ALLOW, cells),
        }
    }

    // 7Eh/W answered: by command. No answer: 505 514, idle, nothing changed.
    pub(crate) fn opened_answer(&self, heard: bool, cells: &mut [u16; 8]) -> Stepped
        ensures { ComesTo (opened_answer self.now heard) cells.old result cells.new }
    {
        if heard {
            self.commanded(cells)
        } else {
            let out = [parity::BROADCAST_WRITE_SILENT, parity::STOP];
            Stepped::did(Machine::idle(self.table), &out, cells)
        }
    }

    // ---- round

    // 7Eh/R answered: 506, listening. No answer: 507 514, idle.
    pub(crate) fn round_answer(&self, heard: bool, cells: &mut [u16; 8]) -> Stepped
        ensures { ComesTo (round_answer self.now heard) cells.old result cells.new }
    {
        if heard {
            let next = Machine::listening(self.table, self.refusals);
            Stepped::did(next, &[parity::BROADCAST_READ_ANSWERED], cells)
        } else {
            let out = [parity::BROADCAST_READ_SILENT, parity::STOP];
            Stepped::did(Machine::idle(self.table), &out, cells)
        }
    }

    // ---- listening

    // Eight identity bytes: their cells; then the address for that identity is offered.
    pub(crate) fn listened(&self, bytes: [u8; 8], cells: &mut [u16; 8]) -> Stepped
        ensures { ComesTo (listened self.now bytes) cells.old result cells.new }
    {
        let identity = identities::number(bytes);
        let address = free::address_for(&self.table, identity);
        let next = Machine::offering(self.table, identity, address, self.refusals);
        Stepped::did(next, &identities::cells(bytes), cells)
    }

    // ---- offered

    // The offer is accepted: the address cell, the row, then the round rule.
    fn accepted(&self, cells: &mut [u16; 8]) -> Stepped
        requires { self.now.table.facts.last < 4294967295 }
        ensures { ComesTo (accepted self.now) cells.old result cells.new }
    {
        let facts = ticketed(self.table.facts);
        let rows = accepted_rows(&self.table.rows, self.identity, self.offered, facts.last);
        let table = Table { facts, rows };
        let on = free::can_assign(&table);
        let cell = parity::answer_cell(parity::offered_byte(self.offered), true);
        Stepped::did(
            onward_machine(on, table, 0),
            &[cell, onward_cell(on)],
            cells,
        )
    }

    // The offer is refused: the address cell; on to a round, but after two in succession to idle.
    fn declined(&self, cells: &mut [u16; 8]) -> Stepped
        ensures { ComesTo (declined self.now) cells.old result cells.new }
    {
        let on = self.refusals == 0;
        let cell = parity::answer_cell(parity::offered_byte(self.offered), false);
        Stepped::did(
            onward_machine(on, self.table, 1),
            &[cell, onward_cell(on)],
            cells,
        )
    }

    pub(crate) fn offered_answer(&self, heard: bool, cells: &mut [u16; 8]) -> Stepped
        requires { self.now.table.facts.last < 4294967295 }
        ensures { ComesTo (offered_answer self.now heard) cells.old result cells.new }
    {
        if heard {
            self.accepted(cells)
        } else {
            self.declined(cells)
        }
    }

    // ---- direct

    // The machine after an answered set or move.
    fn directed(&self) -> Machine
        requires { self.now.choice ≡ 2 → self.now.table.facts.last < 4294967295 }
        ensures { result ≡ directed self.now }
    {
        if self.choice == SET_FROM_STATIC {
            let facts = ticketed(self.table.facts);
            let new = Row {
                address: self.wanted,
                ticket: facts.last,
                unknown: true,
                identity: 0,
                from_static: self.asked,
            };
            let rows = changes::with_row(&self.table.rows, new);
            Machine::idle(Table { facts, rows })
        } else {
            let rows = moved(&self.table.rows, self.asked, self.wanted);
            Machine::idle(Table { rows, ..self.table })
        }
    }

    // The header answered: its cell, the new address as data, 514. No answer: the header's cell, 514, nothing changed.
    pub(crate) fn direct_answer(&self, heard: bool, cells: &mut [u16; 8]) -> Stepped
        requires { self.now.choice ≡ 2 → self.now.table.facts.last < 4294967295 }
        ensures { ComesTo (direct_answer self.now heard) cells.old result cells.new }
    {
        let header = parity::answer_cell(parity::write_byte(self.asked), heard);
        if heard {
            let data = parity::data_cell(parity::write_byte(self.wanted));
            Stepped::did(self.directed(), &[header, data, parity::STOP], cells)
        } else {
            Stepped::did(Machine::idle(self.table), &[header, parity::STOP], cells)
        }
    }
}
