// What Begin and Join ask of the table, by choice, and what may be remembered of it.
#![tactic(auto)]

ghost use Rattle.std.specs.Prelude.{◌≡◌};
ghost use Rattle.refusals.specs.Refusals.{refusal_of};
ghost use Rattle.begins.specs.Begins.{static_held, assign_refusal, set_out_of_range, set_not_open, set_held, set_refusal, move_refusal, choice_refusal, joining_refusal, can_set, can_move, asked_right};

use refusals::Refusal;
use rows::Row;
use slots::Facts;
use table::Table;

// Begin's choices. (Kept as numbers, as those of Join: a call and a machine can be handed in with any, which is refused 12 and 28.)
pub const ASSIGN: u8 = 0;

pub const RESET_ALL: u8 = 1;

pub const SET_FROM_STATIC: u8 = 2;

pub const MOVE: u8 = 3;

pub const SILENCE: u8 = 4;

pub const ALLOW: u8 = 5;

// Join's choices: turn the board away; answer it, then silence joining; answer it, then assign.
pub const JOIN_REFUSED: u8 = 0;

pub const JOIN_SILENCED: u8 = 1;

pub const JOIN_ASSIGNED: u8 = 2;

// ---- refusals

// Whether a row holds the address as its static or its dynamic address.
fn static_held(rows: &[Row; 32], address: u8) -> bool
    ensures { result ≡ static_held rows.now address }
{
    rows::holds_static(rows, address) | rows::holds_address(rows, address)
}

fn assign_refusal(t: &Table) -> Result<(), Refusal>
    ensures { refusal_of result ≡ assign_refusal t.now.facts t.now.rows }
{
    if free::full(&t.rows) {
        return Err(Refusal::Full);
    }
    if free::no_free_address(t) {
        return Err(Refusal::NoFreeAddress);
    }
    if free::no_ticket_left(t) {
        return Err(Refusal::NoTicketLeft);
    }
    Ok(())
}

fn set_out_of_range(from: u8, new: u8) -> bool
    ensures { result ≡ set_out_of_range from new }
{
    (127 < new) | !((0x08 <= from) & (from <= 0x77))
}

fn set_not_open(f: Facts, from: u8, new: u8) -> bool
    ensures { result ≡ set_not_open f from new }
{
    !f.is_open(new) | f.is_legacy(from)
}

fn set_held(rows: &[Row; 32], from: u8, new: u8) -> bool
    ensures { result ≡ set_held rows.now from new }
{
    rows::holds_address(rows, new) | static_held(rows, from)
}

fn set_refusal(t: &Table, from: u8, new: u8) -> Result<(), Refusal>
    ensures { refusal_of result ≡ set_refusal t.now.facts t.now.rows from new }
{
    if set_out_of_range(from, new) {
        return Err(Refusal::OutOfRange);
    }
    if set_not_open(t.facts, from, new) {
        return Err(Refusal::NotOpen);
    }
    if set_held(&t.rows, from, new) {
        return Err(Refusal::Held);
    }
    if free::full(&t.rows) {
        return Err(Refusal::Full);
    }
    if free::no_ticket_left(t) {
        return Err(Refusal::NoTicketLeft);
    }
    Ok(())
}

fn move_refusal(t: &Table, ticket: u32, new: u8) -> Result<(), Refusal>
    ensures { refusal_of result ≡ move_refusal t.now.facts t.now.rows ticket new }
{
    if 127 < new {
        return Err(Refusal::OutOfRange);
    }
    t.ticket_refusal(ticket)?;
    if !t.facts.is_open(new) {
        return Err(Refusal::NotOpen);
    }
    if rows::holds_address(&t.rows, new) {
        return Err(Refusal::Held);
    }
    Ok(())
}

// Begin at idle, by choice.
pub fn choice_refusal(t: &Table, choice: u8, from: u8, new: u8, ticket: u32) -> Result<(), Refusal>
    ensures { refusal_of result ≡ choice_refusal t.now.facts t.now.rows choice from new ticket }
{
    if ALLOW < choice {
        return Err(Refusal::UnknownChoice);
    }
    match choice {
        ASSIGN => assign_refusal(t),
        SET_FROM_STATIC => set_refusal(t, from, new),
        MOVE => move_refusal(t, ticket, new),
        _ => Ok(()),
    }
}

// Join at idle, by choice.
pub fn joining_refusal(t: &Table, choice: u8) -> Result<(), Refusal>
    ensures { refusal_of result ≡ joining_refusal t.now.facts t.now.rows choice }
{
    if JOIN_ASSIGNED < choice {
        return Err(Refusal::UnknownChoice);
    }
    if choice == JOIN_ASSIGNED {
        assign_refusal(t)
    } else {
        Ok(())
    }
}

// ---- what may be remembered

// Whether a set from this static address to this new one can be made.
fn can_set(t: &Table, from: u8, new: u8) -> bool
    ensures { result ≡ can_set t.now.facts t.now.rows from new }
{
    table::static_allowed(t.facts, from)
        & !static_held(&t.rows, from)
        & free::is_free(t, new)
        & !free::full(&t.rows)
        & !free::no_ticket_left(t)
}

// Whether a move from this present address to this new one can be made.
fn can_move(t: &Table, present: u8, new: u8) -> bool
    ensures { result ≡ can_move t.now.facts t.now.rows present new }
{
    rows::holds_address(&t.rows, present) & free::is_free(t, new)
}

// Whether a choice, the address that it asks and the new one that it wants are those of a Begin or Join that these rows allow.
pub fn asked_right(t: &Table, choice: u8, asked: u8, wanted: u8) -> bool
    ensures { result ≡ asked_right t.now.facts t.now.rows choice asked wanted }
{
    match choice {
        ASSIGN => (asked == 0) & (wanted == 0) & free::can_assign(t),
        SET_FROM_STATIC => can_set(t, asked, wanted),
        MOVE => can_move(t, asked, wanted),
        _ => (asked == 0) & (wanted == 0) & (choice <= ALLOW),
    }
}
