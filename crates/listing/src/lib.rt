// The listing of a run, as text: a header line, a line for each row, and how the run ended.
//
//     addr ticket identity
//     08 1 0200000000000641
//     09 2 0200000010000641
//     end 0 rounds 3 clocks 273
#![tactic(auto)]

ghost use Rattle.std.specs.Prelude.{◌≡◌, cond, [], length};
ghost use Rattle.lists.specs.Buffers.{lay};
ghost use Rattle.rows.specs.Rows.{in_use};
ghost use Rattle.listing.specs.Listing.{header, row_line, row_lines, end_line, listing, refusal_line, lent};
ghost use Rattle.listing.specs.Puts.{Fits, Puts};

mod text;

use rows::Row;
use text::Text;

// The bytes that must be lent: no listing is longer.
pub const MOST_BYTES: usize = 1100;

// The line that every listing opens with.
fn put_header(text: &mut Text)
    requires { Fits text.old header }
    ensures { Puts text.old text.new header }
{
    text.put(b"addr ticket identity\n");
}

// The line of a row.
#[tactic(auto, using(crate::proofs::Lines::row_long, crate::proofs::Lines::row_digits, crate::proofs::Digits::hex_long))]
fn put_row(row: &Row, text: &mut Text)
    requires { Fits text.old (row_line row.now) }
    ensures { Puts text.old text.new (row_line row.now) }
{
    text.put_hex(row.address as u64, 2);
    text.put(b" ");
    text.put_decimal(row.ticket as u64);
    text.put(b" ");
    text.put_hex(row.identity, 16);
    text.put(b"\n");
}

// The line of a place: none if it is unused.
fn put_place(row: &Row, text: &mut Text)
    requires { Fits text.old (cond (in_use row.now) (row_line row.now) []) }
    ensures { Puts text.old text.new (cond (in_use row.now) (row_line row.now) []) }
{
    if row.in_use() {
        put_row(row, text);
    }
}

// The lines of the rows, in the order in which they stand.
fn put_rows(rows: &[Row; 32], text: &mut Text)
    requires { Fits text.old (row_lines rows.now) }
    ensures { Puts text.old text.new (row_lines rows.now) }
{
    for row in rows {
        put_place(row, text);
    }
}

// The last line: how the run ended, its answered rounds and its clocks.
#[tactic(auto, using(crate::proofs::Lines::end_long))]
fn put_end(ending: u8, rounds: usize, clocks: usize, text: &mut Text)
    requires { Fits text.old (end_line ending rounds clocks) }
    ensures { Puts text.old text.new (end_line ending rounds clocks) }
{
    text.put(b"end ");
    text.put_decimal(ending as u64);
    text.put(b" rounds ");
    text.put_decimal(rounds as u64);
    text.put(b" clocks ");
    text.put_decimal(clocks as u64);
    text.put(b"\n");
}

// The listing of these rows and of a run that ended so, from the first place of the lent bytes on; says its length. Lent fewer than 1,100 bytes, it
// writes nothing and says 0.
#[tactic(auto, using(crate::proofs::Lines::header_long, crate::proofs::Lines::rows_short, crate::proofs::Lines::end_short))]
pub fn write(rows: &[Row; 32], ending: u8, rounds: usize, clocks: usize, out: &mut [u8]) -> usize
    ensures value { result ≡ length (lent (length out.old) (listing rows.now ending rounds clocks)) }
    ensures out_after { out.new ≡ lay (lent (length out.old) (listing rows.now ending rounds clocks)) out.old }
{
    if out.len() < MOST_BYTES {
        return 0;
    }
    let mut text = Text::new(out);
    put_header(&mut text);
    put_rows(rows, &mut text);
    put_end(ending, rounds, clocks, &mut text);
    text.at
}

// The line `refused N`, which stands in the place of a listing; lent as a listing is. (N is a number and no `Refusal`: the line is promised for any of them.)
#[tactic(auto, using(crate::proofs::Digits::decimal_short))]
pub fn write_refusal(refusal: u8, out: &mut [u8]) -> usize
    ensures value { result ≡ length (lent (length out.old) (refusal_line refusal)) }
    ensures out_after { out.new ≡ lay (lent (length out.old) (refusal_line refusal)) out.old }
{
    if out.len() < MOST_BYTES {
        return 0;
    }
    let mut text = Text::new(out);
    text.put(b"refused ");
    text.put_decimal(refusal as u64);
    text.put(b"\n");
    text.at
}
