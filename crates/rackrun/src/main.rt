// Reads a sheet from standard input and prints the listing of its run, or the line `refused N`.
#![tactic(auto)]

ghost use Rattle.std.specs.Prelude.{◌≡◌, length, take, OnOk, IfSome};
ghost use Rattle.std.specs.Io.KnownBytes.{Appends, Consumes};
ghost use Rattle.lists.specs.Buffers.{lay};
ghost use Rattle.rackrun.specs.Answers.{answer};

use std::io;
use std::io::{Read, Write};

// One byte more than a sheet has at most: with that many it is refused, and the rest is not waited for.
const ENOUGH: usize = 513;

// What is printed for a sheet.
fn answered(sheet: &[u8], out: &mut [u8]) -> usize
    requires { length out.old ≡ 1100 }
    ensures value { result ≡ length (answer sheet.now) }
    ensures out_after { out.new ≡ lay (answer sheet.now) out.old }
{
    match sheet::run(sheet, out) {
        Ok(length) => length,
        Err(refusal) => listing::write_refusal(refusal.number(), out),
    }
}

// Reads a sheet, and writes what is printed for it and nothing else. Of the input its first 513 bytes are read, and no more.
fn run<R: Read, W: Write>(input: &mut R, out: &mut W) -> io::Result<()>
    ensures writes { OnOk result (IfSome (R.remaining input.old) (λ sheet. Appends (W.contents out.old) (W.contents out.new) (answer sheet))) }
    ensures reads { OnOk result (IfSome (R.remaining input.old) (λ sheet. Consumes (R.remaining input.old) (R.remaining input.new) (take 513 sheet))) }
{
    let mut sheet = [0u8; ENOUGH];
    let mut text = [0u8; listing::MOST_BYTES];
    let n = fills::read_full(input, &mut sheet)?;
    let k = answered(&sheet[..n], &mut text);
    out.write_all(&text[..k])
}

fn main(rt: HostRuntime) -> io::Result<()> {
    run(&mut rt.reader(), &mut io::writer(&rt))
}
