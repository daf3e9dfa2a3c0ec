// Plays a script of calls, and prints a line for each: what it was refused for, what it wrote and what it left.
//
// The script comes from standard input. A call is a letter and its bytes; numbers of more than one byte stand high byte first. A letter that is none,
// and a call that does not end, are told with their place, and end the script: `bad script at PLACE`.
#![tactic(auto)]

mod calls;
mod given;
mod script;

use std::io;

// One byte more than is played of a script, so that what is longer can be told from what is not.
const ROOM: usize = script::MOST_BYTES + 1;

fn main(rt: HostRuntime) -> io::Result<()> {
    let mut bytes = [0; ROOM];
    let n = fills::read_full(&mut rt.reader(), &mut bytes)?;
    script::play(&mut io::writer(&rt), &bytes[..n])
}
