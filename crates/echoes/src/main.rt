// Hands the records of a script to the reader, and what was read back to the writer, and prints a line for each of the script's groups: how many
// of how many steps came to what the script says. A step that did not stands above its group's line, with its line number and what it came to.
//
// The script comes from standard input; its head says what a line can be.
#![tactic(auto)]

mod desk;
mod reads;
mod shapes;
mod writes;

use desk::Desk;
use std::io;

fn main(rt: HostRuntime) -> io::Result<()> {
    lines::stage::play::<Desk>(&mut rt.reader(), &mut io::writer(&rt))
}
