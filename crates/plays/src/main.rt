// Plays a script of calls through the machine, and prints a line for each of its groups: how many of how many steps came to what the script
// says. A step that did not stands above its group's line, with its line number and what it came to.
//
// The script comes from standard input; its head says what a line can be.
#![tactic(auto)]

mod calls;
mod shapes;

use calls::Bus;
use std::io;

fn main(rt: HostRuntime) -> io::Result<()> {
    lines::stage::play::<Bus>(&mut rt.reader(), &mut io::writer(&rt))
}
