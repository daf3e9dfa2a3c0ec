// Plays a script of bench runs, and prints a line for each of its groups: how many of how many steps came to what the script says. A step that did
// not stands above its group's line, with its line number and what it came to.
//
// The script comes from standard input; its head says what a line can be.
#![tactic(auto)]

mod played;
mod seen;
mod setup;
mod shapes;

use setup::Setup;
use std::io;

fn main(rt: HostRuntime) -> io::Result<()> {
    lines::stage::play::<Setup>(&mut rt.reader(), &mut io::writer(&rt))
}
