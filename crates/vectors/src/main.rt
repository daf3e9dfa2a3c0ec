// Runs the numbers that others have written down, and prints a line for each group: how many of how many came out as they should. A number that
// did not stands above its group's line, with the number that it should have been.
//
// In the groups' names 000 is MIPI I3C Basic 1.1.1, and 01 the rack's exact rules.
#![tactic(auto)]

mod addresses;
mod bytes;
mod calls;
mod records;
mod sweep;

use std::io;

fn main(rt: HostRuntime) -> io::Result<()> {
    let mut out = io::writer(&rt);
    bytes::ninth_bits(&mut out)?;
    bytes::commands(&mut out)?;
    bytes::frames(&mut out)?;
    bytes::roles(&mut out)?;
    bytes::offers(&mut out)?;
    bytes::every_byte(&mut out)?;
    records::named(&mut out)?;
    records::direct(&mut out)?;
    records::example(&mut out)?;
    addresses::free_for_use(&mut out)?;
    addresses::classes(&mut out)?;
    addresses::opens(&mut out)?;
    addresses::refusals(&mut out)?;
    addresses::legacy(&mut out)?;
    calls::numbers(&mut out)
}
