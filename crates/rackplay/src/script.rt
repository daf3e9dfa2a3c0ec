// The script, call by call.
use crate::calls;
use crate::calls::Line;
use crate::given::Given;
use std::fmt::Write as _;
use std::io;
use std::io::Write;

// How much is played of a script: a call that does not end within it is a bad one.
pub const MOST_BYTES: usize = 262144;

// Plays the calls of a script, and writes what each comes to. (A `while`: each turn goes on by as many bytes as its call has, which no range says.)
pub fn play(out: &mut impl Write, script: &[u8]) -> io::Result<()> {
    let mut machine = calls::first_machine();
    let mut given = Given::new(script);
    let mut line = Line::new();
    while 0 < given.len() {
        let at = script.len() - given.len();
        match given.call() {
            Some(call) if script.len() - given.len() <= MOST_BYTES => {
                line.clear();
                machine = calls::play(machine, call, &mut line)?;
                writeln!(line)?;
                out.write_all(line.as_bytes())?;
            }
            _ => return writeln!(out, "bad script at {at}"),
        }
    }
    Ok(())
}
