// A script played from its first line to its last, on whatever the program has for it.
use crate::came::Came;
use crate::groups::Group;
use crate::numbers::Numbers;
use crate::shapes::Shape;
use crate::text::{Lines, ROOM};
use crate::words::Line;
use crate::{text, words};
use std::io;
use std::io::{Read, Write};

// What a program plays its script on.
pub trait Stage: Drop {
    // What a group begins with: nothing of the one before it.
    fn begun() -> Self;

    // Which numbers a line of this letter can have; none if no line begins with it.
    fn shape(letter: u8) -> Option<Shape>;

    // Plays a line of this letter that has the numbers that it can have. Nothing if it only changes what the next ones meet.
    fn play(&mut self, letter: u8, given: &Numbers) -> Option<Came>;

    // What a line of this letter says that it comes to: what stands behind the sign.
    fn said(_letter: u8, line: Line) -> Numbers {
        line.said.unwrap_or(Numbers::none())
    }
}

// Reads a script, plays it, and writes what its groups came to.
pub fn play<S: Stage>(input: &mut impl Read, out: &mut impl Write) -> io::Result<()> {
    let mut text = [0; ROOM];
    let n = text::read(input, out, &mut text)?;
    play_text::<S>(out, &text[..n])
}

// Plays the text of a script.
fn play_text<S: Stage>(out: &mut impl Write, text: &[u8]) -> io::Result<()> {
    let mut stage = S::begun();
    let mut group = Group::new();
    for line in Lines::new(text) {
        play_line(out, &mut stage, &mut group, line)?;
    }
    group.report(out)
}

// Plays a line. One that begins a group takes all away that the lines before it made.
fn play_line<'a, S: Stage>(
    out: &mut impl Write,
    stage: &mut S,
    group: &mut Group<'a>,
    text: &'a [u8],
) -> io::Result<()> {
    group.next_line();
    let line = words::read(text);
    match line.letter {
        None => Ok(()),
        Some(b'g') => {
            *stage = S::begun();
            group.begin(out, text)
        }
        Some(letter) => step(out, stage, group, letter, line),
    }
}

// Plays a line that has a letter, and compares what it came to, if it comes to something.
fn step<S: Stage>(
    out: &mut impl Write,
    stage: &mut S,
    group: &mut Group<'_>,
    letter: u8,
    line: Line,
) -> io::Result<()> {
    if !S::shape(letter).is_some_and(|shape| shape.fits(&line)) {
        return group.cannot_be_read(out);
    }
    match stage.play(letter, &line.given) {
        None => Ok(()),
        Some(came) => group.compare(out, &came, &S::said(letter, line)),
    }
}
