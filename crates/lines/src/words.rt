// A line of the script, taken apart into words.
use crate::numbers;
use crate::numbers::Numbers;

// A line: the first letter of its first word, if it has one; the numbers before the sign `=`, and those behind it, if it has the sign. It is right if
// each of its other words is a number, and there is no second sign. (A mark, and no error: a line that begins a group is not right, and has its letter.)
#[derive(Clone, Copy, Debug, PartialEq, Eq)]
pub struct Line {
    pub letter: Option<u8>,
    pub given: Numbers,
    pub said: Option<Numbers>,
    pub right: bool,
}

// The line that a text is. A `#` and what follows it is no part of it.
pub fn read(text: &[u8]) -> Line {
    let end = text
        .iter()
        .position(|byte| *byte == b'#')
        .unwrap_or(text.len());
    let mut line = Line::begun(None);
    for word in text[..end].split(|byte| *byte == b' ') {
        line.add(word);
    }
    line
}

impl Line {
    // A line of which only the letter is there.
    fn begun(letter: Option<u8>) -> Line {
        Line {
            letter,
            given: Numbers::none(),
            said: None,
            right: true,
        }
    }

    // One word more. Between two blanks there is none.
    fn add(&mut self, word: &[u8]) {
        match word.first() {
            None => {}
            Some(first) if self.letter.is_none() => self.add_letter(*first),
            Some(b'=') => self.add_sign(),
            Some(_) => self.add_number(numbers::read(word)),
        }
    }

    // The first letter. A zero byte is none.
    fn add_letter(&mut self, letter: u8) {
        if letter != 0 {
            self.letter = Some(letter);
        }
    }

    // The sign behind what there is.
    fn add_sign(&mut self) {
        match self.said {
            None => self.said = Some(Numbers::none()),
            Some(_) => self.right = false,
        }
    }

    // One number more, before the sign or behind it.
    fn add_number(&mut self, number: Option<u64>) {
        match (number, &mut self.said) {
            (None, _) => self.right = false,
            (Some(number), None) => self.given.push(number),
            (Some(number), Some(said)) => said.push(number),
        }
    }
}
