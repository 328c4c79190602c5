// What is written to standard output, with the column after it, and to standard error. Safety and an end are all that is promised:
// where something cannot be written, no more is said of it.
use std::fmt;
use std::fmt::{Display, Formatter};
use std::io::{Cursor, Error, Stderr, Stdout, Write};
use table::Refusal;

// Room for the system's words of a failure.
const MOST_WORDS: usize = 128;

// What std has after those words, before the failure's number.
const BEFORE_NUMBER: &[u8] = b" (os error ";

// The most blanks in a row.
const MOST_BLANKS: usize = 64;

// ---- things and numbers

// A count of things: `19 orchards`, or `1 orchard`.
#[derive(Clone, Copy)]
pub struct Things<'a>(pub u64, pub &'a str);

impl Display for Things<'_> {
    fn fmt<W: fmt::Write>(&self, f: &mut Formatter<W>) -> fmt::Result {
        let Things(count, thing) = *self;
        if count == 1 {
            write!(f, "1 {thing}")
        } else {
            write!(f, "{count} {thing}s")
        }
    }
}

// A number of at most six digits, with a comma before its last three: `65,536`.
#[derive(Clone, Copy)]
pub struct Grouped(pub u64);

impl Display for Grouped {
    fn fmt<W: fmt::Write>(&self, f: &mut Formatter<W>) -> fmt::Result {
        let x = self.0;
        if x < 1000 {
            write!(f, "{x}")
        } else {
            write!(f, "{},{:03}", x / 1000, x % 1000)
        }
    }
}

// ---- a line of standard output

// As far as it stands, and the column after it.
#[derive(Drop)]
pub struct Line {
    out: Stdout,
    at: usize,
}

impl Line {
    pub fn new(out: Stdout) -> Line {
        Line { out, at: 0 }
    }

    pub fn text(&mut self, text: &[u8]) {
        let _ = self.out.write_all(text);
        self.at = self.at.saturating_add(text.len());
    }

    // Blanks up to a column, where the line has not reached it; none where they are too many.
    pub fn pad(&mut self, to: usize) {
        let row = [b' '; MOST_BLANKS];
        if let Some(blanks) = row.get(..to.saturating_sub(self.at)) {
            self.text(blanks);
        }
    }

    // Blanks up to a column; where the line has reached it, a new line is begun.
    pub fn column(&mut self, to: usize) {
        if self.at >= to {
            self.end();
        }
        self.pad(to);
    }

    // The line ends, and a new one begins.
    pub fn end(&mut self) {
        self.text(b"\n");
        self.at = 0;
    }
}

impl fmt::Write for Line {
    fn write_str(&mut self, s: &str) -> fmt::Result {
        self.text(s.as_bytes());
        Ok(())
    }
}

// ---- refusals

// `refused 12 at line 0`: an image, a BLIF text or a network.
pub fn refuse(out: Stdout, number: u32) {
    let _ = println!(out; "refused {number} at line 0");
}

// `refused 2 at line 3 column 7`.
pub fn refuse_table(out: Stdout, q: Refusal) {
    let _ = println!(out;
        "refused {} at line {} column {}",
        q.number, q.line, q.column
    );
}

// ---- complaints: each of these writes to standard error

// What is wrong with the thing named, whose name may be any bytes.
pub fn complain<D: Display + Drop>(err: Stderr, name: &[u8], what: D) {
    let _ = err.write_all(b"spindle: ");
    let _ = err.write_all(name);
    let _ = err.println(what);
}

// Where the number of a failure begins, as std has it after the system's words; where it has none, the end of the words in their room.
fn number_place(text: &[u8]) -> usize {
    for i in 0..text.len() {
        if text[i] == 0 || text[i..].starts_with(BEFORE_NUMBER) {
            return i;
        }
    }
    text.len()
}

// A call on the thing named has failed: the system's words.
pub fn fail(err: Stderr, name: &[u8], failure: Error) {
    let _ = err.write_all(b"spindle: ");
    if name.is_empty() {
        let _ = err.write_all(b"an empty name");
    }
    let _ = err.write_all(name);
    let _ = err.write_all(b": ");
    let mut words = Cursor::new([0u8; MOST_WORDS]);
    let _ = write!(words, "{failure}");
    if let Some(said) = words.get_ref().get(..number_place(words.get_ref())) {
        let _ = err.write_all(said);
    }
    let _ = err.write_all(b"\n");
}
