// An answer line put together.
ghost use Rattle.std.specs.Prelude.{◌≡◌, ◌≤◌};
ghost use Rattle.drive.specs.Wire.{refusal_of, wrote_of};

use letters::Wrote;
use std::io::Stdout;

// Bytes of an answer written at a time.
const CHUNK: usize = 65536;

// What a request was refused for, and at which line.
#[derive(Clone, Copy)]
pub struct Refusal {
    number: u32,
    line: u32,
}

// Refused by number, at a line.
pub fn refuse(number: u32, line: u32) -> Refusal
    ensures { result ≡ refusal_of number line }
{
    Refusal { number, line }
}

// An answer as far as it is put together. A room that is full is written out, so that an answer may have any length.
#[derive(Drop)]
pub struct Reply {
    to: Stdout,
    room: [u8; CHUNK],
    length: usize,
    ghost within: { length ≤ 65536 },
}

impl Reply {
    pub fn new(to: Stdout) -> Reply {
        Reply {
            to,
            room: [0; CHUNK],
            length: 0,
        }
    }

    // What is held goes to standard output. Where it cannot be written nothing is said of it.
    fn flush(&mut self)
        ensures { self.new.length ≡ 0 }
    {
        let _ = self.to.write_all(&self.room[..self.length]);
        self.length = 0;
    }

    fn byte(&mut self, b: u8) {
        if self.length == CHUNK {
            self.flush();
        }
        self.room[self.length] = b;
        self.length += 1;
    }

    pub fn text(&mut self, s: &[u8]) {
        for b in s {
            self.byte(*b);
        }
    }

    // The number in hex, of so many digits at least. The digits are those of io, of which the law of what is read speaks.
    pub fn hex(&mut self, x: u64, digits: usize) {
        let mut room = [0u8; 16];
        let k = io::hex(x, digits, &mut room);
        self.text(&room[..k]);
    }

    // A blank and the number.
    pub fn number(&mut self, x: u64) {
        self.byte(b' ');
        self.hex(x, 1);
    }

    // A blank and the bytes, or `-` for none.
    pub fn bytes(&mut self, s: &[u8]) {
        self.byte(b' ');
        if s.is_empty() {
            self.byte(b'-');
        }
        for b in s {
            self.hex(u64::from(*b), 2);
        }
    }

    // One group more: its numbers.
    pub fn group(&mut self, s: &[u64]) {
        self.text(b" ;");
        for x in s {
            self.number(*x);
        }
    }

    // `ok` and a number.
    pub fn found(&mut self, x: u64) {
        self.text(b"ok");
        self.number(x);
    }

    // `refused`, a number and a line.
    pub fn refused(&mut self, q: Refusal) {
        self.text(b"refused");
        self.number(u64::from(q.number));
        self.number(u64::from(q.line));
    }

    // A number that was found, or what it was refused for.
    pub fn told(&mut self, t: Result<u64, Refusal>) {
        match t {
            Ok(x) => self.found(x),
            Err(q) => self.refused(q),
        }
    }

    // What came of writing to a lent room of bytes, and the room as it was left.
    pub fn left(&mut self, a: Wrote, room: &[u8]) {
        self.told(wrote(a));
        self.text(b" ;");
        self.bytes(room);
    }

    // The line ends, and is written out.
    pub fn end(&mut self) {
        self.byte(b'\n');
        self.flush();
    }
}

// How many bytes were written to a lent room, or what they were refused for.
pub fn wrote(a: Wrote) -> Result<u64, Refusal>
    ensures { result ≡ wrote_of a }
{
    match a {
        Wrote::Bytes(n) => Ok(n as u64),
        Wrote::Refused(k) => Err(refuse(k, 0)),
    }
}
