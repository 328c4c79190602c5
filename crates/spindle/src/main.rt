// The shop's program: reports, images, BLIF texts, and the dispatcher's map. Safety and an end are all that is promised here; what a
// table, an image or a text answers is promised by the crates that are called.
#![tactic(auto)]

mod before;
mod fault;
mod file;
mod form;
mod help;
mod line;
mod map;
mod node;
mod show;
mod shown;

use file::PATH_MAX;
use letters::Wrote;
use network::{Handed, Network};
use std::env::FillError;
use std::io;
use std::io::Read;
use std::rt::Env;
use table::Refusal;

// Room for any file: a byte more than the longest image whose fields are each in range, and than any table. A BLIF text has no
// longest length: one that fills it is not read.
const ROOM: usize = image_laws::ROOM;

// Room for a table, and a byte more by which a longer file is known.
const SHORT: usize = table::MOST_BYTES + 1;

// Room for an image, and for a report.
const IMAGE_ROOM: usize = 32768;

const PAGE: usize = 16384;

// Room for the BLIF text of any network: 1,088 rows of 64 signs, 96 lines of 65 names, and the lines before them.
const BLIF_ROOM: usize = 131072;

// The most words of a command and one more, the program's own name among them.
const MOST_WORDS: usize = 5;

// The system's numbers of a word that is too long, and of one that is not there.
const ENAMETOOLONG: i32 = 36;

const EINVAL: i32 = 22;

// What is asked of a file: a table alone asks for its report.
#[derive(Clone, Copy, PartialEq, Eq)]
enum Command {
    Report,
    Image,
    Blif,
    BlifTo,
    Show,
    Ask,
    Map,
}

// What a file holds, by its beginning.
#[derive(Clone, Copy, PartialEq, Eq)]
enum Kind {
    Table,
    Image,
    Blif,
}

// A command on a file: the name that complaints have for the file, and the word after it, which is the path of a file to write, or a
// setting, or nothing.
#[derive(Clone, Copy)]
struct Job<'a> {
    rt: HostRuntime,
    command: Command,
    path: &'a [u8],
    word: &'a [u8],
}

// ---- reports

// The front of a room, as long as it is, to standard output.
fn print_front(rt: HostRuntime, room: &[u8], k: usize) {
    if let Some(text) = room.get(..k) {
        let _ = rt.stdout().write_all(text);
    }
}

// The report of a table; of a refused one, whose page begins with `refused` and any other with `start`, it is the refusal, and the
// table is read again to say why.
fn print_report(rt: HostRuntime, path: &[u8], text: &[u8]) {
    let mut room = [0u8; PAGE];
    match report::report(text, &mut room) {
        Wrote::Bytes(k) => print_front(rt, &room, k),
        Wrote::Refused(number) => {
            let q = Refusal {
                number,
                line: 0,
                column: 0,
            };
            line::refuse_table(rt.stdout(), q);
            return;
        }
    }
    if room[0] == b'r' {
        if let table::Answer::Refused(q) = table::read(text).answer {
            fault::explain(rt.stderr(), path, text, q);
        }
    }
}

// ---- networks, where there is one; where there is none, that has been said

// The network of a table after its steps; the report of a refused one is its refusal.
fn extracted(rt: HostRuntime, path: &[u8], text: &[u8]) -> Option<Network> {
    let t = table::read(text);
    if let table::Answer::Refused(_) = t.answer {
        print_report(rt, path, text);
        return None;
    }
    let r = extract::run(t.network, report::ASKED);
    if let extract::Answer::Refused(k) = r.answer {
        line::refuse(rt.stdout(), k);
        return None;
    }
    Some(r.network)
}

// The network that was read; a refusal is printed.
fn handed(rt: HostRuntime, h: &Handed) -> Option<Network> {
    if let expression::Verdict::Refused(k) = h.answer {
        line::refuse(rt.stdout(), k);
        return None;
    }
    Some(h.network)
}

// ---- images and BLIF texts

// `orchards.image: 164 bytes, 80 literals`
fn print_written(rt: HostRuntime, path: &[u8], bytes: usize, literals: u64) {
    let _ = rt.stdout().write_all(path);
    let _ = println!(rt; ": {bytes} bytes, {literals} literals");
}

// What was written goes to a file.
fn store(rt: HostRuntime, a: Wrote, room: &[u8], path: &[u8], literals: u64) {
    match a {
        Wrote::Bytes(k) => {
            if let Some(bytes) = room.get(..k) {
                if file::replace(rt, path, bytes) {
                    print_written(rt, path, k, literals);
                }
            }
        }
        Wrote::Refused(k) => line::refuse(rt.stdout(), k),
    }
}

fn write_image(rt: HostRuntime, n: &Network, path: &[u8]) {
    let mut room = [0u8; IMAGE_ROOM];
    let a = image_write::write(*n, &mut room);
    store(rt, a, &room, path, form::literals(n));
}

fn write_blif(rt: HostRuntime, n: &Network, path: &[u8]) {
    let mut room = [0u8; BLIF_ROOM];
    let a = blif_write::write(*n, &mut room);
    store(rt, a, &room, path, form::literals(n));
}

fn print_blif(rt: HostRuntime, n: &Network) {
    let mut room = [0u8; BLIF_ROOM];
    match blif_write::write(*n, &mut room) {
        Wrote::Bytes(k) => print_front(rt, &room, k),
        Wrote::Refused(k) => line::refuse(rt.stdout(), k),
    }
}

// ---- files

// What a file holds. A table can begin with a blank, the end of a line, a comment or a dot, or have no byte; one that begins with
// another is refused, whatever follows, so a file that does is an image.
fn kind_of(bytes: &[u8]) -> Kind {
    if blif_read::is_blif(bytes) {
        return Kind::Blif;
    }
    match bytes {
        [] | [b' ' | b'\t' | b'\r' | b'\n' | b'#' | b'.', ..] => Kind::Table,
        _ => Kind::Image,
    }
}

impl Job<'_> {
    // What is looked for, where the file is no BLIF text: some commands take tables alone, some images alone.
    fn kind_for(&self, k: Kind) -> Kind {
        match self.command {
            _ if k == Kind::Blif => k,
            Command::Report | Command::Image => Kind::Table,
            Command::Show | Command::Ask => Kind::Image,
            _ => k,
        }
    }

    // The network of an image; where the file might have been meant as a table, a refusal says what it was taken for.
    fn imaged(&self, bytes: &[u8]) -> Option<Network> {
        let read = handed(self.rt, &image_read::read(bytes));
        let takes_both = matches!(self.command, Command::Blif | Command::BlifTo | Command::Map);
        if read.is_none() && takes_both {
            line::complain(
                self.rt.stderr(),
                self.path,
                ": taken for an image; a table begins with a point, a blank, an empty line, or # for a comment",
            );
        }
        read
    }

    // The text of a table may name its inputs.
    fn on_network(&self, n: &Network, text: &[u8]) {
        match self.command {
            Command::Image => write_image(self.rt, n, self.word),
            Command::Blif => print_blif(self.rt, n),
            Command::BlifTo => write_blif(self.rt, n, self.word),
            Command::Show => show::show(self.rt.stdout(), n),
            Command::Ask => show::ask(self.rt, n, self.word),
            Command::Map => map::map(self.rt.stdout(), n, text),
            Command::Report => {}
        }
    }

    // All bytes of a file, or as many as the room has places for: a BLIF text may be longer.
    fn on_bytes(&self, bytes: &[u8]) {
        if self.command == Command::Report {
            print_report(self.rt, self.path, bytes);
            return;
        }
        let kind = self.kind_for(kind_of(bytes));
        if kind == Kind::Blif && bytes.len() >= ROOM {
            line::complain(
                self.rt.stderr(),
                self.path,
                ": a BLIF text so long is not read",
            );
            return;
        }
        let (read, text): (Option<Network>, &[u8]) = match kind {
            Kind::Table => (extracted(self.rt, self.path, bytes), bytes),
            Kind::Image => (self.imaged(bytes), b""),
            Kind::Blif => (handed(self.rt, &blif_read::read(bytes)), b""),
        };
        if let Some(n) = read {
            self.on_network(&n, text);
        }
    }

    // A file that is longer than any table: what came of it, and the rest.
    fn long_into<R: Read>(&self, input: &mut R, first: &[u8], room: &mut [u8]) {
        let at = letters::put_bytes(room, 0, first);
        if at <= room.len() {
            if let Some(n) = file::fill(self.rt, input, self.path, &mut room[at..]) {
                self.on_bytes(&room[..at + n]);
            }
        }
    }

    // So long an array is lent as one before it is lent as a slice: its length is then known by its type.
    fn long_by<R: Read>(&self, input: &mut R, first: &[u8], room: &mut [u8; ROOM]) {
        self.long_into(input, first, room);
    }

    // Apart, so that its room is no part of the stack of a run that does not need it.
    #[inline(never)]
    fn on_long<R: Read>(&self, input: &mut R, first: &[u8]) {
        let mut room = [0u8; ROOM];
        self.long_by(input, first, &mut room);
    }

    // An open file. Only a longer one than any table needs the longer room.
    fn on_open<R: Read>(&self, input: &mut R) {
        let mut room = [0u8; SHORT];
        let Some(n) = file::fill(self.rt, input, self.path, &mut room) else {
            return;
        };
        if n < SHORT {
            self.on_bytes(&room[..n]);
        } else {
            self.on_long(input, &room);
        }
    }

    // `-` is standard input.
    fn on_file(&self) {
        if let b"-" = self.path {
            let named = Job {
                path: b"standard input",
                ..*self
            };
            named.on_open(&mut self.rt.stdin());
        } else if let Some(mut f) = file::open(self.rt, self.path) {
            self.on_open(&mut f);
        }
    }

    // Where the command writes a file, that is not the one to read.
    fn run(&self) {
        if writes(self.command) && self.path == self.word {
            line::complain(
                self.rt.stderr(),
                self.path,
                ": what is written needs a name of its own",
            );
            return;
        }
        self.on_file();
    }
}

// ---- words

// Why a word cannot be held, in the system's words.
fn failure(e: FillError) -> io::Error {
    match e {
        FillError::TooLong => io::Error::from_raw_os_error(ENAMETOOLONG),
        FillError::NotPresent => io::Error::from_raw_os_error(EINVAL),
    }
}

// Whether a command writes a file.
fn writes(c: Command) -> bool {
    matches!(c, Command::Image | Command::BlifTo)
}

// `spindle image TABLE FILE`, `spindle blif TABLE FILE`: where FILE is no path that can be held, that is said. `spindle show IMAGE`,
// `spindle ask IMAGE SETTING`, `spindle map FILE`, `spindle blif FILE`: a word too long to be held is no setting, as an empty one is
// none.
fn with_path(rt: HostRuntime, command: Command, path: &[u8]) {
    let mut room = [0u8; PATH_MAX];
    let word: &[u8] = match rt.arg(3, &mut room) {
        Ok(k) => &room[..k],
        Err(e) if writes(command) => {
            line::fail(rt.stderr(), b"FILE", failure(e));
            return;
        }
        Err(_) => b"",
    };
    let job = Job {
        rt,
        command,
        path,
        word,
    };
    job.run();
}

// What the usage calls the file to read.
fn operand(c: Command) -> &'static [u8] {
    match c {
        Command::Image => b"TABLE",
        Command::Show | Command::Ask => b"IMAGE",
        _ => b"FILE",
    }
}

fn on_command(rt: HostRuntime, c: Command) {
    let mut path = [0u8; PATH_MAX];
    match rt.arg(2, &mut path) {
        Ok(n) => with_path(rt, c, &path[..n]),
        Err(e) => line::fail(rt.stderr(), operand(c), failure(e)),
    }
}

// The command that a first word names, with so many words in all; `spindle blif` with a word more writes a file.
fn which(word: &[u8], count: usize) -> Option<Command> {
    match (word, count) {
        (b"image", 4) => Some(Command::Image),
        (b"blif", 3) => Some(Command::Blif),
        (b"blif", 4) => Some(Command::BlifTo),
        (b"show", 3) => Some(Command::Show),
        (b"ask", 4) => Some(Command::Ask),
        (b"map", 3) => Some(Command::Map),
        _ => None,
    }
}

// One word: help, or a table; a file with the name of a command is written ./show.
fn on_word(rt: HostRuntime, word: &[u8]) {
    match word {
        b"help" => help::help(&rt.stdout()),
        b"image" | b"blif" | b"show" | b"ask" | b"map" => help::help(&rt.stderr()),
        _ => {
            let job = Job {
                rt,
                command: Command::Report,
                path: word,
                word,
            };
            job.on_file();
        }
    }
}

// How many words there are, the program's own name among them; past the most of a command no more are counted.
fn word_count(rt: HostRuntime) -> usize {
    for i in 0..MOST_WORDS {
        let mut byte = [0u8; 1];
        if let Err(FillError::NotPresent) = rt.arg(i, &mut byte) {
            return i;
        }
    }
    MOST_WORDS
}

fn main(rt: HostRuntime) {
    let count = word_count(rt);
    if count < 2 {
        help::help(&rt.stderr());
        return;
    }
    let mut room = [0u8; PATH_MAX];
    let word = rt.arg(1, &mut room);
    if count == 2 {
        match word {
            Ok(n) => on_word(rt, &room[..n]),
            Err(e) => line::fail(rt.stderr(), b"TABLE", failure(e)),
        }
        return;
    }
    // A first word that could not be held is no command.
    let command = match word {
        Ok(n) => which(&room[..n], count),
        Err(_) => None,
    };
    match command {
        Some(c) => on_command(rt, c),
        None => help::help(&rt.stderr()),
    }
}
