// Answers requests of the line protocol, a line for a line, from standard input to standard output. Safety and an end are all that is
// promised here, but for what rooms hold at first; what is answered is held to the second implementation.
#![tactic(auto)]

ghost use Rattle.std.specs.Prelude.{◌≡◌, ◌≤◌, replicate};
ghost use Rattle.drive.specs.Rooms.{line_length};

mod expressions;
mod images;
mod nets;
mod rooms;
mod runs;
mod wire;

use letters::Wrote;
use network::Handed;
use std::io::{Read, Stdin};
use table::Answer;
use wire::Reply;

// The most bytes of a line.
const LINE_LENGTH: usize = 262144;

// Bytes read at a time.
const CHUNK: usize = 65536;

// Bytes that every report fits.
const PAGE: usize = 4096;

// ---- operations on bytes

// `table BYTES`
fn on_table(text: &[u8], reply: &mut Reply) {
    let t = table::read(text);
    match t.answer {
        Answer::Read => {
            reply.text(b"ok");
            nets::put_network(reply, &t.network);
        }
        Answer::Refused(q) => {
            reply.refused(wire::refuse(q.number, q.line));
            reply.number(q.column as u64);
        }
    }
}

// `report BYTES`
fn on_report(text: &[u8], reply: &mut Reply) -> Option<()> {
    let mut page = [0u8; PAGE];
    let Wrote::Bytes(k) = report::report(text, &mut page) else {
        return None;
    };
    let front = page.get(..k)?;
    reply.text(b"ok ;");
    reply.bytes(front);
    Some(())
}

// `read BYTES`, `read-blif BYTES`: by the reader of the one or the other. Apart, so that what it hands back is no part of the stack of
// a report.
#[inline(never)]
fn on_read<F: FnOnce(&[u8]) -> Handed>(bytes: &[u8], reader: F, reply: &mut Reply)
    requires { F.IsAlwaysCallable reader }
{
    nets::put_handed(reply, &reader(bytes));
}

fn on_bytes(line: &[u8], reply: &mut Reply) -> Option<()> {
    let mut room = rooms::bytes();
    let n = drive_request::bytes(drive_request::rest(line), &mut room)?;
    let bytes = &room[..n];
    match drive_request::first(line) {
        b"table" => on_table(bytes, reply),
        b"read" => on_read(bytes, image_read::read, reply),
        b"read-blif" => on_read(bytes, blif_read::read, reply),
        b"report" => return on_report(bytes, reply),
        _ => return None,
    }
    Some(())
}

// ---- operations of groups

fn on_three(head: &[u8], text: &[u8], reply: &mut Reply) -> Option<()> {
    match head {
        b"factored" => expressions::factored(text, reply),
        b"cokernels" => expressions::cokernels(text, reply),
        _ => None,
    }
}

// `literals ; NET`, `evaluate SETTING ; NET`, `extract STEPS ; NET`
fn on_four(head: &[u8], text: &[u8], reply: &mut Reply) -> Option<()> {
    let network = nets::read_net(text)?;
    if let b"literals" = head {
        reply.told(nets::number_told(network_rules::literals(network)));
        return Some(());
    }
    let v = drive_request::number(drive_request::rest(head))?;
    match drive_request::first(head) {
        b"evaluate" => reply.told(nets::number_told(network_evaluate::evaluate(network, v))),
        b"extract" => runs::extract(network, v, reply),
        _ => return None,
    }
    Some(())
}

fn on_five(head: &[u8], text: &[u8], reply: &mut Reply) -> Option<()> {
    match head {
        b"divide" => expressions::divide(text, reply),
        b"write" => images::write(text, image_write::write, reply),
        b"write-blif" => images::write(text, blif_write::write, reply),
        _ => None,
    }
}

// The answer to a line, where it is a request.
fn answer(line: &[u8], reply: &mut Reply) -> Option<()> {
    let groups = drive_request::groups(line)?;
    if groups == 1 {
        return on_bytes(line, reply);
    }
    let head = drive_request::head(line);
    let text = drive_request::tail(line);
    match groups {
        3 => on_three(head, text, reply),
        4 => on_four(head, text, reply),
        5 => on_five(head, text, reply),
        _ => None,
    }
}

// ---- lines

// What has come of the present line: how much, and whether it is too long to be one.
#[derive(Drop)]
struct Coming {
    room: [u8; LINE_LENGTH],
    length: usize,
    long: bool,
    ghost within: { length ≤ line_length },
}

impl Coming {
    fn new() -> Coming
        ensures { result.room ≡ replicate line_length 0 }
    {
        Coming {
            room: [0; LINE_LENGTH],
            length: 0,
            long: false,
        }
    }

    // The line, where it is one.
    fn line(&self) -> Option<&[u8]> {
        if self.long {
            return None;
        }
        Some(&self.room[..self.length])
    }

    // The line has ended: it is answered, and the next one begins.
    fn respond(&mut self, reply: &mut Reply) {
        let told = match self.line() {
            Some(line) => answer(line, reply),
            None => None,
        };
        if told.is_none() {
            reply.text(b"no request");
        }
        reply.end();
        self.length = 0;
        self.long = false;
    }

    // One byte more.
    fn take(&mut self, b: u8, reply: &mut Reply) {
        if b == b'\n' {
            self.respond(reply);
        } else if self.length < LINE_LENGTH {
            self.room[self.length] = b;
            self.length += 1;
        } else {
            self.long = true;
        }
    }
}

// All lines that end. A read that fails ends the input. Nothing says that an input ends, so the turns are counted up to a number that
// no run reaches.
fn serve(mut from: Stdin, coming: &mut Coming, reply: &mut Reply) {
    let mut chunk = [0u8; CHUNK];
    for _ in 0..u64::MAX {
        match from.read(&mut chunk) {
            Ok(n) if n > 0 => {
                for b in &chunk[..n] {
                    coming.take(*b, reply);
                }
            }
            _ => return,
        }
    }
}

fn main(rt: HostRuntime) {
    let mut coming = Coming::new();
    let mut reply = Reply::new(rt.stdout());
    serve(rt.stdin(), &mut coming, &mut reply);
    if coming.length > 0 {
        coming.respond(&mut reply);
    }
}
