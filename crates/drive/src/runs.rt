// Requests for runs.
use crate::wire::Reply;
use crate::{nets, wire};
use cube::{Cube, Literal};
use extract::{Answer, Made, Stop};
use extract_divisor::Divisor;
use network::Network;

// The literal of c that is the least from l on.
fn literal_from(c: Cube, l: u32) -> Option<u32> {
    if l >= cube::LITERALS {
        return None;
    }
    cube_order::first_from(c, Literal(l)).map(|m| m.0)
}

// A part of one or two literals.
fn put_part(reply: &mut Reply, c: Cube) {
    let Some(l) = literal_from(c, 0) else {
        return;
    };
    reply.number(u64::from(l));
    if let Some(m) = literal_from(c, l.saturating_add(1)) {
        reply.text(b".");
        reply.hex(u64::from(m), 1);
    }
}

// A step: its divisor, a pair or the parts of a sum, its weight, which is above 0, and its uses.
fn put_step(reply: &mut Reply, s: &Made) {
    match s.divisor {
        Divisor::Pair(l, m) => {
            reply.text(b" ; pair");
            reply.number(u64::from(l.0));
            reply.number(u64::from(m.0));
        }
        Divisor::Sum(a, b) => {
            reply.text(b" ; sum");
            put_part(reply, a);
            put_part(reply, b);
        }
    }
    reply.number(u64::try_from(s.weight).unwrap_or(0));
    reply.number(u64::from(s.uses));
}

// Why a run stopped.
fn put_stop(reply: &mut Reply, s: Stop) {
    match s {
        Stop::Done => reply.text(b" done"),
        Stop::Asked => reply.text(b" asked"),
        Stop::Numbers => reply.text(b" numbers"),
        Stop::Rows => reply.text(b" rows"),
    }
}

// `extract STEPS ; NET`
pub fn extract(n: Network, steps: u64, reply: &mut Reply) {
    let r = extract::run(n, steps);
    match r.answer {
        Answer::Stopped(s) => {
            reply.text(b"ok");
            put_stop(reply, s);
            nets::put_network(reply, &r.network);
            for step in r.steps.list.iter().take(r.steps.count) {
                put_step(reply, step);
            }
        }
        Answer::Refused(k) => reply.refused(wire::refuse(k, 0)),
    }
}
