// Requests on lent expressions and their rooms. Where a group is no group of numbers, there is no such request.
use crate::wire::Reply;
use crate::{rooms, wire};
use cokernel::Listed;
use division::Division;

// `divide ; EXPR ; EXPR ; ROOM ; ROOM`: the groups after the first.
pub fn divide(text: &[u8], reply: &mut Reply) -> Option<()> {
    let mut f = rooms::numbers();
    let n = drive_request::numbers(drive_request::head(text), &mut f)?;
    let text = drive_request::tail(text);
    let mut d = rooms::numbers();
    let m = drive_request::numbers(drive_request::head(text), &mut d)?;
    let text = drive_request::tail(text);
    let mut left = rooms::numbers();
    let l = drive_request::numbers(drive_request::head(text), &mut left)?;
    let mut right = rooms::numbers();
    let r = drive_request::numbers(drive_request::tail(text), &mut right)?;
    match division::divide(&f[..n], &d[..m], &mut left[..l], &mut right[..r]) {
        Division::Done(q, rest) => {
            reply.found(q as u64);
            reply.number(rest as u64);
        }
        Division::Refused(k) => reply.refused(wire::refuse(k, 0)),
    }
    reply.group(&left[..l]);
    reply.group(&right[..r]);
    Some(())
}

// `cokernels ; EXPR ; ROOM`: the groups after the first.
pub fn cokernels(text: &[u8], reply: &mut Reply) -> Option<()> {
    let mut f = rooms::numbers();
    let n = drive_request::numbers(drive_request::head(text), &mut f)?;
    let mut room = rooms::numbers();
    let r = drive_request::numbers(drive_request::tail(text), &mut room)?;
    match cokernel::cokernels(&f[..n], &mut room[..r]) {
        Listed::All(k) => reply.found(k as u64),
        Listed::Refused(k) => reply.refused(wire::refuse(k, 0)),
    }
    reply.group(&room[..r]);
    Some(())
}

// `factored ; EXPR ; ROOM`, with a room in bytes: the groups after the first.
pub fn factored(text: &[u8], reply: &mut Reply) -> Option<()> {
    let mut f = rooms::numbers();
    let n = drive_request::numbers(drive_request::head(text), &mut f)?;
    let mut room = rooms::bytes();
    let r = drive_request::bytes(drive_request::tail(text), &mut room)?;
    let a = factor::factored(&f[..n], &mut room[..r]);
    reply.left(a, &room[..r]);
    Some(())
}
