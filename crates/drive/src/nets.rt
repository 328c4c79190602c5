// Networks in requests and answers: `n m k ; counts ; words`.
ghost use Rattle.std.specs.Prelude.{◌≡◌};
ghost use Rattle.drive.specs.Nets.{given_in};
ghost use Rattle.drive.specs.Wire.{number_told};

use crate::wire;
use crate::wire::{Refusal, Reply};
use expression::Verdict;
use network::{Handed, Network, Number};

// ---- requests

// The network of the first three groups, where they are one. Slots that are not given are 0.
pub fn read_net(text: &[u8]) -> Option<Network>
    ensures { result ≡ given_in text.now }
{
    let after = drive_request::tail(text);
    let mut sizes = [0; 3];
    if drive_request::numbers(drive_request::head(text), &mut sizes)? != 3 {
        return None;
    }
    let mut counts = [0; network::NODE_SLOTS];
    drive_request::numbers(drive_request::head(after), &mut counts)?;
    let mut words = [0; network::WORD_SLOTS];
    drive_request::numbers(drive_request::head(drive_request::tail(after)), &mut words)?;
    Some(Network {
        inputs: sizes[0] as usize,
        outputs: sizes[1] as usize,
        divisors: sizes[2] as usize,
        counts: counts.map(|c| c as usize),
        words,
    })
}

// ---- answers

// `ok` or another beginning, and the three groups of a network handed back.
pub fn put_network(reply: &mut Reply, n: &Network) {
    reply.group(&[n.inputs as u64, n.outputs as u64, n.divisors as u64]);
    let nodes = n.outputs.wrapping_add(n.divisors);
    reply.text(b" ;");
    for c in n.counts.iter().take(nodes) {
        reply.number(*c as u64);
    }
    reply.group(network_nodes::front(&n.words, &n.counts, nodes));
}

// `ok` and the network, or what it was refused for.
pub fn put_handed(reply: &mut Reply, h: &Handed) {
    match h.answer {
        Verdict::Accepted => {
            reply.text(b"ok");
            put_network(reply, &h.network);
        }
        Verdict::Refused(k) => reply.refused(wire::refuse(k, 0)),
    }
}

// What a number is told as.
pub fn number_told(x: Number) -> Result<u64, Refusal>
    ensures { result ≡ number_told x }
{
    match x {
        Number::Is(v) => Ok(v),
        Number::No(k) => Err(wire::refuse(k, 0)),
    }
}
