// A node's factored text for standard output, and the literals of a network to print.
ghost use Rattle.std.specs.Prelude.{◌≡◌, if◌then◌else◌};
ghost use Rattle.network.specs.Net.{literal_count};
ghost use Rattle.network.specs.Held.{net_of, rules};

use crate::line::Line;
use letters::Wrote;
use network::{Network, Number};
use std::fmt::Write;

// Room for a factored text.
const ROOM: usize = 266240;

// The text of node i, by way of a room; the number of its cubes where they are too many for one.
pub fn put_text(line: &mut Line, n: &Network, i: usize) {
    let f = network_nodes::node(&n.words, &n.counts, i);
    let mut room = [0u8; ROOM];
    match factor::factored(f, &mut room) {
        Wrote::Bytes(k) => {
            if let Some(text) = room.get(..k) {
                line.text(text);
            }
        }
        Wrote::Refused(_) => {
            let _ = write!(line, "{} cubes", expression::number(f));
        }
    }
}

// The literals of the network; 0 where it breaks a rule.
pub fn literals(n: &Network) -> u64
    ensures { result ≡ (if rules n.now then literal_count (net_of n.now) else 0) }
{
    match network_rules::literals(*n) {
        Number::Is(x) => x,
        Number::No(_) => 0,
    }
}
