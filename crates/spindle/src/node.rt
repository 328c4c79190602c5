// The nodes of a network for printing: the name, the literals and the length of each.
ghost use Rattle.std.specs.Prelude.{◌≡◌, ◌+◌, ◌%◌, ◌^◌, ◌≤◌, [], slice_index_or};
ghost use Rattle.expression.specs.Words.{cubes_of};
ghost use Rattle.expression.specs.Expression.{literals_of};
ghost use Rattle.expression.specs.Answers.{capped};
ghost use Rattle.network_nodes.specs.Nodes.{cut};
ghost use Rattle.spindle.specs.Node.{longest, name_of, length_in, length_at, widest_of};

use letters::Wrote;
use network::Network;
use std::fmt;
use std::fmt::{Display, Formatter};

// The longest text that widens a column.
const MOST_COLUMN: usize = 40;

// The name of a node: a letter and a number.
#[derive(Clone, Copy)]
pub struct Name {
    pub letter: u8,
    pub number: usize,
}

impl Display for Name {
    fn fmt<W: fmt::Write>(&self, f: &mut Formatter<W>) -> fmt::Result {
        let Name { letter, number } = *self;
        write!(f, "{}{number}", char::from(letter))
    }
}

// Outputs come first, by `y`; divisors follow, by `x`, numbered on from the inputs.
pub fn name_of(n: &Network, i: usize) -> Name
    ensures { result ≡ name_of n.now i }
{
    if i < n.outputs {
        Name {
            letter: b'y',
            number: i,
        }
    } else {
        Name {
            letter: b'x',
            number: network::number_of(n.inputs, i - n.outputs),
        }
    }
}

// The literals of node i.
pub fn literals(n: &Network, i: usize) -> u64
    ensures { result ≡ capped (literals_of (slice_index_or (cut n.now.counts (cubes_of n.now.words)) i [])) }
{
    expression_survey::literals(network_nodes::node(&n.words, &n.counts, i))
}

// The length of the factored text of f, or 0 where that is too long for a column.
fn length_of(f: &[u64]) -> usize
    ensures { result ≡ length_in f.now }
{
    let mut room = [0u8; MOST_COLUMN];
    match factor::factored(f, &mut room) {
        Wrote::Bytes(n) if n <= MOST_COLUMN => n,
        _ => 0,
    }
}

// That of node i.
fn length_at(n: &Network, i: usize) -> usize
    ensures { result ≡ length_at n.now i }
{
    length_of(network_nodes::node(&n.words, &n.counts, i))
}

// The length of the longest text that fits a column.
pub fn widest(n: &Network) -> usize
    ensures { (result ≡ widest_of n.now ((n.now.outputs + n.now.divisors) % 2 ^ 64)) × (result ≤ longest) }
{
    let mut most: usize = 0;
    for i in 0..n.outputs.wrapping_add(n.divisors) {
        most = most.max(length_at(n, i));
    }
    most
}
