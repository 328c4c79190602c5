// Networks with their cubes in cube order.
#![tactic(auto)]

ghost use Rattle.std.specs.Prelude.{◌≡◌, map, ◌+◌, replicate};
ghost use Rattle.expression.specs.Expression.{sort};
ghost use Rattle.network.specs.Held.{net_of};
ghost use Rattle.network.specs.Handed.{node_slots, word_slots, by_rules, Told};
ghost use Rattle.network.specs.Parts.{nodes_of, held_in, Limited};
ghost use Rattle.extract_laws.specs.Run.{in_order};
ghost use Rattle.extract_tidy.specs.Tidy.{arranged};
ghost use Rattle.extract_tidy.specs.Parts.{Laid};

use expression::Verdict;
use network::{Handed, Network};

// Whether the network is within the limits on inputs, outputs, variables and cubes, and each node stands in cube order.
pub fn is_arranged(n: Network) -> bool
    ensures { result ≡ arranged n }
{
    are_arranged(n.inputs, n.outputs, n.divisors, &n.words, &n.counts)
}

// The same of lent words and counts; where they are too few, of the nodes and cubes that there are.
pub fn are_arranged(
    inputs: usize,
    outputs: usize,
    divisors: usize,
    words: &[u64],
    counts: &[usize],
) -> bool
    ensures { result ≡ arranged (held_in inputs outputs divisors counts.now words.now) }
{
    if !network::is_within(inputs, outputs, divisors, counts) {
        return false;
    }
    let e = outputs + divisors;
    network_nodes::each(words, counts)
        .take(e)
        .all(|f| expression_survey::is_ordered(f))
}

// The nodes of n in cube order, one after the other, and their numbers of cubes.
fn lay_nodes(n: &Network, words: &mut [u64], counts: &mut [usize])
    requires limited { Limited n.now }
    requires zeros { (words.old ≡ replicate word_slots 0) × (counts.old ≡ replicate node_slots 0) }
    ensures { Laid words.new counts.new (map sort (nodes_of (n.now.outputs + n.now.divisors) n.now.counts n.now.words)) }
{
    let mut at = 0;
    for (i, f) in network_nodes::each(&n.words, &n.counts)
        .take(n.outputs + n.divisors)
        .enumerate()
    {
        let size = expression::number(f);
        expression::copy(f, 0, size, words, at);
        expression_sort::sort_part(words, at, at + size);
        counts[i] = size;
        at += size;
    }
}

// The network with the cubes of every node in cube order: 10 where it breaks a rule.
pub fn in_order(n: Network) -> Handed
    ensures { Told (by_rules n (in_order (net_of n))) result }
{
    let Verdict::Accepted = network_rules::judge(n) else {
        return network::refuse(10);
    };
    let mut words = [0u64; network::WORD_SLOTS];
    let mut counts = [0usize; network::NODE_SLOTS];
    lay_nodes(&n, &mut words, &mut counts);
    network::hand(Network { words, counts, ..n })
}
