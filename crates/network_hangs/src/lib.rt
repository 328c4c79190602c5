// Which divisors a node of a network hangs on. A set of variables is a cube of their plain literals.
#![tactic(auto)]

ghost use Rattle.std.specs.Prelude.{[], ◌∷◌, ◌+◌, ◌<◌, ◌≤◌, leb, get_or};
ghost use Rattle.sets.specs.Lists.{keep};
ghost use Rattle.sets.specs.Sets.{union};
ghost use Rattle.cube.specs.Cube.{lits};
ghost use Rattle.expression.specs.Words.{cubes_of};
ghost use Rattle.network_nodes.specs.Nodes.{cut};
ghost use Rattle.network.specs.Held.{net_of, most_outputs, most_variables, place_at};
ghost use Rattle.network.specs.Parts.{nodes_of, Limited};
ghost use Rattle.network_reads.specs.Reading.{Marks};
ghost use Rattle.network_hangs.specs.Hangs.{read_by, reached, hangs_on, hangs_at};
ghost use Rattle.network_hangs.specs.Parts.{read_if, Makes};

use cube::{Cube, Variable};
use expression::Verdict;
use network::Network;

// The plain literal of the variable v, alone.
fn alone(v: usize) -> Cube
    requires { v < most_variables }
    ensures { Marks (lits result) (v ∷ []) }
{
    cube::with(cube::empty(), cube::plain(Variable(v as u32)))
}

// What the divisor of number v reads, where the set has it.
fn asked(n: &Network, v: usize, set: Cube) -> Cube
    requires { (n.now.outputs ≤ most_outputs) × (v < most_variables) }
    ensures { Makes (lits set) (lits result) (read_if v (get_or (cut n.now.counts (cubes_of n.now.words)) (place_at n.now.inputs n.now.outputs v) [])) }
{
    if !network_known::has_plain(set, v) {
        return cube::empty();
    }
    let i = network::place_of(n.inputs, n.outputs, v);
    network_reads::reads(network_nodes::node(&n.words, &n.counts, i))
}

// The variables of the set, and those that the divisors among them read.
fn once(n: &Network, set: Cube) -> Cube
    requires { Limited n.now }
    ensures { Makes (lits set) (lits result) (λ l. union l (read_by (net_of n.now) l)) }
{
    let mut all = set;
    for i in 0..n.divisors {
        all = cube_sets::union(all, asked(n, network::number_of(n.inputs, i), set));
    }
    all
}

// The same as many times over as there are divisors: enough, since a chain of divisors that read one another has at most so many.
fn often(n: &Network, set: Cube) -> Cube
    requires { Limited n.now }
    ensures { Makes (lits set) (lits result) (reached n.now.divisors (net_of n.now)) }
{
    let mut all = set;
    for _ in 0..n.divisors {
        all = once(n, all);
    }
    all
}

// The variables from n on.
fn above(n: usize, set: Cube) -> Cube
    requires { n ≤ most_variables }
    ensures { Makes (lits set) (lits result) (keep (λ v. leb n v)) }
{
    let mut left = set;
    for v in 0..n {
        left = cube_sets::without(left, alone(v));
    }
    left
}

// The divisors that node i hangs on.
fn found(n: &Network, i: usize) -> Cube
    requires { Limited n.now × (i < n.now.outputs + n.now.divisors) }
    ensures { Marks (lits result) (hangs_on (net_of n.now) (get_or (nodes_of (n.now.outputs + n.now.divisors) n.now.counts n.now.words) i [])) }
{
    let direct = network_reads::reads(network_nodes::node(&n.words, &n.counts, i));
    above(n.inputs, often(n, direct))
}

// The divisors that node i hangs on, directly and through others.
pub fn hangs(n: Network, i: usize) -> Cube
    ensures { Marks (lits result) (hangs_at n i) }
{
    let Verdict::Accepted = network_rules::judge(n) else {
        return cube::empty();
    };
    if i >= n.outputs + n.divisors {
        return cube::empty();
    }
    found(&n, i)
}
