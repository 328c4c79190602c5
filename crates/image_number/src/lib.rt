// Networks with their divisors numbered in the order of the listing.
#![tactic(auto)]

ghost use Rattle.std.specs.Prelude.{◌≡◌, map, ◌+◌, ◌*◌, ◌<◌, ◌≤◌, length};
ghost use Rattle.cube.specs.Cube.{lits};
ghost use Rattle.expression.specs.Words.{cubes_of, Placed};
ghost use Rattle.network.specs.Held.{most_variables, net_of};
ghost use Rattle.network.specs.Handed.{Holds, Told, by_rules};
ghost use Rattle.image_laws.specs.Renumber.{renumbered};
ghost use Rattle.image_number.specs.Parts.{Wide, Itself, Numbers, Placing, literal_by, cube_by, node_by, source_of, Sourced, Numberable};

use cube::{Cube, Literal, Variable};
use expression::Verdict;
use network::{Handed, Network};
use std::array;

// ---- the new numbers

// Each variable at its own number.
fn own() -> [u32; network::MOST_VARIABLES]
    ensures { Itself most_variables result }
{
    array::from_fn(|v| v as u32)
}

// The new number of each variable: inputs keep theirs, the divisors take those from n on in their order.
fn places_of(order: &[u32], n: usize, k: usize) -> [u32; network::MOST_VARIABLES]
    requires { Numbers n k order.now }
    ensures { Placing n k order.now result }
{
    let mut places = own();
    for (i, v) in order[..k].iter().enumerate() {
        places[*v as usize] = network::number_of(n, i) as u32;
    }
    places
}

// ---- cubes

// The literal of the new number, of the same polarity.
fn new_literal(l: Literal, places: &[u32]) -> Literal
    requires { Wide places.now × (l.0 < 2 * most_variables) }
    ensures { result.0 ≡ literal_by places.now l.0 }
{
    let v = Variable(places[cube::variable_of(l).0 as usize]);
    if cube::is_negated(l) {
        cube::negated(v)
    } else {
        cube::plain(v)
    }
}

// The cube of the new literals, taken one after the other.
fn new_cube(c: Cube, places: &[u32]) -> Cube
    requires { Wide places.now }
    ensures { lits result ≡ cube_by places.now (lits c) }
{
    let mut r = cube::empty();
    for l in cube_order::each(c) {
        r = cube::with(r, new_literal(l, places));
    }
    r
}

// ---- nodes

// The cubes of f, renumbered, are put from place `at` on.
fn copy(f: &[u64], places: &[u32], out: &mut [u64], at: usize)
    requires { Wide places.now × (at + length (cubes_of f.now) ≤ length (cubes_of out.old)) }
    ensures { Placed out.old out.new at (map (cube_by places.now) (cubes_of f.now)) }
{
    for (i, c) in expression::each(f).enumerate() {
        expression::put_cube(out, at + i, new_cube(c, places));
    }
}

// The same, put in cube order after renumbering.
fn put_node(f: &[u64], places: &[u32], out: &mut [u64], at: usize)
    requires { Wide places.now × (at + length (cubes_of f.now) ≤ length (cubes_of out.old)) }
    ensures { Placed out.old out.new at (node_by places.now (cubes_of f.now)) }
{
    copy(f, places, out, at);
    let e = at + expression::number(f);
    expression_sort::sort_part(out, at, e);
}

// The node that comes to stand at place i: outputs as they are, then the divisors in their order.
fn source(order: &[u32], n: usize, m: usize, i: usize) -> usize
    requires { Sourced m i order.now }
    ensures { result ≡ source_of n m i order.now }
{
    if i < m {
        i
    } else {
        network::place_of(n, m, order[i - m] as usize)
    }
}

// ---- networks

// The network renumbered, of a network by the rules and the order of its divisors.
fn build(n: &Network, order: &[u32]) -> Network
    requires { Numberable n.now.inputs n.now.outputs n.now.divisors n.now.words n.now.counts order.now }
    ensures { Holds result (renumbered (net_of n.now)) }
{
    let places = places_of(order, n.inputs, n.divisors);
    let mut counts = [0usize; network::NODE_SLOTS];
    let mut words = [0u64; network::WORD_SLOTS];
    let mut at = 0;
    for i in 0..n.outputs + n.divisors {
        let j = source(order, n.inputs, n.outputs, i);
        let size = n.counts[j];
        put_node(
            network_nodes::node(&n.words, &n.counts, j),
            &places,
            &mut words,
            at,
        );
        counts[i] = size;
        at += size;
    }
    Network {
        counts,
        words,
        ..*n
    }
}

// The network with its divisors numbered in the order of the listing; 10 where it breaks a rule.
pub fn renumber(n: Network) -> Handed
    ensures { Told (by_rules n (renumbered (net_of n))) result }
{
    let Verdict::Accepted = network_rules::judge(n) else {
        return network::refuse(10);
    };
    let l = network_listing::listing(n);
    network::hand(build(&n, &l.order))
}
