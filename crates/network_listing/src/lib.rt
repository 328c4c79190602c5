// The listing of a network's divisors: again and again the smallest number whose own divisors are all listed.
#![tactic(auto)]

ghost use Rattle.std.specs.Prelude.{◌≡◌, true, false, not, ◌&&◌, [], ◌+◌, ◌<◌, ◌≤◌, MatchOption};
ghost use Rattle.std.proofs.Math.Option.{none, some};
ghost use Rattle.sets.specs.Lists.{all};
ghost use Rattle.sets.specs.Literal.{plain_of};
ghost use Rattle.sets.specs.Sets.{mem, insert};
ghost use Rattle.cube.specs.Cube.{lits};
ghost use Rattle.expression.specs.Words.{cubes_of};
ghost use Rattle.network_known.specs.Known.{every_within, BothWays, signed};
ghost use Rattle.network.specs.Listing.{listing};
ghost use Rattle.network.specs.Held.{net_of, reach, most_variables};
ghost use Rattle.network.specs.Answers.{listable, listed_of};
ghost use Rattle.network.specs.Parts.{nodes_of, Limited};
ghost use Rattle.network_listing.specs.Parts.{next_in, PaddedList};

use cube::Cube;
use network::{Listed, Network};

// c with both literals of the variable v.
fn both(c: Cube, v: usize) -> Cube
    requires { v < most_variables }
    ensures { lits result ≡ insert (signed v false) (insert (signed v true) (lits c)) }
{
    network_known::valued(network_known::valued(c, v, true), v, false)
}

// Both literals of each variable below n.
fn below(n: usize) -> Cube
    requires { n ≤ most_variables }
    ensures { BothWays n [] (lits result) }
{
    let mut c = cube::empty();
    for v in 0..n {
        c = both(c, v);
    }
    c
}

// Whether k lacks the variable v and has all literals of the cubes.
fn is_next(f: &[u64], v: usize, k: Cube) -> bool
    ensures { result ≡ (not (mem (plain_of v) (lits k)) && every_within (lits k) (cubes_of f.now)) }
{
    !network_known::has_plain(k, v) && network_known::within(f, k, true)
}

// The first divisor that is not known and reads known variables alone.
fn next(n: &Network, known: Cube) -> Option<usize>
    requires { Limited n.now }
    ensures { MatchOption result (next_in (lits known) (net_of n.now).divisors ≡ none) (λ v. next_in (lits known) (net_of n.now).divisors ≡ some v) }
{
    let (i, _) = network_nodes::each(&n.words, &n.counts)
        .skip(n.outputs)
        .take(n.divisors)
        .enumerate()
        .find(|(i, f)| is_next(f, network::number_of(n.inputs, *i), known))?;
    Some(network::number_of(n.inputs, i))
}

// Again and again the smallest number whose own divisors are all listed.
fn list(n: &Network) -> Listed
    requires { Limited n.now }
    ensures { PaddedList (listing (net_of n.now)) result.count result.order }
{
    let mut order = [0u32; network::MOST_VARIABLES];
    let mut known = below(n.inputs);
    for count in 0..n.divisors {
        let Some(v) = next(n, known) else {
            return Listed { count, order };
        };
        order[count] = v as u32;
        known = both(known, v);
    }
    Listed {
        count: n.divisors,
        order,
    }
}

// Whether every literal is of a variable.
fn reaches(n: &Network) -> bool
    requires { Limited n.now }
    ensures { result ≡ all (reach (n.now.inputs + n.now.divisors)) (nodes_of (n.now.outputs + n.now.divisors) n.now.counts n.now.words) }
{
    let nodes = network_nodes::front(&n.words, &n.counts, n.outputs + n.divisors);
    network_known::within(nodes, below(n.inputs + n.divisors), true)
}

// Whether the limits are kept and every literal is of a variable.
fn lists(n: &Network) -> bool
    ensures { result ≡ listable n.now }
{
    network::is_within(n.inputs, n.outputs, n.divisors, &n.counts) && reaches(n)
}

// The same of a network by value.
pub fn is_listable(n: Network) -> bool
    ensures { result ≡ listable n }
{
    lists(&n)
}

// No number listed.
fn nothing() -> Listed
    ensures { PaddedList [] result.count result.order }
{
    Listed {
        count: 0,
        order: [0u32; network::MOST_VARIABLES],
    }
}

// The listing of the divisors, where the limits are kept and every literal is of a variable; else nothing.
pub fn listing(n: Network) -> Listed
    ensures { result ≡ listed_of n }
{
    if lists(&n) { list(&n) } else { nothing() }
}
