// Networks evaluated on one setting of their inputs.
#![tactic(auto)]

ghost use Rattle.std.specs.Prelude.{◌≡◌, true, [], map, ◌<◌, ◌≤◌, get_or};
ghost use Rattle.sets.specs.Sets.{insert};
ghost use Rattle.sets.specs.Masks.{bit, packed};
ghost use Rattle.cube.specs.Cube.{lits};
ghost use Rattle.expression.specs.Words.{cubes_of};
ghost use Rattle.network_known.specs.Known.{signed, some_within, Truths};
ghost use Rattle.network_nodes.specs.Nodes.{cut};
ghost use Rattle.network.specs.Evaluation.{evaluate};
ghost use Rattle.network.specs.Held.{net_of, rules, most_variables, most_outputs, place_at};
ghost use Rattle.network.specs.Listing.{listing};
ghost use Rattle.network.specs.Answers.{evaluated};
ghost use Rattle.network.specs.Parts.{Limited};
ghost use Rattle.network_evaluate.specs.Parts.{settled_in};

use cube::Cube;
use expression::Verdict;
use network::{Network, Number};

// The literals of n inputs that have value 1 on a setting.
fn given(n: usize, setting: u64) -> Cube
    requires { n ≤ most_variables }
    ensures { Truths n [] (bit setting) (lits result) }
{
    let mut c = cube::empty();
    for v in 0..n {
        c = network_known::valued(c, v, (setting >> v) & 1 == 1);
    }
    c
}

// The divisor of number v takes its value.
fn step(n: &Network, v: usize, t: Cube) -> Cube
    requires { (n.now.outputs ≤ most_outputs) × (v < most_variables) }
    ensures { lits result ≡ insert
        (signed v (some_within (lits t) (get_or (cut n.now.counts (cubes_of n.now.words)) (place_at n.now.inputs n.now.outputs v) [])))
        (lits t) }
{
    let i = network::place_of(n.inputs, n.outputs, v);
    let b = network_known::within(network_nodes::node(&n.words, &n.counts, i), t, false);
    network_known::valued(t, v, b)
}

// The listed divisors take their values, one after the other: the literals that have value 1.
fn settle(n: &Network, order: &[u32], inputs: Cube) -> Cube
    requires { Limited n.now × (order.now ≡ listing (net_of n.now)) }
    ensures { lits result ≡ settled_in (net_of n.now) order.now (lits inputs) }
{
    let mut t = inputs;
    for v in order {
        t = step(n, *v as usize, t);
    }
    t
}

// The values of the outputs where the literals of t have value 1: output j is bit j.
fn collect(n: &Network, t: Cube) -> u64
    requires { Limited n.now }
    ensures { result ≡ packed (map (some_within (lits t)) (net_of n.now).outputs) }
{
    let mut r = 0;
    for i in (0..n.outputs).rev() {
        let f = network_nodes::node(&n.words, &n.counts, i);
        r = 2 * r + u64::from(network_known::within(f, t, false));
    }
    r
}

// The outputs of a network by the rules on a setting.
fn value(n: &Network, setting: u64) -> u64
    requires { rules n.now ≡ true }
    ensures { result ≡ evaluate (net_of n.now) setting }
{
    let l = network_listing::listing(*n);
    let order = &l.order[..l.count];
    let t = settle(n, order, given(n.inputs, setting));
    collect(n, t)
}

// The outputs on one setting: input i is bit i, output j bit j of the answer.
pub fn evaluate(n: Network, setting: u64) -> Number
    ensures { result ≡ evaluated n setting }
{
    let j = network_rules::judge(n);
    let Verdict::Accepted = j else {
        return Number::No(10);
    };
    Number::Is(value(&n, setting))
}
