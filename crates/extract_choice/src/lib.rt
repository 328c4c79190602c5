// The choice of the best divisor, by the table that holds the gains of all divisors.
#![tactic(auto)]

ghost use Rattle.std.specs.Prelude.{◌≡◌, true, ◌<◌, ◌≤◌, length, pos, ◌-ℤ◌};
ghost use Rattle.std.specs.Int.Signed.{lt_z};
ghost use Rattle.sets.specs.Lists.{total};
ghost use Rattle.cube.specs.Cube.{lits};
ghost use Rattle.expression.specs.Words.{cubes_of};
ghost use Rattle.expression.specs.Expression.{ordered};
ghost use Rattle.network.specs.Net.{nodes};
ghost use Rattle.network.specs.Held.{net_of, most_cubes};
ghost use Rattle.extract_laws.specs.Divisor.{sum, uses};
ghost use Rattle.extract_tidy.specs.Tidy.{arranged};
ghost use Rattle.extract_divisor.specs.Divisor.{divisor_of, weighed_of};
ghost use Rattle.extract_gains.specs.Gains.{many};
ghost use Rattle.extract_counts.specs.Counts.{Says};
ghost use Rattle.extract_choice.specs.Choice.{Chosen, chosen_in};
ghost use Rattle.extract_choice.specs.Parts.{offered, picked, best_below, Modest, Counted};

use cube::Cube;
use extract_divisor::{Divisor, Step};
use network::Network;

const TABLE_WORDS: usize = extract_gains::TABLE_WORDS;

const MOST_ENTRIES: usize = extract_gains::MOST_ENTRIES;

// ---- the table

// A gain less a cost, which may be below 0.
fn weight_of(gain: u16, cost: u32) -> i32
    requires { cost < 65536 }
    ensures { result ≡ pos gain -ℤ pos cost }
{
    i32::from(gain) - cost as i32
}

// The better of the step that is held and that of a key with so much gain. Its uses are left for later.
fn offer(held: Step, key: u32, gain: u16) -> Step
    ensures { weighed_of result ≡ picked (weighed_of held) (offered key gain) }
{
    let weight = weight_of(gain, extract_keys::cost(key));
    if weight < held.weight {
        return held;
    }
    let s = Step {
        divisor: extract_keys::divisor_of(key),
        weight,
        uses: 0,
    };
    extract_rank::better_of(held, s)
}

// The best of all entries, in turn. A gain is more than the weight that it leaves.
fn scan(t: &[u32; TABLE_WORDS], g: &[u16; MOST_ENTRIES]) -> Step
    ensures { (weighed_of result ≡ best_below t.now g.now (many t.now)) × Modest result.weight }
{
    let mut held = extract_divisor::no_step();
    for e in 0..extract_gains::number(t) {
        let gain = extract_gains::gain_at(g, e);
        if i32::from(gain) > held.weight {
            held = offer(held, extract_gains::key_at(t, e), gain);
        }
    }
    held
}

// ---- uses

// The uses of a sum in one node.
fn count_in(s: &[u64], a: Cube, b: Cube) -> u32
    requires { (length (cubes_of s.now) ≤ most_cubes) × (ordered (cubes_of s.now) ≡ true) }
    ensures { result ≡ uses (sum (lits a) (lits b)) (cubes_of s.now) }
{
    let mut r: u32 = 0;
    for c in expression::each(s) {
        if extract_divisor::is_use(s, c, a, b) {
            r += 1;
        }
    }
    r
}

// The uses of a sum in all nodes, the same base in two nodes twice.
fn count_all(n: &Network, a: Cube, b: Cube) -> u32
    requires { arranged n.now ≡ true }
    ensures { result ≡ total (uses (sum (lits a) (lits b))) (nodes (net_of n.now)) }
{
    let e = n.outputs + n.divisors;
    let mut r: u32 = 0;
    for f in network_nodes::each(&n.words, &n.counts[..e]) {
        r += count_in(f, a, b);
    }
    r
}

// The uses of a pair with a weight above 0: it gains one for each, and costs two.
fn pair_uses(weight: i32) -> u32
    requires { (lt_z (pos 0) weight ≡ true) × Modest weight }
    ensures { pos result -ℤ pos 2 ≡ weight }
{
    weight as u32 + 2
}

// The uses of the divisor of a step whose weight is above 0.
fn uses_of(n: &Network, s: Step) -> u32
    requires { (arranged n.now ≡ true) × (lt_z (pos 0) s.weight ≡ true) × Modest s.weight }
    ensures { Counted (nodes (net_of n.now)) (divisor_of s.divisor) s.weight result }
{
    match s.divisor {
        Divisor::Pair(_, _) => pair_uses(s.weight),
        Divisor::Sum(a, b) => count_all(n, a, b),
    }
}

// ---- the choice

// The best divisor of a network in cube order of which the table says the gains, if its weight is above 0; else a step of zeros.
pub fn best(t: &[u32; TABLE_WORDS], g: &[u16; MOST_ENTRIES], n: Network) -> Step
    ensures { (arranged n ≡ true → Says t.now g.now (nodes (net_of n))) → Chosen (chosen_in n) result }
{
    if !extract_tidy::is_arranged(n) {
        return extract_divisor::no_step();
    }
    let s = scan(t, g);
    if s.weight <= 0 {
        return extract_divisor::no_step();
    }
    Step {
        divisor: s.divisor,
        weight: s.weight,
        uses: uses_of(&n, s),
    }
}
