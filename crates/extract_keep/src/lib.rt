// The gains of all divisors of a network, kept from step to step: a cube that goes is taken out, one that comes is put in.
#![tactic(auto)]

ghost use Rattle.std.specs.Prelude.{◌≡◌, true, ◌+◌, ◌<◌, ◌≤◌, [], length, get_or};
ghost use Rattle.sets.specs.Word.{largest};
ghost use Rattle.expression.specs.Words.{cubes_of};
ghost use Rattle.network.specs.Net.{nodes};
ghost use Rattle.network.specs.Parts.{nodes_of};
ghost use Rattle.network.specs.Held.{net_of};
ghost use Rattle.network.specs.Handed.{Shaped};
ghost use Rattle.extract_tidy.specs.Tidy.{arranged};
ghost use Rattle.extract_gains.specs.Gains.{Turns, none};
ghost use Rattle.extract_counts.specs.Counts.{node_gain, net_gain};
ghost use Rattle.extract_keep.specs.Keep.{Knows, Kept};
ghost use Rattle.extract_keep.specs.Parts.{Shifts, between, Turn};

use network::Network;
use std::cmp::Ordering;

const TABLE_WORDS: usize = extract_gains::TABLE_WORDS;

const MOST_ENTRIES: usize = extract_gains::MOST_ENTRIES;

// ---- a table anew

// The cubes of a node come to a table that has none of it.
fn fill_node(t: &mut [u32; TABLE_WORDS], g: &mut [u16; MOST_ENTRIES], f: &[u64])
    ensures { Turns t.old g.old t.new g.new none (λ k. node_gain k (cubes_of f.now)) }
{
    for c in expression::each(f) {
        extract_rows::count_pairs(t, g, true, c);
    }
    extract_partners::count_sums(t, g, f);
}

// The cubes of all nodes.
fn fill_nodes(t: &mut [u32; TABLE_WORDS], g: &mut [u16; MOST_ENTRIES], n: &Network)
    requires { arranged n.now ≡ true }
    ensures { Turns t.old g.old t.new g.new
        none (λ k. net_gain k (nodes_of (n.now.outputs + n.now.divisors) n.now.counts n.now.words)) }
{
    let e = n.outputs + n.divisors;
    for f in network_nodes::each(&n.words, &n.counts[..e]) {
        fill_node(t, g, f);
    }
}

// The table says the gains of a network, whatever it said before.
pub fn fill(t: &mut [u32; TABLE_WORDS], g: &mut [u16; MOST_ENTRIES], n: Network)
    ensures { Knows t.new g.new n }
{
    extract_gains::clear(t, g);
    if extract_tidy::is_arranged(n) {
        fill_nodes(t, g, &n);
    }
}

// ---- a table kept

// Which cube is next: one of a goes where it is before that of b, one of b comes where it is before that of a, and the same one stays. Any order
// would do.
fn next_of(a: &[u64], i: usize, b: &[u64], j: usize) -> Option<Ordering>
    ensures turn { Turn (cubes_of a.now) i (cubes_of b.now) j result }
    ensures fits { (length (cubes_of a.now) ≤ largest) × (length (cubes_of b.now) ≤ largest) }
{
    match (i < expression::number(a), j < expression::number(b)) {
        (true, true) => {
            let c = expression::cube_at(a, i);
            let d = expression::cube_at(b, j);
            Some(cube_order::compare(c, d))
        }
        (true, false) => Some(Ordering::Less),
        (false, true) => Some(Ordering::Greater),
        (false, false) => None,
    }
}

// Cube i of a goes.
fn take_out(
    t: &mut [u32; TABLE_WORDS],
    g: &mut [u16; MOST_ENTRIES],
    a: &[u64],
    i: usize,
    b: &[u64],
    j: usize,
)
    requires { i < length (cubes_of a.now) }
    ensures { Shifts t.old g.old t.new g.new
        (λ k. node_gain k (between (cubes_of a.now) i (cubes_of b.now) j))
        (λ k. node_gain k (between (cubes_of a.now) (i + 1) (cubes_of b.now) j)) }
{
    let n = expression::number(a);
    extract_rows::count_cube(
        t,
        g,
        false,
        expression::cube_at(a, i),
        expression::part(b, 0, j),
        expression::part(a, i + 1, n),
    );
}

// Cube j of b comes.
fn put_in(
    t: &mut [u32; TABLE_WORDS],
    g: &mut [u16; MOST_ENTRIES],
    a: &[u64],
    i: usize,
    b: &[u64],
    j: usize,
)
    requires { j < length (cubes_of b.now) }
    ensures { Shifts t.old g.old t.new g.new
        (λ k. node_gain k (between (cubes_of a.now) i (cubes_of b.now) j))
        (λ k. node_gain k (between (cubes_of a.now) i (cubes_of b.now) (j + 1))) }
{
    let n = expression::number(a);
    extract_rows::count_cube(
        t,
        g,
        true,
        expression::cube_at(b, j),
        expression::part(b, 0, j),
        expression::part(a, i, n),
    );
}

// A node that had the cubes of a has those of b.
fn renew_node(t: &mut [u32; TABLE_WORDS], g: &mut [u16; MOST_ENTRIES], a: &[u64], b: &[u64])
    ensures { Shifts t.old g.old t.new g.new
        (λ k. node_gain k (cubes_of a.now)) (λ k. node_gain k (cubes_of b.now)) }
{
    let mut i = 0;
    let mut j = 0;
    // By two places: a turn moves either or both.
    while let Some(o) = next_of(a, i, b, j) {
        match o {
            Ordering::Less => {
                take_out(t, g, a, i, b, j);
                i += 1;
            }
            Ordering::Equal => {
                i += 1;
                j += 1;
            }
            Ordering::Greater => {
                put_in(t, g, a, i, b, j);
                j += 1;
            }
        }
    }
}

// Node i, or no cubes where there is none.
fn node_of(n: &Network, i: usize) -> &[u64]
    requires { arranged n.now ≡ true }
    ensures { cubes_of result.now ≡ get_or (nodes (net_of n.now)) i [] }
{
    if i < n.outputs + n.divisors {
        network_nodes::node(&n.words, &n.counts, i)
    } else {
        &[]
    }
}

// The nodes of one network become those of another.
fn renew_nodes(
    t: &mut [u32; TABLE_WORDS],
    g: &mut [u16; MOST_ENTRIES],
    old: &Network,
    new: &Network,
)
    requires { Shaped old.now × Shaped new.now × (arranged old.now ≡ true) × (arranged new.now ≡ true) }
    ensures { Shifts t.old g.old t.new g.new
        (λ k. net_gain k (nodes (net_of old.now))) (λ k. net_gain k (nodes (net_of new.now))) }
{
    for i in 0..network::NODE_SLOTS {
        renew_node(t, g, node_of(old, i), node_of(new, i));
    }
}

// The table said the gains of one network, and says those of another: cubes that go are taken out, cubes that come are put in. Where it has no room
// for that, it is filled anew.
pub fn renew(t: &mut [u32; TABLE_WORDS], g: &mut [u16; MOST_ENTRIES], old: Network, new: Network)
    ensures { Kept t.old g.old old → Knows t.new g.new new }
{
    if !extract_tidy::is_arranged(old) {
        fill(t, g, new);
        return;
    }
    if !extract_tidy::is_arranged(new) {
        return;
    }
    renew_nodes(t, g, &old, &new);
    if extract_gains::number(t) >= MOST_ENTRIES {
        fill(t, g, new);
    }
}
