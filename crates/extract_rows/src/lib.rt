// A cube with each of some others: the gains of its divisors are put into the table, or taken out of it.
#![tactic(auto)]

ghost use Rattle.std.specs.Prelude.{◌≡◌, ◌+◌, ◌*◌, ◌<◌};
ghost use Rattle.cube.specs.Cube.{width, lits};
ghost use Rattle.expression.specs.Words.{cubes_of};
ghost use Rattle.extract_laws.specs.Divisor.{small};
ghost use Rattle.extract_gains.specs.Gains.{only};
ghost use Rattle.extract_counts.specs.Counts.{pairs_gain, two_gain, row_gain};
ghost use Rattle.extract_rows.specs.Parts.{Counts, pairs_with};

use cube::{Cube, Literal};
use cube_order::Literals;

const TABLE_WORDS: usize = extract_gains::TABLE_WORDS;

const MOST_ENTRIES: usize = extract_gains::MOST_ENTRIES;

// ---- a cube

// A use is put in, or taken out.
fn count_use(t: &mut [u32; TABLE_WORDS], g: &mut [u16; MOST_ENTRIES], up: bool, key: u32, by: u16)
    ensures { Counts up t.old g.old t.new g.new (only key by) }
{
    if up {
        extract_gains::put(t, g, key, by);
    } else {
        extract_gains::take(t, g, key, by);
    }
}

// The pairs of p and each of some others.
fn count_pairs_of(
    t: &mut [u32; TABLE_WORDS],
    g: &mut [u16; MOST_ENTRIES],
    up: bool,
    p: Literal,
    others: Literals,
)
    requires { p.0 < 2 * width }
    ensures { Counts up t.old g.old t.new g.new (λ k. pairs_with k p.0 (lits others.rest)) }
{
    for q in others {
        count_use(t, g, up, extract_keys::pair_key(p, q), 1);
    }
}

// The pairs of literals of c.
pub fn count_pairs(t: &mut [u32; TABLE_WORDS], g: &mut [u16; MOST_ENTRIES], up: bool, c: Cube)
    ensures { Counts up t.old g.old t.new g.new (λ k. pairs_gain k (lits c)) }
{
    let mut rest = cube_order::each(c);
    // No `for`: each turn needs those that are left.
    while let Some(p) = rest.next() {
        count_pairs_of(t, g, up, p, rest);
    }
}

// One or two literals.
#[tactic(auto, unfolding(extract_laws::specs::Divisor::small))]
fn is_small(a: Cube) -> bool
    ensures { result ≡ small (lits a) }
{
    matches!(cube_sets::count(a), 1 | 2)
}

// Two cubes of one node are partners where each has one or two literals that the other lacks: a use of their sum, which gains the
// literals of the common base, and one less than those of the two parts.
fn count_two(t: &mut [u32; TABLE_WORDS], g: &mut [u16; MOST_ENTRIES], up: bool, c: Cube, d: Cube)
    ensures { Counts up t.old g.old t.new g.new (λ k. two_gain k (lits c) (lits d)) }
{
    let a = cube_sets::without(c, d);
    if !is_small(a) {
        return;
    }
    let b = cube_sets::without(d, c);
    if !is_small(b) {
        return;
    }
    let base = cube_sets::count(cube_sets::common(c, d));
    let by = base + (cube_sets::count(a) + cube_sets::count(b) - 1);
    count_use(t, g, up, extract_keys::sum_key(a, b), by as u16);
}

// A cube and each of some others.
pub fn count_row(
    t: &mut [u32; TABLE_WORDS],
    g: &mut [u16; MOST_ENTRIES],
    up: bool,
    c: Cube,
    s: &[u64],
)
    ensures { Counts up t.old g.old t.new g.new
        (λ k. row_gain k (lits c) (cubes_of s.now)) }
{
    for d in expression::each(s) {
        count_two(t, g, up, c, d);
    }
}

// A cube that comes to a node of the cubes of a and of b, or goes from it.
pub fn count_cube(
    t: &mut [u32; TABLE_WORDS],
    g: &mut [u16; MOST_ENTRIES],
    up: bool,
    c: Cube,
    a: &[u64],
    b: &[u64],
)
    ensures { Counts up t.old g.old t.new g.new
        (λ k. pairs_gain k (lits c) + (row_gain k (lits c) (cubes_of a.now) + row_gain k (lits c) (cubes_of b.now))) }
{
    count_pairs(t, g, up, c);
    count_row(t, g, up, c, a);
    count_row(t, g, up, c, b);
}
