// The sums of every two cubes of a node. The partners of a cube are found by what is left of it without one or two of its literals.
#![tactic(auto)]

ghost use Rattle.std.specs.Prelude.{◌≡◌, true, ◌∷◌, [], map, suc, ◌+◌, ◌*◌, ◌<◌, ◌≤◌, length, get_or, take};
ghost use Rattle.sets.specs.Lists.{total};
ghost use Rattle.cube.specs.Cube.{width, lits};
ghost use Rattle.expression.specs.Words.{cubes_of};
ghost use Rattle.extract_gains.specs.Gains.{Turns, none};
ghost use Rattle.extract_counts.specs.Counts.{sums_gain};
ghost use Rattle.extract_partners.specs.Removal.{removals, is_short};
ghost use Rattle.extract_partners.specs.Table.{removal_of, part_at, left_at, removals_from, use_gain, Listed, code_of, Chained, Entered, Enters};

use cube::{Cube, Literal};
use cube_order::Literals;

const TABLE_WORDS: usize = extract_gains::TABLE_WORDS;

const MOST_ENTRIES: usize = extract_gains::MOST_ENTRIES;

// The most removals of a node that is searched by them.
const MOST_REMOVALS: usize = 16384;

// The place of the first removal: before it stand the heads of the chains. A removal has a link and a code.
const FIRST_REMOVAL: usize = 4096;

const REMOVAL_WORDS: usize = FIRST_REMOVAL + 2 * MOST_REMOVALS;

// ---- the removals of a node

// The removals of a cube: one or two of its literals.
fn removals_of(c: Cube) -> usize
    ensures { result ≡ length (removals (lits c)) }
{
    let n = cube_sets::count(c) as usize;
    n * (n + 1) / 2
}

// The rule by which a node is searched by removal: there is room, and nine times its removals are at most twice its pairs of cubes.
fn is_short(f: &[u64]) -> bool
    ensures { result ≡ is_short (cubes_of f.now) }
{
    let k = expression::number(f);
    if k > MOST_REMOVALS {
        return false;
    }
    let mut n = 0;
    for c in expression::each(f) {
        n += removals_of(c);
        if n > MOST_REMOVALS {
            return false;
        }
    }
    9 * n + k <= k * k
}

// The removals of p and each of the greater literals are listed from place `at` on: the place after them.
fn list_pairs(ws: &mut [u32], at: usize, j: usize, p: Literal, greater: Literals) -> usize
    requires { (j < 65536) × (p.0 < 2 * width) × (at + length (lits greater.rest) ≤ length ws.old) }
    ensures { Listed ws.old ws.new at (map (λ q. removal_of j (p.0 ∷ q ∷ [])) (lits greater.rest)) result }
{
    let base = 65536 * j as u32 + 256 * p.0;
    let mut n = at;
    for q in greater {
        ws[n] = base + q.0;
        n += 1;
    }
    n
}

// The removals of c, the cube at place j.
fn list_cube(ws: &mut [u32], at: usize, j: usize, c: Cube) -> usize
    requires { (j < 65536) × (at + length (removals (lits c)) ≤ length ws.old) }
    ensures { Listed ws.old ws.new at (map (removal_of j) (removals (lits c))) result }
{
    let mut n = at;
    let mut rest = cube_order::each(c);
    // No `for`: each turn needs those that are left.
    while let Some(p) = rest.next() {
        ws[n] = 65536 * j as u32 + 257 * p.0;
        n = list_pairs(ws, n + 1, j, p, rest);
    }
    n
}

// The removals of all cubes.
fn list_node(ws: &mut [u32], f: &[u64]) -> usize
    requires { (length (cubes_of f.now) ≤ 65536) × (length (removals_from 0 (cubes_of f.now)) ≤ length ws.old) }
    ensures { Listed ws.old ws.new 0 (removals_from 0 (cubes_of f.now)) result }
{
    let mut n = 0;
    for j in 0..expression::number(f) {
        n = list_cube(ws, n, j, expression::cube_at(f, j));
    }
    n
}

// The part of a removal.
fn part_at(w: u32) -> Cube
    ensures { lits result ≡ part_at w }
{
    extract_keys::part_of(w % 65536)
}

// What is left of its cube.
fn left_at(f: &[u64], w: u32) -> Cube
    ensures { lits result ≡ left_at (cubes_of f.now) w }
{
    cube_sets::without(expression::cube_at(f, (w / 65536) as usize), part_at(w))
}

// ---- the search

// Two removals that leave the same and share no literal are a use of the sum of their parts.
fn count_use(t: &mut [u32; TABLE_WORDS], g: &mut [u16; MOST_ENTRIES], f: &[u64], v: u32, w: u32)
    requires { 0 < length (part_at w) }
    ensures { Turns t.old g.old t.new g.new none (λ k. use_gain (cubes_of f.now) k v w) }
{
    let left = left_at(f, w);
    if !cube_sets::same(left_at(f, v), left) {
        return;
    }
    let a = part_at(v);
    let b = part_at(w);
    if !cube_sets::is_empty(cube_sets::common(a, b)) {
        return;
    }
    let by = cube_sets::count(left) + (cube_sets::count(a) + cube_sets::count(b) - 1);
    extract_gains::put(t, g, extract_keys::sum_key(a, b), by as u16);
}

// The code of what is left. It decides how long a search takes, and nothing else.
fn code_of(c: Cube) -> u32
    ensures { result ≡ code_of (lits c) }
{
    let x = c.plain % 4294967291 * 1000000007;
    let y = c.negated % 4294967279 * 2000000011;
    ((x + y) / 16777216 % 4294967296) as u32
}

// Removal e of a code is met with each of the earlier ones, by its chain.
fn count_partners(
    t: &mut [u32; TABLE_WORDS],
    g: &mut [u16; MOST_ENTRIES],
    f: &[u64],
    ws: &[u32],
    r: &[u32; REMOVAL_WORDS],
    e: usize,
    code: u32,
)
    requires { Entered (cubes_of f.now) ws.now r.now e × (e < length ws.now) × (length ws.now ≤ 16384)
        × (code ≡ code_of (left_at (cubes_of f.now) (get_or ws.now e 0))) × (0 < length (part_at (get_or ws.now e 0))) }
    ensures { Turns t.old g.old t.new g.new none
        (λ k. total (λ v. use_gain (cubes_of f.now) k v (get_or ws.now e 0)) (take e ws.now)) }
{
    let w = ws[e];
    let mut at = r[code as usize % FIRST_REMOVAL] as usize;
    // By links: each place is read at the one before it.
    while at >= FIRST_REMOVAL {
        if r[at + 1] == code {
            count_use(t, g, f, ws[(at - FIRST_REMOVAL) / 2], w);
        }
        at = r[at] as usize;
    }
}

// Removal e is entered into the chain of its code.
fn enter(r: &mut [u32; REMOVAL_WORDS], e: usize, code: u32)
    requires { Chained r.old e × (e < 16384) }
    ensures { Enters r.old r.new e code }
{
    let at = FIRST_REMOVAL + 2 * e;
    let h = code as usize % FIRST_REMOVAL;
    r[at] = r[h];
    r[at + 1] = code;
    r[h] = at as u32;
}

// Removal e: it is met with the earlier ones, and entered.
fn count_removal(
    t: &mut [u32; TABLE_WORDS],
    g: &mut [u16; MOST_ENTRIES],
    f: &[u64],
    ws: &[u32],
    r: &mut [u32; REMOVAL_WORDS],
    e: usize,
)
    requires { Entered (cubes_of f.now) ws.now r.old e × (e < length ws.now) × (length ws.now ≤ 16384)
        × (0 < length (part_at (get_or ws.now e 0))) }
    ensures { Turns t.old g.old t.new g.new none
        (λ k. total (λ v. use_gain (cubes_of f.now) k v (get_or ws.now e 0)) (take e ws.now))
        × Entered (cubes_of f.now) ws.now r.new (suc e) }
{
    let code = code_of(left_at(f, ws[e]));
    count_partners(t, g, f, ws, r, e, code);
    enter(r, e, code);
}

// ---- the sums

// By removal.
fn count_short(t: &mut [u32; TABLE_WORDS], g: &mut [u16; MOST_ENTRIES], f: &[u64])
    requires { is_short (cubes_of f.now) ≡ true }
    ensures { Turns t.old g.old t.new g.new none (λ k. sums_gain k (cubes_of f.now)) }
{
    let mut ws = [0u32; MOST_REMOVALS];
    let mut r = [0u32; REMOVAL_WORDS];
    let n = list_node(&mut ws, f);
    for e in 0..n {
        count_removal(t, g, f, &ws, &mut r, e);
    }
}

// By comparing each cube with those after it.
fn count_long(t: &mut [u32; TABLE_WORDS], g: &mut [u16; MOST_ENTRIES], f: &[u64])
    ensures { Turns t.old g.old t.new g.new none (λ k. sums_gain k (cubes_of f.now)) }
{
    let n = expression::number(f);
    for i in 0..n {
        extract_rows::count_row(
            t,
            g,
            true,
            expression::cube_at(f, i),
            expression::part(f, i + 1, n),
        );
    }
}

// All sums of every two cubes of a node.
pub fn count_sums(t: &mut [u32; TABLE_WORDS], g: &mut [u16; MOST_ENTRIES], f: &[u64])
    ensures { Turns t.old g.old t.new g.new none (λ k. sums_gain k (cubes_of f.now)) }
{
    if is_short(f) {
        count_short(t, g, f);
    } else {
        count_long(t, g, f);
    }
}
