// Every co-kernel of a lent expression, in cube order.
#![tactic(auto)]

ghost use Rattle.std.specs.Prelude.{◌≡◌, MatchOption, ◌&&◌, ◌+◌, ◌-◌, ◌*◌, ◌<◌, ◌≤◌, leb};
ghost use Rattle.sets.specs.Word.{largest};
ghost use Rattle.sets.specs.Lists.{all};
ghost use Rattle.sets.specs.Sets.{without, meet, same};
ghost use Rattle.cube.specs.Cube.{width, lits};
ghost use Rattle.expression.specs.Words.{cubes_of};
ghost use Rattle.cokernel.specs.Cokernels.{beyond, cokernels};
ghost use Rattle.cokernel.specs.Answers.{refused_by, Told};
ghost use Rattle.cokernel.specs.Parts.{only, Shared, Branched, Walks, Walked};

use cube::{Cube, Literal};
use expression::Verdict;

// The fewest cubes that contain a co-kernel.
const FEWEST: usize = 2;

#[derive(Clone, Copy)]
pub enum Listed {
    All(usize),
    Refused(u32),
}

// How many cubes contain a cube, and the literals that are common to all those.
#[derive(Clone, Copy)]
struct Closure {
    number: usize,
    common: Cube,
}

// A cube with one literal more: closed, whether it opens a branch, and whether it is a co-kernel.
#[derive(Clone, Copy)]
struct Branch {
    cube: Cube,
    common: Cube,
    opened: bool,
    closed: bool,
}

// What d has in common with cubes whose common part is m, if there are any.
fn narrowed(m: Option<Cube>, d: Cube) -> Cube
    ensures { MatchOption m (lits result ≡ lits d) (λ x. lits result ≡ meet (lits d) (lits x)) }
{
    m.map_or(d, |x| cube_sets::common(d, x))
}

// Closes c in one pass, from the last cube to the first.
fn close(f: &[u64], c: Cube) -> Closure
    ensures { Shared (cubes_of f.now) (lits c) result.number (lits result.common) }
{
    let mut number = 0;
    let mut m = None;
    for i in (0..expression::number(f)).rev() {
        let d = expression::cube_at(f, i);
        if cube_sets::contains(d, c) {
            m = Some(narrowed(m, d));
            number += 1;
        }
    }
    Closure {
        number,
        common: m.unwrap_or(cube::empty()),
    }
}

// Whether m has no literal below j that c lacks.
fn agrees(m: Cube, c: Cube, j: u32) -> bool
    ensures { result ≡ all (leb j) (without (lits m) (lits c)) }
{
    // The least alone tells: the others are above it.
    match cube_order::first_from(cube_sets::without(m, c), Literal(0)) {
        Some(l) => j <= l.0,
        None => true,
    }
}

// Whether c, which s closes, is a co-kernel.
fn is_closed(s: Closure, c: Cube) -> bool
    ensures { result ≡ (leb 2 s.number && same (lits s.common) (lits c)) }
{
    FEWEST <= s.number && cube_sets::same(s.common, c)
}

// Whether c, which s closes, opens a branch: no co-kernel goes beyond it where closing adds a literal below j, its last one.
fn is_open(s: Closure, c: Cube, j: u32) -> bool
    ensures { result ≡ (leb 2 s.number && all (leb j) (without (lits s.common) (lits c))) }
{
    FEWEST <= s.number && agrees(s.common, c, j)
}

// The cube with p's literals and j, closed.
fn branch_at(f: &[u64], p: Cube, j: u32) -> Branch
    requires { j < 2 * width }
    ensures { Branched (cubes_of f.now) (lits p) j (lits result.cube) (lits result.common) result.opened result.closed }
{
    let q = cube::with(p, Literal(j));
    let s = close(f, q);
    Branch {
        cube: q,
        common: s.common,
        opened: is_open(s, q, j),
        closed: is_closed(s, q),
    }
}

// The cube c at place i, if it is wanted and there is such a place; the place after it.
fn put_if(o: &mut [u64], i: usize, c: Cube, wanted: bool) -> usize
    requires { i < largest }
    ensures { Walked o.old o.new (i + 1) i (only wanted (lits c)) result }
{
    if !wanted {
        return i;
    }
    expression::put_cube(o, i, c);
    i + 1
}

// The co-kernels that have p's literals below j and go on from there, into o from place i on: the place after them, where counting stops
// at most. m is what the cubes above p have in common, and where it has j, so has each of these. So every call stands for a co-kernel, m,
// and two at one literal for different ones (`alive-apart`): one answer costs at most a pass over the cubes for each literal.
fn list_beyond(f: &[u64], p: Cube, m: Cube, j: u32, o: &mut [u64], i: usize, most: usize) -> usize
    requires walks { Walks (cubes_of f.now) (lits p) (lits m) j }
    requires few { i ≤ most }
    ensures { Walked o.old o.new most i (beyond (2 * width - j) (cubes_of f.now) (lits p) j) result }
{
    if j == cube::LITERALS {
        return i;
    }
    if i == most {
        return i;
    }
    let b = branch_at(f, p, j);
    let mut at = i;
    if b.opened {
        let next = put_if(o, i, b.cube, b.closed);
        at = list_beyond(f, b.cube, b.common, j + 1, o, next, most);
    }
    if cube::has(m, Literal(j)) {
        return at;
    }
    list_beyond(f, p, m, j + 1, o, at, most)
}

// All of them into o, the empty cube first, if it is one: their number, where counting stops at most.
fn list_all(f: &[u64], o: &mut [u64], most: usize) -> usize
    requires { 0 < most }
    ensures { Walked o.old o.new most 0 (cokernels (cubes_of f.now)) result }
{
    let none = cube::empty();
    let s = close(f, none);
    let closed = is_closed(s, none);
    let next = put_if(o, 0, none, closed);
    list_beyond(f, none, s.common, 0, o, next, most)
}

// Every co-kernel of f, in cube order, into the room o, and their number; they are counted with no room first.
pub fn cokernels(f: &[u64], o: &mut [u64]) -> Listed
    ensures { Told (refused_by f.now o.old) f.now o.old o.new result }
{
    let v = expression_accept::accept(f);
    if let Verdict::Refused(k) = v {
        return Listed::Refused(k);
    }
    let room = expression::number(o);
    let most = room + 1;
    let n = list_all(f, &mut [], most);
    if room < n {
        return Listed::Refused(9);
    }
    list_all(f, o, most);
    Listed::All(n)
}
