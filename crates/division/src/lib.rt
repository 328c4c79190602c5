// Weak division of lent expressions. The dividend is put in cube order first, so that a cube of it is found by halving.
#![tactic(auto)]

ghost use Rattle.std.specs.Prelude.{◌≡◌, true, ◌&&◌, ◌≤◌, List, map, length};
ghost use Rattle.std.specs.Iterator.{UpTo, Drains};
ghost use Rattle.cube.specs.declared.Cube.{Cube};
ghost use Rattle.sets.specs.Sets.{sub, apart, union, without};
ghost use Rattle.cube.specs.Cube.{lits};
ghost use Rattle.expression.specs.Words.{cubes_of, Appends};
ghost use Rattle.expression.specs.Expression.{has, sort, ordered};
ghost use Rattle.expression.specs.Answers.{refusal_of};
ghost use Rattle.division.specs.Division.{in_quotient};
ghost use Rattle.division.specs.Answers.{either, Divided};
ghost use Rattle.division.specs.Parts.{no_cubes, admitted, OrderedRoom, unsorted_quotient, spared, spared_of, HandedOver};

use cube::Cube;
use expression::Verdict;

#[derive(Clone, Copy)]
pub enum Division {
    Done(usize, usize),
    Refused(u32),
}

// The refusal of either, the smaller number first.
fn lesser(a: Verdict, b: Verdict) -> Verdict
    ensures { refusal_of result ≡ either (refusal_of a) (refusal_of b) }
{
    let Verdict::Refused(k) = a else {
        return b;
    };
    let Verdict::Refused(l) = b else {
        return a;
    };
    if l < k {
        return b;
    }
    a
}

// 8 for a divisor with no cubes.
fn accept_divisor(d: &[u64]) -> Verdict
    ensures { refusal_of result ≡ no_cubes d.now }
{
    if expression::number(d) == 0 {
        return Verdict::Refused(8);
    }
    Verdict::Accepted
}

// 6 for either one, 7 for either one, then 8.
fn admit(f: &[u64], d: &[u64]) -> Verdict
    ensures { refusal_of result ≡ admitted f.now d.now }
{
    let a = expression_accept::accept(f);
    let b = expression_accept::accept(d);
    let both = lesser(a, b);
    let Verdict::Accepted = both else {
        return both;
    };
    accept_divisor(d)
}

// The cubes of s at the front of `to`, in cube order, and their number.
fn copy_sorted(s: &[u64], to: &mut [u64]) -> usize
    requires { length (cubes_of s.now) ≤ length (cubes_of to.old) }
    ensures { Appends to.old to.new 0 (sort (cubes_of s.now)) result }
{
    let n = expression::number(s);
    expression::copy(s, 0, n, to, 0);
    expression_sort::sort_part(to, 0, n);
    n
}

// Whether c is one of the cubes, which stand in cube order.
fn holds(s: &[u64], c: Cube) -> bool
    requires { ordered (cubes_of s.now) ≡ true }
    ensures { result ≡ has (lits c) (cubes_of s.now) }
{
    expression_survey::find(s, c).is_some()
}

// Whether c and b share no literal and their union is in f.
fn fits(f: &[u64], c: Cube, b: Cube) -> bool
    requires { ordered (cubes_of f.now) ≡ true }
    ensures { result ≡ (apart (lits c) (lits b) && has (union (lits c) (lits b)) (cubes_of f.now)) }
{
    cube_sets::is_empty(cube_sets::common(c, b)) && holds(f, cube_sets::union(c, b))
}

// Whether c fits each cube of d.
fn fits_all(f: &[u64], d: &[u64], c: Cube) -> bool
    requires { ordered (cubes_of f.now) ≡ true }
    ensures { result ≡ in_quotient (cubes_of f.now) (cubes_of d.now) (lits c) }
{
    expression::each(d).all(|b| fits(f, c, b))
}

// The cubes that come, at the front of `to` in their order, and their number.
fn list<I: Iterator<Item = Cube>>(cubes: I, to: &mut [u64]) -> usize
    requires can { I.can_next cubes }
    requires room { UpTo (I.remaining cubes) (length (cubes_of to.old)) }
    ensures { (items : List Cube) × Drains I.next_gives cubes items × Appends to.old to.new 0 (map lits items) result }
{
    let mut kept = 0;
    for c in cubes {
        expression::put_cube(to, kept, c);
        kept += 1;
    }
    kept
}

// What is left of each cube of f without the first cube of d, where it fits all of d.
fn list_quotient(f: &[u64], d: &[u64], to: &mut [u64]) -> usize
    requires { OrderedRoom f.now to.old }
    ensures { Appends to.old to.new 0 (unsorted_quotient (cubes_of f.now) (cubes_of d.now)) result }
{
    let first = expression::cube_at(d, 0);
    let left_over = expression::each(f)
        .filter(|e| cube_sets::contains(*e, first))
        .map(|e| cube_sets::without(e, first));
    list(left_over.filter(|c| fits_all(f, d, *c)), to)
}

// The same, in cube order.
fn list_quotient_sorted(f: &[u64], d: &[u64], to: &mut [u64]) -> usize
    requires { OrderedRoom f.now to.old }
    ensures { Appends to.old to.new 0 (sort (unsorted_quotient (cubes_of f.now) (cubes_of d.now))) result }
{
    let k = list_quotient(f, d, to);
    expression_sort::sort_part(to, 0, k);
    k
}

// Whether e contains b and what is left of it is in q.
fn is_made_with(q: &[u64], b: Cube, e: Cube) -> bool
    requires { ordered (cubes_of q.now) ≡ true }
    ensures { result ≡ (sub (lits b) (lits e) && has (without (lits e) (lits b)) (cubes_of q.now)) }
{
    cube_sets::contains(e, b) && holds(q, cube_sets::without(e, b))
}

// Whether that is so of no cube of d.
fn is_spared(q: &[u64], d: &[u64], e: Cube) -> bool
    requires { ordered (cubes_of q.now) ≡ true }
    ensures { result ≡ spared (cubes_of q.now) (cubes_of d.now) (lits e) }
{
    expression::each(d).all(|b| !is_made_with(q, b, e))
}

// The cubes of f that are spared, in their order.
fn list_spared(f: &[u64], q: &[u64], d: &[u64], to: &mut [u64]) -> usize
    requires room { length (cubes_of f.now) ≤ length (cubes_of to.old) }
    requires order { ordered (cubes_of q.now) ≡ true }
    ensures { Appends to.old to.new 0 (spared_of q.now d.now f.now) result }
{
    list(expression::each(f).filter(|e| is_spared(q, d, *e)), to)
}

// The cubes of a and of b into the rooms q and r, or 9 where one of them is too long.
fn hand_over(a: &[u64], b: &[u64], q: &mut [u64], r: &mut [u64]) -> Division
    ensures { HandedOver a.now b.now q.old r.old q.new r.new result }
{
    let k = expression::number(a);
    let m = expression::number(b);
    if expression::number(q) < k {
        return Division::Refused(9);
    }
    if expression::number(r) < m {
        return Division::Refused(9);
    }
    expression::copy(a, 0, k, q, 0);
    expression::copy(b, 0, m, r, 0);
    Division::Done(k, m)
}

// Quotient and remainder of f by d, in cube order, into the rooms q and r.
pub fn divide(f: &[u64], d: &[u64], q: &mut [u64], r: &mut [u64]) -> Division
    ensures { Divided f.now d.now q.old r.old q.new r.new result }
{
    let v = admit(f, d);
    if let Verdict::Refused(k) = v {
        return Division::Refused(k);
    }
    let mut dividend = [0u64; expression_accept::WORDS];
    let n = copy_sorted(f, &mut dividend);
    let cubes = expression::part(&dividend, 0, n);
    let mut quotient = [0u64; expression_accept::WORDS];
    let k = list_quotient_sorted(cubes, d, &mut quotient);
    let whole = expression::part(&quotient, 0, k);
    let mut remainder = [0u64; expression_accept::WORDS];
    let m = list_spared(cubes, whole, d, &mut remainder);
    let rest = expression::part(&remainder, 0, m);
    hand_over(whole, rest, q, r)
}
