// The literals of a cube in turn, and the order of cubes.
#![tactic(auto)]

ghost use Rattle.std.specs.Prelude.{◌≡◌};
ghost use Rattle.std.specs.Iterator.{YieldsFirstBy, item_count};
ghost use Rattle.sets.specs.Lists.{is_some};
ghost use Rattle.sets.specs.Literal.{plain_of};
ghost use Rattle.sets.specs.Sets.{reads_below, first_from};
ghost use Rattle.sets.specs.Masks.{Lowest};
ghost use Rattle.cube.specs.Cube.{lits, answer, order_of};

use cube::{Cube, Literal, Variable};
use std::cmp::Ordering;

const VARIABLES: usize = cube::VARIABLES as usize;

// The place of the lowest bit.
fn lowest(m: u64) -> u32
    requires { m ≡ 0 → ⊥ }
    ensures { Lowest 64 m result }
{
    u64::trailing_zeros(m)
}

// The first literal of the variables from v on.
fn first_at(c: Cube, v: Variable) -> Option<Literal>
    ensures { answer result ≡ first_from (plain_of v.0) (lits c) }
{
    let at = v.0;
    if at >= cube::VARIABLES {
        return None;
    }
    let p = c.plain >> at;
    let n = c.negated >> at;
    let m = p | n;
    if m == 0 {
        return None;
    }
    let t = lowest(m);
    let first = Variable(at + t);
    if (p >> t) & 1 == 1 {
        Some(cube::plain(first))
    } else {
        Some(cube::negated(first))
    }
}

// The smallest literal that is not below l.
pub fn first_from(c: Cube, l: Literal) -> Option<Literal>
    ensures { answer result ≡ first_from l.0 (lits c) }
{
    let v = cube::variable_of(l);
    if cube::is_negated(l) {
        if cube::has(c, l) {
            return Some(l);
        }
        return first_at(c, Variable(v.0 + 1));
    }
    first_at(c, v)
}

// Whether there is a literal that is not below l.
fn goes_on(c: Cube, l: Literal) -> bool
    ensures { result ≡ is_some (first_from l.0 (lits c)) }
{
    first_from(c, l).is_some()
}

// The cube order. The least literal that only one cube has decides: its cube comes first, unless the other one ends before it.
pub fn compare(a: Cube, b: Cube) -> Ordering
    ensures { result ≡ order_of (lits a) (lits b) }
{
    let x = Cube {
        plain: a.plain ^ b.plain,
        negated: a.negated ^ b.negated,
    };
    let Some(d) = first_at(x, Variable(0)) else {
        return Ordering::Equal;
    };
    if cube::has(a, d) {
        if goes_on(b, d) {
            return Ordering::Less;
        }
        return Ordering::Greater;
    }
    if goes_on(a, d) {
        return Ordering::Greater;
    }
    Ordering::Less
}

// The literals of a cube in turn, the smallest first.
#[derive(Clone, Copy)]
pub struct Literals {
    rest: Cube,
}

// Each literal of c.
pub fn each(c: Cube) -> Literals
    ensures { result.rest ≡ c }
{
    Literals { rest: c }
}

impl Iterator for Literals {
    type Item = Literal;

    ghost next_gives = { YieldsFirstBy (λ l. l.0) (λ s. lits s.rest) };

    ghost remaining = { item_count (λ s. lits s.rest) };

    fn next(&mut self) -> Option<Literal> {
        let found = first_at(self.rest, Variable(0));
        let Some(l) = found else {
            return None;
        };
        self.rest = cube_sets::without(self.rest, cube::with(cube::empty(), l));
        Some(l)
    }
}

// Whether every literal is of a variable below v.
pub fn is_below(c: Cube, v: usize) -> bool
    ensures { result ≡ reads_below v (lits c) }
{
    if v >= VARIABLES {
        return true;
    }
    !goes_on(c, cube::plain(Variable(v as u32)))
}
