// Cubes as sets: what two have together, apart and in common, how many literals, and which contains which.
#![tactic(auto)]

ghost use Rattle.std.specs.Prelude.{◌≡◌, min, length};
ghost use Rattle.sets.specs.Lists.{is_nil};
ghost use Rattle.sets.specs.Sets.{sub, union, without, meet, proper, same};
ghost use Rattle.cube.specs.Cube.{lits};

use cube::Cube;

pub fn union(a: Cube, b: Cube) -> Cube
    ensures { lits result ≡ union (lits a) (lits b) }
{
    Cube {
        plain: a.plain | b.plain,
        negated: a.negated | b.negated,
    }
}

// The literals of a that b lacks.
pub fn without(a: Cube, b: Cube) -> Cube
    ensures { lits result ≡ without (lits a) (lits b) }
{
    Cube {
        plain: a.plain & !b.plain,
        negated: a.negated & !b.negated,
    }
}

pub fn common(a: Cube, b: Cube) -> Cube
    ensures { lits result ≡ meet (lits a) (lits b) }
{
    Cube {
        plain: a.plain & b.plain,
        negated: a.negated & b.negated,
    }
}

// The number of literals: the ones in the two masks.
pub fn count(c: Cube) -> u32
    ensures { result ≡ length (lits c) }
{
    u64::count_ones(c.plain) + u64::count_ones(c.negated)
}

// The number of literals, or 3 where there are more: `x & (x - 1)` is x without its lowest one.
pub fn few(c: Cube) -> u32
    ensures { result ≡ min 3 (length (lits c)) }
{
    if c.plain & c.negated != 0 {
        let n = count(c);
        return if n < 3 { n } else { 3 };
    }
    let x = c.plain | c.negated;
    if x == 0 {
        return 0;
    }
    let y = x & (x - 1);
    if y == 0 {
        return 1;
    }
    if y & (y - 1) == 0 {
        return 2;
    }
    3
}

// Whether no variable is there both ways.
pub fn is_proper(c: Cube) -> bool
    ensures { result ≡ proper (lits c) }
{
    c.plain & c.negated == 0
}

pub fn is_empty(c: Cube) -> bool
    ensures { result ≡ is_nil (lits c) }
{
    c.plain | c.negated == 0
}

// Whether all literals of b are in a.
pub fn contains(a: Cube, b: Cube) -> bool
    ensures { result ≡ sub (lits b) (lits a) }
{
    is_empty(without(b, a))
}

pub fn same(a: Cube, b: Cube) -> bool
    ensures { result ≡ same (lits a) (lits b) }
{
    a == b
}
