// Known literals: whether cubes have no others, and one variable more with its value.
#![tactic(auto)]

ghost use Rattle.std.specs.Prelude.{◌≡◌, ◌<◌};
ghost use Rattle.sets.specs.Literal.{plain_of};
ghost use Rattle.sets.specs.Sets.{mem};
ghost use Rattle.cube.specs.Cube.{lits, joined, width};
ghost use Rattle.expression.specs.Words.{cubes_of};
ghost use Rattle.network_known.specs.Known.{signed, within};

use cube::{Cube, Literal, Variable};

const VARIABLES: usize = cube::VARIABLES as usize;

// Whether every cube has only literals of k, or, where not every one is asked for, whether some cube does.
pub fn within(f: &[u64], k: Cube, every: bool) -> bool
    ensures { result ≡ within every (lits k) (cubes_of f.now) }
{
    let mut cubes = expression::each(f);
    if every {
        cubes.all(|c| cube_sets::contains(k, c))
    } else {
        cubes.any(|c| cube_sets::contains(k, c))
    }
}

// Whether the plain literal of the variable v is there; of a number past the last variable none is.
pub fn has_plain(c: Cube, v: usize) -> bool
    ensures { result ≡ mem (plain_of v) (lits c) }
{
    v < VARIABLES && cube::has(c, cube::plain(Variable(v as u32)))
}

// The literal of the variable v that has value 1 where v has the value b.
fn literal_of(v: Variable, b: bool) -> Literal
    requires { v.0 < width }
    ensures { result.0 ≡ signed v.0 b }
{
    if b { cube::plain(v) } else { cube::negated(v) }
}

// c with that literal; a number past the last variable adds nothing.
pub fn valued(c: Cube, v: usize, b: bool) -> Cube
    ensures { lits result ≡ joined (signed v b) (lits c) }
{
    if v >= VARIABLES {
        return c;
    }
    cube::with(c, literal_of(Variable(v as u32), b))
}
