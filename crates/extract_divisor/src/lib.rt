// Divisors and steps, and the test of a use.
#![tactic(auto)]

ghost use Rattle.std.specs.Prelude.{◌≡◌};
ghost use Rattle.cube.specs.Cube.{lits};
ghost use Rattle.expression.specs.Words.{cubes_of};
ghost use Rattle.extract_divisor.specs.Divisor.{no_step, found_use};

use cube::{Cube, Literal};

// A pair of literals, the smaller first, or a sum of two parts that are cubes, the one that is first in cube order first.
#[derive(Clone, Copy)]
pub enum Divisor {
    Pair(Literal, Literal),
    Sum(Cube, Cube),
}

// A step: its divisor, what the divisor weighs, and its uses.
#[derive(Clone, Copy)]
pub struct Step {
    pub divisor: Divisor,
    pub weight: i32,
    pub uses: u32,
}

// The step of zeros.
pub fn no_step() -> Step
    ensures { result ≡ no_step }
{
    Step {
        divisor: Divisor::Pair(Literal(0), Literal(0)),
        weight: 0,
        uses: 0,
    }
}

// Whether c is base and a, of a base that shares no literal with b, and base and b is found by halving.
pub fn is_use(s: &[u64], c: Cube, a: Cube, b: Cube) -> bool
    ensures { result ≡ found_use (lits a) (lits b) (cubes_of s.now) (lits c) }
{
    if !cube_sets::contains(c, a) {
        return false;
    }
    let base = cube_sets::without(c, a);
    cube_sets::is_empty(cube_sets::common(base, b))
        && expression_survey::find(s, cube_sets::union(base, b)).is_some()
}
