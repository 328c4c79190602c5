// What is asked of lent cubes as a whole: how many literals, of which variables, in which order, and where a cube stands.
#![tactic(auto)]

ghost use Rattle.std.specs.Prelude.{◌≡◌};
ghost use Rattle.cube.specs.Cube.{lits};
ghost use Rattle.expression.specs.Words.{cubes_of};
ghost use Rattle.expression.specs.Expression.{literals_of, reach, ordered};
ghost use Rattle.expression.specs.Answers.{place_of, capped};
ghost use Rattle.expression_survey.specs.Search.{find_in};

use cube::Cube;
use std::cmp::Ordering;

// The number of literals of all cubes.
pub fn literals(s: &[u64]) -> u64
    ensures { result ≡ capped (literals_of (cubes_of s.now)) }
{
    expression::each(s).fold(
        0,
        |sum, c| u64::saturating_add(sum, u64::from(cube_sets::count(c))),
    )
}

// Where c stands among cubes in cube order, by halving.
// By hand: what it answers is promised for cubes in any order, which `binary_search_by` leaves open.
pub fn find(s: &[u64], c: Cube) -> Option<usize>
    ensures { place_of result ≡ find_in (lits c) (cubes_of s.now) }
{
    let mut low = 0;
    let mut high = expression::number(s);
    while low < high {
        let m = low + (high - low) / 2;
        let o = cube_order::compare(expression::cube_at(s, m), c);
        match o {
            Ordering::Less => {
                low = m + 1;
            }
            Ordering::Equal => {
                return Some(m);
            }
            Ordering::Greater => {
                high = m;
            }
        }
    }
    None
}

// Whether the cubes stand in cube order: each comes before the next.
pub fn is_ordered(f: &[u64]) -> bool
    ensures { result ≡ ordered (cubes_of f.now) }
{
    expression::each(f).is_sorted_by(|a, b| cube_order::compare(*a, *b).is_lt())
}

// Whether every literal is of a variable below v.
pub fn reaches(f: &[u64], v: usize) -> bool
    ensures { result ≡ reach v (cubes_of f.now) }
{
    expression::each(f).all(|c| cube_order::is_below(c, v))
}
