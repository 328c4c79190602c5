// Whether lent words are an expression, and which refusal they meet.
#![tactic(auto)]

ghost use Rattle.std.specs.Prelude.{◌≡◌, [], ◌+◌, ◌<◌, length, get_or, drop};
ghost use Rattle.sets.specs.Lists.{all, pairwise};
ghost use Rattle.sets.specs.Sets.{proper};
ghost use Rattle.cube.specs.Cube.{lits};
ghost use Rattle.expression.specs.Words.{cubes_of};
ghost use Rattle.expression.specs.Expression.{loose, expression};
ghost use Rattle.expression.specs.Answers.{refusal_of, refusal};

use cube::Cube;
use expression::Verdict;

// The most cubes of an expression handed in, and their words.
pub const CUBES: usize = 1024;

pub const WORDS: usize = expression::WORDS * CUBES;

// Whether no cube has a variable both ways.
fn all_proper(s: &[u64]) -> bool
    ensures { result ≡ all proper (cubes_of s.now) }
{
    expression::each(s).all(cube_sets::is_proper)
}

// Whether neither of a and b contains the other.
fn is_loose(a: Cube, b: Cube) -> bool
    ensures { result ≡ loose (lits a) (lits b) }
{
    !cube_sets::contains(b, a) && !cube_sets::contains(a, b)
}

// Whether cube i and each later one are loose.
fn is_loose_from(s: &[u64], i: usize) -> bool
    requires { i < length (cubes_of s.now) }
    ensures { result ≡ all (loose (get_or (cubes_of s.now) i [])) (drop (i + 1) (cubes_of s.now)) }
{
    let c = expression::cube_at(s, i);
    let later = expression::part(s, i + 1, expression::number(s));
    expression::each(later).all(|d| is_loose(c, d))
}

// Whether no cube contains or equals another.
fn all_loose(s: &[u64]) -> bool
    ensures { result ≡ pairwise loose (cubes_of s.now) }
{
    (0..expression::number(s)).all(|i| is_loose_from(s, i))
}

// Whether the cubes are an expression: no variable both ways, none containing or equal to another.
pub fn is_expression(s: &[u64]) -> bool
    ensures { result ≡ expression (cubes_of s.now) }
{
    all_proper(s) && all_loose(s)
}

// 6 over 1,024 cubes; else 7 where a word is left over, a cube has a variable both ways, or one cube contains or equals another.
pub fn accept(s: &[u64]) -> Verdict
    ensures { refusal_of result ≡ refusal s.now }
{
    if s.len() > WORDS {
        return Verdict::Refused(6);
    }
    if s.len() % expression::WORDS != 0 || !is_expression(s) {
        return Verdict::Refused(7);
    }
    Verdict::Accepted
}
