// Whether a network of so many variables can take a divisor.
#![tactic(auto)]

ghost use Rattle.std.specs.Prelude.{◌≡◌};
ghost use Rattle.cube.specs.Cube.{lits};
ghost use Rattle.extract_laws.specs.Divisor.{pair, sum};
ghost use Rattle.extract_divisor.specs.Divisor.{divisor_of};
ghost use Rattle.extract_fit.specs.Fitness.{fitting};
ghost use Rattle.extract_fit.specs.Parts.{fit_part};

use cube::{Cube, Literal};
use extract_divisor::Divisor;

// Whether two literals are of different variables below v, the smaller first.
fn is_pair(p: Literal, q: Literal, v: usize) -> bool
    ensures { result ≡ fitting v (pair p.0 q.0) }
{
    p.0 < q.0 && cube::opposite(p).0 != q.0 && (cube::variable_of(q).0 as usize) < v
}

// Whether a part has one or two literals, of different variables below v.
fn is_part(a: Cube, v: usize) -> bool
    ensures { result ≡ fit_part v (lits a) }
{
    matches!(cube_sets::count(a), 1 | 2) && cube_sets::is_proper(a) && cube_order::is_below(a, v)
}

// Whether two parts are fit, share no literal and stand in cube order.
fn is_sum(a: Cube, b: Cube, v: usize) -> bool
    ensures { result ≡ fitting v (sum (lits a) (lits b)) }
{
    is_part(a, v)
        && is_part(b, v)
        && cube_sets::is_empty(cube_sets::common(a, b))
        && cube_order::compare(a, b).is_lt()
}

// Whether the divisor's own node is an expression over v variables, the smaller literal or part first.
pub fn is_fit(d: Divisor, v: usize) -> bool
    ensures { result ≡ fitting v (divisor_of d) }
{
    match d {
        Divisor::Pair(p, q) => is_pair(p, q, v),
        Divisor::Sum(a, b) => is_sum(a, b, v),
    }
}
