// The better of two steps.
#![tactic(auto)]

ghost use Rattle.std.specs.Prelude.{◌≡◌, [], ◌∷◌};
ghost use Rattle.sets.specs.Sets.{before, lex};
ghost use Rattle.cube.specs.Cube.{lits};
ghost use Rattle.extract_laws.specs.Extract.{sooner};
ghost use Rattle.extract_divisor.specs.Divisor.{divisor_of};
ghost use Rattle.extract_rank.specs.Rank.{outweighs, taken};

use cube::{Cube, Literal};
use extract_divisor::{Divisor, Step};
use std::cmp::Ordering;

fn is_before(a: Cube, b: Cube) -> bool
    ensures { result ≡ before (lits a) (lits b) }
{
    cube_order::compare(a, b).is_lt()
}

// The smaller first literal first, then the second.
#[tactic(auto, unfolding(sets::specs::Sets::before))]
fn is_pair_before(p: Literal, q: Literal, r: Literal, s: Literal) -> bool
    ensures { result ≡ before (p.0 ∷ q.0 ∷ []) (r.0 ∷ s.0 ∷ []) }
{
    (p.0, q.0) < (r.0, s.0)
}

// The smaller first part first, then the second.
fn is_sum_before(a: Cube, b: Cube, c: Cube, d: Cube) -> bool
    ensures { result ≡ lex before (lits a) (lits c) (before (lits b) (lits d)) }
{
    match cube_order::compare(a, c) {
        Ordering::Less => true,
        Ordering::Equal => is_before(b, d),
        Ordering::Greater => false,
    }
}

// On a tie pairs before sums, then the smaller literal or part first, then the second.
#[tactic(auto, unfolding(extract_laws::specs::Extract::sooner))]
fn is_sooner(d: Divisor, e: Divisor) -> bool
    ensures { result ≡ sooner (divisor_of d) (divisor_of e) }
{
    match (d, e) {
        (Divisor::Pair(p, q), Divisor::Pair(r, s)) => is_pair_before(p, q, r, s),
        (Divisor::Pair(_, _), Divisor::Sum(_, _)) => true,
        (Divisor::Sum(_, _), Divisor::Pair(_, _)) => false,
        (Divisor::Sum(a, b), Divisor::Sum(c, f)) => is_sum_before(a, b, c, f),
    }
}

// Whether a weight is above 0, and greater than x, or the same where it wins a tie. No weight of 0 or less is taken, even where it is the
// greatest.
#[tactic(auto, unfolding(crate::specs::Rank::outweighs))]
fn is_better(w: i32, x: i32, tie: bool) -> bool
    ensures { result ≡ outweighs w x tie }
{
    w > 0 && (w > x || w == x && tie)
}

// The better of the step that is held and a new one.
#[tactic(auto, unfolding(crate::specs::Rank::taken))]
pub fn better_of(held: Step, s: Step) -> Step
    ensures { result ≡ taken held s }
{
    if is_better(s.weight, held.weight, is_sooner(s.divisor, held.divisor)) {
        s
    } else {
        held
    }
}
