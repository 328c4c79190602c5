// Divisors as numbers: the key by which a table holds a divisor's gain.
#![tactic(auto)]

ghost use Rattle.std.specs.Prelude.{◌≡◌, ◌+◌, ◌*◌, ◌%◌, ◌<◌, ◌≤◌};
ghost use Rattle.std.proofs.Math.Option.{some};
ghost use Rattle.sets.specs.Lists.{or_else};
ghost use Rattle.sets.specs.Sets.{first_from};
ghost use Rattle.cube.specs.Cube.{width, lits};
ghost use Rattle.extract_divisor.specs.Divisor.{divisor_of};
ghost use Rattle.extract_keys.specs.Keys.{part_code, two_codes, part_of, divisor_at, size_at, cost_at};

use cube::{Cube, Literal};
use extract_divisor::Divisor;

// The first literal of a from l on, or another number where there is none.
fn literal_from(a: Cube, l: u32, other: u32) -> u32
    ensures found { some result ≡ or_else (first_from l (lits a)) (some other) }
    ensures below { other < 2 * width → result < 2 * width }
{
    match cube_order::first_from(a, Literal(l)) {
        Some(m) => m.0,
        None => other,
    }
}

// The number of a part: its first literal, then its second, or the first again where there is one only.
fn part_code(a: Cube) -> u32
    ensures code { result ≡ part_code (lits a) }
    ensures below { result < 32768 }
{
    let p = literal_from(a, 0, 0);
    let q = literal_from(a, p + 1, p);
    256 * p + q
}

// The number of a sum of two parts.
#[tactic(auto, unfolding(crate::specs::Keys::two_codes))]
pub fn sum_key(a: Cube, b: Cube) -> u32
    ensures { result ≡ two_codes (part_code (lits a)) (part_code (lits b)) }
{
    let x = part_code(a);
    let y = part_code(b);
    65536 * x.min(y) + x.max(y)
}

// The number of a pair of literals, each by its last 8 bits.
pub fn pair_key(p: Literal, q: Literal) -> u32
    ensures { result ≡ 65537 * (256 * (p.0 % 256) + q.0 % 256) }
{
    65537 * (256 * (p.0 % 256) + q.0 % 256)
}

// The part of a number.
#[tactic(auto, unfolding(crate::specs::Keys::part_of))]
pub fn part_of(x: u32) -> Cube
    ensures { lits result ≡ part_of x }
{
    cube::with(
        cube::with(cube::empty(), Literal(x / 256)),
        Literal(x % 256),
    )
}

#[tactic(auto, unfolding(crate::specs::Keys::size_at))]
fn size_of(x: u32) -> u32
    ensures size { result ≡ size_at x }
    ensures most { result ≤ 2 }
{
    if x / 256 == x % 256 { 1 } else { 2 }
}

// The literals of the own node of a key's divisor.
#[tactic(auto, unfolding(crate::specs::Keys::cost_at))]
pub fn cost(key: u32) -> u32
    ensures { result ≡ cost_at key }
{
    let x = key / 65536;
    let y = key % 65536;
    if x == y { 2 } else { size_of(x) + size_of(y) }
}

// The divisor of a key.
#[tactic(auto, unfolding(crate::specs::Keys::divisor_at))]
pub fn divisor_of(key: u32) -> Divisor
    ensures { divisor_of result ≡ divisor_at key }
{
    let x = key / 65536;
    let y = key % 65536;
    if x == y {
        Divisor::Pair(Literal(x / 256), Literal(x % 256))
    } else {
        Divisor::Sum(part_of(x), part_of(y))
    }
}
