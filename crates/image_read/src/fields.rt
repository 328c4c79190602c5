// The fields of an image and its cubes. A fault leaves at once.
ghost use Rattle.std.specs.Prelude.{◌≡◌, cond, not, ◌&&◌, [], ◌+◌, ◌-◌, ◌*◌, ◌/◌, ◌%◌, ◌<◌, ◌≤◌, ltb, length, get_or, take, drop};
ghost use Rattle.sets.specs.Lists.{all};
ghost use Rattle.sets.specs.Literal.{opposite_of};
ghost use Rattle.sets.specs.Sets.{mem};
ghost use Rattle.sets.specs.Masks.{bit};
ghost use Rattle.cube.specs.Cube.{lits};
ghost use Rattle.image_fields.specs.Fields.{value_of, bits_in};
ghost use Rattle.network.specs.Held.{most_variables};
ghost use Rattle.image_laws.specs.Widths.{most_literal_bits, most_cube_bits};
ghost use Rattle.image_laws.specs.Reading.{get_literals, get_cube};
ghost use Rattle.image_read.specs.Parts.{times, widest, FieldIs, CubeIs};

use crate::Fault;
use cube::{Cube, Literal};

// A cube as read: its literals as a set, how many were written, whether they ascend, and the bit after it.
#[derive(Clone, Copy)]
pub struct Taken {
    pub cube: Cube,
    pub literals: usize,
    pub ascending: bool,
    pub at: usize,
}

// The bytes are passed beside the next bit: the bit goes along with the sums, in `Taken` and in `State`, and the bytes stay.

// Bit p of the image as a number: the bits of a byte, the most significant first.
fn bit_at(bytes: &[u8], p: usize) -> usize
    requires { p < 8 * length bytes.now }
    ensures { result ≡ cond (bit (get_or bytes.now (p / 8) 0) (7 - p % 8)) 1 0 }
{
    (usize::from(bytes[p / 8]) >> (7 - p % 8)) & 1
}

// The number in w bits from a bit on, which are all there.
pub fn value_at(bytes: &[u8], at: usize, w: usize) -> usize
    requires { (at + w ≤ 8 * length bytes.now) × (at ≤ times 6) × (w ≤ widest) }
    ensures { result ≡ value_of (take w (drop at (bits_in bytes.now))) }
{
    let mut v = 0;
    for i in 0..w {
        v = 2 * v + bit_at(bytes, at + i);
    }
    v
}

// The field of w bits from a bit on: the number that it holds, or nothing where the image ends before its last bit.
pub fn field_at(bytes: &[u8], at: usize, w: usize) -> Option<usize>
    requires { (at ≤ times 6) × (1 ≤ w) × (w ≤ widest) }
    ensures { FieldIs w (drop at (bits_in bytes.now)) result }
{
    if bytes.len() < (at + w).div_ceil(8) {
        return None;
    }
    Some(value_at(bytes, at, w))
}

// Whether all literals of c are below l.
fn is_below(c: Cube, l: Literal) -> bool
    ensures { result ≡ all (λ x. ltb x l.0) (lits c) }
{
    cube_order::first_from(c, l).is_none()
}

// Whether l is of one of v variables and its opposite is not in c.
fn is_allowed(c: Cube, l: Literal, v: usize) -> bool
    ensures { result ≡ (ltb (l.0 / 2) v && not (mem (opposite_of l.0) (lits c))) }
{
    (cube::variable_of(l).0 as usize) < v && !cube::has(c, cube::opposite(l))
}

// So many literals of v variables, from a bit on.
fn literals(bytes: &[u8], start: usize, v: usize, k: usize) -> Result<Taken, Fault>
    requires { (start ≤ times 5) × (v ≤ most_variables) × (k ≤ most_variables) }
    ensures { CubeIs most_literal_bits (bits_in bytes.now) start (get_literals v k [] (drop start (bits_in bytes.now))) result }
{
    let mut seen = cube::empty();
    let mut ascending = true;
    let mut at = start;
    for i in 0..k {
        let x = field_at(bytes, at, image_laws::LITERAL_WIDTH).ok_or(Fault::Cut)?;
        let l = Literal(x as u32);
        if !is_allowed(seen, l, v) {
            return Err(Fault::Range);
        }
        ascending = ascending && is_below(seen, l);
        seen = cube::with(seen, l);
        at += image_laws::LITERAL_WIDTH;
    }
    Ok(Taken {
        cube: seen,
        literals: k,
        ascending,
        at,
    })
}

// The cube from a bit on.
pub fn cube_at(bytes: &[u8], at: usize, v: usize) -> Result<Taken, Fault>
    requires { (at ≤ times 4) × (v ≤ most_variables) }
    ensures { CubeIs most_cube_bits (bits_in bytes.now) at (get_cube v (drop at (bits_in bytes.now))) result }
{
    let k = field_at(bytes, at, image_laws::LITERALS_WIDTH).ok_or(Fault::Cut)?;
    if k > v {
        return Err(Fault::Range);
    }
    literals(bytes, at + image_laws::LITERALS_WIDTH, v, k)
}
