// Lent cubes less those that contain another.
#![tactic(auto)]

ghost use Rattle.std.specs.Prelude.{◌≡◌, not, ◌&&◌, ◌||◌, ◌-◌, length, take, drop};
ghost use Rattle.sets.specs.Sets.{sub, same};
ghost use Rattle.cube.specs.Cube.{lits};
ghost use Rattle.expression.specs.Words.{cubes_of, Written, Placed};
ghost use Rattle.expression.specs.Expression.{absorbed};

use cube::Cube;

// Whether c contains d, which stands earlier or is another.
fn absorbs(d: Cube, c: Cube, earlier: bool) -> bool
    ensures { result ≡ (sub (lits d) (lits c) && (earlier || not (same (lits d) (lits c)))) }
{
    cube_sets::contains(c, d) && (earlier || !cube_sets::same(d, c))
}

// Each cube that strictly contains another or equals an earlier one is dropped; the rest stand at the front in their order, and their number is returned.
fn absorb(s: &mut [u64]) -> usize
    ensures number { result ≡ length (absorbed (cubes_of s.old)) }
    ensures cubes { Written s.old s.new (absorbed (cubes_of s.old)) }
{
    let n = expression::number(s);
    let mut kept = 0;
    'next: for i in 0..n {
        let c = expression::cube_at(s, i);
        for j in 0..n {
            if absorbs(expression::cube_at(s, j), c, j < i) {
                continue 'next;
            }
        }
        expression::put_cube(s, kept, c);
        kept += 1;
    }
    kept
}

// The same of cubes a up to e; the others stay.
pub fn absorb_part(s: &mut [u64], a: usize, e: usize) -> usize
    ensures number { result ≡ length (absorbed (take (e - a) (drop a (cubes_of s.old)))) }
    ensures cubes { Placed s.old s.new a (absorbed (take (e - a) (drop a (cubes_of s.old)))) }
{
    let p = expression::words_of(s, a, e);
    absorb(&mut s[p.from..p.to])
}
