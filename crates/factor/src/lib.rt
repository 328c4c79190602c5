// The factored text of a lent expression. A sum writer and a product writer call each other; the literal count of the cubes falls.
// The writers count every byte, so that the length is known before a byte is written.
#![tactic(auto)]

ghost use Rattle.std.specs.Prelude.{◌≡◌, ◌*◌, ◌<◌, ◌≤◌, length};
ghost use Rattle.cube.specs.Cube.{width};
ghost use Rattle.letters.specs.Laid.{Laid};
ghost use Rattle.letters.specs.Told.{Told};
ghost use Rattle.expression.specs.Words.{cubes_of};
ghost use Rattle.expression.specs.Answers.{most_handed, refusal};
ghost use Rattle.factor.specs.Form.{used_in, most_used};
ghost use Rattle.factor.specs.Text.{sum_text, text_of};
ghost use Rattle.factor.specs.Parts.{Spared, Parted, Gathered, written_sum, product_of};

use cube::Literal;
use expression::Verdict;
use letters::Wrote;

// ---- the cubes as they stand

// Cubes with `+` between them; no cubes is `0`.
fn put_cubes(o: &mut [u8], at: usize, f: &[u64]) -> usize
    ensures { Laid o.old o.new at result (sum_text (cubes_of f.now)) }
{
    let mut cubes = expression::each(f);
    let Some(first) = cubes.next() else {
        return letters::put(o, at, b'0');
    };
    let mut p = letters_products::put_product(o, at, first);
    for c in cubes {
        p = letters::put(o, p, b'+');
        p = letters_products::put_product(o, p, c);
    }
    p
}

// In how many cubes the literal is.
fn uses(f: &[u64], l: Literal) -> usize
    ensures { result ≡ used_in l.0 (cubes_of f.now) }
{
    expression::each(f).filter(|c| cube::has(*c, l)).count()
}

// The literal in most cubes, the smallest on a tie.
fn most_used(f: &[u64]) -> Literal
    ensures { result.0 ≡ most_used (cubes_of f.now) }
{
    let mut best = 0;
    let mut most = uses(f, Literal(0));
    for l in 1..cube::LITERALS {
        let n = uses(f, Literal(l));
        if most < n {
            best = l;
            most = n;
        }
    }
    Literal(best)
}

// ---- the cubes, parted

// The cubes with l come first, without it; the rest go to the spare words. How many the first are.
fn gather(w: &mut [u64], spare: &mut [u64], l: Literal) -> usize
    requires { (l.0 < 2 * width) × Spared w.old spare.old }
    ensures { Gathered w.old w.new spare.new result l.0 }
{
    let one = cube::with(cube::empty(), l);
    let mut m = 0;
    // By place: the cubes are written as well as read.
    for i in 0..expression::number(w) {
        let c = expression::cube_at(w, i);
        if cube::has(c, l) {
            expression::put_cube(w, m, cube_sets::without(c, one));
            m += 1;
        } else {
            expression::put_cube(spare, i - m, c);
        }
    }
    m
}

// The cubes parted by l: those with it, without it, then the rest. How many the first are.
fn split(w: &mut [u64], spare: &mut [u64], l: Literal) -> usize
    requires { (l.0 < 2 * width) × Spared w.old spare.old }
    ensures { Parted w.old w.new result l.0 }
{
    let m = gather(w, spare, l);
    let others = expression::number(w) - m;
    expression::copy(spare, 0, others, w, m);
    m
}

// ---- the writers

// The text of the cubes; what stands there afterwards is of no use.
#[cycle(product_sum)]
fn sum(w: &mut [u64], spare: &mut [u64], o: &mut [u8], at: usize) -> usize
    requires { Spared w.old spare.old }
    ensures { Laid o.old o.new at result (written_sum (cubes_of w.old)) }
{
    let l = most_used(w);
    if uses(w, l) < 2 {
        return put_cubes(o, at, w);
    }
    let m = split(w, spare, l);
    let (quotient, rest) = w.split_at_mut(expression::WORDS * m);
    let p = product(l, quotient, spare, o, at);
    if expression::number(rest) == 0 {
        return p;
    }
    let q = letters::put(o, p, b'+');
    sum(rest, spare, o, q)
}

// The text of l times the cubes.
#[cycle(product_sum)]
fn product(l: Literal, w: &mut [u64], spare: &mut [u64], o: &mut [u8], at: usize) -> usize
    requires { Spared w.old spare.old }
    ensures { Laid o.old o.new at result (product_of l.0 (cubes_of w.old)) }
{
    let p = letters_products::put_literal(o, at, l);
    let q = letters::put(o, p, b'*');
    let r = letters::put(o, q, b'(');
    let s = sum(w, spare, o, r);
    letters::put(o, s, b')')
}

// ---- the whole text

// The text of f, as far as there is room, and its length.
fn text(f: &[u64], o: &mut [u8]) -> usize
    requires { length (cubes_of f.now) ≤ most_handed }
    ensures { Laid o.old o.new 0 result (text_of f.now) }
{
    let mut w = [0u64; expression_accept::WORDS];
    let mut spare = [0u64; expression_accept::WORDS];
    let n = expression::number(f);
    expression::copy(f, 0, n, &mut w, 0);
    expression_sort::sort_part(&mut w, 0, n);
    sum(&mut w[..expression::WORDS * n], &mut spare, o, 0)
}

// The factored text of f into the room o, and its length: 6, 7, then 9.
pub fn factored(f: &[u64], o: &mut [u8]) -> Wrote
    ensures { Told (refusal f.now) (text_of f.now) o.old o.new result }
{
    let v = expression_accept::accept(f);
    if let Verdict::Refused(k) = v {
        return Wrote::Refused(k);
    }
    let n = text(f, &mut []);
    if o.len() < n {
        return Wrote::Refused(9);
    }
    text(f, o);
    Wrote::Bytes(n)
}
