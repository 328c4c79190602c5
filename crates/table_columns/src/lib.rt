// The place of the refusal of a line: the byte that it points to.
#![tactic(auto)]

ghost use Rattle.std.specs.Prelude.{◌≡◌, eqb, map, take};
ghost use Rattle.std.specs.List.{prefix_len};
ghost use Rattle.table_columns.specs.Forms as good;
ghost use Rattle.table_columns.specs.Forms.{reach, empty_form, number_form, eForm, end_form, cube_form};
ghost use Rattle.table_columns.specs.Forms.{cube_forms, forms, farthest};
ghost use Rattle.table_columns.specs.Columns.{unless_zero, one_place, row_place, kind_place, place_in, place_of};
ghost use Rattle.table_columns.specs.Parts.{test_of, part_of};

use table_kinds::{DIGITS, Kind};

// The sorts of bytes of which lines are made.
#[derive(Clone, Copy)]
enum Sort {
    Blank,
    Digit,
    NoDigit,
    Place,
    Mark,
    Is(u8),
}

// A part of a line: bytes of a sort, so many at least, and at most, where there is a most.
#[derive(Clone, Copy)]
struct Part {
    sort: Sort,
    least: usize,
    most: Option<usize>,
}

// ---- how far a line goes

fn is_of(b: u8, sort: Sort) -> bool
    ensures { result ≡ test_of sort b }
{
    match sort {
        Sort::Blank => table_lines::is_blank(b),
        Sort::Digit => b.is_ascii_digit(),
        Sort::NoDigit => !b.is_ascii_digit(),
        Sort::Place => table_rows::is_place(b),
        Sort::Mark => table_rows::is_mark(b),
        Sort::Is(x) => x == b,
    }
}

// The bytes of the sort at the front, counted up to `most`.
fn front(c: &[u8], sort: Sort, most: usize) -> usize
    ensures { result ≡ prefix_len (test_of sort) (take most c.now) }
{
    c.iter().take(most).take_while(|b| is_of(**b, sort)).count()
}

// How far c goes with the parts.
fn reach(parts: &[Part], c: &[u8]) -> usize
    ensures { result ≡ reach (map part_of parts.now) c.now }
{
    let mut at = 0;
    for p in parts {
        let t = &c[at..];
        let k = front(t, p.sort, p.most.unwrap_or(t.len()));
        at += k;
        if k < p.least {
            return at;
        }
    }
    at
}

// ---- the forms of good lines

fn exactly(n: usize, sort: Sort) -> Part
    ensures { part_of result ≡ good.exactly n (test_of sort) }
{
    Part {
        sort,
        least: n,
        most: Some(n),
    }
}

fn or_more(n: usize, sort: Sort) -> Part
    ensures { part_of result ≡ good.or_more n (test_of sort) }
{
    Part {
        sort,
        least: n,
        most: None,
    }
}

// Blanks, or none.
fn blanks() -> Part
    ensures { part_of result ≡ good.blanks }
{
    or_more(0, Sort::Blank)
}

fn byte(b: u8) -> Part
    ensures { part_of result ≡ good.exactly 1 (eqb b) }
{
    exactly(1, Sort::Is(b))
}

// Nothing.
fn empty_form() -> [Part; 1]
    ensures { map part_of result ≡ empty_form }
{
    [blanks()]
}

// `.i N`, `.o N` or `.p N`, by its letter.
fn number_form(letter: u8) -> [Part; 5]
    ensures { map part_of result ≡ number_form letter }
{
    let number = Part {
        sort: Sort::Digit,
        least: 1,
        most: Some(DIGITS),
    };
    [
        byte(b'.'),
        byte(letter),
        or_more(1, Sort::Blank),
        number,
        blanks(),
    ]
}

// `.e`.
fn e_form() -> [Part; 3]
    ensures { map part_of result ≡ eForm }
{
    [byte(b'.'), byte(b'e'), blanks()]
}

// `.end`.
fn end_form() -> [Part; 5]
    ensures { map part_of result ≡ end_form }
{
    [byte(b'.'), byte(b'e'), byte(b'n'), byte(b'd'), blanks()]
}

// n places, one or more blanks, m marks.
fn cube_form(n: usize, m: usize) -> [Part; 4]
    ensures { map part_of result ≡ cube_form n m }
{
    let places = exactly(n, Sort::Place);
    let marks = exactly(m, Sort::Mark);
    [places, or_more(1, Sort::Blank), marks, blanks()]
}

// ---- how far any good line goes

// A cube line, where inputs and outputs are known.
#[tactic(auto, unfolding(crate::specs::Forms::farthest))]
fn cubes_reach(c: &[u8], n: usize, m: usize) -> usize
    ensures { result ≡ farthest (cube_forms (unless_zero n) (unless_zero m)) c.now }
{
    if n == 0 || m == 0 {
        return 0;
    }
    reach(&cube_form(n, m), c)
}

// How many bytes of c some good line could begin with.
#[tactic(auto, unfolding(crate::specs::Forms::farthest))]
fn farthest(c: &[u8], n: usize, m: usize) -> usize
    ensures { result ≡ farthest (forms (unless_zero n) (unless_zero m)) c.now }
{
    let mut k = cubes_reach(c, n, m);
    k = reach(&end_form(), c).max(k);
    k = reach(&e_form(), c).max(k);
    k = reach(&number_form(b'p'), c).max(k);
    k = reach(&number_form(b'o'), c).max(k);
    k = reach(&number_form(b'i'), c).max(k);
    reach(&empty_form(), c).max(k)
}

// ---- places

// The place of the `1` before which k others stand.
fn one_place(o: &[u8], k: usize) -> usize
    ensures { result ≡ one_place k o.now }
{
    let mut left = k;
    for (i, b) in o.iter().enumerate() {
        if *b == b'1' {
            if left == 0 {
                return i;
            }
            left -= 1;
        }
    }
    o.len()
}

// The place of the output character of a cube line of n inputs that makes a row more than k.
fn row_place(c: &[u8], n: usize, k: usize) -> usize
    ensures { result ≡ row_place n k c.now }
{
    let Some(t) = c.get(n..) else {
        return c.len();
    };
    let o = table_lines::trim_front(t);
    c.len() - o.len() + one_place(o, k)
}

// 0 for a line that is spelled as a kind; for another how far some good line agrees with it.
fn kind_place(kind: Kind, c: &[u8], n: usize, m: usize) -> usize
    ensures { result ≡ kind_place kind (unless_zero n) (unless_zero m) c.now }
{
    match kind {
        Kind::Other => farthest(c, n, m),
        _ => 0,
    }
}

// The place in what is left of a line.
#[tactic(auto, using(crate::proofs::Counting::front_is), unfolding(crate::specs::Columns::place_in))]
fn place_in(c: &[u8], number: u32, n: usize, m: usize, k: usize) -> usize
    ensures { result ≡ place_in number (unless_zero n) (unless_zero m) k c.now }
{
    match number {
        3 => front(c, Sort::NoDigit, c.len()),
        6 => row_place(c, n, k),
        _ => kind_place(table_kinds::kind_of(c), c, n, m),
    }
}

// The place in line l of its refusal by a number, before which n inputs and m outputs were known, 0 while missing, and k rows might
// still come; one past the line where what is left of it merely ends too soon.
pub fn place_of(l: &[u8], number: u32, n: usize, m: usize, k: usize) -> usize
    ensures { result ≡ place_of number (unless_zero n) (unless_zero m) k l.now }
{
    let span = table_lines::content_of(l);
    let p = place_in(&l[span.start..span.end], number, n, m, k);
    if p == span.end - span.start {
        return l.len();
    }
    span.start + p
}
