// The lines of a block: names, and rows. Numbers are counted in a window: mark i counts the number base + i, up to 2. Where another line
// stands, nothing is answered.
#![tactic(auto)]

ghost use Rattle.std.specs.Prelude.{◌≡◌, [], ◌∷◌, leb, eqb, take};
ghost use Rattle.sets.specs.Lists.{all};
ghost use Rattle.blif_lines.specs.Marking.{Raised, Cleared};
ghost use Rattle.table_rows.specs.Lines.{is_place};
ghost use Rattle.blif_laws.specs.Reading.{pointed};
ghost use Rattle.blif_scan.specs.Scanning.{left, label_of};
ghost use Rattle.blif_lines.specs.Lining.{NamesIs, RowIs, RowsIs, is_next, turn_of, TurnIs, Follows, LastMarked, signed};
ghost use Rattle.blif_lines.specs.Lining.{SignIs, SignsIs, SpaceIs, EndIs};

use blif_scan::{Ended, Label};

// How many numbers a window has.
pub const WINDOW: usize = 65536;

// The number v is met once more.
pub fn mark(marks: &mut [u8], base: usize, v: usize)
    ensures { Raised base (v ∷ []) marks.old marks.new }
{
    if base <= v && v - base < marks.len() && marks[v - base] < 2 {
        marks[v - base] += 1;
    }
}

// The first k marks count nothing.
pub fn clear(marks: &mut [u8], k: usize)
    ensures { Cleared k marks.old marks.new }
{
    let n = k.min(marks.len());
    marks[..n].fill(0);
}

// Whether each of the first k marks, of those that there are, counts one or more.
pub fn all_met(marks: &[u8], k: usize) -> bool
    ensures { result ≡ all (λ x. leb 1 x) (take k marks.now) }
{
    marks.iter().take(k).all(|n| *n >= 1)
}

// Whether each of the first k marks, of those that there are, counts exactly one.
pub fn all_once(marks: &[u8], k: usize) -> bool
    ensures { result ≡ all (λ x. eqb x 1) (take k marks.now) }
{
    marks.iter().take(k).all(|n| *n == 1)
}

// The names of a block's line: what it defines, how many variables it reads, one more than the largest variable, and the place after its LF.
#[derive(Clone, Copy)]
pub struct Names {
    pub name: Label,
    pub reads: usize,
    pub top: usize,
    pub next: usize,
}

// How many rows there are, and the place of the line that begins with a point after them.
#[derive(Clone, Copy)]
pub struct Rows {
    pub count: usize,
    pub next: usize,
}

// ---- names

// The next name of a line: a variable that is read, and the place after its space; or the name that is defined, and the place after its LF.
#[derive(Clone, Copy)]
enum Turn {
    Read(usize, usize),
    Last(Label, usize),
}

// Whether v may be the next variable: from `least` on, and a number that has a next.
fn is_next(v: usize, least: usize) -> bool
    ensures { result ≡ is_next least v }
{
    least <= v && v < usize::MAX
}

// The turn that a name and what ends it make.
fn turn_of(a: Label, e: Ended, least: usize) -> Option<Turn>
    ensures { result ≡ turn_of least a e }
{
    match (a, e) {
        (Label::Variable(v), Ended::Space(p)) if is_next(v, least) => Some(Turn::Read(v, p)),
        (Label::Variable(v), Ended::Line(p)) if is_next(v, least) => Some(Turn::Last(a, p)),
        (Label::Output(_), Ended::Line(p)) => Some(Turn::Last(a, p)),
        _ => None,
    }
}

// The next name here, a variable of it from `least` on.
fn next_name(s: &[u8], at: usize, least: usize) -> Option<Turn>
    ensures { TurnIs s.now at least result }
{
    let (a, e) = blif_scan::name(s, at)?;
    turn_of(a, e, least)
}

// The name that is defined is marked, where it is a variable; one more than the largest variable is returned.
fn mark_last(marks: &mut [u8], base: usize, a: Label, least: usize) -> usize
    requires { Follows least (label_of a) }
    ensures { LastMarked base least (label_of a) marks.old marks.new result }
{
    match a {
        Label::Variable(v) => {
            mark(marks, base, v);
            v + 1
        }
        Label::Output(_) => least,
    }
}

// The names here, after `.names` and its space; each variable of the line is marked.
pub fn read_names(s: &[u8], at: usize, base: usize, marks: &mut [u8]) -> Option<Names>
    ensures { NamesIs s.now at base marks.old marks.new result }
{
    let mut p = at;
    let mut least = 0;
    let mut reads = 0;
    // By places: each name is where the one before it ended.
    loop {
        match next_name(s, p, least)? {
            Turn::Read(v, q) => {
                mark(marks, base, v);
                least = v + 1;
                reads += 1;
                p = q;
            }
            Turn::Last(name, next) => {
                let top = mark_last(marks, base, name, least);
                return Some(Names {
                    name,
                    reads,
                    top,
                    next,
                });
            }
        }
    }
}

// ---- rows

// Whether b is one of `0 1 -`.
fn is_sign(b: u8) -> bool
    ensures { result ≡ is_place b }
{
    matches!(b, b'0' | b'1' | b'-')
}

// The sign here, and the place after it.
fn sign_at(s: &[u8], at: usize) -> Option<(u8, usize)>
    ensures { SignIs s.now at result }
{
    let (b, p) = blif_scan::read_byte(s, at)?;
    if is_sign(b) { Some((b, p)) } else { None }
}

// The place i of a sign is marked, where the sign is not `-`.
fn mark_sign(marks: &mut [u8], base: usize, i: usize, b: u8)
    ensures { Raised base (signed i (b ∷ [])) marks.old marks.new }
{
    if b != b'-' {
        mark(marks, base, i);
    }
}

// The place after r signs; each place of `0` or `1` is marked.
fn read_signs(s: &[u8], at: usize, r: usize, base: usize, marks: &mut [u8]) -> Option<usize>
    ensures { SignsIs s.now at r base marks.old marks.new result }
{
    let mut p = at;
    for i in 0..r {
        let (b, q) = sign_at(s, p)?;
        mark_sign(marks, base, i, b);
        p = q;
    }
    Some(p)
}

// The place after the space that follows signs.
fn after_signs(s: &[u8], at: usize, r: usize) -> Option<usize>
    ensures { SpaceIs s.now at r result }
{
    if r == 0 {
        return Some(at);
    }
    let (b, p) = blif_scan::read_byte(s, at)?;
    if b == b' ' { Some(p) } else { None }
}

// The place after what ends a row of r signs.
fn end_row(s: &[u8], at: usize, r: usize) -> Option<usize>
    ensures { EndIs s.now at r result }
{
    let p = after_signs(s, at, r)?;
    match blif_scan::keyword(s, p, b"1")? {
        Ended::Line(q) => Some(q),
        _ => None,
    }
}

// The place after the row here of r signs; each place of `0` or `1` is marked.
pub fn read_row(s: &[u8], at: usize, r: usize, base: usize, marks: &mut [u8]) -> Option<usize>
    ensures { RowIs s.now at r base marks.old marks.new result }
{
    let p = read_signs(s, at, r, base, marks)?;
    end_row(s, p, r)
}

// Whether a point stands here.
fn is_point(s: &[u8], at: usize) -> bool
    ensures { result ≡ pointed (left s.now at) }
{
    blif_scan::read_byte(s, at).is_some_and(|(b, _)| b == b'.')
}

// The rows here, up to a line that begins with a point.
pub fn read_rows(s: &[u8], at: usize, r: usize, base: usize, marks: &mut [u8]) -> Option<Rows>
    ensures { RowsIs s.now at r base marks.old marks.new result }
{
    let mut p = at;
    let mut count = 0;
    // By places: each row is where the one before it ended.
    while !is_point(s, p) {
        p = read_row(s, p, r, base, marks)?;
        count += 1;
    }
    Some(Rows { count, next: p })
}
