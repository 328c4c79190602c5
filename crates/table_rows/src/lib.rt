// The cube line that a line of a table text may be: its places and its marks, the cube, the mask and the rows.
#![tactic(auto)]

ghost use Rattle.std.specs.Prelude.{◌≡◌, map, ◌<◌, ◌≤◌, eqb, length};
ghost use Rattle.sets.specs.Lists.{all};
ghost use Rattle.sets.specs.Masks.{packed};
ghost use Rattle.cube.specs.Cube.{width, lits};
ghost use Rattle.table_lines.specs.Text.{starts_blank};
ghost use Rattle.table_rows.specs.Lines.{most_places, is_place, is_mark, cube_from};
ghost use Rattle.table_rows.specs.Answers.{parsed_of, parsing, setting_of};
ghost use Rattle.table_rows.specs.Parts.{placed};

use cube::{Cube, Variable};

// The most inputs, and the most outputs, of a table.
const MOST: usize = 32;

// A cube line: its cube, the outputs with a 1 as a mask, and how many there are.
#[derive(Clone, Copy)]
pub enum Parsed {
    Line(Cube, u64, u64),
    Nothing,
}

// A setting of the inputs, as the number whose bit i is input i.
#[derive(Clone, Copy)]
pub enum Setting {
    Is(u64),
    Wrong,
}

// One of `0 1`.
pub fn is_mark(b: u8) -> bool
    ensures { result ≡ is_mark b }
{
    matches!(b, b'0' | b'1')
}

// One of `0 1 -`.
pub fn is_place(b: u8) -> bool
    ensures { result ≡ is_place b }
{
    is_mark(b) || b == b'-'
}

// The cube with the literal that place v asks for.
#[tactic(auto, unfolding(crate::specs::Parts::placed))]
fn with_place(c: Cube, v: u32, b: u8) -> Cube
    requires { v < width }
    ensures { lits result ≡ placed v b (lits c) }
{
    match b {
        b'1' => cube::with(c, cube::plain(Variable(v))),
        b'0' => cube::with(c, cube::negated(Variable(v))),
        _ => c,
    }
}

// The literals of the places.
fn cube_of(p: &[u8]) -> Cube
    requires { length p.now ≤ most_places }
    ensures { lits result ≡ cube_from 0 p.now }
{
    let mut c = cube::empty();
    for (v, b) in p.iter().enumerate() {
        c = with_place(c, v as u32, *b);
    }
    c
}

// The outputs with a 1, as a mask.
fn marks_of(o: &[u8]) -> u64
    requires { length o.now ≤ most_places }
    ensures { result ≡ packed (map (eqb 49) o.now) }
{
    let mut mask = 0;
    for b in o.iter().rev() {
        mask = 2 * mask + u64::from(*b == b'1');
    }
    mask
}

// Whether each byte is one of `0 1 -`.
fn all_places(p: &[u8]) -> bool
    ensures { result ≡ all is_place p.now }
{
    p.iter().all(|b| is_place(*b))
}

// Whether each byte is one of `0 1`.
fn all_marks(o: &[u8]) -> bool
    ensures { result ≡ all is_mark o.now }
{
    o.iter().all(|b| is_mark(*b))
}

// Whether a blank stands at the front.
fn starts_blank(t: &[u8]) -> bool
    ensures { result ≡ starts_blank t.now }
{
    matches!(t, [b, ..] if table_lines::is_blank(*b))
}

// The cube line of n inputs and m outputs that a line is, if it is one.
#[tactic(auto, unfolding(crate::specs::Answers::parsing, crate::specs::Lines::cube_line_of))]
pub fn cube_line(c: &[u8], n: usize, m: usize) -> Parsed
    ensures { parsed_of result ≡ parsing n m c.now }
{
    if n > MOST || m > MOST {
        return Parsed::Nothing;
    }
    let Some((p, t)) = c.split_at_checked(n) else {
        return Parsed::Nothing;
    };
    if !all_places(p) || !starts_blank(t) {
        return Parsed::Nothing;
    }
    let o = table_lines::trim_front(t);
    if o.len() != m || !all_marks(o) {
        return Parsed::Nothing;
    }
    let marks = marks_of(o);
    Parsed::Line(cube_of(p), marks, u64::from(marks.count_ones()))
}

// The setting that a word writes as a cube line writes its marks: `0` or `1` for each input, input 0 first.
#[tactic(auto, unfolding(crate::specs::Answers::setting_of))]
pub fn setting_of(word: &[u8], inputs: usize) -> Setting
    ensures { result ≡ setting_of inputs word.now }
{
    if inputs > MOST || word.len() != inputs || !all_marks(word) {
        return Setting::Wrong;
    }
    Setting::Is(marks_of(word))
}
