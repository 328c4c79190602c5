// The line of a refusal as it is shown, with a caret under its column.
ghost use Rattle.std.specs.Prelude.{◌≡◌, ◌-◌, min};
ghost use Rattle.spindle.specs.Shown.{shown_byte, under_byte, window_of};

use std::fmt;
use std::fmt::{Display, Formatter};
use std::io::Stderr;
use table_lines::Span;

// The most bytes of a line that are shown, and the most of them before the column when bytes after it are cut.
const MOST_SHOWN: usize = 70;

const MOST_BEFORE: usize = 60;

// ---- bytes

// A byte as it is shown: what ASCII prints and a tab as they are, any other as `?`.
#[tactic(auto, unfolding(crate::specs::Shown::shown_byte))]
fn shown(b: u8) -> u8
    ensures { result ≡ shown_byte b }
{
    match b {
        b'\t' | b' '..=b'~' => b,
        _ => b'?',
    }
}

// What stands under a byte: a tab under a tab, a blank under any other.
#[tactic(auto, unfolding(crate::specs::Shown::under_byte))]
fn under(b: u8) -> u8
    ensures { result ≡ under_byte b }
{
    if b == b'\t' { b } else { b' ' }
}

// A part of a line as it is shown.
#[derive(Clone, Copy)]
struct Drawn<'a>(&'a [u8]);

impl Display for Drawn<'_> {
    fn fmt<W: fmt::Write>(&self, f: &mut Formatter<W>) -> fmt::Result {
        for b in self.0 {
            write!(f, "{}", char::from(shown(*b)))?;
        }
        Ok(())
    }
}

// What stands under a part of a line: its bytes have that part's width, so that tabs do not shift what follows.
#[derive(Clone, Copy)]
struct Beneath<'a>(&'a [u8]);

impl Display for Beneath<'_> {
    fn fmt<W: fmt::Write>(&self, f: &mut Formatter<W>) -> fmt::Result {
        for b in self.0 {
            write!(f, "{}", char::from(under(*b)))?;
        }
        Ok(())
    }
}

// ---- places

// The place of a column in a line of n bytes; a column past its end is just after it.
pub fn place_of(column: usize, n: usize) -> usize
    ensures { result ≡ min (column - 1) n }
{
    column.saturating_sub(1).min(n)
}

// The part that is shown of a line of n bytes, for a caret at the place p.
#[tactic(auto, unfolding(crate::specs::Shown::window_of))]
fn window(n: usize, p: usize) -> Span
    ensures { result ≡ window_of n p }
{
    let start = p
        .saturating_sub(MOST_BEFORE)
        .min(n.saturating_sub(MOST_SHOWN));
    Span {
        start,
        end: n.min(start.saturating_add(MOST_SHOWN)),
    }
}

// ---- lines

// What stands for bytes that are cut, where some are.
fn cut(is_cut: bool, text: &str) -> &str {
    if is_cut { text } else { "" }
}

// The line, or a part of a long one, and a caret under the column.
pub fn tell_line(err: Stderr, l: &[u8], column: usize) {
    let p = place_of(column, l.len());
    let Span { start, end } = window(l.len(), p);
    let part = Drawn(&l[start..end]);
    let before = cut(start > 0, "...");
    let after = cut(end < l.len(), "...");
    let _ = println!(err; "    {before}{part}{after}");
    let part = Beneath(&l[start..p]);
    let before = cut(start > 0, "   ");
    let _ = println!(err; "    {before}{part}^");
}
