// The lines of a table text: where each ends, and what is left of it.
#![tactic(auto)]

ghost use Rattle.std.specs.Prelude.{◌≡◌, ◌==◌, ◌+◌, length, drop};
ghost use Rattle.std.specs.List.{position_or_len};
ghost use Rattle.table_lines.specs.Text.{is_blank, line_of, uncommented, trim_front, trim_end, content_span};

// A part of a line: from the byte at `start` up to the one at `end`.
#[derive(Clone, Copy)]
pub struct Span {
    pub start: usize,
    pub end: usize,
}

// Space, tab and CR.
pub fn is_blank(b: u8) -> bool
    ensures { result ≡ is_blank b }
{
    matches!(b, b' ' | b'\t' | b'\r')
}

// The place of the first b, or the end.
fn find(t: &[u8], b: u8) -> usize
    ensures { result ≡ position_or_len (λ x. x == b) t.now }
{
    t.iter().take_while(|x| **x != b).count()
}

// Where the line that begins at `at` ends: at LF or at the end of the text.
pub fn line_end(t: &[u8], at: usize) -> usize
    ensures { result ≡ at + length (line_of (drop at t.now)) }
{
    let Some(rest) = t.get(at..) else {
        return at;
    };
    at + find(rest, b'\n')
}

fn uncomment(l: &[u8]) -> &[u8]
    ensures { result.now ≡ uncommented l.now }
{
    let e = find(l, b'#');
    &l[..e]
}

// Without the blanks at the front.
pub fn trim_front(l: &[u8]) -> &[u8]
    ensures { result.now ≡ trim_front l.now }
{
    let n = l.iter().take_while(|b| is_blank(**b)).count();
    &l[n..]
}

// Without the blanks at the end.
pub fn trim_end(l: &[u8]) -> &[u8]
    ensures { result.now ≡ trim_end l.now }
{
    let n = l.iter().rev().take_while(|b| is_blank(**b)).count();
    &l[..l.len() - n]
}

// Where in a line that stands which is left of it: the comment and the blanks at both ends are removed.
pub fn content_of(l: &[u8]) -> Span
    ensures { result ≡ content_span l.now }
{
    let u = uncomment(l);
    let f = trim_front(u);
    let start = u.len() - f.len();
    let c = trim_end(f);
    Span {
        start,
        end: start + c.len(),
    }
}
