// Where a line of a table begins, what is left of it, and what the lines before it have told.
ghost use Rattle.std.specs.Prelude.{◌≡◌, ◌<◌};
ghost use Rattle.table_lines.specs.Text.{content};
ghost use Rattle.spindle.specs.Before.{most_lines, by_kind, after, Reaches};

use table_kinds::Kind;

// The numbers of inputs and outputs, and that of `.p`, where they have been told; the cube lines.
#[derive(Clone, Copy)]
pub struct Seen {
    pub inputs: Option<u32>,
    pub outputs: Option<u32>,
    pub stated: Option<u32>,
    pub cubes: u32,
}

#[derive(Clone, Copy)]
pub struct Reached {
    pub at: usize,
    pub seen: Seen,
}

// What is left of a line: the comment and the blanks at both ends are removed.
pub fn content(l: &[u8]) -> &[u8]
    ensures { result.now ≡ content l.now }
{
    let span = table_lines::content_of(l);
    &l[span.start..span.end]
}

// A line of a kind more.
fn by_kind(s: Seen, kind: Kind) -> Seen
    requires { s.cubes < most_lines }
    ensures { result ≡ by_kind s kind }
{
    match kind {
        Kind::Inputs(n) => Seen {
            inputs: Some(n),
            ..s
        },
        Kind::Outputs(n) => Seen {
            outputs: Some(n),
            ..s
        },
        Kind::Products(n) => Seen {
            stated: Some(n),
            ..s
        },
        Kind::Other => Seen {
            cubes: s.cubes + 1,
            ..s
        },
        Kind::Empty | Kind::End => s,
    }
}

// A line more.
fn after(s: Seen, l: &[u8]) -> Seen
    requires { s.cubes < most_lines }
    ensures { result ≡ after s l.now }
{
    by_kind(s, table_kinds::kind_of(content(l)))
}

// Line number `line`, from 1; one after the last is empty.
pub fn reach(text: &[u8], line: u32) -> Reached
    ensures { Reaches text.now line result }
{
    let mut seen = Seen {
        inputs: None,
        outputs: None,
        stated: None,
        cubes: 0,
    };
    let mut at = 0;
    for _i in 1..line {
        let e = table_lines::line_end(text, at);
        seen = after(seen, &text[at..e]);
        if e >= text.len() {
            return Reached {
                at: text.len(),
                seen,
            };
        }
        at = e + 1;
    }
    Reached { at, seen }
}
