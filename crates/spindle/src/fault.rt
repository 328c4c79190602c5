// Why a table is refused, to standard error: its line, a caret under the column, and a sentence. Safety and an end are all that is
// promised here.
use crate::before::Seen;
use crate::line::{Grouped, Things, complain};
use crate::{before, shown};
use network::{MOST_INPUTS, MOST_OUTPUTS};
use std::fmt;
use std::fmt::{Display, Formatter};
use std::io::Stderr;
use table::{MOST_BYTES, MOST_PRODUCTS, MOST_ROWS, Refusal};
use table_kinds::Kind;

// What a refusal by number found at a column of a line, and what a good line has there; before it the lines have told so much.
#[derive(Clone, Copy)]
struct Sentence<'a> {
    number: u32,
    line: &'a [u8],
    column: usize,
    seen: Seen,
}

impl Display for Sentence<'_> {
    fn fmt<W: fmt::Write>(&self, f: &mut Formatter<W>) -> fmt::Result {
        let content = before::content(self.line);
        match self.number {
            3 => tell_out_of_range(f, content),
            4 => tell_count(f, self.seen),
            6 => write!(
                f,
                "one row too many; a table has at most {} rows, one for each 1 of an output",
                Grouped(MOST_ROWS)
            ),
            _ => tell_spelled(f, self.line, self.column, content, self.seen),
        }
    }
}

// ---- what was found

fn tell_found<W: fmt::Write>(f: &mut Formatter<W>, b: u8) -> fmt::Result {
    match b {
        b' ' => write!(f, "a blank"),
        b'\t' => write!(f, "a tab"),
        b'\r' => write!(f, "a carriage return"),
        b'`' => write!(f, "a backquote"),
        b'!'..=b'~' => write!(f, "`{}`", char::from(b)),
        _ => write!(f, "the byte {b}"),
    }
}

// Whether a comment stands after what is left of the line.
fn has_comment(l: &[u8]) -> bool {
    table_lines::content_of(l).end < table_lines::trim_end(l).len()
}

// The byte at the column, or the end of a line that ends too soon.
fn tell_at<W: fmt::Write>(f: &mut Formatter<W>, l: &[u8], column: usize) -> fmt::Result {
    if let Some(b) = l.get(shown::place_of(column, l.len())) {
        return tell_found(f, *b);
    }
    write!(f, "the end of the line")?;
    if has_comment(l) {
        write!(f, " before its comment")?;
    }
    if l.ends_with(b"\r") {
        write!(f, " (its carriage return is shown as ?)")?;
    }
    Ok(())
}

// ---- what a good line has there: a line of no kind, by its beginning

fn tell_kinds<W: fmt::Write>(f: &mut Formatter<W>) -> fmt::Result {
    write!(
        f,
        "; a line that begins with a point is .i N, .o N, .p N, .e or .end"
    )
}

// `.i`, `.o` or `.p`; with a letter more it is another name, as `.ilb`.
fn tell_named<W: fmt::Write>(f: &mut Formatter<W>, letter: u8, rest: &[u8]) -> fmt::Result {
    match rest {
        [b'a'..=b'z' | b'A'..=b'Z', ..] => tell_kinds(f),
        _ => write!(
            f,
            "; .{} is followed by one or more blanks and a number of one to five digits, and nothing else",
            char::from(letter)
        ),
    }
}

// What stands after a point.
fn tell_pointed<W: fmt::Write>(f: &mut Formatter<W>, rest: &[u8]) -> fmt::Result {
    match rest {
        [b'i', rest @ ..] => tell_named(f, b'i', rest),
        [b'o', rest @ ..] => tell_named(f, b'o', rest),
        [b'p', rest @ ..] => tell_named(f, b'p', rest),
        [b'e', ..] => write!(
            f,
            "; a line that begins with .e is .e or .end, and nothing else"
        ),
        _ => tell_kinds(f),
    }
}

// A cube line, once `.i` and `.o` have told how long it is.
fn tell_cube<W: fmt::Write>(f: &mut Formatter<W>, s: Seen) -> fmt::Result {
    match (s.inputs, s.outputs) {
        (Some(inputs), Some(outputs)) => write!(
            f,
            "; a cube line here has {inputs} of 0 1 -, one or more blanks and {outputs} of 0 1"
        ),
        _ => write!(f, "; a cube line comes after both .i and .o"),
    }
}

fn tell_other<W: fmt::Write>(f: &mut Formatter<W>, s: Seen) -> fmt::Result {
    match (s.inputs, s.outputs) {
        (Some(_), Some(_)) => write!(
            f,
            "; a line here begins with a point, with one of 0 1 -, or with # for a comment"
        ),
        _ => write!(
            f,
            "; a line here begins with a point, or with # for a comment"
        ),
    }
}

fn tell_begun<W: fmt::Write>(f: &mut Formatter<W>, c: &[u8], s: Seen) -> fmt::Result {
    match c {
        [b'.', rest @ ..] => tell_pointed(f, rest),
        [b'0' | b'1' | b'-', ..] => tell_cube(f, s),
        _ => tell_other(f, s),
    }
}

// ---- a line of a kind: repeated, too early or too late

// The line of a name that has stood before, or of one that comes too late.
fn tell_misplaced<W: fmt::Write>(
    f: &mut Formatter<W>,
    name: &str,
    before: Option<u32>,
) -> fmt::Result {
    match before {
        Some(_) => write!(
            f,
            "a second {name}; it stands only once, before any cube line"
        ),
        None => write!(
            f,
            "{name} after a cube line; it stands before any cube line"
        ),
    }
}

fn tell_early<W: fmt::Write>(f: &mut Formatter<W>, s: Seen) -> fmt::Result {
    let missing = match (s.inputs, s.outputs) {
        (Some(_), _) => ".o",
        (None, Some(_)) => ".i",
        (None, None) => ".i and .o",
    };
    write!(
        f,
        "the end of the table before {missing}; .e comes after both .i and .o"
    )
}

// A line that is spelled as a kind, or is of none.
fn tell_spelled<W: fmt::Write>(
    f: &mut Formatter<W>,
    l: &[u8],
    column: usize,
    c: &[u8],
    s: Seen,
) -> fmt::Result {
    match table_kinds::kind_of(c) {
        Kind::Inputs(_) => tell_misplaced(f, ".i", s.inputs),
        Kind::Outputs(_) => tell_misplaced(f, ".o", s.outputs),
        Kind::Products(_) => tell_misplaced(f, ".p", s.stated),
        Kind::End => tell_early(f, s),
        _ => {
            tell_at(f, l, column)?;
            tell_begun(f, c, s)
        }
    }
}

// ---- the other refusals

fn tell_range<W: fmt::Write>(
    f: &mut Formatter<W>,
    n: u32,
    name: &str,
    least: u32,
    most: u64,
) -> fmt::Result {
    write!(
        f,
        "{}; {name} has a number from {least} to {}",
        Grouped(u64::from(n)),
        Grouped(most)
    )
}

fn tell_out_of_range<W: fmt::Write>(f: &mut Formatter<W>, c: &[u8]) -> fmt::Result {
    match table_kinds::kind_of(c) {
        Kind::Inputs(n) => tell_range(f, n, ".i", 1, MOST_INPUTS as u64),
        Kind::Outputs(n) => tell_range(f, n, ".o", 1, MOST_OUTPUTS as u64),
        Kind::Products(n) => tell_range(f, n, ".p", 0, u64::from(MOST_PRODUCTS)),
        _ => Ok(()),
    }
}

fn tell_count<W: fmt::Write>(f: &mut Formatter<W>, s: Seen) -> fmt::Result {
    let cubes = Things(u64::from(s.cubes), "cube line");
    write!(f, "the end of the table after {cubes}")?;
    if let Some(stated) = s.stated {
        write!(f, "; .p says {stated}")?;
    }
    Ok(())
}

// ---- the whole

// The line and the column, the line as it stands, and the sentence.
fn explain_line(err: Stderr, path: &[u8], text: &[u8], q: Refusal) {
    let reached = before::reach(text, q.line);
    let e = table_lines::line_end(text, reached.at);
    let line = &text[reached.at..e];
    complain(
        err,
        path,
        format_args!(": line {}, column {}", q.line, q.column),
    );
    shown::tell_line(err, line, q.column);
    let sentence = Sentence {
        number: q.number,
        line,
        column: q.column,
        seen: reached.seen,
    };
    let _ = println!(err; "spindle: found {sentence}");
}

// Why the text, which came from the path, is refused.
pub fn explain(err: Stderr, path: &[u8], text: &[u8], q: Refusal) {
    match q.number {
        1 => {
            let most = Grouped(MOST_BYTES as u64);
            complain(
                err,
                path,
                format_args!(": found over {most} bytes; a table has at most {most}"),
            );
        }
        5 => complain(
            err,
            path,
            ": found the end of the text; a table ends with a line .e or .end",
        ),
        _ => explain_line(err, path, text, q),
    }
}
