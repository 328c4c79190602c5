// Table texts in the Espresso PLA format, read into networks.
#![tactic(auto)]

ghost use Rattle.std.specs.Prelude.{◌≡◌, ◌&&◌, ◌+◌, ◌<◌, ◌≤◌, leb, length};
ghost use Rattle.sets.specs.Masks.{bit};
ghost use Rattle.cube.specs.Cube.{lits};
ghost use Rattle.expression.specs.Words.{Appends};
ghost use Rattle.network.specs.Held.{most_outputs};
ghost use Rattle.network.specs.Handed.{Holds, AllZero};
ghost use Rattle.table_lines.specs.Text.{lines_of};
ghost use Rattle.table.specs.Table.{most_bytes, most_rows, start, read_lines, read_text, set_wide, set_tall, set_stated, finish};
ghost use Rattle.table.specs.Answers.{Told};
ghost use Rattle.table.specs.Parts.{Numbers, Answers, Roomy, Keeps, Leaves, by_line, by_cube, Ready, column_by, stopped_at, Scans};
ghost use Rattle.table.specs.Parts.{pick, Room, formed, Buildable, net_from};

use cube::Cube;
use network::Network;
use table_kinds::Kind;
use table_rows::Parsed;

// The limits of a table.
pub const MOST_BYTES: usize = 65536;

const MOST_INPUTS: u32 = network::MOST_INPUTS as u32;

const MOST_OUTPUTS: u32 = network::MOST_OUTPUTS as u32;

pub const MOST_PRODUCTS: u32 = 32768;

pub const MOST_ROWS: u64 = 1024;

// The number, the line and the column of a refusal.
#[derive(Clone, Copy)]
pub struct Refusal {
    pub number: u32,
    pub line: u32,
    pub column: usize,
}

#[derive(Clone, Copy)]
pub enum Answer {
    Read,
    Refused(Refusal),
}

// A refusal carries a network of zeros.
#[derive(Clone, Copy)]
pub struct Table {
    pub answer: Answer,
    pub network: Network,
}

// What has been read: the numbers of inputs and outputs and the number of `.p`, where they are there; the cube lines, the rows that
// they make, and how many of the lines make one.
#[derive(Clone, Copy)]
struct State {
    inputs: Option<usize>,
    outputs: Option<usize>,
    stated: Option<usize>,
    lines: usize,
    rows: u64,
    kept: usize,
}

// A line goes on, ends the table, or is refused by a number.
#[derive(Clone, Copy)]
enum Turn {
    Next(State),
    Done(State),
    Refused(u32),
}

// The line of a number of which `held` stands, where s is what stands with it: 2 where it is repeated or too late, 3 where it is out of
// range.
fn number_line(s: State, held: Option<usize>, least: u32, n: u32, most: u32) -> Turn
    ensures { Numbers held (leb least n && leb n most) s result }
{
    if held.is_some() || s.lines != 0 {
        return Turn::Refused(2);
    }
    if n < least || n > most {
        return Turn::Refused(3);
    }
    Turn::Next(s)
}

// `.i N`.
fn set_inputs(s: State, n: u32) -> Turn
    ensures { Answers (set_wide n) s result }
{
    let t = State {
        inputs: Some(n as usize),
        ..s
    };
    number_line(t, s.inputs, 1, n, MOST_INPUTS)
}

// `.o N`.
fn set_outputs(s: State, n: u32) -> Turn
    ensures { Answers (set_tall n) s result }
{
    let t = State {
        outputs: Some(n as usize),
        ..s
    };
    number_line(t, s.outputs, 1, n, MOST_OUTPUTS)
}

// `.p N`.
fn set_stated(s: State, n: u32) -> Turn
    ensures { Answers (set_stated n) s result }
{
    let t = State {
        stated: Some(n as usize),
        ..s
    };
    number_line(t, s.stated, 0, n, MOST_PRODUCTS)
}

// `.e`.
fn finish(s: State) -> Turn
    ensures { Answers finish s result }
{
    if s.inputs.is_none() || s.outputs.is_none() {
        return Turn::Refused(2);
    }
    match s.stated {
        Some(p) if p != s.lines => Turn::Refused(4),
        _ => Turn::Done(s),
    }
}

// One more cube line; its cube and mask are kept where it makes a row.
fn keep_line(
    s: State,
    cube: Cube,
    mask: u64,
    rows: u64,
    words: &mut [u64],
    marks: &mut [u64],
) -> State
    requires roomy { Roomy s words.old marks.old }
    requires rows_bound { s.rows + rows ≤ most_rows }
    ensures { Keeps s (lits cube) mask rows result words.old marks.old words.new marks.new }
{
    let mut t = s;
    t.lines = s.lines + 1;
    t.rows = s.rows + rows;
    if rows == 0 {
        return t;
    }
    let kept = s.kept;
    expression::put_cube(words, kept, cube);
    marks[kept] = mask;
    t.kept = kept + 1;
    t
}

// A cube line: 2 while `.i` or `.o` is missing, or where it is none; 6 where its rows pass the limit.
fn add_line(c: &[u8], s: State, words: &mut [u64], marks: &mut [u64]) -> Turn
    requires { Roomy s words.old marks.old }
    ensures { Leaves (by_cube c.now) s result words.old marks.old words.new marks.new }
{
    let Some(n) = s.inputs else {
        return Turn::Refused(2);
    };
    let Some(m) = s.outputs else {
        return Turn::Refused(2);
    };
    let Parsed::Line(cube, mask, rows) = table_rows::cube_line(c, n, m) else {
        return Turn::Refused(2);
    };
    if rows > MOST_ROWS - s.rows {
        return Turn::Refused(6);
    }
    Turn::Next(keep_line(s, cube, mask, rows, words, marks))
}

// What is left of a line, by its kind.
fn take_line(c: &[u8], s: State, words: &mut [u64], marks: &mut [u64]) -> Turn
    requires { Roomy s words.old marks.old }
    ensures { Leaves (by_line c.now) s result words.old marks.old words.new marks.new }
{
    match table_kinds::kind_of(c) {
        Kind::Empty => Turn::Next(s),
        Kind::Inputs(n) => set_inputs(s, n),
        Kind::Outputs(n) => set_outputs(s, n),
        Kind::Products(n) => set_stated(s, n),
        Kind::End => finish(s),
        Kind::Other => add_line(c, s, words, marks),
    }
}

// The refusal of a whole text: of no line.
fn whole(number: u32) -> Refusal
    ensures { result ≡ record { number = number; line = 0; column = 0 } }
{
    Refusal {
        number,
        line: 0,
        column: 0,
    }
}

// What was read up to the line that ends the table, or the refusal.
#[derive(Clone, Copy)]
struct Scanned {
    answer: Answer,
    state: State,
}

// The column of the refusal of line l by a number.
fn column(l: &[u8], number: u32, s: State) -> usize
    requires l_len_bound { length l.now ≤ most_bytes }
    requires rows_le_most_rows { s.rows ≤ most_rows }
    ensures { result ≡ column_by s l.now number }
{
    let n = s.inputs.unwrap_or(0);
    let m = s.outputs.unwrap_or(0);
    let left = (MOST_ROWS - s.rows) as usize;
    table_columns::place_of(l, number, n, m, left) + 1
}

// The answer to line l, which is the last to be read.
fn stopped(turn: Turn, l: &[u8], line: u32, s: State) -> Scanned
    requires l_len_bound { length l.now ≤ most_bytes }
    requires rows_le_most_rows { s.rows ≤ most_rows }
    ensures { result ≡ stopped_at turn l.now line s }
{
    match turn {
        Turn::Next(t) => Scanned {
            answer: Answer::Read,
            state: t,
        },
        Turn::Done(t) => Scanned {
            answer: Answer::Read,
            state: t,
        },
        Turn::Refused(k) => Scanned {
            answer: Answer::Refused(Refusal {
                number: k,
                line,
                column: column(l, k, s),
            }),
            state: s,
        },
    }
}

// The lines in turn, each taken apart as it is read; a refusal leaves at once.
fn scan(text: &[u8], words: &mut [u64], marks: &mut [u64]) -> Scanned
    requires { Ready text.now words.old marks.old }
    ensures { Scans (read_lines 1 (lines_of text.now) start) result words.new marks.new }
{
    let mut s = State {
        inputs: None,
        outputs: None,
        stated: None,
        lines: 0,
        rows: 0,
        kept: 0,
    };
    for (i, l) in text.split(|b| *b == b'\n').enumerate() {
        let span = table_lines::content_of(l);
        let turn = take_line(&l[span.start..span.end], s, words, marks);
        let Turn::Next(t) = turn else {
            return stopped(turn, l, i as u32 + 1, s);
        };
        s = t;
    }
    Scanned {
        answer: Answer::Refused(whole(5)),
        state: s,
    }
}

// Whether output j is marked.
fn is_marked(mask: u64, j: usize) -> bool
    requires { j < most_outputs }
    ensures { result ≡ bit mask j }
{
    (mask >> j) & 1 == 1
}

// The cubes of output j, of those that the marks are of, are put from place `at` on; the place after them is returned.
fn collect(words: &[u64], marks: &[u64], j: usize, out: &mut [u64], at: usize) -> usize
    requires { Room words.now marks.now (length marks.now) j at out.old }
    ensures { Appends out.old out.new at (pick j words.now marks.now (length marks.now)) result }
{
    let mut to = at;
    for (i, mask) in marks.iter().enumerate() {
        if is_marked(*mask, j) {
            expression::put_cube(out, to, expression::cube_at(words, i));
            to += 1;
        }
    }
    to
}

// Output j's expression is put from place `at` on: cubes dropped, the rest in cube order; the place after it is returned.
fn fill_output(words: &[u64], marks: &[u64], j: usize, out: &mut [u64], at: usize) -> usize
    requires { Room words.now marks.now (length marks.now) j at out.old }
    ensures { Appends out.old out.new at (formed words.now marks.now (length marks.now) j) result }
{
    let e = collect(words, marks, j, out, at);
    let to = at + expression_absorb::absorb_part(out, at, e);
    expression_sort::sort_part(out, at, to);
    expression::clear(out, to, e);
    to
}

// The network of the kept cubes, one for each of the marks.
fn build(inputs: usize, outputs: usize, words: &[u64], marks: &[u64]) -> Network
    requires { Buildable words.now marks.now (length marks.now) outputs }
    ensures { Holds result (net_from inputs outputs words.now marks.now (length marks.now)) }
{
    let mut counts = [0usize; network::NODE_SLOTS];
    let mut out = [0u64; network::WORD_SLOTS];
    let mut at = 0;
    // By index: the counts are written beside the numbers of the outputs.
    for j in 0..outputs {
        let to = fill_output(words, marks, j, &mut out, at);
        counts[j] = to - at;
        at = to;
    }
    Network {
        inputs,
        outputs,
        divisors: 0,
        counts,
        words: out,
    }
}

// A refusal, with a network of zeros.
fn refused(answer: Answer) -> Table
    ensures { (result.answer ≡ answer) × AllZero result.network }
{
    Table {
        answer,
        network: network::blank(),
    }
}

// The network of a table text, or the number, line and column of its refusal.
pub fn read(text: &[u8]) -> Table
    ensures { Told (read_text text.now) result }
{
    if text.len() > MOST_BYTES {
        return refused(Answer::Refused(whole(1)));
    }
    let mut words = [0u64; expression::WORDS * MOST_ROWS as usize];
    let mut marks = [0u64; MOST_ROWS as usize];
    let scanned = scan(text, &mut words, &mut marks);
    let answer = scanned.answer;
    let Answer::Read = answer else {
        return refused(answer);
    };
    let s = scanned.state;
    let n = s.inputs.unwrap_or(0);
    let m = s.outputs.unwrap_or(0);
    Table {
        answer,
        network: build(n, m, &words, &marks[..s.kept]),
    }
}
