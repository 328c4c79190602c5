// The form of a text: one pass over its blocks. Where another text stands, nothing is answered.
#![tactic(auto)]

ghost use Rattle.std.specs.Prelude.{◌≡◌, ◌≤◌, length};
ghost use Rattle.blif_laws.specs.Reading.{among};
ghost use Rattle.blif_scan.specs.Scanning.{label_of};
ghost use Rattle.blif_lines.specs.Marking.{Window};
ghost use Rattle.blif_form.specs.Surveying.{BeginsAt, UsedIs, UsedFrom, BlockIs, EndingIs, BlocksIs, SurveyIs};

use blif_scan::{Ended, Label};

// A block: what it defines, how many rows it has, one more than the largest variable it names, and the place after it.
#[derive(Clone, Copy)]
struct Found {
    name: Label,
    rows: usize,
    top: usize,
    next: usize,
}

// All blocks: their rows, as far as a network may have cubes and one more, and one more than the largest variable.
#[derive(Clone, Copy)]
struct Blocks {
    rows: usize,
    top: usize,
}

// A text of the form: inputs, outputs, rows, one more than the largest variable, and where the blocks begin.
#[derive(Clone, Copy)]
pub struct Survey {
    pub inputs: usize,
    pub outputs: usize,
    pub rows: usize,
    pub top: usize,
    pub first: usize,
}

// ---- one block

// The place after `.names` and a space here.
pub fn begin(s: &[u8], at: usize) -> Option<usize>
    ensures { BeginsAt s.now at result }
{
    match blif_scan::keyword(s, at, b".names")? {
        Ended::Space(p) => Some(p),
        _ => None,
    }
}

// Whether each of k columns from `base` on has a `0` or `1` in some of the rows here.
fn is_used(s: &[u8], at: usize, r: usize, base: usize, k: usize, marks: &mut [u8]) -> bool
    requires { k ≤ length marks.old }
    ensures { UsedFrom s.now at r base k result × (length marks.new ≡ length marks.old) }
{
    blif_lines::clear(marks, k);
    blif_lines::read_rows(s, at, r, base, marks).is_some() && blif_lines::all_met(marks, k)
}

// Whether each of r columns has a `0` or `1` in some of the rows here.
fn all_used(s: &[u8], at: usize, r: usize, marks: &mut [u8]) -> bool
    requires { Window marks.old }
    ensures { UsedIs s.now at r result × (length marks.new ≡ length marks.old) }
{
    for base in (0..r).step_by(blif_lines::WINDOW) {
        let k = blif_lines::WINDOW.min(r - base);
        if !is_used(s, at, r, base, k, marks) {
            return false;
        }
    }
    true
}

// Whether a block may define the name: a variable, or one of m outputs.
fn is_among(m: usize, name: Label) -> bool
    ensures { result ≡ among m (label_of name) }
{
    match name {
        Label::Variable(_) => true,
        Label::Output(j) => j < m,
    }
}

// The block here, after `.names` and its space; an output is one of m.
fn read_block(s: &[u8], at: usize, m: usize, marks: &mut [u8]) -> Option<Found>
    requires { Window marks.old }
    ensures { BlockIs s.now at m result × (length marks.new ≡ length marks.old) }
{
    let d = blif_lines::read_names(s, at, 0, &mut [])?;
    if !is_among(m, d.name) {
        return None;
    }
    let rows = blif_lines::read_rows(s, d.next, d.reads, 0, &mut [])?;
    if !all_used(s, d.next, d.reads, marks) {
        return None;
    }
    Some(Found {
        name: d.name,
        rows: rows.count,
        top: d.top,
        next: rows.next,
    })
}

// ---- all blocks

// Whether `.end` is here, and nothing after its line.
fn is_end(s: &[u8], at: usize) -> bool
    ensures { EndingIs s.now at result }
{
    match blif_scan::keyword(s, at, b".end") {
        Some(Ended::Line(p)) => blif_scan::read_byte(s, p).is_none(),
        Some(Ended::Finish) => true,
        Some(Ended::Space(_)) => false,
        None => false,
    }
}

// The blocks here, and `.end`, in one pass with the marks that are lent.
fn walk(s: &[u8], at: usize, m: usize, marks: &mut [u8]) -> Option<Blocks>
    requires { Window marks.old }
    ensures { BlocksIs s.now at m result }
{
    let mut p = at;
    let mut rows = 0usize;
    let mut top = 0usize;
    // By places: each block is where the one before it ended.
    while let Some(q) = begin(s, p) {
        let b = read_block(s, q, m, marks)?;
        rows = rows.saturating_add(b.rows).min(network::MOST_CUBES + 1);
        top = top.max(b.top);
        p = b.next;
    }
    if is_end(s, p) {
        Some(Blocks { rows, top })
    } else {
        None
    }
}

// The blocks here, and `.end`.
fn read_blocks(s: &[u8], at: usize, m: usize) -> Option<Blocks>
    ensures { BlocksIs s.now at m result }
{
    let mut marks = [0u8; blif_lines::WINDOW];
    walk(s, at, m, &mut marks)
}

// ---- the whole text

// The whole text.
pub fn take_survey(s: &[u8]) -> Option<Survey>
    ensures { SurveyIs s.now result }
{
    let h = blif_scan::read_head(s)?;
    let b = read_blocks(s, h.first, h.outputs)?;
    Some(Survey {
        inputs: h.inputs,
        outputs: h.outputs,
        rows: b.rows,
        top: h.inputs.max(b.top),
        first: h.first,
    })
}
