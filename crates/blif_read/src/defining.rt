// Which variables stand in the text without a gap, and which names are defined once: windows of numbers, counted in one pass over the blocks each.
ghost use Rattle.std.specs.Prelude.{◌≡◌, ◌-◌, ◌≤◌, min};
ghost use Rattle.sets.specs.Lists.{from};
ghost use Rattle.blif_lines.specs.Marking.{Raised, window};
ghost use Rattle.blif_read.specs.Defining.{PassedIs, NumberIs, StandIs, DefinedIs, WindowStands, WindowOnce, AllOnce, GaplessIs, OnceIs};

use blif_scan::Label;

// A block that is passed: what it defines, and the place after it.
#[derive(Clone, Copy)]
pub struct Passed {
    pub name: Label,
    pub next: usize,
}

// The block here is passed, and each variable that it names is marked; or none is left.
pub fn pass(s: &[u8], at: usize, base: usize, marks: &mut [u8]) -> Option<Passed>
    ensures { PassedIs s.now at base marks.old marks.new result }
{
    let p = blif_form::begin(s, at)?;
    let d = blif_lines::read_names(s, p, base, marks)?;
    let rows = blif_lines::read_rows(s, d.next, d.reads, 0, &mut [])?;
    Some(Passed {
        name: d.name,
        next: rows.next,
    })
}

// Each variable that the blocks here name is marked.
pub fn stand(s: &[u8], first: usize, base: usize, marks: &mut [u8])
    ensures { StandIs s.now first base marks.old marks.new }
{
    let mut at = first;
    // By places: each block is where the one before it ended.
    while let Some(b) = pass(s, at, base, marks) {
        at = b.next;
    }
}

// The name is marked, where it is an output or not.
fn mark_name(name: Label, outputs: bool, base: usize, marks: &mut [u8])
    ensures { NumberIs name outputs base marks.old marks.new }
{
    match name {
        Label::Variable(v) if !outputs => blif_lines::mark(marks, base, v),
        Label::Output(j) if outputs => blif_lines::mark(marks, base, j),
        _ => {}
    }
}

// Each variable, or each output, that a block here defines is marked.
pub fn define(s: &[u8], first: usize, outputs: bool, base: usize, marks: &mut [u8])
    ensures { DefinedIs s.now first outputs base marks.old marks.new }
{
    let mut at = first;
    // By places: each block is where the one before it ended.
    while let Some(b) = pass(s, at, 0, &mut []) {
        mark_name(b.name, outputs, base, marks);
        at = b.next;
    }
}

// How many numbers from base on are below top, as far as a window has them.
fn span(base: usize, top: usize) -> usize
    ensures { result ≡ min (top - base) window }
{
    top.saturating_sub(base).min(blif_lines::WINDOW)
}

// Whether each of k numbers from base on stands in the blocks here.
fn does_stand(s: &[u8], first: usize, base: usize, k: usize) -> bool
    requires { k ≤ window }
    ensures { WindowStands s.now first base k result }
{
    let mut room = [0u8; blif_lines::WINDOW];
    stand(s, first, base, &mut room);
    blif_lines::all_met(&room, k)
}

// Whether every variable below `top` stands among n inputs or in the blocks here.
pub fn is_gapless(s: &[u8], first: usize, n: usize, top: usize) -> bool
    ensures { GaplessIs s.now first n top result }
{
    for base in (n..top).step_by(blif_lines::WINDOW) {
        if !does_stand(s, first, base, span(base, top)) {
            return false;
        }
    }
    true
}

// Each number below n, from base on, is marked.
fn mark_inputs(n: usize, base: usize, marks: &mut [u8])
    ensures { Raised base (from base (min (n - base) window)) marks.old marks.new }
{
    for i in 0..span(base, n) {
        blif_lines::mark(marks, base, base + i);
    }
}

// Whether each of k numbers from base on is defined once, as one of n inputs or by a block here.
fn is_defined(s: &[u8], first: usize, outputs: bool, n: usize, base: usize, k: usize) -> bool
    requires { k ≤ window }
    ensures { WindowOnce s.now first outputs n base k result }
{
    let mut room = [0u8; blif_lines::WINDOW];
    define(s, first, outputs, base, &mut room);
    mark_inputs(n, base, &mut room);
    blif_lines::all_once(&room, k)
}

// Whether every number below `top` is defined once.
fn are_defined(s: &[u8], first: usize, outputs: bool, n: usize, top: usize) -> bool
    ensures { AllOnce s.now first outputs n top result }
{
    for base in (0..top).step_by(blif_lines::WINDOW) {
        if !is_defined(s, first, outputs, n, base, span(base, top)) {
            return false;
        }
    }
    true
}

// Whether every variable below `top` and every one of m outputs is defined once: n inputs are, and what blocks here define.
pub fn is_once(s: &[u8], first: usize, n: usize, m: usize, top: usize) -> bool
    ensures { OnceIs s.now first n m top result }
{
    are_defined(s, first, false, n, top) && are_defined(s, first, true, 0, m)
}
