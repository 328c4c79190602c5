// The network of a text in which every name is defined once: each node's block is found, and its rows are put into words.
ghost use Rattle.std.specs.Prelude.{◌≡◌, ◌<◌};
ghost use Rattle.cube.specs.Cube.{width, lits};
ghost use Rattle.network.specs.Answers.{padded};
ghost use Rattle.table_rows.specs.Parts.{placed};
ghost use Rattle.blif_scan.specs.Scanning.{label_of};
ghost use Rattle.blif_read.specs.Building.{FoundIs, marked_in, SignsAre, RowsPut, NodeIs, Within, name_at, NamedIs, Buildable, BuiltIs};

use crate::defining;
use blif_scan::Label;
use cube::{Cube, Variable};
use network::Network;

// ---- finding a block

// The place after `.names` and its space of the block here that defines the name.
pub fn find(s: &[u8], first: usize, name: Label) -> Option<usize>
    ensures { FoundIs s.now first name result }
{
    let mut at = first;
    // By places: each block is where the one before it ended.
    while let Some(b) = defining::pass(s, at, 0, &mut []) {
        if b.name == name {
            return blif_form::begin(s, at);
        }
        at = b.next;
    }
    None
}

// ---- putting its cubes

// The numbers that are marked, ascending, and zeros after them.
fn marked(marks: &[u8; network::MOST_VARIABLES]) -> [u32; network::MOST_VARIABLES]
    ensures { result ≡ padded (marked_in marks.now) }
{
    let mut vars = [0u32; network::MOST_VARIABLES];
    let mut n = 0;
    for v in 0..network::MOST_VARIABLES {
        if marks[v] > 0 {
            vars[n] = v as u32;
            n += 1;
        }
    }
    vars
}

// The cube with the literal that a sign of the variable asks for.
fn with_sign(c: Cube, v: u32, b: u8) -> Cube
    ensures { v < width → lits result ≡ placed v b (lits c) }
{
    match b {
        b'1' => cube::with(c, cube::plain(Variable(v))),
        b'0' => cube::with(c, cube::negated(Variable(v))),
        _ => c,
    }
}

// The literals of the signs here, one for each variable.
fn read_signs(s: &[u8], from: usize, vars: &[u32]) -> Cube
    ensures { SignsAre s.now from vars.now (lits result) }
{
    let mut c = cube::empty();
    let mut at = from;
    for v in vars {
        let Some((b, p)) = blif_scan::read_byte(s, at) else {
            return c;
        };
        c = with_sign(c, *v, b);
        at = p;
    }
    c
}

// The cubes of the rows here, put from place `at` of the words on, as far as there is room; how many.
fn put_rows(s: &[u8], from: usize, vars: &[u32], words: &mut [u64], at: usize) -> usize
    ensures { RowsPut s.now from vars.now words.old words.new at result }
{
    let room = expression::number(words);
    let mut p = from;
    for i in at..room {
        let Some(next) = blif_lines::read_row(s, p, vars.len(), 0, &mut []) else {
            return i - at;
        };
        expression::put_cube(words, i, read_signs(s, p, vars));
        p = next;
    }
    room.saturating_sub(at)
}

// The cubes of the block here, put in cube order from place `at` of the words on; how many.
pub fn put_node(s: &[u8], from: usize, words: &mut [u64], at: usize) -> usize
    ensures { NodeIs s.now from words.old words.new at result × Within words.old at result }
{
    let mut marks = [0u8; network::MOST_VARIABLES];
    let Some(names) = blif_lines::read_names(s, from, 0, &mut marks) else {
        return 0;
    };
    let r = names.reads;
    if r > network::MOST_VARIABLES {
        return 0;
    }
    let vars = marked(&marks);
    let count = put_rows(s, names.next, &vars[..r], words, at);
    expression_sort::sort_part(words, at, at + count);
    count
}

// ---- the network

// The cubes of the block that defines the name, put in cube order from place `at` of the words on; how many.
fn put_named(s: &[u8], first: usize, name: Label, words: &mut [u64], at: usize) -> usize
    ensures { NamedIs s.now first (label_of name) words.old words.new at result × Within words.old at result }
{
    match find(s, first, name) {
        Some(p) => put_node(s, p, words, at),
        None => 0,
    }
}

// The name of the node at a place: outputs first, then divisors.
fn name_at(n: usize, m: usize, i: usize) -> Label
    ensures { label_of result ≡ name_at n m i }
{
    if i < m {
        Label::Output(i)
    } else {
        Label::Variable(network::number_of(n, i - m))
    }
}

// The network of n inputs, m outputs and k divisors.
pub fn build(s: &[u8], first: usize, n: usize, m: usize, k: usize) -> Network
    requires { Buildable n m k }
    ensures { BuiltIs s.now first n m k result }
{
    let mut sizes = [0usize; network::NODE_SLOTS];
    let mut out = [0u64; network::WORD_SLOTS];
    let mut at = 0;
    for i in 0..m + k {
        let size = put_named(s, first, name_at(n, m, i), &mut out, at);
        sizes[i] = size;
        at += size;
    }
    Network {
        inputs: n,
        outputs: m,
        divisors: k,
        counts: sizes,
        words: out,
    }
}
