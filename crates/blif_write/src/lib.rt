// The writer of BLIF texts. The writers count every byte, so that the length is known before a byte is written.
#![tactic(auto)]

ghost use Rattle.std.specs.Prelude.{◌≡◌, cond, [], ◌∷◌, map, ◌<◌};
ghost use Rattle.sets.specs.Lists.{is_nil};
ghost use Rattle.sets.specs.Literal.{plain_of};
ghost use Rattle.sets.specs.Sets.{mem};
ghost use Rattle.cube.specs.Cube.{width, lits};
ghost use Rattle.expression.specs.Words.{cubes_of};
ghost use Rattle.letters.specs.Letters.{name_text};
ghost use Rattle.letters.specs.Laid.{Laid};
ghost use Rattle.letters.specs.Told.{Told};
ghost use Rattle.letters_products.specs.Spelled.{spelled};
ghost use Rattle.network.specs.Held.{net_of};
ghost use Rattle.network.specs.Parts.{Limited};
ghost use Rattle.image_write.specs.Answers.{refused_by};
ghost use Rattle.blif_laws.specs.Text.{ended, first_names, sign_of, spaced, row_words, head_lines, model_text, model_of, blif_of};
ghost use Rattle.blif_write.specs.Parts.{led, plains_of, AllPlain, rows_text, block_text, blocks_text, nodes_at, Nameable};

use cube::{Cube, Variable};
use expression::Verdict;
use letters::Wrote;
use network::Network;

// ---- names

// A space and a name.
fn put_word(o: &mut [u8], at: usize, b: u8, n: u64) -> usize
    ensures { Laid o.old o.new at result (32 ∷ name_text b n) }
{
    let p = letters::put(o, at, b' ');
    letters::put_name(o, p, b, n)
}

// The first n names of a letter.
fn put_names(o: &mut [u8], at: usize, b: u8, n: usize) -> usize
    ensures { Laid o.old o.new at result (led (first_names b n)) }
{
    let mut p = at;
    for i in 0..n {
        p = put_word(o, p, b, i as u64);
    }
    p
}

// ---- the variables of a set

// Whether the set has the variable v.
fn has(set: Cube, v: u32) -> bool
    requires { v < width }
    ensures { result ≡ mem (plain_of v) (lits set) }
{
    cube::has(set, cube::plain(Variable(v)))
}

// The name of v, where the set has it.
fn put_read(o: &mut [u8], at: usize, set: Cube, v: u32) -> usize
    requires { v < width }
    ensures { Laid o.old o.new at result (cond (mem (plain_of v) (lits set)) (32 ∷ name_text 120 v) []) }
{
    if has(set, v) {
        put_word(o, at, b'x', u64::from(v))
    } else {
        at
    }
}

// The names of the set's variables.
fn put_reads(o: &mut [u8], at: usize, set: Cube) -> usize
    ensures { Laid o.old o.new at result (led (map (name_text 120) (plains_of (lits set)))) }
{
    let mut p = at;
    for v in 0..cube::VARIABLES {
        p = put_read(o, p, set, v);
    }
    p
}

// ---- rows

// `1` where the cube has v plain, `0` where negated, `-` where neither.
fn sign(c: Cube, v: u32) -> u8
    requires { v < width }
    ensures { result ≡ sign_of (lits c) v }
{
    if cube::has(c, cube::plain(Variable(v))) {
        b'1'
    } else if cube::has(c, cube::negated(Variable(v))) {
        b'0'
    } else {
        b'-'
    }
}

// The sign of v, where the set has it.
fn put_sign(o: &mut [u8], at: usize, set: Cube, c: Cube, v: u32) -> usize
    requires { v < width }
    ensures { Laid o.old o.new at result (cond (mem (plain_of v) (lits set)) (sign_of (lits c) v ∷ []) []) }
{
    if has(set, v) {
        letters::put(o, at, sign(c, v))
    } else {
        at
    }
}

// The signs of the set's variables.
fn put_signs(o: &mut [u8], at: usize, set: Cube, c: Cube) -> usize
    ensures { Laid o.old o.new at result (map (sign_of (lits c)) (plains_of (lits set))) }
{
    let mut p = at;
    for v in 0..cube::VARIABLES {
        p = put_sign(o, p, set, c, v);
    }
    p
}

// A space after the signs, where there are any.
fn put_gap(o: &mut [u8], at: usize, set: Cube) -> usize
    ensures { Laid o.old o.new at result (cond (is_nil (lits set)) [] (32 ∷ [])) }
{
    if cube_sets::is_empty(set) {
        at
    } else {
        letters::put(o, at, b' ')
    }
}

// The row of a cube.
fn put_row(o: &mut [u8], at: usize, set: Cube, c: Cube) -> usize
    requires { AllPlain (lits set) }
    ensures { Laid o.old o.new at result (ended (spaced (row_words (plains_of (lits set)) (lits c)) ∷ [])) }
{
    let p = put_signs(o, at, set, c);
    let q = put_gap(o, p, set);
    letters::put_bytes(o, q, b"1\n")
}

// A row for each cube.
fn put_rows(o: &mut [u8], at: usize, set: Cube, f: &[u64]) -> usize
    requires { AllPlain (lits set) }
    ensures { Laid o.old o.new at result (rows_text (plains_of (lits set)) (cubes_of f.now)) }
{
    let mut p = at;
    for c in expression::each(f) {
        p = put_row(o, p, set, c);
    }
    p
}

// ---- blocks

// The block that defines the name of a letter and a number: what the cubes read, the name, the rows.
fn put_block(o: &mut [u8], at: usize, f: &[u64], b: u8, v: u64) -> usize
    ensures { Laid o.old o.new at result (block_text (name_text b v) (cubes_of f.now)) }
{
    let set = network_reads::reads(f);
    let p = letters::put_bytes(o, at, b".names");
    let q = put_reads(o, p, set);
    let r = put_word(o, q, b, v);
    let s = letters::put(o, r, b'\n');
    put_rows(o, s, set, f)
}

// The blocks of n nodes from place a on, with numbers from v on.
fn put_blocks(o: &mut [u8], at: usize, net: &Network, a: usize, n: usize, b: u8, v: usize) -> usize
    requires { Nameable net.now.counts a n v }
    ensures { Laid o.old o.new at result (blocks_text b v (nodes_at a n net.now.words net.now.counts)) }
{
    let mut p = at;
    let nodes = network_nodes::each(&net.words, &net.counts);
    for (i, f) in nodes.skip(a).take(n).enumerate() {
        p = put_block(o, p, f, b, (v + i) as u64);
    }
    p
}

// ---- the text

// `.model net`, `.inputs` and `.outputs`.
fn put_head(o: &mut [u8], n: usize, m: usize) -> usize
    ensures { Laid o.old o.new 0 result (ended (head_lines (spelled "net") n m)) }
{
    let p = letters::put_bytes(o, 0, b".model net\n.inputs");
    let q = put_names(o, p, b'x', n);
    let r = letters::put_bytes(o, q, b"\n.outputs");
    let s = put_names(o, r, b'y', m);
    letters::put(o, s, b'\n')
}

// The text of a network as it stands, as far as there is room, and its length.
fn put_model(o: &mut [u8], n: &Network) -> usize
    requires { Limited n.now }
    ensures { Laid o.old o.new 0 result (model_text (spelled "net") (model_of (net_of n.now))) }
{
    let p = put_head(o, n.inputs, n.outputs);
    let q = put_blocks(o, p, n, n.outputs, n.divisors, b'x', n.inputs);
    let r = put_blocks(o, q, n, 0, n.outputs, b'y', 0);
    letters::put_bytes(o, r, b".end\n")
}

// The text of a network in BLIF, at the front of the lent room: 10 where it breaks a rule, then 9 where the text is longer than the room.
pub fn write(n: Network, room: &mut [u8]) -> Wrote
    ensures { Told (refused_by n) (blif_of (net_of n)) room.old room.new result }
{
    let r = image_number::renumber(n);
    let answer = r.answer;
    let Verdict::Accepted = answer else {
        return Wrote::Refused(10);
    };
    let net = r.network;
    let length = put_model(&mut [], &net);
    if room.len() < length {
        return Wrote::Refused(9);
    }
    put_model(room, &net);
    Wrote::Bytes(length)
}
