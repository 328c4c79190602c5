// The writer of images.
#![tactic(auto)]

ghost use Rattle.std.specs.Prelude.{◌≡◌, cond, [], ◌∷◌, ◌+◌, ◌-◌, ◌*◌, ◌^◌, ◌<◌, ◌≤◌, length};
ghost use Rattle.cube.specs.Cube.{lits};
ghost use Rattle.expression.specs.Words.{cubes_of};
ghost use Rattle.network.specs.Held.{net_of, most_cubes};
ghost use Rattle.network.specs.Handed.{node_slots};
ghost use Rattle.image_fields.specs.Fields.{bits_of, field_bits};
ghost use Rattle.image_laws.specs.Image.{cube_fields, node_fields, head_fields, image_of};
ghost use Rattle.letters.specs.Told.{Told};
ghost use Rattle.image_write.specs.Answers.{refused_by};
ghost use Rattle.image_write.specs.Parts.{widest, RoomFor, LaidBits, bits_from, all_bits, most_held_bits, Held, Writable};

use cube::Cube;
use expression::Verdict;
use letters::Wrote;
use network::Network;

// ---- fields

// The place is handed on, as in `letters`: each function returns where the next bit goes.

// What bit b is worth at place r of a byte, the most significant first.
fn worth(r: usize, b: bool) -> u8
    requires { r < 8 }
    ensures { result ≡ cond b (2 ^ (7 - r)) 0 }
{
    if b { 1u8 << (7 - r) } else { 0 }
}

// One bit more; the first of a byte leaves nothing of what the byte was.
fn put_bit(o: &mut [u8], at: usize, b: bool) -> usize
    requires { RoomFor o.old at 1 }
    ensures { LaidBits o.old o.new at result (b ∷ []) }
{
    let i = at / 8;
    let r = at % 8;
    let x = worth(r, b);
    o[i] = if r == 0 { x } else { o[i] + x };
    at + 1
}

// The lowest w bits of v, the most significant first.
fn put_field(o: &mut [u8], at: usize, w: usize, v: u64) -> usize
    requires { (w ≤ widest) × RoomFor o.old at (length (bits_of w v)) }
    ensures { LaidBits o.old o.new at result (bits_of w v) }
{
    let mut p = at;
    for i in (0..w).rev() {
        p = put_bit(o, p, (v >> i) & 1 == 1);
    }
    p
}

// A literal count, and the literals, ascending.
fn put_cube(o: &mut [u8], at: usize, c: Cube) -> usize
    requires { RoomFor o.old at (length (field_bits (cube_fields (lits c)))) }
    ensures { LaidBits o.old o.new at result (field_bits (cube_fields (lits c))) }
{
    let mut p = put_field(
        o,
        at,
        image_laws::LITERALS_WIDTH,
        u64::from(cube_sets::count(c)),
    );
    for l in cube_order::each(c) {
        p = put_field(o, p, image_laws::LITERAL_WIDTH, u64::from(l.0));
    }
    p
}

// A cube count, and each cube.
fn put_node(o: &mut [u8], at: usize, f: &[u64]) -> usize
    requires { RoomFor o.old at (length (field_bits (node_fields (cubes_of f.now)))) }
    ensures { LaidBits o.old o.new at result (field_bits (node_fields (cubes_of f.now))) }
{
    let mut p = put_field(o, at, image_laws::CUBES_WIDTH, expression::number(f) as u64);
    for c in expression::each(f) {
        p = put_cube(o, p, c);
    }
    p
}

// The nodes from a up to e.
fn put_nodes(o: &mut [u8], at: usize, n: &Network, a: usize, e: usize) -> usize
    requires { (a ≤ e) × Held n.now.words n.now.counts e × RoomFor o.old at (length (bits_from a e n.now.words n.now.counts)) }
    ensures { LaidBits o.old o.new at result (bits_from a e n.now.words n.now.counts) }
{
    let mut p = at;
    for f in network_nodes::each(&n.words, &n.counts).skip(a).take(e - a) {
        p = put_node(o, p, f);
    }
    p
}

// The edition, n-1, m-1 and k.
fn put_head(o: &mut [u8], n: &Network) -> usize
    requires { (1 ≤ n.now.inputs) × (1 ≤ n.now.outputs) × RoomFor o.old 0 (length (field_bits (head_fields n.now.inputs n.now.outputs n.now.divisors))) }
    ensures { LaidBits o.old o.new 0 result (field_bits (head_fields n.now.inputs n.now.outputs n.now.divisors)) }
{
    let p = put_field(o, 0, image_laws::EDITION_WIDTH, image_laws::EDITION as u64);
    let q = put_field(o, p, image_laws::INPUTS_WIDTH, (n.inputs - 1) as u64);
    let r = put_field(o, q, image_laws::OUTPUTS_WIDTH, (n.outputs - 1) as u64);
    put_field(o, r, image_laws::DIVISORS_WIDTH, n.divisors as u64)
}

// The head, then each divisor, then each output.
fn put_all(o: &mut [u8], n: &Network) -> usize
    requires { Writable n.now o.old }
    ensures { LaidBits o.old o.new 0 result (all_bits n.now) }
{
    let p = put_head(o, n);
    let q = put_nodes(o, p, n, n.outputs, n.outputs + n.divisors);
    put_nodes(o, q, n, 0, n.outputs)
}

// ---- the length

// The bits of a node.
fn node_bits(f: &[u64]) -> usize
    requires { length (cubes_of f.now) ≤ most_cubes }
    ensures { (result ≡ length (field_bits (node_fields (cubes_of f.now)))) × (result ≤ most_held_bits) }
{
    let cubes = image_laws::LITERALS_WIDTH * expression::number(f);
    image_laws::CUBES_WIDTH
        + (cubes + image_laws::LITERAL_WIDTH * (expression_survey::literals(f) as usize))
}

// The bits of all nodes.
fn nodes_bits(n: &Network) -> usize
    requires { Held n.now.words n.now.counts (n.now.outputs + n.now.divisors) }
    ensures { (result ≡ length (bits_from 0 (n.now.outputs + n.now.divisors) n.now.words n.now.counts)) × (result ≤ node_slots * most_held_bits) }
{
    let mut sum = 0;
    for f in network_nodes::each(&n.words, &n.counts).take(n.outputs + n.divisors) {
        sum += node_bits(f);
    }
    sum
}

// ---- the image

// The image of a network, in the bytes at the front: 10 where it breaks a rule, then 9 where the image is longer than the room.
pub fn write(n: Network, bytes: &mut [u8]) -> Wrote
    ensures { Told (refused_by n) (image_of (net_of n)) bytes.old bytes.new result }
{
    let r = image_number::renumber(n);
    let Verdict::Accepted = r.answer else {
        return Wrote::Refused(10);
    };
    let bits = image_laws::HEAD_WIDTH + nodes_bits(&r.network);
    let length = bits.div_ceil(8);
    if length > bytes.len() {
        return Wrote::Refused(9);
    }
    put_all(bytes, &r.network);
    Wrote::Bytes(length)
}
