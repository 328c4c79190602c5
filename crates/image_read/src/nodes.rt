// The nodes of an image, put one after the other.
ghost use Rattle.std.specs.Prelude.{◌≡◌, ◌+◌, ◌-◌, ◌<◌, ◌≤◌, length, drop};
ghost use Rattle.image_fields.specs.Fields.{bits_in};
ghost use Rattle.network.specs.Held.{most_variables, most_cubes};
ghost use Rattle.image_laws.specs.Widths.{most_cubes_bits, most_node_bits};
ghost use Rattle.image_laws.specs.Reading.{get_cube, get_many, get_node};
ghost use Rattle.image_read.specs.Parts.{times, added, Low, CubesAre, NodesAre};

use crate::fields::Taken;
use crate::{Fault, fields};

// How far the image is read: the next bit, the sums of the counts as written, and whether all literals ascend so far.
#[derive(Clone, Copy)]
pub struct State {
    pub at: usize,
    pub cubes: usize,
    pub literals: usize,
    pub ascending: bool,
}

// One cube more.
fn added(s: State, c: Taken) -> State
    requires { Low (times 5) s × (c.literals ≤ most_variables) }
    ensures { result ≡ added s c }
{
    State {
        at: c.at,
        cubes: s.cubes + 1,
        literals: s.literals + c.literals,
        ascending: s.ascending && c.ascending,
    }
}

// So many cubes, put one after the other; past the last place nothing is put.
fn cubes(bytes: &[u8], start: State, v: usize, k: usize, words: &mut [u64]) -> Result<State, Fault>
    requires { Low (times 3) start × (v ≤ most_variables) × (k ≤ most_cubes) }
    ensures { CubesAre most_cubes_bits (bits_in bytes.now) start (get_many (get_cube v) k (drop start.at (bits_in bytes.now)))
        words.old words.new result }
{
    let mut s = start;
    for i in 0..k {
        let c = fields::cube_at(bytes, s.at, v)?;
        expression::put_cube(words, s.cubes, c.cube);
        s = added(s, c);
    }
    Ok(s)
}

// The node from here on: its cube count and its cubes.
fn node(bytes: &[u8], start: State, v: usize, words: &mut [u64]) -> Result<State, Fault>
    requires { Low (times 2) start × (v ≤ most_variables) }
    ensures { CubesAre most_node_bits (bits_in bytes.now) start (get_node v (drop start.at (bits_in bytes.now)))
        words.old words.new result }
{
    let k = fields::field_at(bytes, start.at, image_laws::CUBES_WIDTH).ok_or(Fault::Cut)?;
    if k > network::MOST_CUBES {
        return Err(Fault::Range);
    }
    let s = State {
        at: start.at + image_laws::CUBES_WIDTH,
        ..start
    };
    cubes(bytes, s, v, k, words)
}

// As many nodes as there are counts, which become theirs.
pub fn nodes(
    bytes: &[u8],
    start: State,
    v: usize,
    words: &mut [u64],
    counts: &mut [usize],
) -> Result<State, Fault>
    requires { Low (times 1) start × (v ≤ most_variables) × (length counts.old ≤ most_variables) }
    ensures { NodesAre (length counts.old) (bits_in bytes.now) start (get_many (get_node v) (length counts.old) (drop start.at (bits_in bytes.now)))
        words.old words.new counts.new result }
{
    let mut s = start;
    for count in counts {
        let n = node(bytes, s, v, words)?;
        *count = n.cubes - s.cubes;
        s = n;
    }
    Ok(s)
}
