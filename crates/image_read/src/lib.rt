// The reader of images: fields in turn, then what is left over, then the sums, then the order. A fault leaves at once.
#![tactic(auto)]

mod fields;
mod nodes;

ghost use Rattle.std.specs.Prelude.{◌≡◌, ◌&&◌, ◌+◌, ◌-◌, ◌*◌, ◌/◌, ◌<◌, ◌≤◌, length, drop};
ghost use Rattle.sets.specs.Lists.{all};
ghost use Rattle.image_fields.specs.Fields.{bits_in};
ghost use Rattle.expression.specs.Words.{cubes_of};
ghost use Rattle.network.specs.Handed.{Told};
ghost use Rattle.network.specs.Held.{most_inputs, most_outputs, most_variables};
ghost use Rattle.image_laws.specs.Reading.{padding, reads_earlier, judge_raw, read_image};
ghost use Rattle.image_read.specs.Parts.{times, SizesFit, nodes_at, sizes_of, HeadIs, tidy, nodes_in, ordered_in, few_in, Judging};
ghost use Rattle.image_read.specs.Parts.{number, judged_of, Gives};

use crate::nodes::State;
use network::{Handed, Network};

// Why an image is refused.
#[derive(Clone, Copy)]
enum Fault {
    // It ends early, or has something left over.
    Cut,
    // A field is out of range.
    Range,
    // It is not in the one order.
    Order,
}

impl Fault {
    // The number that it is told by.
    fn number(self) -> u32
        ensures { result ≡ number self }
    {
        match self {
            Fault::Cut => 11,
            Fault::Range => 12,
            Fault::Order => 13,
        }
    }
}

// Where the fields before the first node begin.
const INPUTS_AT: usize = image_laws::EDITION_WIDTH;

const OUTPUTS_AT: usize = INPUTS_AT + image_laws::INPUTS_WIDTH;

const DIVISORS_AT: usize = OUTPUTS_AT + image_laws::OUTPUTS_WIDTH;

// The numbers of inputs, outputs and divisors.
#[derive(Clone, Copy)]
struct Sizes {
    inputs: usize,
    outputs: usize,
    divisors: usize,
}

// The numbers that the first fields give, out of range where there are too many variables.
fn sizes_of(a: usize, b: usize, k: usize) -> Result<Sizes, Fault>
    requires { (a < most_inputs) × (b < most_outputs) × (k < most_variables) }
    ensures { result ≡ sizes_of a b k }
{
    if a + 1 + k > network::MOST_VARIABLES {
        return Err(Fault::Range);
    }
    Ok(Sizes {
        inputs: a + 1,
        outputs: b + 1,
        divisors: k,
    })
}

// The fields before the first node.
fn front(bytes: &[u8]) -> Result<Sizes, Fault>
    ensures { HeadIs (bits_in bytes.now) result }
{
    let e = fields::field_at(bytes, 0, image_laws::EDITION_WIDTH).ok_or(Fault::Cut)?;
    if e != image_laws::EDITION {
        return Err(Fault::Range);
    }
    let a = fields::field_at(bytes, INPUTS_AT, image_laws::INPUTS_WIDTH).ok_or(Fault::Cut)?;
    let b = fields::field_at(bytes, OUTPUTS_AT, image_laws::OUTPUTS_WIDTH).ok_or(Fault::Cut)?;
    let k = fields::field_at(bytes, DIVISORS_AT, image_laws::DIVISORS_WIDTH).ok_or(Fault::Cut)?;
    sizes_of(a, b, k)
}

// Whether only zero bits are left, fewer than a byte.
fn is_padded(bytes: &[u8], at: usize) -> bool
    requires { at ≤ times 6 }
    ensures { result ≡ padding (drop at (bits_in bytes.now)) }
{
    let n = bytes.len();
    if at.div_ceil(8) < n {
        return false;
    }
    if 8 * n <= at {
        return true;
    }
    fields::value_at(bytes, at, 8 * n - at) == 0
}

// Whether the cubes are an expression in cube order.
fn is_tidy(f: &[u64]) -> bool
    ensures { result ≡ tidy (cubes_of f.now) }
{
    expression_accept::is_expression(f) && expression_survey::is_ordered(f)
}

// Whether each node is an expression in cube order.
fn all_tidy(words: &[u64], counts: &[usize]) -> bool
    ensures { result ≡ all tidy (nodes_in counts.now words.now) }
{
    network_nodes::each(words, counts).all(|f| is_tidy(f))
}

// Whether each divisor, numbered from n on, reads earlier variables alone.
fn all_earlier(words: &[u64], counts: &[usize], n: usize) -> bool
    requires { n + length counts.now ≤ most_variables }
    ensures { result ≡ reads_earlier n (nodes_in counts.now words.now) }
{
    (n..n + counts.len())
        .zip(network_nodes::each(words, counts))
        .all(|(v, f)| expression_survey::reaches(f, v))
}

// Whether the nodes stand in the one order.
fn in_order(
    ascending: bool,
    inputs: usize,
    apart: &[u64],
    divisors: &[usize],
    words: &[u64],
    outputs: &[usize],
) -> bool
    requires { inputs + length divisors.now ≤ most_variables }
    ensures { result ≡ (ascending && ordered_in inputs (nodes_in divisors.now apart.now)
        (nodes_in outputs.now words.now)) }
{
    ascending
        && all_tidy(apart, divisors)
        && all_tidy(words, outputs)
        && all_earlier(apart, divisors, inputs)
}

// Whether the sums of the counts are within the limits of a network.
fn is_few(s: State) -> bool
    ensures { result ≡ few_in s }
{
    s.cubes <= network::MOST_CUBES && s.literals <= network::MOST_LITERALS as usize
}

// What is left over, then the sums, then the order.
fn judge(
    bytes: &[u8],
    s: State,
    z: Sizes,
    apart: &[u64],
    words: &[u64],
    counts: &[usize],
) -> Result<(), Fault>
    requires { Judging s z counts.now }
    ensures { result ≡ judged_of (bits_in bytes.now) s z apart.now words.now counts.now }
{
    let m = z.outputs;
    let e = m + z.divisors;
    if !is_padded(bytes, s.at) {
        Err(Fault::Cut)
    } else if !is_few(s) {
        Err(Fault::Range)
    } else if !in_order(
        s.ascending,
        z.inputs,
        apart,
        &counts[m..e],
        words,
        &counts[..m],
    ) {
        Err(Fault::Order)
    } else {
        Ok(())
    }
}

// The network whose nodes are read, divisors first; its outputs' cubes stand first.
fn body(bytes: &[u8], z: Sizes) -> Result<Network, Fault>
    requires { SizesFit z }
    ensures { Gives (judge_raw (nodes_at (bits_in bytes.now) z)) result }
{
    let v = z.inputs + z.divisors;
    let m = z.outputs;
    let mut counts = [0usize; network::NODE_SLOTS];
    let mut apart = [0u64; network::WORD_SLOTS];
    let mut words = [0u64; network::WORD_SLOTS];
    let first = State {
        at: image_laws::HEAD_WIDTH,
        cubes: 0,
        literals: 0,
        ascending: true,
    };
    let d = nodes::nodes(bytes, first, v, &mut apart, &mut counts[m..m + z.divisors])?;
    let second = State { cubes: 0, ..d };
    let o = nodes::nodes(bytes, second, v, &mut words, &mut counts[..m])?;
    let both = State {
        cubes: d.cubes + o.cubes,
        ..o
    };
    judge(bytes, both, z, &apart, &words, &counts)?;
    expression::copy(&apart, 0, d.cubes, &mut words, o.cubes);
    Ok(Network {
        inputs: z.inputs,
        outputs: z.outputs,
        divisors: z.divisors,
        counts,
        words,
    })
}

// The network of an image.
fn network_of(bytes: &[u8]) -> Result<Network, Fault>
    ensures { Gives (read_image bytes.now) result }
{
    body(bytes, front(bytes)?)
}

// The network of an image, or the number of its refusal.
pub fn read(bytes: &[u8]) -> Handed
    ensures { Told (read_image bytes.now) result }
{
    match network_of(bytes) {
        Ok(n) => network::hand(n),
        Err(e) => network::refuse(e.number()),
    }
}
