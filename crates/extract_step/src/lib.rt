// One step: in every use the divisor is replaced by the literal of a new node that holds it.
#![tactic(auto)]

ghost use Rattle.std.specs.Prelude.{◌≡◌, true, [], map, ◌+◌, ◌≤◌, length, replicate};
ghost use Rattle.std.specs.List.{filter_map};
ghost use Rattle.std.specs.Option.{option_map};
ghost use Rattle.cube.specs.Cube.{width, lits};
ghost use Rattle.expression.specs.Words.{cubes_of, Appends};
ghost use Rattle.expression.specs.Expression.{ordered};
ghost use Rattle.network.specs.Handed.{node_slots, word_slots, LaidNodes};
ghost use Rattle.network.specs.Parts.{nodes_of, held_in, net_at};
ghost use Rattle.extract_laws.specs.Divisor.{own, part, hit, gone, rewrite};
ghost use Rattle.extract_laws.specs.Run.{room_for};
ghost use Rattle.extract_divisor.specs.Divisor.{divisor_of};
ghost use Rattle.extract_fit.specs.Fitness.{fitting};
ghost use Rattle.extract_step.specs.Replace.{allowed, Zeros, Stepped, outcome_of, SteppedIn};
ghost use Rattle.extract_step.specs.Parts.{fate, Fitted, SourceNodes, Ready};

use cube::{Cube, Literal, Variable};
use extract_divisor::Divisor;
use network::Network;

#[derive(Clone, Copy)]
pub enum Outcome {
    Made,
    Numbers,
    Rows,
    Unfit,
}

// The network after a step, the number of its new node, and its literals. Where no step is made, all zeros.
#[derive(Clone, Copy)]
pub struct Next {
    pub outcome: Outcome,
    pub network: Network,
    pub number: Variable,
    pub literals: u64,
}

// A node in cube order, the divisor that a step takes, and the literal that takes the divisor's place.
#[derive(Clone, Copy)]
struct Source<'a> {
    cubes: &'a [u64],
    divisor: Divisor,
    literal: Literal,
    ghost ordered: { ordered (cubes_of cubes.now) ≡ true },
    ghost fit: { Fitted divisor literal },
}

// Whether c has both literals.
fn has_pair(p: Literal, q: Literal, c: Cube) -> bool
    ensures { result ≡ hit (divisor_of (Divisor.Pair p q)) [] (lits c) }
{
    cube::has(c, p) && cube::has(c, q)
}

// The part that a use is named by.
fn part_of(d: Divisor) -> Cube
    requires { fitting width (divisor_of d) ≡ true }
    ensures { lits result ≡ part (divisor_of d) }
{
    match d {
        Divisor::Pair(p, q) => cube::with(cube::with(cube::empty(), p), q),
        Divisor::Sum(a, _) => a,
    }
}

impl<'a> Source<'a> {
    // Whether c is the cube that a use is named by.
    fn is_hit(self, c: Cube) -> bool
        ensures { result ≡ hit (divisor_of self.entry.divisor) (cubes_of self.entry.cubes.now) (lits c) }
    {
        match self.divisor {
            Divisor::Pair(p, q) => has_pair(p, q, c),
            Divisor::Sum(a, b) => extract_divisor::is_use(self.cubes, c, a, b),
        }
    }

    // Whether a use takes c away: it is of a use by either part.
    fn is_gone(self, c: Cube) -> bool
        ensures { result ≡ gone (divisor_of self.entry.divisor) (cubes_of self.entry.cubes.now) (lits c) }
    {
        match self.divisor {
            Divisor::Pair(p, q) => has_pair(p, q, c),
            Divisor::Sum(a, b) => {
                extract_divisor::is_use(self.cubes, c, a, b)
                    || extract_divisor::is_use(self.cubes, c, b, a)
            }
        }
    }

    // A use's cube takes the literal in place of the part, the other cube of a use goes, and any other cube stays.
    fn remake(self, c: Cube) -> Option<Cube>
        ensures { option_map lits result ≡ fate self.entry.literal.0 (divisor_of self.entry.divisor) (cubes_of self.entry.cubes.now) (lits c) }
    {
        if self.is_hit(c) {
            let base = cube_sets::without(c, part_of(self.divisor));
            return Some(cube::with(base, self.literal));
        }
        if self.is_gone(c) { None } else { Some(c) }
    }

    // What the cubes become, from place `at` on; the place after them.
    fn write(self, out: &mut [u64], at: usize) -> usize
        requires { at + length (cubes_of self.cubes.now) ≤ length (cubes_of out.old) }
        ensures { Appends out.old out.new at
            (filter_map (fate self.entry.literal.0 (divisor_of self.entry.divisor) (cubes_of self.entry.cubes.now)) (cubes_of self.entry.cubes.now)) result }
    {
        let mut to = at;
        for c in expression::each(self.cubes) {
            if let Some(left) = self.remake(c) {
                expression::put_cube(out, to, left);
                to += 1;
            }
        }
        to
    }

    // The same, in cube order.
    fn put(self, out: &mut [u64], at: usize) -> usize
        requires { at + length (cubes_of self.cubes.now) ≤ length (cubes_of out.old) }
        ensures { Appends out.old out.new at (rewrite self.entry.literal.0 (divisor_of self.entry.divisor) (cubes_of self.entry.cubes.now)) result }
    {
        let to = self.write(out, at);
        if !expression_survey::is_ordered(expression::part(out, at, to)) {
            expression_sort::sort_part(out, at, to);
        }
        to
    }
}

// The first e nodes rewritten, one after the other, and their numbers of cubes; the place after them.
// In parts: what `step_in` is lent.
fn put_nodes(
    words: &[u64],
    counts: &[usize],
    e: usize,
    d: Divisor,
    x: Literal,
    out: &mut [u64],
    sizes: &mut [usize],
) -> usize
    requires source { SourceNodes words.now counts.now e }
    requires fit { Fitted d x }
    requires zeros { (out.old ≡ replicate word_slots 0) × (sizes.old ≡ replicate node_slots 0) }
    ensures { LaidNodes out.new sizes.new result
        (map (rewrite x.0 (divisor_of d)) (nodes_of e counts.now words.now)) }
{
    let mut to = 0;
    for (i, cubes) in network_nodes::each(words, counts).take(e).enumerate() {
        let source = Source {
            cubes,
            divisor: d,
            literal: x,
        };
        let next = source.put(out, to);
        sizes[i] = next - to;
        to = next;
    }
    to
}

// The number of cubes of the divisor's own node.
fn own_size(d: Divisor) -> usize
    ensures { result ≡ length (own (divisor_of d)) }
{
    match d {
        Divisor::Pair(_, _) => 1,
        Divisor::Sum(_, _) => 2,
    }
}

// The divisor's own cubes, from place `at` on; the place after them.
fn put_own(d: Divisor, out: &mut [u64], at: usize) -> usize
    requires { (fitting width (divisor_of d) ≡ true) × (at + length (own (divisor_of d)) ≤ length (cubes_of out.old)) }
    ensures { Appends out.old out.new at (own (divisor_of d)) result }
{
    expression::put_cube(out, at, part_of(d));
    let next = at + 1;
    match d {
        Divisor::Pair(_, _) => next,
        Divisor::Sum(_, b) => {
            expression::put_cube(out, next, b);
            next + 1
        }
    }
}

// No step.
fn refused(outcome: Outcome) -> Next
    ensures { (result.outcome ≡ outcome) × Zeros result }
{
    Next {
        outcome,
        network: network::blank(),
        number: Variable(0),
        literals: 0,
    }
}

// The step, where a number is free: the new literal is the plain one of the next free number.
// In parts: what `step_in` is lent.
fn made(words: &[u64], counts: &[usize], n: usize, m: usize, k: usize, d: Divisor) -> Next
    requires { Ready n m k words.now counts.now d }
    ensures { Stepped (held_in n m k counts.now words.now)
        (allowed (net_at n m k counts.now words.now) (room_for (net_at n m k counts.now words.now) (divisor_of d))) result }
{
    let mut out = [0u64; network::WORD_SLOTS];
    let mut sizes = [0usize; network::NODE_SLOTS];
    let v = (n + k) as u32;
    let x = cube::plain(Variable(v));
    let to = put_nodes(words, counts, m + k, d, x, &mut out, &mut sizes);
    if own_size(d) > network::MOST_CUBES - to {
        return refused(Outcome::Rows);
    }
    let end = put_own(d, &mut out, to);
    let literals = expression_survey::literals(expression::part(&out, 0, end));
    if literals > network::MOST_LITERALS {
        return refused(Outcome::Unfit);
    }
    sizes[m + k] = end - to;
    Next {
        outcome: Outcome::Made,
        network: Network {
            inputs: n,
            outputs: m,
            divisors: k + 1,
            counts: sizes,
            words: out,
        },
        number: Variable(v),
        literals,
    }
}

// The network after the step that takes the divisor; or why there is no room for it. Unfit are a network that does not stand in
// cube order, a divisor whose own node is no expression over the network's variables or that has not the smaller literal or part
// first, and a step that passes 32,768 literals.
pub fn step(n: Network, d: Divisor) -> Next
    ensures { Stepped n (outcome_of n d) result }
{
    step_in(n.inputs, n.outputs, n.divisors, &n.words, &n.counts, d)
}

// The same of lent words and counts; unfit where they are not as many as a network has.
pub fn step_in(
    inputs: usize,
    outputs: usize,
    divisors: usize,
    words: &[u64],
    counts: &[usize],
    d: Divisor,
) -> Next
    ensures { SteppedIn (held_in inputs outputs divisors counts.now words.now) d result }
{
    if words.len() != network::WORD_SLOTS {
        return refused(Outcome::Unfit);
    }
    if counts.len() != network::NODE_SLOTS {
        return refused(Outcome::Unfit);
    }
    if !extract_tidy::are_arranged(inputs, outputs, divisors, words, counts) {
        return refused(Outcome::Unfit);
    }
    let v = inputs + divisors;
    if !extract_fit::is_fit(d, v) {
        return refused(Outcome::Unfit);
    }
    if v >= network::MOST_VARIABLES {
        return refused(Outcome::Numbers);
    }
    made(words, counts, inputs, outputs, divisors, d)
}
