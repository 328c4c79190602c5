// Networks by value, and the limits on them.
#![tactic(auto)]

ghost use Rattle.std.specs.Prelude.{◌≡◌, [], ◌+◌, min};
ghost use Rattle.network.specs.Handed.{AllZero, Told, refuses, Carries};
ghost use Rattle.sets.specs.Word.{largest};
ghost use Rattle.network.specs.Held.{sized, number_at, place_at};
ghost use Rattle.network.specs.Parts.{held_in};

use expression::Verdict;

// The limits: inputs, outputs, inputs plus divisors, cubes, and literals counted over all of them.
pub const MOST_INPUTS: usize = 32;

pub const MOST_OUTPUTS: usize = 32;

pub const MOST_VARIABLES: usize = 64;

pub const MOST_CUBES: usize = 1088;

pub const MOST_LITERALS: u64 = 32768;

// Slots for nodes and for words of cubes.
pub const NODE_SLOTS: usize = MOST_OUTPUTS + MOST_VARIABLES;

pub const WORD_SLOTS: usize = expression::WORDS * MOST_CUBES;

// Counts and cubes of the outputs first, then of the divisors by number; slots past those in use mean nothing.
#[derive(Clone, Copy)]
pub struct Network {
    pub inputs: usize,
    pub outputs: usize,
    pub divisors: usize,
    pub counts: [usize; NODE_SLOTS],
    pub words: [u64; WORD_SLOTS],
}

// A network handed back; a refusal carries a network of zeros.
#[derive(Clone, Copy)]
pub struct Handed {
    pub answer: Verdict,
    pub network: Network,
}

// A number, or the number of a refusal.
#[derive(Clone, Copy)]
pub enum Number {
    Is(u64),
    No(u32),
}

// Numbers of divisors in the order of the listing, as many as are listed, and zeros after them.
#[derive(Clone, Copy)]
pub struct Listed {
    pub count: usize,
    pub order: [u32; MOST_VARIABLES],
}

// The number of the divisor at a place among the divisors.
pub fn number_of(inputs: usize, place: usize) -> usize
    ensures { result ≡ min (number_at inputs place) largest }
{
    inputs.saturating_add(place)
}

// The place among the nodes of the divisor with a number.
pub fn place_of(inputs: usize, outputs: usize, number: usize) -> usize
    ensures { result ≡ min (place_at inputs outputs number) largest }
{
    outputs.saturating_add(number.saturating_sub(inputs))
}

// Whether the numbers of inputs, outputs, divisors and cubes are within the limits; where counts are too few, of those that there are.
pub fn is_within(inputs: usize, outputs: usize, divisors: usize, counts: &[usize]) -> bool
    ensures { result ≡ sized (held_in inputs outputs divisors counts.now []) }
{
    (1..=MOST_INPUTS).contains(&inputs)
        && (1..=MOST_OUTPUTS).contains(&outputs)
        && divisors <= MOST_VARIABLES - inputs
        && network_nodes::start(counts, outputs + divisors, MOST_CUBES + 1) <= MOST_CUBES
}

// The same of a network.
pub fn is_sized(n: Network) -> bool
    ensures { result ≡ sized n }
{
    is_within(n.inputs, n.outputs, n.divisors, &n.counts)
}

// The network of zeros, handed back beside a refusal.
pub fn blank() -> Network
    ensures { AllZero result }
{
    Network {
        inputs: 0,
        outputs: 0,
        divisors: 0,
        counts: [0usize; NODE_SLOTS],
        words: [0u64; WORD_SLOTS],
    }
}

// The network, accepted.
pub fn hand(network: Network) -> Handed
    ensures { Carries network result }
{
    Handed {
        answer: Verdict::Accepted,
        network,
    }
}

// A refusal by its number.
pub fn refuse(number: u32) -> Handed
    ensures { Told (refuses number) result }
{
    Handed {
        answer: Verdict::Refused(number),
        network: blank(),
    }
}
