// Runs: the best divisor again and again, until the first reason to stop.
#![tactic(auto)]

ghost use Rattle.std.specs.Prelude.{◌≡◌, pos, ◌-ℤ◌};
ghost use Rattle.std.proofs.Math.Option.{some};
ghost use Rattle.network.specs.Net.{nodes, literal_count};
ghost use Rattle.network.specs.Held.{net_of};
ghost use Rattle.extract_laws.specs.Run.{run_from};
ghost use Rattle.extract_counts.specs.Counts.{Says};
ghost use Rattle.extract.specs.Answers.{no_steps, Told, run_on};
ghost use Rattle.extract.specs.Parts.{Runnable, Leads, Leaves, made_by, ended_at, reason_of, stopped_with};

use cube::Variable;
use expression::Verdict;
use extract_divisor::{Divisor, Step};
use extract_step::Outcome;
use network::Network;

// The table of gains.
const TABLE_WORDS: usize = extract_gains::TABLE_WORDS;

const MOST_ENTRIES: usize = extract_gains::MOST_ENTRIES;

// Steps of one run: each makes a divisor.
const MOST_STEPS: usize = network::MOST_VARIABLES;

#[derive(Clone, Copy)]
pub enum Stop {
    Done,
    Asked,
    Numbers,
    Rows,
}

#[derive(Clone, Copy)]
pub enum Answer {
    Stopped(Stop),
    Refused(u32),
}

// A step made: its divisor, weight and uses, the number of its node, and the literals of the network after it.
#[derive(Clone, Copy)]
pub struct Made {
    pub divisor: Divisor,
    pub weight: i32,
    pub uses: u32,
    pub number: Variable,
    pub literals: u64,
}

// The steps made, as many as counted, and steps of zeros after them.
#[derive(Clone, Copy)]
pub struct Steps {
    pub count: usize,
    pub list: [Made; MOST_STEPS],
}

// A refusal carries a network of zeros and no step.
#[derive(Clone, Copy)]
pub struct Ran {
    pub answer: Answer,
    pub network: Network,
    pub steps: Steps,
}

// A step that makes the node of a number and leaves so many literals.
fn made_by(s: Step, number: Variable, literals: u64) -> Made
    ensures { result ≡ made_by s number literals }
{
    Made {
        divisor: s.divisor,
        weight: s.weight,
        uses: s.uses,
        number,
        literals,
    }
}

// No steps made.
pub fn no_steps() -> Steps
    ensures { result ≡ no_steps }
{
    Steps {
        count: 0,
        list: [made_by(extract_divisor::no_step(), Variable(0), 0); MOST_STEPS],
    }
}

// Why a step that there is no room for is not made.
fn reason(o: Outcome) -> Stop
    ensures { result ≡ reason_of o }
{
    match o {
        Outcome::Numbers => Stop::Numbers,
        Outcome::Rows | Outcome::Made | Outcome::Unfit => Stop::Rows,
    }
}

fn ending(stop: Stop, network: Network, steps: Steps) -> Ran
    ensures { result ≡ stopped_with stop network steps }
{
    Ran {
        answer: Answer::Stopped(stop),
        network,
        steps,
    }
}

// No step is left to make: done comes before asked.
fn ended(weight: i32) -> Stop
    ensures { result ≡ ended_at weight }
{
    if weight <= 0 { Stop::Done } else { Stop::Asked }
}

// The literals of a network that a run starts from.
fn literals_of(n: &Network) -> u64
    requires { Runnable n.now }
    ensures { result ≡ literal_count (net_of n.now) }
{
    expression_survey::literals(network_nodes::front(&n.words, &n.counts, n.outputs + n.divisors))
}

// A count of literals with a weight taken off.
fn taken_off(count: u64, weight: i32) -> u64
    requires { Leaves count weight }
    ensures { pos result ≡ pos count -ℤ weight }
{
    (count as i32 - weight) as u64
}

// The table of gains and its entries.
#[derive(Drop)]
struct Gains {
    table: [u32; TABLE_WORDS],
    entries: [u16; MOST_ENTRIES],
}

impl Gains {
    // The best step on a network, by the table that is filled with it.
    fn first_best(&mut self, n: Network) -> Step
        ensures { Runnable n → Leads self.new.table self.new.entries n result }
    {
        extract_keep::fill(&mut self.table, &mut self.entries, n);
        extract_choice::best(&self.table, &self.entries, n)
    }

    // The best step on the network that comes after another, of which the table says the gains.
    fn next_best(&mut self, old: Network, new: Network) -> Step
        ensures { Says self.old.table self.old.entries (nodes (net_of old)) → Runnable new → Leads self.new.table self.new.entries new result }
    {
        extract_keep::renew(&mut self.table, &mut self.entries, old, new);
        extract_choice::best(&self.table, &self.entries, new)
    }
}

// From a network in cube order. s is the best step on the network that the run has come to, of which the table says the gains, and so many
// literals are in it.
fn follow(n: Network, steps: u64) -> Ran
    requires { Runnable n }
    ensures { Told (some (run_from steps (net_of n))) result }
{
    let mut gains = Gains {
        table: [0; TABLE_WORDS],
        entries: [0; MOST_ENTRIES],
    };
    let mut made = no_steps();
    let mut net = n;
    let mut literals = literals_of(&n);
    let mut s = gains.first_best(n);
    for _ in 0..steps {
        if s.weight <= 0 {
            return ending(Stop::Done, net, made);
        }
        let next = extract_step::step(net, s.divisor);
        let Outcome::Made = next.outcome else {
            return ending(reason(next.outcome), net, made);
        };
        let rest = taken_off(literals, s.weight);
        made.list[made.count] = made_by(s, next.number, rest);
        made.count += 1;
        s = gains.next_best(net, next.network);
        net = next.network;
        literals = rest;
    }
    ending(ended(s.weight), net, made)
}

// A run of so many steps at most: 10 for a network that breaks a rule.
pub fn run(n: Network, steps: u64) -> Ran
    ensures { Told (run_on steps n) result }
{
    let tidy = extract_tidy::in_order(n);
    let network = tidy.network;
    let Verdict::Accepted = tidy.answer else {
        return Ran {
            answer: Answer::Refused(10),
            network,
            steps: no_steps(),
        };
    };
    follow(network, steps)
}
