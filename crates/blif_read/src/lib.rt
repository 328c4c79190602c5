// The reader of BLIF texts: 14 for the form and a gap, then 15 for what is not defined once, then 10.
#![tactic(auto)]

mod build;
mod defining;

ghost use Rattle.std.specs.Prelude.{◌≡◌};
ghost use Rattle.network.specs.Handed.{Told};
ghost use Rattle.blif_laws.specs.Reading.{read_blif, is_blif};
ghost use Rattle.blif_read.specs.Building.{Buildable};
ghost use Rattle.blif_read.specs.Reading.{few, FinishedIs};

use expression::Verdict;
use network::Handed;

// Whether so many inputs, outputs, variables and rows are within the limits on networks.
fn is_few(n: usize, m: usize, top: usize, rows: usize) -> bool
    ensures { result ≡ few n m top rows }
{
    (1..=network::MOST_INPUTS).contains(&n)
        && (1..=network::MOST_OUTPUTS).contains(&m)
        && top <= network::MOST_VARIABLES
        && rows <= network::MOST_CUBES
}

// The network of n inputs, m outputs and k divisors, where it keeps the rules.
fn finish(s: &[u8], first: usize, n: usize, m: usize, k: usize) -> Handed
    requires { Buildable n m k }
    ensures { FinishedIs s.now first n m k result }
{
    let network = build::build(s, first, n, m, k);
    let answer = network_rules::judge(network);
    let Verdict::Accepted = answer else {
        return network::refuse(10);
    };
    network::hand(network)
}

// The network of the text, or 14, 15, 10.
pub fn read(text: &[u8]) -> Handed
    ensures { Told (read_blif text.now) result }
{
    let Some(v) = blif_form::take_survey(text) else {
        return network::refuse(14);
    };
    if !defining::is_gapless(text, v.first, v.inputs, v.top) {
        return network::refuse(14);
    }
    if !defining::is_once(text, v.first, v.inputs, v.outputs, v.top) {
        return network::refuse(15);
    }
    if !is_few(v.inputs, v.outputs, v.top, v.rows) {
        return network::refuse(10);
    }
    finish(text, v.first, v.inputs, v.outputs, v.top - v.inputs)
}

// Whether the first word of the text is `.model`, as that of every text that is accepted.
pub fn is_blif(text: &[u8]) -> bool
    ensures { result ≡ is_blif text.now }
{
    blif_scan::keyword(text, 0, b".model").is_some()
}
