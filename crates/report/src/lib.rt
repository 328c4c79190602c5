// The report on a table text: the literal count at the start, a line for each step, the count at the end and the stop reason; or the refusal.
#![tactic(auto)]

ghost use Rattle.std.specs.Prelude.{◌≡◌, true, ◌++◌, pos, ◌≤ℤ◌};
ghost use Rattle.std.proofs.Math.Option.{none};
ghost use Rattle.letters.specs.Letters.{decimal};
ghost use Rattle.letters.specs.Laid.{Laid};
ghost use Rattle.letters.specs.Told.{Told};
ghost use Rattle.extract_divisor.specs.Divisor.{divisor_of};
ghost use Rattle.extract_laws.specs.Run.{run, asked_steps};
ghost use Rattle.network.specs.Net.{literal_count};
ghost use Rattle.network.specs.Held.{net_of, rules};
ghost use Rattle.extract.specs.Answers.{stop_of, made_in};
ghost use Rattle.report.specs.Report.{divisor_text, step_line, step_lines, stop_text, refusal_text, ran_text, report_of};
ghost use Rattle.report.specs.Weights.{Sized, Steady};
ghost use Rattle.report.specs.Parts.{run_of, found_text};

mod findings;

use extract::{Made, Steps, Stop};
use extract_divisor::Divisor;
use findings::Findings;
use letters::Wrote;
use network::Network;
use table::{Answer, Refusal};

// The program asks for 64 steps (`asked_steps`).
pub const ASKED: u64 = 64;

// ---- lines

// A word and a number after it.
fn put_field(o: &mut [u8], at: usize, word: &[u8], n: u64) -> usize
    ensures { Laid o.old o.new at result (word.now ++ decimal n) }
{
    let p = letters::put_bytes(o, at, word);
    letters::put_number(o, p, n)
}

// A pair as a product, a sum with ` + ` between its parts.
fn put_divisor(o: &mut [u8], at: usize, d: Divisor) -> usize
    ensures { Laid o.old o.new at result (divisor_text (divisor_of d)) }
{
    match d {
        Divisor::Pair(l, m) => {
            let p = letters_products::put_literal(o, at, l);
            let q = letters::put(o, p, b'*');
            letters_products::put_literal(o, q, m)
        }
        Divisor::Sum(a, b) => {
            let p = letters_products::put_product(o, at, a);
            let q = letters::put_bytes(o, p, b" + ");
            letters_products::put_product(o, q, b)
        }
    }
}

// A weight that is not below zero, as a number to print.
fn size(weight: i32) -> u64
    requires { pos 0 ≤ℤ weight }
    ensures { pos result ≡ weight }
{
    weight as u64
}

// The line of a step: the number of its node, its divisor and weight, and the count after it.
fn put_step(o: &mut [u8], at: usize, s: &Made) -> usize
    requires { Sized s.now.weight }
    ensures { Laid o.old o.new at result (step_line s.now.number.0 (divisor_of s.now.divisor) s.now.weight (pos s.now.literals)) }
{
    let p = letters::put_name(o, at, b'x', u64::from(s.number.0));
    let q = letters::put_bytes(o, p, b" = ");
    let r = put_divisor(o, q, s.divisor);
    let t = put_field(o, r, b" weight ", size(s.weight));
    let u = put_field(o, t, b" now ", s.literals);
    letters::put(o, u, b'\n')
}

// The lines of all steps.
fn put_steps(o: &mut [u8], at: usize, steps: &Steps) -> usize
    requires { Steady steps.now }
    ensures { Laid o.old o.new at result (step_lines (made_in steps.now)) }
{
    let mut p = at;
    for s in &steps.list[..steps.count] {
        p = put_step(o, p, s);
    }
    p
}

// The stop reason ends the last line.
fn put_stop(o: &mut [u8], at: usize, stop: Stop) -> usize
    ensures { Laid o.old o.new at result (stop_text (stop_of stop)) }
{
    let word: &[u8] = match stop {
        Stop::Done => b" done\n",
        Stop::Asked => b" asked\n",
        Stop::Numbers => b" numbers\n",
        Stop::Rows => b" rows\n",
    };
    letters::put_bytes(o, at, word)
}

// ---- the whole report

// `start`, the steps, `end`.
fn put_run(o: &mut [u8], f: &Findings) -> usize
    ensures { Laid o.old o.new 0 result (run_of f.now) }
{
    let p = put_field(o, 0, b"start ", f.start);
    let q = letters::put(o, p, b'\n');
    let r = put_steps(o, q, &f.steps);
    let s = put_field(o, r, b"end ", f.end);
    put_stop(o, s, f.stop)
}

// `refused 2 at line 3 column 7`.
fn put_refusal(o: &mut [u8], refusal: &Refusal) -> usize
    ensures { Laid o.old o.new 0 result (refusal_text refusal.now) }
{
    let p = put_field(o, 0, b"refused ", u64::from(refusal.number));
    let q = put_field(o, p, b" at line ", u64::from(refusal.line));
    let r = put_field(o, q, b" column ", refusal.column as u64);
    letters::put(o, r, b'\n')
}

// What was found, as far as there is room, and its length.
fn put_found(o: &mut [u8], found: &Result<Findings, Refusal>) -> usize
    ensures { Laid o.old o.new 0 result (found_text found.now) }
{
    match found {
        Ok(f) => put_run(o, f),
        Err(refusal) => put_refusal(o, refusal),
    }
}

// The literals of a network that follows the rules.
fn count_of(n: Network) -> u64
    requires { rules n ≡ true }
    ensures { result ≡ literal_count (net_of n) }
{
    network_rules::literals_within(n)
}

// A run on the network of a table that was read. It follows the rules, and so does what the run leaves: nothing here is refused.
fn explore(n: Network) -> Findings
    requires { rules n ≡ true }
    ensures { run_of result ≡ ran_text (net_of n) (run asked_steps (net_of n)) }
{
    let r = extract::run(n, ASKED);
    let extract::Answer::Stopped(stop) = r.answer else {
        unreachable!();
    };
    let start = count_of(n);
    let end = count_of(r.network);
    Findings {
        start,
        steps: r.steps,
        end,
        stop,
    }
}

// The table is read and its network run, once.
fn find(text: &[u8]) -> Result<Findings, Refusal>
    ensures { found_text result ≡ report_of text.now }
{
    let t = table::read(text);
    match t.answer {
        Answer::Read => Ok(explore(t.network)),
        Answer::Refused(refusal) => Err(refusal),
    }
}

// The report into the lent room, and its length; 9 where it is longer than the room.
pub fn report(text: &[u8], room: &mut [u8]) -> Wrote
    ensures { Told none (report_of text.now) room.old room.new result }
{
    let found = find(text);
    let n = put_found(&mut [], &found);
    if room.len() < n {
        return Wrote::Refused(9);
    }
    put_found(room, &found);
    Wrote::Bytes(n)
}
