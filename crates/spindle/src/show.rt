// What an image holds, and its answer on one setting of the inputs.
use crate::line::Line;
use crate::{form, line, node};
use network::{Network, Number};
use std::fmt::Write;
use std::io::Stdout;
use table_rows::Setting;

// ---- the nodes

// The columns of a name.
fn name_width(n: &Network) -> usize {
    if n.inputs.wrapping_add(n.divisors) > 10 || n.outputs > 10 {
        3
    } else {
        2
    }
}

// `x15 = x3+x5  literals 2`: node i.
fn print_node(out: Stdout, n: &Network, i: usize) {
    let mut line = Line::new(out);
    let _ = write!(line, "{}", node::name_of(n, i));
    line.pad(name_width(n));
    line.text(b" = ");
    form::put_text(&mut line, n, i);
    let _ = write!(line, "  literals {}", node::literals(n, i));
    line.end();
}

// The counts, then a line for each divisor and each output.
pub fn show(out: Stdout, n: &Network) {
    let _ = println!(out;
        "inputs {} outputs {} divisors {} literals {}",
        n.inputs,
        n.outputs,
        n.divisors,
        form::literals(n)
    );
    for i in 0..n.divisors {
        print_node(out, n, n.outputs.wrapping_add(i));
    }
    for j in 0..n.outputs {
        print_node(out, n, j);
    }
}

// ---- one setting

// A line for each output, on or off: output j is bit j of the answer.
fn print_answers(out: Stdout, outputs: usize, answer: u64) {
    let mut left = answer;
    for j in 0..outputs {
        let is = if left % 2 == 1 { "on" } else { "off" };
        let _ = println!(out; "y{j} {is}");
        left /= 2;
    }
}

// The answer on a setting; how many characters one needs, to standard error, where the word is none.
pub fn ask(rt: HostRuntime, n: &Network, word: &[u8]) {
    let Setting::Is(setting) = table_rows::setting_of(word, n.inputs) else {
        let _ = eprintln!(rt;
            "spindle: the setting needs {} characters, each 0 or 1, input 0 first",
            n.inputs
        );
        return;
    };
    match network_evaluate::evaluate(*n, setting) {
        Number::Is(answer) => print_answers(rt.stdout(), n.outputs, answer),
        Number::No(k) => line::refuse(rt.stdout(), k),
    }
}
