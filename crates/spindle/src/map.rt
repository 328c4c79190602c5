// The dispatcher's map of a network: the inputs, the shared conditions and the orchards, in columns for paper.
use crate::line::{Line, Things};
use crate::node::Name;
use crate::{form, node};
use network::{MOST_OUTPUTS, MOST_VARIABLES, Network};
use network_map::CELL_SLOTS;
use std::fmt::Write;
use std::io::Stdout;

// The columns of the names and of what they stand for.
const NAMES: usize = 2;

const TEXT_COLUMN: usize = 7;

const MEANING: usize = 14;

// ---- the heading

// `MAP: 15 inputs, 6 shared conditions, 19 orchards, 80 literals`
fn print_counts(out: Stdout, n: &Network) {
    let inputs = Things(n.inputs as u64, "input");
    let divisors = Things(n.divisors as u64, "shared condition");
    let outputs = Things(n.outputs as u64, "orchard");
    let literals = Things(form::literals(n), "literal");
    let _ = println!(out; "MAP: {inputs}, {divisors}, {outputs}, {literals}\n");
}

// `x0 to x14   the inputs`, or `x0` where there is one, or nothing where there is none.
fn print_range(out: Stdout, letter: char, from: usize, count: usize, word: &str) {
    if count == 0 {
        return;
    }
    let mut line = Line::new(out);
    line.pad(NAMES);
    let _ = write!(line, "{letter}{from}");
    if count > 1 {
        let _ = write!(line, " to {letter}{}", from.wrapping_add(count - 1));
    }
    line.column(MEANING);
    let _ = writeln!(line, "{word}");
}

// What the names and the signs mean.
fn print_heading(out: Stdout, n: &Network) {
    print_counts(out, n);
    print_range(out, 'x', 0, n.inputs, "the inputs");
    print_range(out, 'x', n.inputs, n.divisors, "the shared conditions");
    print_range(out, 'y', 0, n.outputs, "the orchards");
    let _ = println!(out;
        "  x0'         x0 is off\n  *  +        and, or\n  0  1        never, always"
    );
}

// ---- the inputs

// A name, and blanks up to the text's column.
fn begin(out: Stdout, name: Name) -> Line {
    let mut line = Line::new(out);
    line.pad(NAMES);
    let _ = write!(line, "{name}");
    line.column(TEXT_COLUMN);
    line
}

// A byte that moves the pen is a blank on paper.
fn plain(b: u8) -> u8 {
    if b.is_ascii_control() { b' ' } else { b }
}

// Input i and its name in the text, or `-` where there is none.
fn print_input(out: Stdout, text: &[u8], i: usize) {
    let mut line = begin(
        out,
        Name {
            letter: b'x',
            number: i,
        },
    );
    let name = table_names::name_of(text, i);
    if name.is_empty() {
        line.text(b"-");
    }
    for b in name {
        line.text(&[plain(*b)]);
    }
    line.end();
}

fn print_inputs(out: Stdout, text: &[u8], inputs: usize) {
    let _ = println!(out; "\nINPUTS");
    if (0..inputs).any(|i| !table_names::name_of(text, i).is_empty()) {
        for i in 0..inputs {
            print_input(out, text, i);
        }
    } else {
        let _ = println!(out;
            "  no names: a table gives them in comment lines, as\n  # x0 tank high"
        );
    }
}

// ---- the lists

// The name of a section, and what stands in its last column.
fn print_title(out: Stdout, title: &str, list: &str, wide: usize) {
    let mut line = Line::new(out);
    line.end();
    line.text(title.as_bytes());
    line.column(wide);
    let _ = writeln!(line, "{list}");
}

// Whether output j hangs on the variable v.
fn hangs(cells: &[bool; CELL_SLOTS], j: usize, v: usize) -> bool {
    j < MOST_OUTPUTS && v < MOST_VARIABLES && cells[j * MOST_VARIABLES + v]
}

// The conditions that an orchard hangs on, or the orchards that hang on a condition; `none` where there is none.
fn put_list(line: &mut Line, cells: &[bool; CELL_SLOTS], name: Name) {
    let orchard = name.letter == b'y';
    let (letter, most) = if orchard {
        ('x', MOST_VARIABLES)
    } else {
        ('y', MOST_OUTPUTS)
    };
    let mut gap = "";
    for i in 0..most {
        let listed = if orchard {
            hangs(cells, name.number, i)
        } else {
            hangs(cells, i, name.number)
        };
        if listed {
            let _ = write!(line, "{gap}{letter}{i}");
            gap = " ";
        }
    }
    if gap.is_empty() {
        line.text(b"none");
    }
}

// The name and the text of node i, up to the last column, and its list.
fn print_node(out: Stdout, n: &Network, i: usize, cells: &[bool; CELL_SLOTS], wide: usize) {
    let name = node::name_of(n, i);
    let mut line = begin(out, name);
    form::put_text(&mut line, n, i);
    line.column(wide);
    put_list(&mut line, cells, name);
    line.end();
}

fn print_lists(out: Stdout, n: &Network) {
    let wide = TEXT_COLUMN + node::widest(n) + 3;
    let cells = network_map::cells(*n);
    if n.divisors == 0 {
        let _ = println!(out; "\nCONDITIONS\n  none is shared");
    } else {
        print_title(out, "CONDITIONS", "the orchards that hang on it", wide);
    }
    for i in 0..n.divisors {
        print_node(out, n, n.outputs.wrapping_add(i), &cells, wide);
    }
    print_title(
        out,
        "ORCHARDS",
        "the conditions it hangs on, directly and through others",
        wide,
    );
    for j in 0..n.outputs {
        print_node(out, n, j, &cells, wide);
    }
}

// ---- the whole

// The map of the network; the text of its table, or nothing for an image, may name the inputs. A table's conditions have the numbers of
// its steps; those of an image stand in the image's own order.
pub fn map(out: Stdout, n: &Network, text: &[u8]) {
    print_heading(out, n);
    if n.divisors > 0 && !text.is_empty() {
        let _ = println!(out;
            "  The conditions are numbered as in the report; an image numbers them anew."
        );
    }
    print_inputs(out, text, n.inputs);
    print_lists(out, n);
}
