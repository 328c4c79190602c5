// Which output of a network hangs on which divisor: the dispatcher's map as a table of cells.
#![tactic(auto)]

ghost use Rattle.cube.specs.Cube.{lits};
ghost use Rattle.network_map.specs.Cells.{row_of, Crossed};
ghost use Rattle.network_reads.specs.Reading.{Marks};

use cube::Cube;
use network::{MOST_OUTPUTS, MOST_VARIABLES, Network};
use std::array;

// A row of cells for each output, a cell in it for each variable.
pub const CELL_SLOTS: usize = MOST_OUTPUTS * MOST_VARIABLES;

// The variables of row j; none past the last output.
fn row(n: &Network, j: usize) -> Cube
    ensures { Marks (lits result) (row_of n.now j) }
{
    if j < n.outputs {
        network_hangs::hangs(*n, j)
    } else {
        cube::empty()
    }
}

// Cell v of row j says whether output j hangs on the divisor of number v, directly or through others; no input is one.
pub fn cells(n: Network) -> [bool; CELL_SLOTS]
    ensures { Crossed n result }
{
    let rows: [Cube; MOST_OUTPUTS] = array::from_fn(
        |j|
            ensures { Marks (lits result) (row_of n j) }
        { row(&n, j) },
    );
    array::from_fn(|i| network_known::has_plain(rows[i / MOST_VARIABLES], i % MOST_VARIABLES))
}
