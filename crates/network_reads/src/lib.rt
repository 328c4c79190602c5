// The variables that an expression reads, as a cube of their plain literals.
#![tactic(auto)]

ghost use Rattle.cube.specs.Cube.{lits};
ghost use Rattle.expression.specs.Words.{cubes_of};
ghost use Rattle.network_reads.specs.Reading.{variables_of, reads_of, Marks};

use cube::Cube;

// The variables of the cube's literals.
fn variables(c: Cube) -> Cube
    ensures { Marks (lits result) (variables_of (lits c)) }
{
    cube_order::each(c).fold(
        cube::empty(),
        |r, l| cube::with(r, cube::plain(cube::variable_of(l))),
    )
}

// The variables that the expression reads: those of all its literals together.
pub fn reads(f: &[u64]) -> Cube
    ensures { Marks (lits result) (reads_of (cubes_of f.now)) }
{
    variables(expression::each(f).fold(cube::empty(), cube_sets::union))
}
