// Cubes of up to 64 variables: sets of literals, as two masks by value. The contracts speak of the ascending list of a cube's literals.
#![tactic(auto)]

ghost use Rattle.std.specs.Prelude.{◌≡◌, [], ◌%◌, eqb};
ghost use Rattle.sets.specs.Literal.{plain_of, negated_of, variable_of, polarity_of, opposite_of};
ghost use Rattle.sets.specs.Sets.{mem};
ghost use Rattle.sets.specs.Masks.{single};
ghost use Rattle.cube.specs.Cube.{width, lits, joined};

// Places for variables in one mask, and their literals.
pub const VARIABLES: u32 = 64;

pub const LITERALS: u32 = 128;

// A variable's number and a literal's number are kept apart: two types, converted by doubling and polarity alone.
#[derive(Clone, Copy, PartialEq, Eq)]
pub struct Variable(pub u32);

#[derive(Clone, Copy, PartialEq, Eq)]
pub struct Literal(pub u32);

// Bit v of plain is the literal 2v, bit v of negated the literal 2v + 1.
#[derive(Clone, Copy, PartialEq, Eq)]
pub struct Cube {
    pub plain: u64,
    pub negated: u64,
}

// Twice the number, as 32 bits hold it: a number from 2^31 on is no variable of any cube.
pub fn plain(v: Variable) -> Literal
    ensures { result.0 ≡ plain_of v.0 % 4294967296 }
{
    Literal(2 * (v.0 % 2147483648))
}

pub fn negated(v: Variable) -> Literal
    ensures { result.0 ≡ negated_of v.0 % 4294967296 }
{
    Literal(2 * (v.0 % 2147483648) + 1)
}

pub fn variable_of(l: Literal) -> Variable
    ensures { result.0 ≡ variable_of l.0 }
{
    Variable(l.0 / 2)
}

pub fn is_negated(l: Literal) -> bool
    ensures { result ≡ eqb (polarity_of l.0) 1 }
{
    l.0 % 2 == 1
}

// The other literal of the same variable.
pub fn opposite(l: Literal) -> Literal
    ensures { result.0 ≡ opposite_of l.0 }
{
    Literal(l.0 ^ 1)
}

// The cube with no literal, constant 1.
pub fn empty() -> Cube
    ensures { lits result ≡ [] }
{
    Cube {
        plain: 0,
        negated: 0,
    }
}

// The bit of a literal in the mask of polarity p; none for the other polarity, and for a number past the last literal.
fn bit(l: u32, p: u32) -> u64
    ensures { result ≡ single width l p }
{
    if l % 2 != p {
        return 0;
    }
    if l < LITERALS { 1u64 << (l / 2) } else { 0 }
}

pub fn has(c: Cube, l: Literal) -> bool
    ensures { result ≡ mem l.0 (lits c) }
{
    (c.plain & bit(l.0, 0)) | (c.negated & bit(l.0, 1)) != 0
}

// The cube with a literal more; a number past the last literal adds nothing.
pub fn with(mut c: Cube, l: Literal) -> Cube
    ensures { lits result ≡ joined l.0 (lits c) }
{
    c.plain = c.plain | bit(l.0, 0);
    c.negated = c.negated | bit(l.0, 1);
    c
}
