// Literals and cubes as texts, written into a lent room.
#![tactic(auto)]

ghost use Rattle.std.specs.Prelude.{◌≡◌};
ghost use Rattle.cube.specs.Cube.{lits};
ghost use Rattle.letters.specs.Laid.{Laid};
ghost use Rattle.letters_products.specs.Products.{literal_text, cube_text};

use cube::{Cube, Literal};

// `x3`, and `x3'` where it is negated.
pub fn put_literal(o: &mut [u8], at: usize, l: Literal) -> usize
    ensures { Laid o.old o.new at result (literal_text l.0) }
{
    let v = cube::variable_of(l);
    let p = letters::put_name(o, at, b'x', u64::from(v.0));
    if cube::is_negated(l) {
        letters::put(o, p, b'\'')
    } else {
        p
    }
}

// Literals with `*` between them; the empty cube is `1`.
pub fn put_product(o: &mut [u8], at: usize, c: Cube) -> usize
    ensures { Laid o.old o.new at result (cube_text (lits c)) }
{
    let mut literals = cube_order::each(c);
    let Some(first) = literals.next() else {
        return letters::put(o, at, b'1');
    };
    let mut p = put_literal(o, at, first);
    for l in literals {
        p = letters::put(o, p, b'*');
        p = put_literal(o, p, l);
    }
    p
}
