// The widths of an image's fields in edition 1, tied to the definitions; these and the laws of images are in specs/ and proofs/.
#![tactic(auto)]

ghost use Rattle.std.specs.Prelude.{◌≡◌, [], ◌∷◌, ◌+◌};
ghost use Rattle.image_fields.specs.Fields.{bytes_for};
ghost use Rattle.image_laws.specs.Widths.{edition_field, edition1, head_size, most_cube_bits, most_node_bits, most_bits};

pub const EDITION: usize = 1;

pub const EDITION_WIDTH: usize = 4;

// n-1, m-1 and k.
pub const INPUTS_WIDTH: usize = 5;

pub const OUTPUTS_WIDTH: usize = 5;

pub const DIVISORS_WIDTH: usize = 6;

pub const HEAD_WIDTH: usize = EDITION_WIDTH + INPUTS_WIDTH + OUTPUTS_WIDTH + DIVISORS_WIDTH;

// A cube count, a literal count and a literal.
pub const CUBES_WIDTH: usize = 11;

pub const LITERALS_WIDTH: usize = 7;

pub const LITERAL_WIDTH: usize = 7;

// The most bits of a cube, of a node and of an image whose fields are all in range.
pub const CUBE_BITS: usize = LITERALS_WIDTH + LITERAL_WIDTH * network::MOST_VARIABLES;

pub const NODE_BITS: usize = CUBES_WIDTH + network::MOST_CUBES * CUBE_BITS;

pub const IMAGE_BITS: usize = HEAD_WIDTH
    + (network::MOST_OUTPUTS + network::MOST_VARIABLES - 1) * NODE_BITS;

// The bytes of the longest such image, and one more by which a longer one is known.
pub const ROOM: usize = (IMAGE_BITS + 7) / 8 + 1;

// The row of edition 1, as the definitions have it.
fn row() -> [usize; 9]
    ensures { result ≡ edition1.number ∷ edition_field ∷ edition1.inputs ∷ edition1.outputs ∷ edition1.divisors ∷ head_size
        ∷ edition1.cubes ∷ edition1.literals ∷ edition1.literal ∷ [] }
{
    [
        EDITION,
        EDITION_WIDTH,
        INPUTS_WIDTH,
        OUTPUTS_WIDTH,
        DIVISORS_WIDTH,
        HEAD_WIDTH,
        CUBES_WIDTH,
        LITERALS_WIDTH,
        LITERAL_WIDTH,
    ]
}

// The most bits, and the room for them.
fn most() -> [usize; 4]
    ensures { result ≡ most_cube_bits ∷ most_node_bits ∷ most_bits ∷ (bytes_for most_bits + 1) ∷ [] }
{
    [CUBE_BITS, NODE_BITS, IMAGE_BITS, ROOM]
}
