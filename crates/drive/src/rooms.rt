// Rooms for all numbers and for all bytes that a line can write.
ghost use Rattle.std.specs.Prelude.{◌≡◌, replicate};
ghost use Rattle.drive.specs.Rooms.{most_read};

use crate::LINE_LENGTH;

// The most numbers, and the most bytes, that a line can write.
const MOST: usize = LINE_LENGTH / 2;

pub fn numbers() -> [u64; MOST]
    ensures { result ≡ replicate most_read 0 }
{
    [0u64; MOST]
}

pub fn bytes() -> [u8; MOST]
    ensures { result ≡ replicate most_read 0 }
{
    [0u8; MOST]
}
