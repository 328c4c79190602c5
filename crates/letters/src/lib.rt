// Texts written into a lent room: bytes, numbers and names. Each writer counts every byte and stores those that there is room for,
// so that a text's length is known before a byte of it is written.
#![tactic(auto)]

ghost use Rattle.std.specs.Prelude.{[], ◌∷◌};
ghost use Rattle.letters.specs.Letters.{decimal, name_text};
ghost use Rattle.letters.specs.Laid.{Laid};

// What writing into a lent room answers: how many bytes, or the number of the refusal.
#[derive(Clone, Copy)]
pub enum Wrote {
    Bytes(usize),
    Refused(u32),
}

// One byte, where there is room for it; the next place. Counting stops at the largest place, where no room has a byte.
pub fn put(o: &mut [u8], at: usize, b: u8) -> usize
    ensures { Laid o.old o.new at result (b ∷ []) }
{
    if at < o.len() {
        o[at] = b;
    }
    at.saturating_add(1)
}

// A fixed word.
pub fn put_bytes(o: &mut [u8], at: usize, s: &[u8]) -> usize
    ensures { Laid o.old o.new at result s.now }
{
    let mut p = at;
    for &b in s {
        p = put(o, p, b);
    }
    p
}

// A number in decimal: the digits before the last one, then the last one.
pub fn put_number(o: &mut [u8], at: usize, n: u64) -> usize
    ensures { Laid o.old o.new at result (decimal n) }
{
    if n < 10 {
        return put(o, at, b'0' + n as u8);
    }
    let p = put_number(o, at, n / 10);
    put(o, p, b'0' + (n % 10) as u8)
}

// A letter and a number after it: `x3`, `y0`.
pub fn put_name(o: &mut [u8], at: usize, b: u8, n: u64) -> usize
    ensures { Laid o.old o.new at result (name_text b n) }
{
    let p = put(o, at, b);
    put_number(o, p, n)
}
