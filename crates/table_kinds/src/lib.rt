// The kind of a line: what is left of it says that it is empty, a number named, the end, or another.
#![tactic(auto)]

ghost use Rattle.std.specs.Prelude.{◌≡◌};
ghost use Rattle.table_kinds.specs.Kinds.{number_of, argument, named, kind_of};
ghost use Rattle.table_kinds.specs.Parts.{number_in, lettered, ends};

// The most digits of a number.
pub const DIGITS: usize = 5;

#[derive(Clone, Copy)]
pub enum Kind {
    Empty,
    Inputs(u32),
    Outputs(u32),
    Products(u32),
    End,
    Other,
}

// The number of one to five digits and nothing else.
fn decimal_of(t: &[u8]) -> Option<u32>
    ensures { number_in result ≡ number_of t.now }
{
    if t.is_empty() || t.len() > DIGITS {
        return None;
    }
    let mut n = 0;
    for &b in t {
        if !b.is_ascii_digit() {
            return None;
        }
        n = 10 * n + u32::from(b - b'0');
    }
    Some(n)
}

// The number after one or more blanks.
#[tactic(auto, unfolding(crate::specs::Kinds::argument))]
fn argument_of(t: &[u8]) -> Option<u32>
    ensures { number_in result ≡ argument t.now }
{
    match t {
        [b, ..] if table_lines::is_blank(*b) => decimal_of(table_lines::trim_front(t)),
        _ => None,
    }
}

// The kind that the letter b names, of a number.
#[tactic(auto, unfolding(crate::specs::Parts::lettered))]
fn lettered(b: u8, a: Option<u32>) -> Kind
    ensures { result ≡ lettered b (number_in a) }
{
    match (b, a) {
        (b'i', Some(n)) => Kind::Inputs(n),
        (b'o', Some(n)) => Kind::Outputs(n),
        (b'p', Some(n)) => Kind::Products(n),
        _ => Kind::Other,
    }
}

// `.i`, `.o` or `.p` and a number.
#[tactic(auto, unfolding(crate::specs::Kinds::named, crate::specs::Parts::lettered, sets::specs::Sets::same))]
fn named_of(c: &[u8]) -> Kind
    ensures { result ≡ named c.now }
{
    let [b'.', b, t @ ..] = c else {
        return Kind::Other;
    };
    lettered(*b, argument_of(t))
}

// `.e` or `.end`.
#[tactic(auto, using(crate::proofs::Reading::same_is))]
fn is_end(c: &[u8]) -> bool
    ensures { result ≡ ends c.now }
{
    c == b".e".as_slice() || c == b".end".as_slice()
}

// The kind of a line by itself.
#[tactic(auto, unfolding(crate::specs::Kinds::kind_of))]
pub fn kind_of(c: &[u8]) -> Kind
    ensures { result ≡ kind_of c.now }
{
    if c.is_empty() {
        return Kind::Empty;
    }
    if is_end(c) {
        return Kind::End;
    }
    named_of(c)
}
