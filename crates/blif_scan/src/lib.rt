// The joined text byte by byte and word by word, a backslash right before an LF passed over together with it; and the lines before the
// blocks: `.model`, `.inputs`, `.outputs`. What is read is answered with the place after it; where another thing stands, nothing is.
#![tactic(auto)]

ghost use Rattle.std.specs.Prelude.{[], ◌≡◌};
ghost use Rattle.blif_scan.specs.Scanning.{is_joint, NextIs, EndedIs, DigitIs, NumeralIs, CalledIs};
ghost use Rattle.letters.specs.Letters.{name_text};
ghost use Rattle.blif_scan.specs.Heading.{is_plain, TurnsAre, ListIs, WordIs, ModelIs, HeadIs};

// What ends a word, and the place after that.
#[derive(Clone, Copy)]
pub enum Ended {
    Space(usize),
    Line(usize),
    Finish,
}

// x or y, with a number.
#[derive(Clone, Copy, PartialEq, Eq)]
pub enum Label {
    Variable(usize),
    Output(usize),
}

// Whether a backslash stands here, right before an LF.
fn is_joint(s: &[u8], p: usize) -> bool
    ensures { result ≡ is_joint s.now p }
{
    s.get(p) == Some(&b'\\') && s.get(p + 1) == Some(&b'\n')
}

// The next byte of the joined text.
pub fn read_byte(s: &[u8], at: usize) -> Option<(u8, usize)>
    ensures { NextIs s.now at result }
{
    let mut p = at;
    // By places: the text says how many are passed over.
    while is_joint(s, p) {
        p += 2;
    }
    let b = *s.get(p)?;
    Some((b, p + 1))
}

// What ends a word here.
fn end_of_word(s: &[u8], at: usize) -> Option<Ended>
    ensures { EndedIs s.now at [] result }
{
    match read_byte(s, at) {
        Some((b' ', p)) => Some(Ended::Space(p)),
        Some((b'\n', p)) => Some(Ended::Line(p)),
        Some(_) => None,
        None => Some(Ended::Finish),
    }
}

// What ends the word here, where it is w.
pub fn keyword(s: &[u8], at: usize, w: &[u8]) -> Option<Ended>
    ensures { EndedIs s.now at w.now result }
{
    let mut p = at;
    for c in w {
        let (b, q) = read_byte(s, p)?;
        if b != *c {
            return None;
        }
        p = q;
    }
    end_of_word(s, p)
}

// The digit here.
fn read_digit(s: &[u8], at: usize) -> Option<(usize, usize)>
    ensures { DigitIs s.now at result }
{
    let (b, p) = read_byte(s, at)?;
    if !b.is_ascii_digit() {
        return None;
    }
    Some((usize::from(b - b'0'), p))
}

// The number here in decimal, if a machine word holds it, and what ends it. In its callers, since what it hands back would go through memory.
#[inline(always)]
fn read_number(s: &[u8], at: usize) -> Option<(usize, Ended)>
    ensures { NumeralIs s.now at result }
{
    let (lead, after) = read_digit(s, at)?;
    if lead == 0 {
        return Some((0, end_of_word(s, after)?));
    }
    let mut n = lead;
    let mut p = after;
    // By places: each digit is where the one before it ended.
    while let Some((d, q)) = read_digit(s, p) {
        n = n.checked_mul(10)?.checked_add(d)?;
        p = q;
    }
    Some((n, end_of_word(s, p)?))
}

// The name here, with a number that a machine word holds, and what ends it.
pub fn name(s: &[u8], at: usize) -> Option<(Label, Ended)>
    ensures { CalledIs s.now at result }
{
    let (b, p) = read_byte(s, at)?;
    let (n, e) = read_number(s, p)?;
    match b {
        b'x' => Some((Label::Variable(n), e)),
        b'y' => Some((Label::Output(n), e)),
        _ => None,
    }
}

// The numbers of inputs and outputs, and where the blocks begin.
#[derive(Clone, Copy)]
pub struct Head {
    pub inputs: usize,
    pub outputs: usize,
    pub first: usize,
}

// What ends the name here, where it is the letter with the number k.
fn named(s: &[u8], at: usize, letter: u8, k: usize) -> Option<Ended>
    ensures { EndedIs s.now at (name_text letter k) result }
{
    let (b, p) = read_byte(s, at)?;
    // Before the number, which may have any length.
    if b != letter {
        return None;
    }
    let (n, e) = read_number(s, p)?;
    if n == k { Some(e) } else { None }
}

// How many names of the letter a line lists in turn from 0 on, one or more, and the place after its LF.
fn turns(s: &[u8], at: usize, letter: u8) -> Option<(usize, usize)>
    ensures { TurnsAre letter s.now at result }
{
    let mut k = 0;
    let mut p = at;
    // By places: each name is where the one before it ended.
    loop {
        match named(s, p, letter, k)? {
            Ended::Space(q) => {
                p = q;
                k += 1;
            }
            Ended::Line(q) => return Some((k + 1, q)),
            Ended::Finish => return None,
        }
    }
}

// The same after a keyword, or no name.
fn list(s: &[u8], at: usize, w: &[u8], letter: u8) -> Option<(usize, usize)>
    ensures { ListIs w.now letter s.now at result }
{
    match keyword(s, at, w)? {
        Ended::Space(p) => turns(s, p, letter),
        Ended::Line(p) => Some((0, p)),
        Ended::Finish => None,
    }
}

// Whether b may stand in a model's name.
fn is_plain(b: u8) -> bool
    ensures { result ≡ is_plain b }
{
    !matches!(b, b' ' | b'\t' | b'\r' | b'\n')
}

// The place after a model's name and its LF.
fn word(s: &[u8], at: usize) -> Option<usize>
    ensures { WordIs s.now at result }
{
    let mut p = at;
    // By places: each byte is where the one before it ended.
    loop {
        let (b, q) = read_byte(s, p)?;
        if b == b'\n' {
            return if at < p { Some(q) } else { None };
        }
        if !is_plain(b) {
            return None;
        }
        p = q;
    }
}

// The place after `.model`, a word and its LF.
fn model(s: &[u8]) -> Option<usize>
    ensures { ModelIs s.now result }
{
    match keyword(s, 0, b".model")? {
        Ended::Space(p) => word(s, p),
        Ended::Line(_) | Ended::Finish => None,
    }
}

// `.model` and a word, `.inputs` and `.outputs` with their names.
pub fn read_head(s: &[u8]) -> Option<Head>
    ensures { HeadIs s.now result }
{
    let p = model(s)?;
    let (inputs, q) = list(s, p, b".inputs", b'x')?;
    let (outputs, first) = list(s, q, b".outputs", b'y')?;
    Some(Head {
        inputs,
        outputs,
        first,
    })
}
