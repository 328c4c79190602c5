// A request line taken apart: groups of words, and the numbers and bytes that they write.
#![tactic(auto)]

ghost use Rattle.std.specs.Prelude.{◌≡◌, ◌+◌, ◌≤◌, ◌==◌, length, drop, IfSome, if◌then◌else◌};
ghost use Rattle.std.specs.Iterator.{YieldsFirstRef, item_count};
ghost use Rattle.drive_request.specs.Words.{index_of, words_of, first_word, after_word, is_part, ahead, first_group, after_group, groups_of};
ghost use Rattle.drive_request.specs.Numbers.{digit_in, well_led, number_of, numbers_of, pairs_of, bytes_of};
ghost use Rattle.drive_request.specs.Reading.{Stored};

// The most digits of a number.
const DIGITS: usize = 16;

// ---- words

// Where the first word of a text ends: at a blank or with the text.
fn word_end(text: &[u8]) -> usize
    ensures value { result ≡ index_of 32 text.now }
    ensures within { result ≤ length text.now }
{
    text.iter().position(|b| *b == b' ').unwrap_or(text.len())
}

// What stands from a place on.
fn from(text: &[u8], at: usize) -> &[u8]
    ensures { result.now ≡ drop at text.now }
{
    &text[at.min(text.len())..]
}

// The first word of a text.
pub fn first(text: &[u8]) -> &[u8]
    ensures { result.now ≡ first_word text.now }
{
    &text[..word_end(text)]
}

// What stands after it; nothing where it is the only one.
pub fn rest(text: &[u8]) -> &[u8]
    ensures { result.now ≡ after_word text.now }
{
    from(text, word_end(text) + 1)
}

// The words of a text in turn.
#[derive(Drop)]
struct Words<'a>(&'a [u8]);

impl<'a> Iterator for Words<'a> {
    type Item = &'a [u8];

    ghost next_gives = { YieldsFirstRef (λ s. words_of s.0.now) };

    ghost remaining = { item_count (λ s. words_of s.0.now) };

    fn next(&mut self) -> Option<&'a [u8]> {
        let text = self.0;
        if text.is_empty() {
            return None;
        }
        let e = word_end(text);
        self.0 = from(text, e + 1);
        Some(&text[..e])
    }
}

// ---- groups

fn is_part(word: &[u8]) -> bool
    ensures { result ≡ is_part word.now }
{
    matches!(word, b";")
}

// Where the first lone `;` stands; where there is none, the first place past the text and its last blank.
fn part(text: &[u8]) -> usize
    ensures value { result ≡ ahead (words_of text.now) }
    ensures within { result ≤ length text.now + 1 }
{
    let mut at = 0;
    for word in Words(text) {
        if is_part(word) {
            break;
        }
        at += word.len() + 1;
    }
    at
}

// The first group of a text.
pub fn head(text: &[u8]) -> &[u8]
    ensures { result.now ≡ first_group text.now }
{
    let last = part(text).saturating_sub(1);
    &text[..last]
}

// The groups after it.
pub fn tail(text: &[u8]) -> &[u8]
    ensures { result.now ≡ after_group text.now }
{
    from(text, part(text) + 2)
}

// How many groups a line has, where its words are one blank apart.
pub fn groups(line: &[u8]) -> Option<usize>
    ensures { result ≡ (if groups_of line.now == 0 then None else Some (groups_of line.now)) }
{
    if line.ends_with(b" ") {
        return None;
    }
    let mut parts = 0;
    // One pass over the words, which ends at the first that is empty.
    for word in Words(line) {
        if word.is_empty() {
            return None;
        }
        if is_part(word) {
            parts += 1;
        }
    }
    Some(parts + 1)
}

// ---- numbers and bytes

// The value of a hex digit.
#[tactic(auto, unfolding(crate::specs::Numbers::digit_of))]
fn digit(b: u8) -> Option<u8>
    ensures { result ≡ digit_in b }
{
    match b {
        b'0'..=b'9' => Some(b - b'0'),
        b'a'..=b'f' => Some(b - b'a' + 10),
        _ => None,
    }
}

// Whether a word has a number's length, and no leading zero.
#[tactic(auto, unfolding(crate::specs::Numbers::well_led))]
fn well_led(word: &[u8]) -> bool
    ensures { result ≡ well_led word.now }
{
    match word {
        [] | [b'0', _, ..] => false,
        _ => word.len() <= DIGITS,
    }
}

// The number that a word is.
pub fn number(word: &[u8]) -> Option<u64>
    ensures { result ≡ number_of word.now }
{
    if !well_led(word) {
        return None;
    }
    let mut value = 0;
    for b in word {
        let d = digit(*b)?;
        value = 16 * value + u64::from(d);
    }
    Some(value)
}

// The numbers that a group is, to the front of the pool: how many, where each word is one and has room.
pub fn numbers(text: &[u8], pool: &mut [u64]) -> Option<usize>
    ensures stored { Stored pool.old pool.new result (numbers_of text.now) }
    ensures within { IfSome result (λ n. n ≤ length pool.old) }
{
    let mut n = 0;
    for word in Words(text) {
        let v = number(word)?;
        if n >= pool.len() {
            return None;
        }
        // By index: what stands in the places is promised where the reading ends early, too.
        pool[n] = v;
        n += 1;
    }
    Some(n)
}

// The bytes of two digits each, to the front of the room.
fn pairs(word: &[u8], room: &mut [u8]) -> Option<usize>
    ensures stored { Stored room.old room.new result (pairs_of word.now) }
    ensures within { IfSome result (λ n. n ≤ length room.old) }
{
    let mut n = 0;
    for pair in word.chunks(2) {
        let [a, b] = pair else {
            return None;
        };
        let high = digit(*a)?;
        let low = digit(*b)?;
        if n >= room.len() {
            return None;
        }
        // By index, as in `numbers`.
        room[n] = 16 * high + low;
        n += 1;
    }
    Some(n)
}

// The bytes that a word is, to the front of the room: how many, where it writes bytes and each has room.
pub fn bytes(word: &[u8], room: &mut [u8]) -> Option<usize>
    ensures stored { Stored room.old room.new result (bytes_of word.now) }
    ensures within { IfSome result (λ n. n ≤ length room.old) }
{
    match word {
        [] => None,
        b"-" => Some(0),
        _ => pairs(word, room),
    }
}
