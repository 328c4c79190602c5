// Gains by key, in a table that is lent: a key has what was put in for it, less what was taken out.
#![tactic(auto)]

ghost use Rattle.std.specs.Prelude.{◌≡◌, ◌<◌, get_or};
ghost use Rattle.extract_gains.specs.Gains.{entries, first, many, key_at, head_of, Sound, Turns, only, none};
ghost use Rattle.extract_gains.specs.Parts.{Missing, Finds, Changes};

// The chains, and the entries. A table of so many entries is full: it says nothing.
const CHAINS: usize = 65536;

pub const MOST_ENTRIES: usize = 600000;

// The place of the first entry: before it stand the number of entries and the heads of the chains.
const FIRST_ENTRY: usize = CHAINS + 1;

// An entry has a link and a key.
pub const TABLE_WORDS: usize = FIRST_ENTRY + 2 * MOST_ENTRIES;

// The number of entries.
pub fn number(t: &[u32; TABLE_WORDS]) -> usize
    ensures { result ≡ many t.now }
{
    t[0] as usize
}

// The place of the head of a key's chain. It decides how long a search takes, and nothing else.
fn head_of(key: u32) -> usize
    ensures is { result ≡ head_of key }
    ensures within { result < first }
{
    1 + (u64::from(key) * 2654435761 / 16384 % 65536) as usize
}

// The entry of a key, by its chain: each link leads to an earlier place.
fn find(t: &[u32; TABLE_WORDS], key: u32) -> Option<usize>
    ensures { Finds t.now key result }
{
    let mut at = t[head_of(key)] as usize;
    // By links: each place is read at the one before it.
    while at >= FIRST_ENTRY {
        if at >= TABLE_WORDS - 1 {
            return None;
        }
        if t[at + 1] == key {
            return Some((at - FIRST_ENTRY) / 2);
        }
        let next = t[at] as usize;
        if next >= at {
            return None;
        }
        at = next;
    }
    None
}

// A table with no entry.
pub fn clear(t: &mut [u32; TABLE_WORDS], g: &mut [u16; MOST_ENTRIES])
    ensures { Sound t.new g.new × (many t.new ≡ 0) }
{
    t[..FIRST_ENTRY].fill(0);
}

// The table is full from here on.
fn give_up(t: &mut [u32; TABLE_WORDS])
    ensures { many t.new ≡ entries }
{
    t[0] = MOST_ENTRIES as u32;
}

// A new entry for a key, where there is room for one.
fn enter(t: &mut [u32; TABLE_WORDS], g: &mut [u16; MOST_ENTRIES], key: u32, by: u16)
    requires { (Sound t.old g.old → Missing t.old key) × (0 < by) }
    ensures { Turns t.old g.old t.new g.new none (only key by) }
{
    let e = number(t);
    if e >= MOST_ENTRIES {
        return;
    }
    let at = FIRST_ENTRY + 2 * e;
    let h = head_of(key);
    t[at] = t[h];
    t[at + 1] = key;
    t[h] = at as u32;
    t[0] = (e + 1) as u32;
    g[e] = by;
}

// An entry holds another gain; where there is none that it can hold, the table is full.
fn set(t: &mut [u32; TABLE_WORDS], g: &mut [u16; MOST_ENTRIES], e: usize, gain: Option<u16>)
    requires { e < entries }
    ensures { Changes t.old g.old t.new g.new e gain }
{
    match gain {
        Some(x) => g[e] = x,
        None => give_up(t),
    }
}

// The gain of a key rises; where there is no room for that, the table is full.
pub fn put(t: &mut [u32; TABLE_WORDS], g: &mut [u16; MOST_ENTRIES], key: u32, by: u16)
    ensures { Turns t.old g.old t.new g.new none (only key by) }
{
    if by == 0 {
        return;
    }
    match find(t, key) {
        Some(e) => {
            let held = g[e];
            set(t, g, e, held.checked_add(by));
        }
        None => enter(t, g, key, by),
    }
}

// The gain of a key falls; where it has not so much, the table is full.
pub fn take(t: &mut [u32; TABLE_WORDS], g: &mut [u16; MOST_ENTRIES], key: u32, by: u16)
    ensures { Turns t.old g.old t.new g.new (only key by) none }
{
    if by == 0 {
        return;
    }
    match find(t, key) {
        Some(e) => {
            let held = g[e];
            set(t, g, e, held.checked_sub(by));
        }
        None => give_up(t),
    }
}

// The key of an entry.
pub fn key_at(t: &[u32; TABLE_WORDS], e: usize) -> u32
    ensures { result ≡ key_at t.now e }
{
    if e < MOST_ENTRIES {
        t[FIRST_ENTRY + 2 * e + 1]
    } else {
        0
    }
}

// The gain of an entry.
pub fn gain_at(g: &[u16; MOST_ENTRIES], e: usize) -> u16
    ensures { result ≡ get_or g.now e 0 }
{
    g.get(e).copied().unwrap_or(0)
}
