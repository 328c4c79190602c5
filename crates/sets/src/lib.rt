// Sets of literals, as ascending lists and as masks of any width: definitions in specs/ and their laws in proofs/, and no code but one number.
#![tactic(auto)]

// The largest number in a word (`largest`, specs/Word.antt).
pub const WORD_MOST: u64 = 18446744073709551615;
