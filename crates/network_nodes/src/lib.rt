// The nodes of a network by value: cubes node after node, and how many of them each node has.
#![tactic(auto)]

ghost use Rattle.std.specs.Prelude.{◌≡◌, [], min, get_or, take};
ghost use Rattle.std.specs.Iterator.{YieldsFirstBy, item_count};
ghost use Rattle.expression.specs.Words.{cubes_of, spare_of};
ghost use Rattle.network_nodes.specs.Nodes.{cut, count_before};

// Where the cubes of node i begin: after those of the nodes before it, or at the most where that is past it.
pub fn start(counts: &[usize], i: usize, most: usize) -> usize
    ensures { result ≡ min (count_before i counts.now) most }
{
    let mut sum = 0;
    // No fold: past the most the rest is not looked at.
    for n in counts.iter().take(i) {
        if *n > most - sum {
            return most;
        }
        sum += *n;
    }
    sum
}

// The cubes of node i, as many of them as there are.
pub fn node<'a>(words: &'a [u64], counts: &[usize], i: usize) -> &'a [u64]
    ensures { (cubes_of result.now ≡ get_or (cut counts.now (cubes_of words.now)) i []) × (spare_of result.now ≡ []) }
{
    if counts.len() <= i {
        return expression::part(words, 0, 0);
    }
    let most = expression::number(words);
    let a = start(counts, i, most);
    let e = start(counts, i + 1, most);
    expression::part(words, a, e)
}

// Nodes in turn.
#[derive(Drop)]
pub struct Nodes<'a> {
    words: &'a [u64],
    counts: &'a [usize],
}

// Each node: as many nodes as counts, each with its cubes, as many of them as there are.
pub fn each<'a>(words: &'a [u64], counts: &'a [usize]) -> Nodes<'a>
    ensures { (result.words.now ≡ words.now) × (result.counts.now ≡ counts.now) }
{
    Nodes { words, counts }
}

impl<'a> Iterator for Nodes<'a> {
    type Item = &'a [u64];

    ghost next_gives = { YieldsFirstBy (λ f. cubes_of f.now) (λ s. cut s.counts.now (cubes_of s.words.now)) };

    ghost remaining = { item_count (λ s. cut s.counts.now (cubes_of s.words.now)) };

    fn next(&mut self) -> Option<&'a [u64]> {
        let (n, rest) = self.counts.split_first()?;
        let words = self.words;
        self.counts = rest;
        self.words = expression::part(words, *n, expression::number(words));
        Some(expression::part(words, 0, *n))
    }
}

// The cubes of the nodes before node i, as many of them as there are.
pub fn front<'a>(words: &'a [u64], counts: &[usize], i: usize) -> &'a [u64]
    ensures { (cubes_of result.now ≡ take (count_before i counts.now) (cubes_of words.now)) × (spare_of result.now ≡ []) }
{
    let e = start(counts, i, expression::number(words));
    expression::part(words, 0, e)
}
