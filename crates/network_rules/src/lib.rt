// The rules on networks, and the literal count of a network by the rules.
#![tactic(auto)]

ghost use Rattle.std.specs.Prelude.{◌≡◌, eqb, length};
ghost use Rattle.sets.specs.Lists.{all};
ghost use Rattle.expression.specs.Expression.{expression};
ghost use Rattle.expression.specs.Answers.{capped};
ghost use Rattle.network.specs.Net.{nodes, literal_count};
ghost use Rattle.network.specs.Held.{net_of, rules};
ghost use Rattle.network.specs.Answers.{judged, counted, numbers_of};
ghost use Rattle.network.specs.Parts.{Limited};
ghost use Rattle.network_rules.specs.Parts.{literals_within};

use expression::Verdict;
use network::{Network, Number};

// Whether each node is an expression.
fn all_expressions(n: &Network) -> bool
    requires { Limited n.now }
    ensures { result ≡ all expression (nodes (net_of n.now)) }
{
    network_nodes::each(&n.words, &n.counts)
        .take(n.outputs + n.divisors)
        .all(expression_accept::is_expression)
}

// The literals of all nodes.
fn count(n: &Network) -> u64
    requires { Limited n.now }
    ensures { result ≡ capped (literal_count (net_of n.now)) }
{
    expression_survey::literals(network_nodes::front(&n.words, &n.counts, n.outputs + n.divisors))
}

// Whether every divisor is listed.
#[tactic(auto, unfolding(network::specs::Answers::listed_of))]
fn is_acyclic(n: &Network) -> bool
    ensures { result ≡ eqb (length (numbers_of n.now)) n.now.divisors }
{
    network_listing::listing(*n).count == n.divisors
}

// Whether all rules are kept.
fn follows(n: Network) -> bool
    ensures { result ≡ rules n }
{
    if !network_listing::is_listable(n) {
        return false;
    }
    is_acyclic(&n) && all_expressions(&n) && count(&n) <= network::MOST_LITERALS
}

// Whether the network keeps the rules: 10 where it does not.
#[tactic(auto, unfolding(network::specs::Answers::judged))]
pub fn judge(n: Network) -> Verdict
    ensures { result ≡ judged n }
{
    if follows(n) {
        Verdict::Accepted
    } else {
        Verdict::Refused(10)
    }
}

// The literals of a network within the limits on its sizes, whose rules are not judged, and 0 where it is not within them. Of one that keeps the rules they
// are its literal count.
pub fn literals_within(n: Network) -> u64
    ensures { result ≡ literals_within n }
{
    if !network::is_within(n.inputs, n.outputs, n.divisors, &n.counts) {
        return 0;
    }
    count(&n)
}

// The literal count over all expressions.
pub fn literals(n: Network) -> Number
    ensures { result ≡ counted n }
{
    if !follows(n) {
        return Number::No(10);
    }
    Number::Is(literals_within(n))
}
