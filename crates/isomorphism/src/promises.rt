ghost use Rattle.std.specs.Prelude.{◌≡◌};
ghost use Rattle.theory.specs.Encoding.{blank_count};
ghost use Rattle.theory.specs.Comparison.{compare_verdict, Itself, Turned, Chained};
ghost use Rattle.isomorphism.specs.Compared.{told, Caused};
ghost use Rattle.isomorphism.specs.Promises.{CheckedAnswer};

use crate::check::check_mapping;
use crate::compare::{Comparison, compare};
use crate::refusal::CheckRefusal;

// A graph is isomorphic to itself, and nothing is moved, unless it is refused.
pub fn compare_itself(graph: &[u64]) -> Comparison
    ensures told { told result ≡ compare_verdict graph.now graph.now }
    ensures cause { Caused graph.now graph.now result }
    ensures itself { Itself (blank_count graph.now) (told result) }
{
    compare(graph, graph)
}

// The other way round the mapping is the inverse, graphs that are not isomorphic are again not, and a refusal is told of the same graph, unless both
// are refused.
pub fn compare_both_ways(first: &[u64], second: &[u64]) -> (Comparison, Comparison)
    ensures there { told result.0 ≡ compare_verdict first.now second.now }
    ensures back { told result.1 ≡ compare_verdict second.now first.now }
    ensures causes { Caused first.now second.now result.0 × Caused second.now first.now result.1 }
    ensures turned { Turned (told result.0) (told result.1) }
{
    (compare(first, second), compare(second, first))
}

// From a first graph to a third the mapping is the one to the second and then the one from there, where both are isomorphic to it; where one is
// and one is not, they are not isomorphic to each other.
pub fn compare_three(
    first: &[u64],
    second: &[u64],
    third: &[u64],
) -> (Comparison, Comparison, Comparison)
    ensures first { told result.0 ≡ compare_verdict first.now second.now }
    ensures second { told result.1 ≡ compare_verdict second.now third.now }
    ensures both { told result.2 ≡ compare_verdict first.now third.now }
    ensures causes { Caused first.now second.now result.0 × Caused second.now third.now result.1 × Caused first.now third.now result.2 }
    ensures chained { Chained (told result.0) (told result.1) (told result.2) }
{
    (
        compare(first, second),
        compare(second, third),
        compare(first, third),
    )
}

// A mapping that is answered is accepted when it is checked. There is none to be checked where the graphs are not isomorphic, or one is refused.
pub fn compare_and_check(first: &[u64], second: &[u64]) -> Option<Result<(), CheckRefusal>>
    ensures { CheckedAnswer first.now second.now result }
{
    match compare(first, second) {
        Comparison::Isomorphic(mapping) => Some(check_mapping(first, second, mapping.places())),
        Comparison::NotIsomorphic | Comparison::Refused(_) => None,
    }
}
