ghost use Rattle.std.specs.Prelude.{◌≡◌, take};
ghost use Rattle.theory.specs.Isomorphism.{Isomorphism, Isomorphic, place};
ghost use Rattle.theory.specs.Encoding.{graph_in, check_verdict, mapping_accepted};
ghost use Rattle.theory.specs.Comparison.{compare_verdict};
ghost use Rattle.c_entry.specs.Answers.{compare_told, places_left};

use graph::encoded::MOST_BLANK_NODES;
use isomorphism::compare::{Comparison, compare};
use isomorphism::refusal::PairRefusal;

const NOT_ISOMORPHIC: u64 = 0;

const ISOMORPHIC: u64 = 1;

const FIRST_REFUSED: u64 = 2;

const SECOND_REFUSED: u64 = 3;

// What is told of two graphs. The kind says whether they are isomorphic, or which one is refused. If one is, `refusal` and `value` are the number of the
// refusal and its place; else `refusal` is 0, and `value` says how many places were written.
#[repr(C)]
#[derive(Clone, Copy)]
pub struct ComparisonAnswer {
    pub kind: u64,
    pub refusal: u64,
    pub value: u64,
}

// Compares two encoded graphs. If they are isomorphic, a mapping that shows it is written to the beginning of `places`, the place of each blank node of
// the first graph in the second; else `places` is as it was.
#[unsafe(no_mangle)]
pub extern "C" fn collwyfa_compare(
    first: &[u64],
    second: &[u64],
    places: &mut [u64; MOST_BLANK_NODES],
) -> ComparisonAnswer
    ensures told { result ≡ compare_told (compare_verdict first.now second.now) }
    ensures left { places.new ≡ places_left (compare_verdict first.now second.now) places.old }
    ensures isomorphism { result.kind ≡ 1 → Isomorphism (graph_in first.now) (graph_in second.now) (place (take result.value places.new)) }
    ensures checked { result.kind ≡ 1 → check_verdict first.now second.now (take result.value places.new) ≡ mapping_accepted }
    ensures none { result.kind ≡ 0 → Isomorphic (graph_in first.now) (graph_in second.now) → ⊥ }
{
    match compare(first, second) {
        Comparison::Isomorphic(mapping) => {
            let found = mapping.places();
            places[..found.len()].copy_from_slice(found);
            ComparisonAnswer {
                kind: ISOMORPHIC,
                refusal: 0,
                value: found.len() as u64,
            }
        }
        Comparison::NotIsomorphic => ComparisonAnswer {
            kind: NOT_ISOMORPHIC,
            refusal: 0,
            value: 0,
        },
        Comparison::Refused(PairRefusal::First(refusal)) => ComparisonAnswer {
            kind: FIRST_REFUSED,
            refusal: refusal.number(),
            value: refusal.place(),
        },
        Comparison::Refused(PairRefusal::Second(refusal)) => ComparisonAnswer {
            kind: SECOND_REFUSED,
            refusal: refusal.number(),
            value: refusal.place(),
        },
    }
}
