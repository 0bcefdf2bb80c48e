use canonical_form::form::labelled_form;
use example_graphs::{CHAIN, CHAIN_AGAIN, ISOLATED, RING, TWINS, TWO_PAIRS};
use graph::refusal::Refusal;
use graph::simple::LARGEST_FORM;
use isomorphism::check::check_mapping;
use isomorphism::compare::{Comparison, compare};
use isomorphism::refusal::PairRefusal;
use std::test::Fail;

// The place of each blank node, if two graphs are isomorphic.
fn places(comparison: &Comparison) -> Option<&[u64]> {
    match comparison {
        Comparison::Isomorphic(mapping) => Some(mapping.places()),
        Comparison::NotIsomorphic | Comparison::Refused(_) => None,
    }
}

#[test]
fn opening_example(rt: HostRuntime) -> Result<(), Fail> {
    let first = [2, 1, 1, 0, 7, 1, 1];
    let second = [2, 1, 1, 1, 7, 1, 0];
    let compared = compare(&first, &second);
    assert_eq!(rt; places(&compared), Some([1, 0].as_slice()));
    assert_eq!(rt; check_mapping(&first, &second, &[1, 0]), Ok(()));
    let refusal = check_mapping(&first, &second, &[0, 1])
        .err()
        .ok_or("not refused")?;
    assert_eq!(rt; refusal.to_string(rt.alloc())?.as_str(), "refused 7 at 0");
    Ok(())
}

#[test]
fn isomorphic(rt: HostRuntime) {
    let pairs: [(&[u64], &[u64], &[u64], &str); 5] = [
        (
            &CHAIN,
            &CHAIN_AGAIN,
            &[1, 0],
            "numbered the other way round",
        ),
        (&CHAIN, &CHAIN, &[0, 1], "itself"),
        (&TWINS, &TWINS, &[0, 1], "nothing is moved"),
        (&[0, 0], &[0, 0], &[], "nothing at all"),
        (&[0, 0, 7], &[0, 0], &[], "what comes behind"),
    ];
    for (first, second, mapping, what) in pairs {
        let compared = compare(first, second);
        assert_eq!(rt; places(&compared), Some(mapping), "{what}");
    }
}

#[test]
fn not_isomorphic(rt: HostRuntime) {
    let pairs: [(&[u64], &[u64], &str); 4] = [
        (&RING, &TWO_PAIRS, "colours alone do not tell them apart"),
        (&ISOLATED, &[3, 0], "more blank nodes"),
        (&TWINS, &CHAIN, "a triple more"),
        (
            &[0, 1, 0, 0, 7, 0, 5],
            &[0, 1, 0, 0, 7, 0, 6],
            "another name",
        ),
    ];
    for (first, second, what) in pairs {
        assert_eq!(rt; compare(first, second), Comparison::NotIsomorphic, "{what}");
    }
}

#[test]
fn refused_pairs(rt: HostRuntime) {
    assert_eq!(rt;
        compare(&[0], &[]),
        Comparison::Refused(PairRefusal::First(Refusal::CutShort(1))),
        "both, and the first is told"
    );
    // A blank node that is not there, in the second triple.
    let stray = [2, 3, 1, 0, 1, 0, 5, 1, 0, 2, 1, 2, 1, 1, 1, 0, 5];
    assert_eq!(rt;
        compare(&CHAIN, &stray),
        Comparison::Refused(PairRefusal::Second(Refusal::NoTriple(1)))
    );
}

#[test]
fn told_in_a_line(rt: HostRuntime) -> Result<(), Fail> {
    let pairs: [(&[u64], &[u64], &str); 5] = [
        (&CHAIN, &CHAIN_AGAIN, "alike 1 0"),
        (&[0, 0], &[0, 0], "alike"),
        (&RING, &TWO_PAIRS, "not alike"),
        (&[7, 0], &[], "first refused 5 at 1025"),
        (&CHAIN, &[], "second refused 1 at 0"),
    ];
    for (first, second, line) in pairs {
        assert_eq!(rt;
            compare(first, second).to_string(rt.alloc())?.as_str(),
            line
        );
    }
    Ok(())
}

// The labelling of an encoded graph.
fn labelling(graph: &[u64]) -> Result<[u64; 32], Refusal> {
    Ok(labelled_form(graph, &mut [0; LARGEST_FORM])?.labelling.of)
}

#[test]
fn mapping_is_one_labelling_backwards_after_the_other(rt: HostRuntime) -> Result<(), Fail> {
    let pairs: [(&[u64], &[u64], &str); 4] = [
        (&CHAIN, &CHAIN_AGAIN, "one leaf each"),
        (
            &[3, 3, 1, 0, 1, 1, 1, 1, 1, 1, 1, 0, 1, 2, 1, 1, 1],
            &[3, 3, 1, 2, 1, 1, 0, 1, 0, 1, 1, 2, 1, 1, 1, 1, 0],
            "one leaf each, and a turn of three",
        ),
        (&TWINS, &TWINS, "two leaves"),
        (
            &RING,
            &[
                4, 4, 1, 0, 3, 1, 2, 1, 2, 3, 1, 1, 1, 1, 3, 1, 3, 1, 3, 3, 1, 0,
            ],
            "four leaves, and labellings that differ",
        ),
    ];
    for (first, second, what) in pairs {
        let from = labelling(first)?;
        let to = labelling(second)?;
        let compared = compare(first, second);
        let places = places(&compared).ok_or("not isomorphic")?;
        assert_eq!(rt; first.first(), Some(&(places.len() as u64)), "{what}");
        assert!(rt;
            places
                .iter()
                .zip(from)
                .all(|(place, label)| to.get(*place as usize) == Some(&label)),
            "{what}"
        );
    }
    Ok(())
}
