use example_graphs::{CHAIN, CHAIN_AGAIN, ISOLATED, TWINS};
use graph::encoded::MOST_WRITTEN;
use graph::refusal::Refusal;
use isomorphism::check::check_mapping;
use isomorphism::refusal::{CheckRefusal, Misfit, PairRefusal};
use std::test::Fail;

// Why places are no mapping of a first graph to a second.
fn misfit(first: &[u64], second: &[u64], places: &[u64]) -> Option<Misfit> {
    match check_mapping(first, second, places).err()? {
        CheckRefusal::Mapping(misfit) => Some(misfit),
        CheckRefusal::Graph(_) => None,
    }
}

#[test]
fn accepted(rt: HostRuntime) {
    let mappings: [(&[u64], &[u64], &[u64], &str); 6] = [
        (
            &CHAIN,
            &CHAIN_AGAIN,
            &[1, 0],
            "numbered the other way round",
        ),
        (
            &CHAIN,
            &CHAIN_AGAIN,
            &[1, 0, 7, 0, u64::MAX],
            "what comes behind",
        ),
        (&TWINS, &TWINS, &[0, 1], "nothing is moved"),
        (&TWINS, &TWINS, &[1, 0], "both are moved"),
        (&[0, 0], &[0, 0], &[], "nothing at all"),
        (
            &[2, 3, 1, 0, 7, 1, 1, 1, 0, 8, 0, 5, 1, 0, 7, 1, 1],
            &[
                2, 4, 1, 1, 8, 0, 5, 1, 1, 7, 1, 0, 1, 1, 8, 0, 5, 1, 1, 8, 0, 5,
            ],
            &[1, 0],
            "triples repeated, in another order",
        ),
    ];
    for (first, second, places, what) in mappings {
        assert_eq!(rt; check_mapping(first, second, places), Ok(()), "{what}");
    }
}

#[test]
fn no_place_of_its_own(rt: HostRuntime) {
    let refused: [(&[u64], u64, &str); 6] = [
        (&[], 0, "no places"),
        (&[1], 1, "too few places"),
        (&[2, 0], 0, "no such blank node"),
        (&[1, u64::MAX], 1, "no blank node of any graph"),
        (&[0, 0], 1, "one place for two"),
        (&[1, 1, 0], 1, "one place for two, and the other one behind"),
    ];
    for (places, node, what) in refused {
        assert_eq!(rt;
            misfit(&CHAIN, &CHAIN_AGAIN, places),
            Some(Misfit::NoPlace(node)),
            "{what}"
        );
    }
}

#[test]
fn triples_missing(rt: HostRuntime) {
    assert_eq!(rt;
        misfit(&CHAIN, &CHAIN_AGAIN, &[0, 1]),
        Some(Misfit::MappedToNone(1)),
        "the one from x0 to x1"
    );
    assert_eq!(rt;
        misfit(&TWINS, &CHAIN, &[0, 1]),
        Some(Misfit::NotMappedTo(1)),
        "the one from x0 to x1"
    );
    assert_eq!(rt;
        misfit(&[1, 1, 1, 0, 7, 0, 5], &[1, 1, 1, 0, 7, 0, 6], &[0]),
        Some(Misfit::MappedToNone(0)),
        "missing in both, and the first is told"
    );
    assert_eq!(rt;
        misfit(
            &[1, 2, 0, 5, 7, 0, 5, 0, 5, 7, 0, 6],
            &[1, 1, 0, 5, 7, 0, 5],
            &[0]
        ),
        Some(Misfit::MappedToNone(1)),
        "without blank nodes"
    );
}

#[test]
fn more_blank_nodes(rt: HostRuntime) {
    assert_eq!(rt;
        misfit(&ISOLATED, &[3, 0], &[0, 1]),
        Some(Misfit::OtherCount)
    );
    assert_eq!(rt; misfit(&[0, 0], &[32, 0], &[]), Some(Misfit::OtherCount));
    assert_eq!(rt;
        misfit(&ISOLATED, &[3, 1, 1, 0, 7, 0, 5], &[0, 1]),
        Some(Misfit::NotMappedTo(0)),
        "a triple is told first"
    );
    assert_eq!(rt;
        misfit(&ISOLATED, &[1, 0], &[0, 1]),
        Some(Misfit::NoPlace(1)),
        "fewer"
    );
}

#[test]
fn refused_graphs(rt: HostRuntime) {
    assert_eq!(rt;
        check_mapping(&[0], &[], &[]),
        Err(CheckRefusal::Graph(PairRefusal::First(Refusal::CutShort(1)))),
        "both, and the first is told"
    );
    assert_eq!(rt;
        check_mapping(&CHAIN, &[], &[]),
        Err(CheckRefusal::Graph(PairRefusal::Second(Refusal::CutShort(0)))),
        "before the mapping"
    );
}

#[test]
fn told_in_a_line(rt: HostRuntime) -> Result<(), Fail> {
    let many = PairRefusal::First(Refusal::TooManyBlankNodes(33));
    let none = PairRefusal::Second(Refusal::NoTriple(0));
    let refusals = [
        (CheckRefusal::Graph(many), "first refused 1 at 33"),
        (CheckRefusal::Graph(none), "second refused 2 at 0"),
        (
            CheckRefusal::Mapping(Misfit::NoPlace(31)),
            "refused 6 at 31",
        ),
        (
            CheckRefusal::Mapping(Misfit::MappedToNone(0)),
            "refused 7 at 0",
        ),
        (
            CheckRefusal::Mapping(Misfit::NotMappedTo(65535)),
            "refused 8 at 65535",
        ),
        (
            CheckRefusal::Mapping(Misfit::OtherCount),
            "refused 8 at 65536",
        ),
    ];
    for (refusal, line) in refusals {
        assert_eq!(rt; refusal.to_string(rt.alloc())?.as_str(), line);
    }
    Ok(())
}

// As many triples as can be written, all of them different, between 32 blank nodes whose numbers are `turn` on. The predicate tells them apart: the
// first triple has 0, and each next one a predicate that is `step` on. An odd step comes to each of the 2^16 once.
fn most_triples(rt: HostRuntime, turn: u8, step: u16) -> Result<Vec<u64>, Fail> {
    let turn = u64::from(turn);
    let mut graph = vec![in rt.alloc(); 32, MOST_WRITTEN]?;
    let mut next: u16 = 0;
    for _ in 0..MOST_WRITTEN {
        let predicate = u64::from(next);
        let subject = (predicate + turn) % 32;
        let object = (predicate / 2048 + turn) % 32;
        graph.extend_from_slice(&[1, subject, predicate, 1, object])?;
        next = next.wrapping_add(step);
    }
    Ok(graph)
}

#[test]
fn most_different_triples(rt: HostRuntime) -> Result<(), Fail> {
    let mut first = most_triples(rt.clone()?, 0, 1)?;
    let second = most_triples(rt.clone()?, 7, 40503)?;
    let mut places = Vec::new(rt.alloc());
    for node in 0..32 {
        places.push((node + 7) % 32)?;
    }
    assert_eq!(rt;
        check_mapping(first.as_slice(), second.as_slice(), places.as_slice()),
        Ok(())
    );
    first.pop();
    first.push(0)?;
    assert_eq!(rt;
        misfit(first.as_slice(), second.as_slice(), places.as_slice()),
        Some(Misfit::MappedToNone(65535)),
        "the last one has another object"
    );
    Ok(())
}
