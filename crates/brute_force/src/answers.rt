use crate::mappings::{fits, is_one_to_one};
use crate::plain::Graph;
use crate::random::Random;
use crate::side::Side;
use crate::twins::twin;
use anyhow::{bail, ensure};
use canonical_form::form::form_of;
use graph::refusal::Refusal;
use graph::simple::LARGEST_FORM;
use isomorphism::compare::{Comparison, compare};
use isomorphism::refusal::PairRefusal;
use std::alloc::Global;

// A number and a place that a refusal is told by.
#[derive(Clone, Copy, PartialEq, Eq, Debug)]
pub struct Told {
    pub number: u64,
    pub place: u64,
}

// A number that no form has.
const MARK: u64 = u64::MAX;

// Checks that with so much room the form of a graph is refused as expected, or found if nothing is. What is lent stays as it was past the form.
pub(crate) fn check_form(
    heap: Global,
    graph: &Graph,
    room: usize,
    expected: Option<Told>,
) -> anyhow::Result<()> {
    let encoded = graph.encoded(heap)?;
    let mut lent = [MARK; LARGEST_FORM];
    let Some(part) = lent.get_mut(..room) else {
        bail!("a form has no room for {room} numbers");
    };
    let reply = form_of(encoded.as_slice(), part);
    ensure!(
        reply.err().map(as_told) == expected,
        "the reply is {reply:?}, and not {expected:?}"
    );
    ensure!(
        lent.iter()
            .skip(reply.unwrap_or(0))
            .all(|number| *number == MARK),
        "more than the form was written"
    );
    Ok(())
}

// Checks that a graph and a twin of it are refused as expected, or both found to be isomorphic, and says whether they are refused.
pub(crate) fn check_twins(
    heap: Global,
    random: &mut Random,
    graph: &Graph,
    expected: Option<Told>,
) -> anyhow::Result<bool> {
    let other = twin(heap, random, graph)?;
    check_form(heap, graph, LARGEST_FORM, expected)?;
    check_form(heap, &other, LARGEST_FORM, expected)?;
    let first = graph.encoded(heap)?;
    let second = other.encoded(heap)?;
    match compare(first.as_slice(), second.as_slice()) {
        Comparison::Isomorphic(mapping) => {
            ensure!(
                expected.is_none(),
                "a mapping is told of graphs that are refused"
            );
            let first = Side::new(heap, graph)?;
            let second = Side::new(heap, &other)?;
            ensure!(first.form == second.form, "twins have two forms");
            let places = mapping.places();
            ensure!(
                is_one_to_one(places, first.simple.blanks),
                "{places:?} is no mapping"
            );
            ensure!(
                fits(
                    first.simple.triples.as_slice(),
                    second.simple.triples.as_slice(),
                    places
                ),
                "the mapping {places:?} that is told does not fit"
            );
        }
        Comparison::Refused(PairRefusal::First(refusal)) => ensure!(
            Some(as_told(refusal)) == expected,
            "compared, the first is {refusal}, and not {expected:?}"
        ),
        _ => bail!("neither is a mapping told nor the first graph refused"),
    }
    Ok(expected.is_some())
}

fn as_told(refusal: Refusal) -> Told {
    Told {
        number: refusal.number(),
        place: refusal.place(),
    }
}
