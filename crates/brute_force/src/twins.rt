use crate::plain::{Graph, MOST_NODES, Numbers, Triple};
use crate::random::Random;
use std::alloc::{AllocError, Global};
use std::array;

// Another number for each of so many nodes.
pub(crate) fn shuffled(random: &mut Random, blanks: u64) -> Numbers {
    let mut places: Numbers = array::from_fn(|node| node as u64);
    for node in 1..MOST_NODES.min(blanks as usize) {
        places.swap(node, random.below(node as u64 + 1) as usize);
    }
    places
}

fn shuffle(random: &mut Random, triples: &mut [Triple]) {
    for place in 1..triples.len() {
        triples.swap(place, random.below(place as u64 + 1) as usize);
    }
}

// The same graph with other numbers for its blank nodes, and its triples in another order.
pub(crate) fn renamed(
    heap: Global,
    random: &mut Random,
    graph: &Graph,
) -> Result<Graph, AllocError> {
    let mapping = shuffled(random, graph.blanks);
    let mut triples = Vec::new(heap);
    for triple in &graph.triples {
        triples.push(triple.mapped(&mapping))?;
    }
    shuffle(random, triples.as_mut_slice());
    Ok(Graph {
        blanks: graph.blanks,
        triples,
    })
}

// The same, with some triples repeated.
pub(crate) fn twin(heap: Global, random: &mut Random, graph: &Graph) -> Result<Graph, AllocError> {
    let mut twin = renamed(heap, random, graph)?;
    for place in 0..graph.triples.len() {
        if let Some(triple) = twin.triples.get(place).copied() {
            if random.once_in(5) {
                twin.triples.push(triple)?;
            }
        }
    }
    shuffle(random, twin.triples.as_mut_slice());
    Ok(twin)
}

// Changes a triple: its direction is turned, it gets another predicate, or the object of another triple.
pub(crate) fn change_one(random: &mut Random, triples: &mut [Triple]) {
    if triples.is_empty() {
        return;
    }
    let count = triples.len() as u64;
    let other = triples[random.below(count) as usize];
    let triple = &mut triples[random.below(count) as usize];
    let Triple {
        subject,
        object,
        ..
    } = *triple;
    match random.below(3) {
        0 => {
            triple.subject = object;
            triple.object = subject;
        }
        1 => triple.predicate = u64::from(triple.predicate == 0),
        _ => triple.object = other.object,
    }
}

// Exchanges the objects of two triples with one predicate, so that each node has as many triples of each kind as before. Two are looked for that are
// different, and where this makes no loop, a few times.
pub(crate) fn exchange_two(random: &mut Random, triples: &mut [Triple]) {
    if triples.is_empty() {
        return;
    }
    let count = triples.len() as u64;
    for _ in 0..10 {
        let one = random.below(count) as usize;
        let other = random.below(count) as usize;
        let (first, second) = (triples[one], triples[other]);
        if first.predicate == second.predicate
            && first.object != second.object
            && first.subject != second.object
            && second.subject != first.object
        {
            triples[one].object = second.object;
            triples[other].object = first.object;
            return;
        }
    }
}
