ghost use Rattle.std.specs.Prelude.{◌<◌};

use crate::plain::{Graph, Term, Triple};
use crate::random::Random;
use crate::twins::shuffled;
use std::alloc::{AllocError, Global};

// How many names there are.
const NAMES: u64 = 2;

type Made = Result<Graph, AllocError>;

fn link(from: u64, predicate: u64, to: u64) -> Triple {
    Triple {
        subject: Term::Blank(from),
        predicate,
        object: Term::Blank(to),
    }
}

// One of so many blank nodes, or a name.
fn term(random: &mut Random, nodes: u64) -> Term {
    if nodes == 0 || random.once_in(5) {
        Term::Named(random.below(NAMES))
    } else {
        Term::Blank(random.below(nodes))
    }
}

// So many triples, each with random ends, of which only the first `linked` nodes are any.
pub(crate) fn scattered(
    heap: Global,
    random: &mut Random,
    blanks: u64,
    linked: u64,
    count: u64,
    predicates: u64,
) -> Made
    requires { 0 < predicates }
{
    let mut triples = Vec::new(heap);
    for _ in 0..count {
        triples.push(Triple {
            subject: term(random, linked),
            predicate: random.below(predicates),
            object: term(random, linked),
        })?;
    }
    Ok(Graph { blanks, triples })
}

// For each predicate a random permutation of the nodes.
pub(crate) fn permutations(
    heap: Global,
    random: &mut Random,
    blanks: u64,
    predicates: u64,
) -> Made {
    let mut triples = Vec::new(heap);
    for predicate in 0..predicates {
        let places = shuffled(random, blanks);
        for (from, to) in (0..blanks).zip(&places) {
            triples.push(link(from, predicate, *to))?;
        }
    }
    Ok(Graph { blanks, triples })
}

// For each predicate rings through random nodes. This moves all nodes, so that colours say nothing.
pub(crate) fn regular(heap: Global, random: &mut Random, blanks: u64, predicates: u64) -> Made {
    let mut triples = Vec::new(heap);
    for predicate in 0..predicates {
        let places = shuffled(random, blanks);
        for triple in &rings(heap, random, blanks, predicate, false)?.triples {
            triples.push(triple.mapped(&places))?;
        }
    }
    Ok(Graph { blanks, triples })
}

// Rings of two nodes and more that the nodes are cut into, with one predicate, in one direction or in both.
pub(crate) fn rings(
    heap: Global,
    random: &mut Random,
    blanks: u64,
    predicate: u64,
    both_ways: bool,
) -> Made {
    let mut triples = Vec::new(heap);
    let mut start = 0;
    for node in 0..blanks {
        let left = blanks - node - 1;
        let closes = left == 0 || (node > start && left > 1 && random.once_in(2));
        let next = if closes { start } else { node + 1 };
        triples.push(link(node, predicate, next))?;
        if both_ways {
            triples.push(link(next, predicate, node))?;
        }
        if closes {
            start = node + 1;
        }
    }
    Ok(Graph { blanks, triples })
}

// From each node the same steps round a ring, each with one of two predicates or left out: every node looks like every other.
pub(crate) fn circulant(heap: Global, random: &mut Random, blanks: u64) -> Made {
    let mut triples = Vec::new(heap);
    for step in 0..blanks {
        let predicate = random.below(3);
        if predicate < 2 {
            for node in 0..blanks {
                let to = if node < blanks - step {
                    node + step
                } else {
                    node - (blanks - step)
                };
                triples.push(link(node, predicate, to))?;
            }
        }
    }
    Ok(Graph { blanks, triples })
}

// As many triples as nodes, and then some of these again.
pub(crate) fn repeated(heap: Global, random: &mut Random, blanks: u64, predicates: u64) -> Made
    requires { 0 < predicates }
{
    let mut graph = scattered(heap, random, blanks, blanks, blanks, predicates)?;
    for _ in 0..blanks {
        if let Some(triple) = graph.triples.get(random.below(blanks) as usize).copied() {
            graph.triples.push(triple)?;
            graph.triples.push(triple)?;
        }
    }
    Ok(graph)
}

// A path through all nodes, which tells them apart, and some more triples.
pub(crate) fn rigid(heap: Global, random: &mut Random, blanks: u64, more: u64) -> Made {
    let mut graph = scattered(heap, random, blanks, blanks, more, 2)?;
    for (node, next) in (0..blanks).zip(1..blanks) {
        graph.triples.push(link(node, 2, next))?;
    }
    Ok(graph)
}

// A triple with each of so many predicates, so that no two are the same.
pub(crate) fn many(heap: Global, random: &mut Random, blanks: u64, count: u64) -> Made {
    let mut triples = Vec::new(heap);
    for predicate in 0..count {
        triples.push(Triple {
            subject: term(random, blanks),
            predicate,
            object: term(random, blanks),
        })?;
    }
    Ok(Graph { blanks, triples })
}
