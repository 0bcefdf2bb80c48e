use crate::answers::{Told, check_form, check_twins};
use crate::drawing::{circulant, many, permutations, rings, scattered};
use crate::random::Random;
use crate::shapes::Kind;
use crate::side::Side;
use crate::tree::{MOST_LEAVES, Tree};
use crate::twins::twin;
use std::alloc::Global;

// Why the graphs of a family may be refused.
#[derive(Clone, Copy)]
pub enum Cause {
    LittleRoom,
    ManyTriples,
    ManyLeaves,
}

#[derive(Clone, Copy)]
pub struct RefusedFamily {
    pub name: &'static str,
    pub pairs: u64,
    cause: Cause,
}

pub const REFUSED_FAMILIES: [RefusedFamily; 3] = [
    RefusedFamily {
        name: "too little room",
        pairs: 200,
        cause: Cause::LittleRoom,
    },
    RefusedFamily {
        name: "about 256 triples",
        pairs: 60,
        cause: Cause::ManyTriples,
    },
    RefusedFamily {
        name: "seven and eight blank nodes",
        pairs: 100,
        cause: Cause::ManyLeaves,
    },
];

impl RefusedFamily {
    // Makes a graph and a twin of it, and checks that both are refused as they should be, or neither. The answer is whether they are.
    pub(crate) fn check(&self, heap: Global, random: &mut Random) -> anyhow::Result<bool> {
        match self.cause {
            Cause::LittleRoom => check_room(heap, random),
            Cause::ManyTriples => check_triples(heap, random),
            Cause::ManyLeaves => check_leaves(heap, random),
        }
    }
}

// With less room than the form needs, which has one number less than the graph written down with each triple once; and with as much.
fn check_room(heap: Global, random: &mut Random) -> anyhow::Result<bool> {
    let graph = Kind::any(random).graph(heap, random)?;
    let other = twin(heap, random, &graph)?;
    let needed = graph
        .different(heap)?
        .encoded(heap)?
        .len()
        .saturating_sub(1);
    let room = random.below(needed.max(1) as u64);
    let refused = Told {
        number: 3,
        place: room,
    };
    for graph in [&graph, &other] {
        check_form(heap, graph, room as usize, Some(refused))?;
        check_form(heap, graph, needed, None)?;
    }
    Ok(true)
}

fn check_triples(heap: Global, random: &mut Random) -> anyhow::Result<bool> {
    let blanks = 1 + random.below(8);
    let count = 250 + random.below(14);
    let graph = many(heap, random, blanks, count)?;
    let refused = Told {
        number: 3,
        place: 256,
    };
    check_twins(
        heap,
        random,
        &graph,
        if count > 256 { Some(refused) } else { None },
    )
}

fn check_leaves(heap: Global, random: &mut Random) -> anyhow::Result<bool> {
    let blanks = 7 + random.below(2);
    let graph = match random.below(6) {
        0..=2 => {
            let linked = random.below(4);
            scattered(heap, random, blanks, linked, 3, 2)?
        }
        3 => circulant(heap, random, blanks)?,
        4 => permutations(heap, random, blanks, 1)?,
        _ => rings(heap, random, blanks, 0, true)?,
    };
    let simple = graph.different(heap)?;
    let Some(leaves) = Tree::new(heap, &simple).leaves(MOST_LEAVES)? else {
        let refused = Told {
            number: 5,
            place: 1025,
        };
        return check_twins(heap, random, &graph, Some(refused));
    };
    Side::new(heap, &graph)?.check_found(&leaves)?;
    check_twins(heap, random, &graph, None)
}
