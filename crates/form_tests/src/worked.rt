// Worked examples: eleven graphs with what is found of each, worked out from the definitions.

use example_graphs::{CHAIN, CHAIN_AGAIN, ISOLATED, RING, TWINS, TWO_PAIRS};
use std::test::Fail;

#[derive(Drop)]
pub(crate) struct Worked<'a> {
    pub(crate) what: &'a str,
    pub(crate) graph: &'a [u64],
    // The stable colours.
    pub(crate) colours: &'a [u64],
    pub(crate) leaves: usize,
    // The first leaf that writes the least certificate.
    pub(crate) labelling: &'a [u64],
    pub(crate) form: &'a [u64],
}

pub(crate) const WORKED: [Worked<'static>; 11] = [
    Worked {
        what: "chain: x0 1 5, x0 2 x1, x1 1 5",
        graph: &CHAIN,
        colours: &[0, 1],
        leaves: 1,
        labelling: &[0, 1],
        form: &[2, 1, 0, 1, 0, 5, 1, 0, 2, 1, 1, 1, 1, 1, 0, 5],
    },
    Worked {
        what: "chain again: numbered the other way round, with a triple repeated",
        graph: &CHAIN_AGAIN,
        colours: &[1, 0],
        leaves: 1,
        labelling: &[1, 0],
        form: &[2, 1, 0, 1, 0, 5, 1, 0, 2, 1, 1, 1, 1, 1, 0, 5],
    },
    Worked {
        what: "twins: two that nothing tells apart",
        graph: &TWINS,
        colours: &[0, 0],
        leaves: 2,
        labelling: &[0, 1],
        form: &[2, 1, 0, 1, 0, 5, 1, 1, 1, 0, 5],
    },
    Worked {
        what: "a ring of four",
        graph: &RING,
        colours: &[0, 0, 0, 0],
        leaves: 4,
        labelling: &[0, 2, 3, 1],
        form: &[
            4, 1, 0, 3, 1, 2, 1, 1, 3, 1, 0, 1, 2, 3, 1, 3, 1, 3, 3, 1, 1,
        ],
    },
    Worked {
        what: "two rings of two",
        graph: &TWO_PAIRS,
        colours: &[0, 0, 0, 0],
        leaves: 8,
        labelling: &[0, 1, 2, 3],
        form: &[
            4, 1, 0, 3, 1, 1, 1, 1, 3, 1, 0, 1, 2, 3, 1, 3, 1, 3, 3, 1, 2,
        ],
    },
    Worked {
        what: "x0 3 x0",
        graph: &[1, 1, 1, 0, 3, 1, 0],
        colours: &[0],
        leaves: 1,
        labelling: &[0],
        form: &[1, 1, 0, 3, 1, 0],
    },
    Worked {
        what: "two blank nodes without triples",
        graph: &ISOLATED,
        colours: &[0, 0],
        leaves: 2,
        labelling: &[0, 1],
        form: &[2],
    },
    Worked {
        what: "one that points at itself, and two that point at each other: were x0 to see itself as one of its colour, all would look the same",
        graph: &[3, 3, 1, 0, 3, 1, 0, 1, 1, 3, 1, 2, 1, 2, 3, 1, 1],
        colours: &[0, 1, 1],
        leaves: 2,
        labelling: &[0, 1, 2],
        form: &[3, 1, 0, 3, 1, 0, 1, 1, 3, 1, 2, 1, 2, 3, 1, 1],
    },
    Worked {
        what: "a triple repeated: were it counted twice, x1 would come before x0",
        graph: &[
            3, 4, 1, 0, 1, 1, 1, 1, 1, 1, 1, 0, 1, 1, 1, 1, 0, 1, 2, 1, 1, 1,
        ],
        colours: &[1, 2, 0],
        leaves: 1,
        labelling: &[1, 2, 0],
        form: &[3, 1, 0, 1, 1, 2, 1, 1, 1, 1, 2, 1, 2, 1, 1, 1],
    },
    Worked {
        what: "a ring of four in which two opposite nodes point at themselves",
        graph: &[
            4, 6, 1, 3, 1, 1, 3, 1, 2, 1, 1, 2, 1, 3, 1, 1, 1, 1, 1, 1, 1, 2, 1, 2, 1, 1, 0, 1, 0,
            1, 1, 3,
        ],
        colours: &[1, 1, 0, 0],
        leaves: 2,
        labelling: &[3, 2, 0, 1],
        form: &[
            4, 1, 0, 1, 1, 0, 1, 0, 1, 1, 3, 1, 1, 1, 1, 1, 1, 1, 1, 1, 2, 1, 2, 1, 1, 0, 1, 3, 1,
            1, 1,
        ],
    },
    Worked {
        what: "a ring of three and one of two: half of the leaves write another certificate, among them the first",
        graph: &[
            5, 5, 1, 0, 3, 1, 1, 1, 1, 3, 1, 2, 1, 2, 3, 1, 0, 1, 3, 3, 1, 4, 1, 4, 3, 1, 3,
        ],
        colours: &[0, 0, 0, 0, 0],
        leaves: 12,
        labelling: &[2, 4, 3, 0, 1],
        form: &[
            5, 1, 0, 3, 1, 1, 1, 1, 3, 1, 0, 1, 2, 3, 1, 4, 1, 3, 3, 1, 2, 1, 4, 3, 1, 3,
        ],
    },
];

// The colours of some blank nodes, and 0 past them, as a colouring has them.
pub(crate) fn padded(colours: &[u64]) -> [u64; 32] {
    let mut all = [0; 32];
    for (place, colour) in all.iter_mut().zip(colours) {
        *place = *colour;
    }
    all
}

// Pairs of blank nodes that a name of their own tells from the other pairs, and nothing from each other: each pair doubles the leaves.
pub(crate) fn pairs(rt: HostRuntime, count: u8) -> Result<Vec<u64>, Fail> {
    let count = u64::from(count);
    let mut graph = vec![in rt.alloc(); 2 * count, 2 * count]?;
    for pair in 0..count {
        graph.extend_from_slice(&[1, 2 * pair, 1, 0, pair])?;
        graph.extend_from_slice(&[1, 2 * pair + 1, 1, 0, pair])?;
    }
    Ok(graph)
}
