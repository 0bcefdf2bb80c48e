ghost use Rattle.std.specs.Prelude.{◌<◌, ◌≤◌};

use crate::drawing::{circulant, permutations, regular, repeated, rigid, rings, scattered};
use crate::plain::Graph;
use crate::random::Random;
use std::alloc::{AllocError, Global};

#[derive(Clone, Copy, PartialEq, Eq)]
pub enum Shape {
    // Few triples, or many, at random.
    Sparse,
    Dense,
    // Unions of permutations of the nodes that move all of them, or may leave some where they are.
    Regular,
    Loops,
    Rings,
    // Every node looks like every other.
    Symmetric,
    // A path tells the nodes apart.
    Rigid,
    // Most triples are written several times.
    Repeated,
    // Half of the nodes have no triple.
    Isolated,
}

const SHAPES: [Shape; 9] = [
    Shape::Sparse,
    Shape::Dense,
    Shape::Regular,
    Shape::Loops,
    Shape::Rings,
    Shape::Symmetric,
    Shape::Rigid,
    Shape::Repeated,
    Shape::Isolated,
];

// What the two graphs of a pair have in common, unless one is changed.
#[derive(Clone, Copy)]
pub struct Kind {
    shape: Shape,
    blanks: u64,
    predicates: u64,
    ghost few: { blanks ≤ 6 },
    ghost some: { 0 < predicates },
}

impl Kind {
    // Two to six blank nodes, more often many, or fewer where triples are few; and up to three predicates.
    pub(crate) fn new(random: &mut Random, shape: Shape) -> Kind {
        let blanks = if shape == Shape::Sparse {
            random.below(7)
        } else {
            2 + random.below(5).max(random.below(5))
        };
        Kind {
            shape,
            blanks,
            predicates: 1 + random.below(3),
        }
    }

    // Of any shape.
    pub(crate) fn any(random: &mut Random) -> Kind {
        let shape = SHAPES[random.below(SHAPES.len() as u64) as usize];
        Kind::new(random, shape)
    }

    // A graph of this kind.
    pub(crate) fn graph(&self, heap: Global, random: &mut Random) -> Result<Graph, AllocError> {
        let blanks = self.blanks;
        let predicates = self.predicates;
        match self.shape {
            Shape::Sparse => {
                let count = random.below(blanks + 3);
                scattered(heap, random, blanks, blanks, count, 2)
            }
            Shape::Dense => {
                let count = 2 * blanks + random.below(3 * blanks + 1);
                scattered(heap, random, blanks, blanks, count, predicates)
            }
            Shape::Regular => regular(heap, random, blanks, predicates),
            Shape::Loops => permutations(heap, random, blanks, predicates),
            Shape::Rings => rings(heap, random, blanks, 0, predicates == 3),
            Shape::Symmetric => circulant(heap, random, blanks),
            Shape::Rigid => rigid(heap, random, blanks, predicates),
            Shape::Repeated => repeated(heap, random, blanks, predicates),
            Shape::Isolated => {
                let count = random.below(4);
                scattered(heap, random, blanks, blanks / 2, count, 2)
            }
        }
    }
}
