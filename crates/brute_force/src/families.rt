use crate::mappings::MOST_MAPPED;
use crate::plain::Graph;
use crate::random::Random;
use crate::shapes::{Kind, Shape};
use crate::twins::{change_one, exchange_two, renamed, twin};
use std::alloc::{AllocError, Global};

// What the second graph of a pair is.
#[derive(Clone, Copy)]
pub enum Second {
    // The first one renamed, shuffled and with triples repeated.
    Twin,
    // The same with a triple changed, with the objects of two triples exchanged, or with a blank node more.
    Changed,
    Exchanged,
    Grown,
    // Another graph of the same kind.
    Another,
}

// So many pairs of graphs of one shape, or of any.
#[derive(Clone, Copy)]
pub struct Family {
    pub name: &'static str,
    pub pairs: u64,
    shape: Option<Shape>,
    // One of them for each pair.
    seconds: [Second; 4],
}

const MIXED: [Second; 4] = [Second::Twin, Second::Another, Second::Twin, Second::Another];

const MOSTLY_OTHERS: [Second; 4] = [
    Second::Twin,
    Second::Another,
    Second::Another,
    Second::Another,
];

pub const FAMILIES: [Family; 12] = [
    Family {
        name: "sparse",
        pairs: 400,
        shape: Some(Shape::Sparse),
        seconds: MIXED,
    },
    Family {
        name: "dense",
        pairs: 300,
        shape: Some(Shape::Dense),
        seconds: MIXED,
    },
    Family {
        name: "regular",
        pairs: 900,
        shape: Some(Shape::Regular),
        seconds: MOSTLY_OTHERS,
    },
    Family {
        name: "regular, ends exchanged",
        pairs: 700,
        shape: Some(Shape::Regular),
        seconds: [Second::Exchanged; 4],
    },
    Family {
        name: "self loops",
        pairs: 300,
        shape: Some(Shape::Loops),
        seconds: MIXED,
    },
    Family {
        name: "rings",
        pairs: 400,
        shape: Some(Shape::Rings),
        seconds: MOSTLY_OTHERS,
    },
    Family {
        name: "symmetric",
        pairs: 300,
        shape: Some(Shape::Symmetric),
        seconds: [
            Second::Twin,
            Second::Another,
            Second::Exchanged,
            Second::Exchanged,
        ],
    },
    Family {
        name: "rigid",
        pairs: 200,
        shape: Some(Shape::Rigid),
        seconds: MIXED,
    },
    Family {
        name: "repeated triples",
        pairs: 200,
        shape: Some(Shape::Repeated),
        seconds: MIXED,
    },
    Family {
        name: "isolated nodes",
        pairs: 200,
        shape: Some(Shape::Isolated),
        seconds: [Second::Twin, Second::Another, Second::Twin, Second::Grown],
    },
    Family {
        name: "renamed twins",
        pairs: 300,
        shape: None,
        seconds: [Second::Twin; 4],
    },
    Family {
        name: "near twins",
        pairs: 500,
        shape: None,
        seconds: [
            Second::Changed,
            Second::Changed,
            Second::Changed,
            Second::Exchanged,
        ],
    },
];

#[derive(Drop)]
pub struct Pair {
    pub first: Graph,
    pub second: Graph,
}

impl Family {
    pub(crate) fn pair(&self, heap: Global, random: &mut Random) -> Result<Pair, AllocError> {
        let kind = match self.shape {
            Some(shape) => Kind::new(random, shape),
            None => Kind::any(random),
        };
        let first = kind.graph(heap, random)?;
        let second = match self.seconds[random.below(4) as usize] {
            Second::Twin => twin(heap, random, &first)?,
            Second::Another => kind.graph(heap, random)?,
            Second::Changed => {
                let mut other = renamed(heap, random, &first)?;
                change_one(random, other.triples.as_mut_slice());
                other
            }
            Second::Exchanged => {
                let mut other = renamed(heap, random, &first)?;
                exchange_two(random, other.triples.as_mut_slice());
                other
            }
            Second::Grown => {
                let mut other = twin(heap, random, &first)?;
                if other.blanks < MOST_MAPPED as u64 {
                    other.blanks += 1;
                }
                other
            }
        };
        Ok(Pair { first, second })
    }
}
