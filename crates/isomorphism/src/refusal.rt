ghost use Rattle.std.specs.Prelude.{◌≡◌, Some};
ghost use Rattle.graph.specs.Verdicts.{line};
ghost use Rattle.isomorphism.specs.Refusals.{pair_line, misfit_number, misfit_place, misfit_told, check_line};

use graph::encoded::MOST_WRITTEN;
use graph::refusal::Refusal;
use std::fmt;

// Which of two graphs is refused, and why. A refusal of the first is told before one of the second.
#[derive(Clone, Copy, PartialEq, Eq, Debug)]
pub enum PairRefusal {
    First(Refusal),
    Second(Refusal),
}

impl fmt::Display for PairRefusal {
    ghost output = { λ r. Some (pair_line r) };

    fn fmt<W: fmt::Write>(&self, f: &mut fmt::Formatter<W>) -> fmt::Result {
        match self {
            PairRefusal::First(refusal) => write!(f, "first {refusal}"),
            PairRefusal::Second(refusal) => write!(f, "second {refusal}"),
        }
    }
}

// Why a row of places is refused as a mapping of the blank nodes of a first graph to those of a second. Each cause has a number, which several
// may share, and a place.
#[derive(Clone, Copy, PartialEq, Eq, Debug)]
pub enum Misfit {
    // A blank node of the first graph has no place in the second, or one that an earlier node has. The place is that node.
    NoPlace(u64),
    // A triple of the first graph is mapped to none of the second. The place is its index as written, from 0.
    MappedToNone(u64),
    // No triple of the first graph is mapped to this one of the second. The place is its index as written, from 0.
    NotMappedTo(u64),
    // The second graph has more blank nodes than the first. The place is 65,536, which is the index of no triple.
    OtherCount,
}

impl Misfit {
    pub fn number(self) -> u64
        ensures { result ≡ misfit_number self }
    {
        match self {
            Misfit::NoPlace(_) => 6,
            Misfit::MappedToNone(_) => 7,
            Misfit::NotMappedTo(_) | Misfit::OtherCount => 8,
        }
    }

    pub fn place(self) -> u64
        ensures { result ≡ misfit_place self }
    {
        match self {
            Misfit::NoPlace(node) => node,
            Misfit::MappedToNone(triple) | Misfit::NotMappedTo(triple) => triple,
            Misfit::OtherCount => MOST_WRITTEN,
        }
    }
}

impl fmt::Display for Misfit {
    ghost output = { λ m. Some (line (misfit_told m)) };

    fn fmt<W: fmt::Write>(&self, f: &mut fmt::Formatter<W>) -> fmt::Result {
        let number = self.number();
        let place = self.place();
        write!(f, "refused {number} at {place}")
    }
}

// Why a check of a mapping ends with a refusal: one of the graphs is refused, or the mapping is.
#[derive(Clone, Copy, PartialEq, Eq, Debug)]
pub enum CheckRefusal {
    Graph(PairRefusal),
    Mapping(Misfit),
}

impl fmt::Display for CheckRefusal {
    ghost output = { λ r. Some (check_line r) };

    fn fmt<W: fmt::Write>(&self, f: &mut fmt::Formatter<W>) -> fmt::Result {
        match self {
            CheckRefusal::Graph(refusal) => write!(f, "{refusal}"),
            CheckRefusal::Mapping(misfit) => write!(f, "{misfit}"),
        }
    }
}
