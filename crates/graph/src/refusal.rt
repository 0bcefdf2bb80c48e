ghost use Rattle.std.specs.Prelude.{◌≡◌, Some};
ghost use Rattle.graph.specs.Verdicts.{number_of, place_of, told, line};

use crate::simple::{MOST_DIFFERENT, MOST_LEAVES};
use std::fmt;

// Why numbers are refused. Each cause has a number, which several may share, and a place.
#[derive(Clone, Copy, PartialEq, Eq, Debug)]
pub enum Refusal {
    // They end before the last triple does. The place is how many there are.
    CutShort(u64),
    // A row that is to be read as a form is none: it has not one number more than a multiple of a triple's width. The place is its length.
    WrongLength(u64),
    // The place is the count of blank nodes.
    TooManyBlankNodes(u64),
    // The place is the count of triples as written.
    TooManyTriples(u64),
    // A row that writes no triple down. The place is its index, from 0.
    NoTriple(u64),
    // More different triples than a form is found for. The place is how many it is found for.
    TooManyDifferentTriples,
    // Too little room for the answer. The place is the room.
    TooLittleRoom(u64),
    // A row that is to be read as a form is not the form of the graph that it writes down. The place is its length.
    NotItsForm(u64),
    // More leaves than are looked at for a form. The place is the first that is too many, counted from 1.
    TooManyLeaves,
}

impl Refusal {
    pub fn number(self) -> u64
        ensures { result ≡ number_of self }
    {
        match self {
            Refusal::CutShort(_)
            | Refusal::WrongLength(_)
            | Refusal::TooManyBlankNodes(_)
            | Refusal::TooManyTriples(_) => 1,
            Refusal::NoTriple(_) => 2,
            Refusal::TooManyDifferentTriples | Refusal::TooLittleRoom(_) => 3,
            Refusal::NotItsForm(_) => 4,
            Refusal::TooManyLeaves => 5,
        }
    }

    pub fn place(self) -> u64
        ensures { result ≡ place_of self }
    {
        match self {
            Refusal::CutShort(length)
            | Refusal::WrongLength(length)
            | Refusal::NotItsForm(length) => length,
            Refusal::TooManyBlankNodes(count) | Refusal::TooManyTriples(count) => count,
            Refusal::NoTriple(row) => row,
            Refusal::TooManyDifferentTriples => MOST_DIFFERENT as u64,
            Refusal::TooLittleRoom(room) => room,
            Refusal::TooManyLeaves => MOST_LEAVES as u64 + 1,
        }
    }
}

impl fmt::Display for Refusal {
    ghost output = { λ r. Some (line (told r)) };

    fn fmt<W: fmt::Write>(&self, f: &mut fmt::Formatter<W>) -> fmt::Result {
        let number = self.number();
        let place = self.place();
        write!(f, "refused {number} at {place}")
    }
}
