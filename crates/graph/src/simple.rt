ghost use Rattle.graph.specs.Triples.{Few, Whole, Fitting, Once};

use crate::encoded::WIDTH;
use crate::triple::Triple;

pub mod reading;
mod triples;

// How many different triples a graph may have for its form to be found.
pub const MOST_DIFFERENT: usize = 256;

// How many leaves a graph's search tree may have for its form to be found.
pub const MOST_LEAVES: usize = 1024;

// The most numbers that a form has: one, and a row for each different triple.
pub const LARGEST_FORM: usize = 1 + WIDTH * MOST_DIFFERENT;

// A graph as it is worked with: how many blank nodes, and its different triples in order, which are the first of an array.
#[derive(Drop)]
pub struct SimpleGraph {
    blanks: usize,
    count: usize,
    triples: [Triple; MOST_DIFFERENT],
    ghost few: { Few blanks count },
    ghost whole: { Whole count triples },
    ghost fitting: { Fitting blanks count triples },
    ghost once: { Once count triples },
}
