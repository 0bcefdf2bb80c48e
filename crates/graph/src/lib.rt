// Encoded graphs: a graph with blank nodes in lent numbers, the refusal of numbers that encode none, and its triples, each once and in order. A graph
// is read from its parts too, a count of blank nodes and the numbers of its rows.
//
//     check(&[2, 1, 1, 0, 7, 0, 5])    // two blank nodes, and the triple x0 7 5: a header with both counts
//     check(&[2, 1, 1, 2, 7, 0, 5])    // there is no x2: a refusal that prints as `refused 2 at 0`
//     check_rows(2, &[1, 0, 7, 0, 5])  // the first graph in its parts, which are accepted
//
// What is lent and told is in numbers of 64 bits, what counts and places in memory in `usize`. Neither has a `From` for the other, so `as` turns
// one into the other, where it is proved that nothing is lost.
#![tactic(auto)]

pub mod encoded;
pub mod refusal;
pub mod simple;
pub mod triple;
