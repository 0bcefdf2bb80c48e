// The library as C calls it: the form of a graph, and a comparison of two. Each function says again what the library's own promises, and calls it.
// include/collwyfa.h declares them.
#![tactic(auto)]

pub mod comparing;
pub mod finding;
