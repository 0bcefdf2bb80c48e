// The graphs in what a program reads: four bytes a number, low byte first, and one encoded graph after the other.
//
//     let source = Source::of_bytes(heap, &[1, 0, 0, 0, 0, 0, 0, 0, 9])?;
//     source.graphs()    // the numbers 1 0, one blank node without triples; then the empty row, for the byte behind
#![tactic(auto)]

pub mod arguments;
pub mod bytes;
pub mod graphs;
pub mod source;
#[cfg(test)]
mod tests;
