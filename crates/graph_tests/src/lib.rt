// Tests of the row index, and of graphs as they are encoded and read, on worked examples and on damaged input.
#![tactic(auto)]

#[cfg(test)]
mod encoded;
#[cfg(test)]
mod row_index;
#[cfg(test)]
mod simple;
