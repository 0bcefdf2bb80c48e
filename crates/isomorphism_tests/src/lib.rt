// Tests of comparing two graphs, and of checking a mapping, on worked examples and on damaged input.
#![tactic(auto)]

#[cfg(test)]
mod comparing;
#[cfg(test)]
mod mappings;
