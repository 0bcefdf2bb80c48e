// What a canonical form is, and that it is exact. No code of this crate does anything: each function stands for a theorem, which is its
// contract, so that the crate is proved only if the theorem is.
#![tactic(auto)]

pub mod examples;
pub mod sanity;
pub mod theorems;
