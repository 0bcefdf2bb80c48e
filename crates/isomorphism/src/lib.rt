// Isomorphism of two encoded graphs: whether there is a mapping of their blank nodes, which one, and a check of any mapping that is given.
//
//     compare(&[2, 1, 1, 0, 7, 1, 1], &[2, 1, 1, 1, 7, 1, 0])                 // isomorphic: x0 has place 1, x1 place 0
//     check_mapping(&[2, 1, 1, 0, 7, 1, 1], &[2, 1, 1, 1, 7, 1, 0], &[1, 0])  // accepted
//     check_mapping(&[2, 1, 1, 0, 7, 1, 1], &[2, 1, 1, 1, 7, 1, 0], &[0, 1])  // a refusal that prints as `refused 7 at 0`
#![tactic(auto)]

pub mod check;
pub mod compare;
pub mod mapping;
pub mod promises;
pub mod refusal;
