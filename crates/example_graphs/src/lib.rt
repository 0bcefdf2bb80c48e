// Encoded graphs that tests of several crates look at.
#![tactic(auto)]

pub const CHAIN: [u64; 17] = [2, 3, 1, 0, 1, 0, 5, 1, 0, 2, 1, 1, 1, 1, 1, 0, 5];

pub const CHAIN_AGAIN: [u64; 22] = [
    2, 4, 1, 0, 1, 0, 5, 1, 1, 2, 1, 0, 1, 1, 1, 0, 5, 1, 1, 1, 0, 5,
];

pub const TWINS: [u64; 12] = [2, 2, 1, 0, 1, 0, 5, 1, 1, 1, 0, 5];

pub const RING: [u64; 22] = [
    4, 4, 1, 0, 3, 1, 1, 1, 1, 3, 1, 2, 1, 2, 3, 1, 3, 1, 3, 3, 1, 0,
];

pub const TWO_PAIRS: [u64; 22] = [
    4, 4, 1, 0, 3, 1, 1, 1, 1, 3, 1, 0, 1, 2, 3, 1, 3, 1, 3, 3, 1, 2,
];

pub const ISOLATED: [u64; 2] = [2, 0];
