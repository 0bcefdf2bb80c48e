use crate::random::next;
use graph::encoded::WIDTH;
use rows::row_index::RowIndex;
use std::array;

const ROWS: usize = 256;

const NUMBERS: usize = WIDTH * ROWS;

// The row of a rank in the order of rows: a triple of one of 32 blank nodes and a name.
fn row_of(rank: u64) -> [u64; WIDTH] {
    [1, rank / 8, 7, 0, rank]
}

// The rows of these ranks, one after the other.
fn rows_of(ranks: &[u64; ROWS]) -> [u64; NUMBERS] {
    let mut numbers = [0; NUMBERS];
    for (row, rank) in numbers.chunks_exact_mut(WIDTH).zip(ranks) {
        row.copy_from_slice(&row_of(*rank));
    }
    numbers
}

fn all_ranks() -> [u64; ROWS] {
    array::from_fn(|rank| rank as u64)
}

pub fn rising() -> [u64; NUMBERS] {
    rows_of(&all_ranks())
}

pub fn falling() -> [u64; NUMBERS] {
    let mut ranks = all_ranks();
    ranks.reverse();
    rows_of(&ranks)
}

// The same rows in random order, the same one each time: each place is exchanged with one that a generator gives, by `swap`, which takes places.
pub fn shuffled() -> [u64; NUMBERS] {
    let mut ranks = all_ranks();
    let mut state = 1;
    for place in 0..ROWS {
        state = next(state);
        ranks.swap(place, (state >> 33) as usize % ROWS);
    }
    rows_of(&ranks)
}

// Puts all rows into an index, and says how many are different.
pub fn put_all(numbers: &[u64; NUMBERS]) -> usize {
    let mut index = RowIndex::<257>::new(numbers);
    for start in (0..NUMBERS).step_by(WIDTH) {
        index.put(start, start + WIDTH);
    }
    index.distinct()
}
