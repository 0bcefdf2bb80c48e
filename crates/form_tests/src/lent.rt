// What is lent for an answer is filled with this number first.
pub(crate) const FILLER: u64 = 9;

// Whether the answer was written to the beginning of what was lent, and nothing past it.
pub(crate) fn holds_only(lent: &[u64], answer: &[u64]) -> bool {
    lent.starts_with(answer)
        && lent
            .iter()
            .skip(answer.len())
            .all(|number| *number == FILLER)
}
