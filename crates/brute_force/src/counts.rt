use crate::agreement::Findings;
use std::fmt;

// What was done with pairs of graphs, and what was found of them.
#[derive(Clone, Copy)]
pub struct Counts {
    pub pairs: u64,
    pub isomorphic: u64,
    // Not isomorphic, though no colours tell them apart.
    pub same_colours: u64,
    pub tried: u64,
    pub refused: u64,
}

// There are never so many that a sum is held back.
impl Counts {
    pub(crate) fn none() -> Counts {
        Counts {
            pairs: 0,
            isomorphic: 0,
            same_colours: 0,
            tried: 0,
            refused: 0,
        }
    }

    pub(crate) fn count_found(&mut self, found: Findings) {
        self.pairs = self.pairs.saturating_add(1);
        self.isomorphic = self.isomorphic.saturating_add(u64::from(found.isomorphic));
        let deceptive = found.same_colours && !found.isomorphic;
        self.same_colours = self.same_colours.saturating_add(u64::from(deceptive));
        self.tried = self.tried.saturating_add(found.tried as u64);
    }

    pub(crate) fn count_answered(&mut self, is_refused: bool) {
        self.pairs = self.pairs.saturating_add(1);
        self.isomorphic = self.isomorphic.saturating_add(u64::from(!is_refused));
        self.refused = self.refused.saturating_add(u64::from(is_refused));
    }

    pub(crate) fn add(&mut self, other: &Counts) {
        self.pairs = self.pairs.saturating_add(other.pairs);
        self.isomorphic = self.isomorphic.saturating_add(other.isomorphic);
        self.same_colours = self.same_colours.saturating_add(other.same_colours);
        self.tried = self.tried.saturating_add(other.tried);
        self.refused = self.refused.saturating_add(other.refused);
    }
}

impl fmt::Display for Counts {
    fn fmt<W: fmt::Write>(&self, f: &mut fmt::Formatter<W>) -> fmt::Result {
        let graphs = self.pairs.saturating_mul(2);
        let Counts {
            pairs,
            isomorphic,
            same_colours,
            tried,
            refused,
        } = *self;
        write!(
            f,
            "{graphs} graphs, {pairs} pairs, {isomorphic} isomorphic, {same_colours} not isomorphic with the same stable colours, "
        )?;
        write!(f, "{tried} mappings tried, {refused} refused")
    }
}
