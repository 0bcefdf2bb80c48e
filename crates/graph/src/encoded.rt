ghost use Rattle.std.specs.Prelude.{◌≡◌, ◌+◌, ◌*◌, ◌<◌, ◌≤◌, length, drop, IfOk, IfErr, MatchOption, MatchResult, not, position};
ghost use Rattle.theory.specs.Row.{rows_of};
ghost use Rattle.theory.specs.Triple.{width, triple_fits};
ghost use Rattle.theory.specs.Encoding.{graph_length, encoding_verdict};
ghost use Rattle.graph.specs.Parts.{whole_rows, parts_verdict};
ghost use Rattle.graph.specs.Verdicts.{number_of, verdict_of, ForCause, count_cause, Caused, Headed};

use crate::refusal::Refusal;
use crate::triple::Triple;

pub const MOST_BLANK_NODES: usize = 32;

// How many triples a graph may have as written, repeated ones counted.
pub const MOST_WRITTEN: u64 = 65536;

// How many numbers a triple is written with.
pub const WIDTH: usize = 5;

// The counts that an encoded graph begins with. The fields are open, so any two counts may stand here: that they are those of some numbers is said
// where a header is answered (`Headed`).
#[derive(Clone, Copy, PartialEq, Eq, Debug)]
pub struct Header {
    pub blanks: u64,
    pub triples: u64,
}

// How many numbers an encoded graph has, unless some are missing.
pub fn whole_length(graph: &[u64]) -> Option<usize>
    ensures { MatchOption result (length graph.now < graph_length graph.now) (λ n. (n ≡ graph_length graph.now) × (n ≤ length graph.now)) }
{
    let [_, triples, rows @ ..] = graph else {
        return None;
    };
    // The count may be as large as a number gets, so it is compared with how many triples there is room for: a multiple of it could wrap.
    if *triples > (rows.len() / WIDTH) as u64 {
        return None;
    }
    Some(2 + WIDTH * *triples as usize)
}

// The header, if the numbers encode a graph. What comes behind the last triple is not looked at. Which cause a refusal tells is a fact about the
// numbers too, so no type of the answer can carry it, and what hands an answer on says it again (`ForCause`).
#[tactic(auto, using(crate::proofs::Parts::parts_encoded))]
pub fn check(graph: &[u64]) -> Result<Header, Refusal>
    ensures verdict { verdict_of result ≡ encoding_verdict graph.now }
    ensures number { IfErr result (λ e. number_of e < 3) }
    ensures cause { Caused graph.now result }
    ensures header { IfOk result (Headed graph.now) }
{
    let whole = whole_length(graph).ok_or(Refusal::CutShort(graph.len() as u64))?;
    let blanks = graph[0];
    check_rows(blanks, &graph[2..whole])?;
    Ok(Header {
        blanks,
        triples: graph[1],
    })
}

// Whether a graph with so many blank nodes can have these rows. Numbers that are left behind the last whole row are not looked at.
pub fn check_rows(blanks: u64, rows: &[u64]) -> Result<(), Refusal>
    ensures verdict { verdict_of result ≡ parts_verdict blanks rows.now }
    ensures number { IfErr result (λ e. number_of e < 3) }
    ensures cause { ForCause 1 (count_cause blanks (whole_rows rows.now)) result }
{
    if blanks > MOST_BLANK_NODES as u64 {
        return Err(Refusal::TooManyBlankNodes(blanks));
    }
    let (rows, _) = rows.as_chunks();
    let triples = rows.len() as u64;
    if triples > MOST_WRITTEN {
        return Err(Refusal::TooManyTriples(triples));
    }
    match first_fault(rows, blanks as u8) {
        Some(row) => Err(Refusal::NoTriple(row as u64)),
        None => Ok(()),
    }
}

// The first row that writes no triple down.
fn first_fault(rows: &[[u64; WIDTH]], blanks: u8) -> Option<usize>
    ensures { result ≡ position (λ row. not (triple_fits blanks row)) rows.now }
{
    rows.iter()
        .position(|row| Triple::read(row, blanks).is_none())
}
