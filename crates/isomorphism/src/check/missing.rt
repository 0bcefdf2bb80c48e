ghost use Rattle.std.specs.Prelude.{◌≡◌, ◌<◌, ◌≤◌, IfSome, not, length, position};
ghost use Rattle.theory.specs.Encoding.{most_written};
ghost use Rattle.isomorphism.specs.Missing.{mapped_into, InOrder};

use crate::check::parts::Parts;
use graph::encoded::{MOST_WRITTEN, WIDTH};
use graph::triple::Triple;

// How many rows there is room for: as many as a graph can have, which are 2.5 MiB, or less for a graph of fewer triples. To fill room for many takes
// longer than all else, and not every caller has so much stack.
const FEW_ROWS: usize = 256;

const SOME_ROWS: usize = 4096;

const MOST_ROWS: usize = MOST_WRITTEN as usize;

// The first triple of a graph that is mapped to none of another's by these places.
#[tactic(auto, using(crate::proofs::Triples::position_within))]
pub(crate) fn first_missing(graph: &Parts, places: &[u64], other: &Parts) -> Option<usize>
    ensures within { IfSome result (λ place. place < length graph.now.rows.now) }
    ensures place { result ≡ position (λ row. not (mapped_into graph.now.blanks places.now other.now.rows.now row)) graph.now.rows.now }
{
    if other.rows.len() <= FEW_ROWS {
        missing_from::<FEW_ROWS>(graph, places, other.rows)
    } else if other.rows.len() <= SOME_ROWS {
        missing_from::<SOME_ROWS>(graph, places, other.rows)
    } else {
        missing_from::<MOST_ROWS>(graph, places, other.rows)
    }
}

// The same with room for the other's rows, which are put in order there. Not inlined, so that graphs of few triples take no stack for many.
#[inline(never)]
fn missing_from<const ROOM: usize>(
    graph: &Parts,
    places: &[u64],
    rows: &[[u64; WIDTH]],
) -> Option<usize>
    requires enough { length rows.now ≤ ROOM }
    requires room { ROOM ≤ most_written }
    ensures { result ≡ position (λ row. not (mapped_into graph.now.blanks places.now rows.now row)) graph.now.rows.now }
{
    let mut room = [[0; WIDTH]; ROOM];
    let sorted = &mut room[..rows.len()];
    sorted.copy_from_slice(rows);
    sorted.sort_unstable();
    first_outside(graph, places, sorted)
}

// The same where the other's rows are in order.
fn first_outside(graph: &Parts, places: &[u64], sorted: &[[u64; WIDTH]]) -> Option<usize>
    requires { InOrder sorted.now }
    ensures { result ≡ position (λ row. not (mapped_into graph.now.blanks places.now sorted.now row)) graph.now.rows.now }
{
    graph
        .rows
        .iter()
        .position(|row| !is_mapped_into(row, graph.blanks, places, sorted))
}

// Whether a row writes a triple down that is mapped to one of the rows by these places.
fn is_mapped_into(row: &[u64; WIDTH], blanks: u8, places: &[u64], sorted: &[[u64; WIDTH]]) -> bool
    requires { InOrder sorted.now }
    ensures { result ≡ mapped_into blanks places.now sorted.now row.now }
{
    match Triple::read(row, blanks) {
        Some(triple) => sorted.binary_search(&triple.relabelled_row(places)).is_ok(),
        None => false,
    }
}
