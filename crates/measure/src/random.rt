ghost use Rattle.std.specs.Prelude.{◌≡◌, ◌+◌, ◌*◌, ◌%◌, ◌^◌, ◌<◌, ◌≤◌, length};

use graph::encoded::WIDTH;

// The next number of a linear congruential generator.
pub fn next(state: u64) -> u64
    ensures { result ≡ (state * 6364136223846793005 + 1442695040888963407) % 2 ^ 64 }
{
    state
        .wrapping_mul(6364136223846793005)
        .wrapping_add(1442695040888963407)
}

// Encodes a graph, the same one each time: as many triples as there is room for, between blank nodes with one of four predicates, as a
// generator gives them.
pub fn write_graph(graph: &mut [u64], blanks: u64)
    requires room { 2 ≤ length graph.old }
    requires some { 0 < blanks }
{
    graph[0] = blanks;
    graph[1] = ((graph.len() - 2) / WIDTH) as u64;
    let mut state = 7;
    for triple in graph[2..].chunks_exact_mut(WIDTH) {
        state = next(state);
        triple.copy_from_slice(&[
            1,
            (state >> 33) % blanks,
            (state >> 40) % 4,
            1,
            (state >> 48) % blanks,
        ]);
    }
}
