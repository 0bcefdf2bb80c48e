ghost use Rattle.std.specs.Prelude.{◌≡◌, ◌∷◌};
ghost use Rattle.input.specs.Graphs.{graphs_in, graphs_after, graphs_left};
ghost use Rattle.std.specs.Iterator.{YieldsFirstRef, item_count};

use graph::encoded::whole_length;

// The graphs in some numbers, lent one after the other.
#[derive(Drop)]
pub struct Graphs<'a> {
    // Nothing, once the input has ended.
    rest: Option<&'a [u64]>,
    // Whether one to three bytes that make no number come behind the numbers, which are there either way: so no Option holds both.
    trailing_bytes: bool,
}

impl<'a> Graphs<'a> {
    pub fn new(numbers: &'a [u64], trailing_bytes: bool) -> Graphs<'a>
        ensures { graphs_left result ≡ graphs_in trailing_bytes numbers.now }
    {
        Graphs {
            rest: Some(numbers),
            trailing_bytes,
        }
    }
}

impl<'a> Iterator for Graphs<'a> {
    type Item = &'a [u64];

    ghost next_gives = { YieldsFirstRef graphs_left };

    ghost remaining = { item_count graphs_left };

    fn next(&mut self) -> Option<&'a [u64]> {
        let rest = self.rest?;
        let (graph, behind) = first_graph(rest, self.trailing_bytes);
        self.rest = behind;
        Some(graph)
    }
}

// The first graph, and the numbers behind it, unless the input ends there.
#[tactic(auto, using(crate::proofs::FirstGraph::cut_short, crate::proofs::FirstGraph::whole))]
fn first_graph(numbers: &[u64], trailing_bytes: bool) -> (&[u64], Option<&[u64]>)
    ensures { graphs_in trailing_bytes numbers.now ≡ result.0.now ∷ graphs_after trailing_bytes result.1 }
{
    let Some(length) = whole_length(numbers) else {
        return (numbers, None);
    };
    let (graph, behind) = numbers.split_at(length);
    if behind.is_empty() && !trailing_bytes {
        return (graph, None);
    }
    (graph, Some(behind))
}
