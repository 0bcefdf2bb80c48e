ghost use Rattle.std.specs.Prelude.{◌≡◌, ◌≤◌, map, length};
ghost use Rattle.theory.specs.Encoding.{most_blanks, most_different};
ghost use Rattle.graph.specs.SimpleGraph.{graph_of, triple_is};

use crate::simple::SimpleGraph;
use crate::triple::Triple;

impl SimpleGraph {
    // How many blank nodes it has.
    pub fn blanks(&self) -> usize
        ensures value { result ≡ (graph_of self.now).blanks }
        ensures few { result ≤ most_blanks }
    {
        self.blanks
    }

    // Its triples, each once and in the order of their rows.
    pub fn triples(&self) -> &[Triple]
        ensures value { map triple_is result.now ≡ (graph_of self.now).triples }
        ensures few { length result.now ≤ most_different }
    {
        &self.triples[..self.count]
    }
}
