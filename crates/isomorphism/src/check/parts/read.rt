ghost use Rattle.std.specs.Prelude.{◌≡◌, ◌<◌, IfOk, IfErr};
ghost use Rattle.theory.specs.Encoding.{graph_in, encoding_verdict};
ghost use Rattle.graph.specs.Verdicts.{number_of, verdict_of, Caused};
ghost use Rattle.isomorphism.specs.Parts.{graph_of};

use crate::check::parts::Parts;
use graph::encoded::{WIDTH, check};
use graph::refusal::Refusal;

impl<'a> Parts<'a> {
    // The parts of an encoded graph.
    pub(crate) fn read(graph: &'a [u64]) -> Result<Parts<'a>, Refusal>
        ensures verdict { verdict_of result ≡ encoding_verdict graph.now }
        ensures number { IfErr result (λ e. number_of e < 3) }
        ensures cause { Caused graph.now result }
        ensures graph { IfOk result (λ parts. graph_of parts ≡ graph_in graph.now) }
    {
        let header = check(graph)?;
        let (rows, _) = graph[2..2 + WIDTH * header.triples as usize].as_chunks();
        Ok(Parts {
            blanks: header.blanks as u8,
            rows,
        })
    }
}
