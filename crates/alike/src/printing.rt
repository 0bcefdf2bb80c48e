ghost use Rattle.std.specs.Prelude.{◌≡◌, ◌++◌, map, IfOk, OnOk};
ghost use Rattle.std.specs.Io.KnownBytes.{Appends};
ghost use Rattle.std.specs.Process.{exit_status};
ghost use Rattle.rows.specs.Written.{held};
ghost use Rattle.isomorphism.specs.Compared.{told};
ghost use Rattle.input.specs.Source.{source_graphs, graphs_of};
ghost use Rattle.alike.specs.Answer.{in_twos, lines_of, status};

use crate::answer::{answers, status};
use input::source::Source;
use isomorphism::compare::Comparison;
use std::alloc::{AllocError, Global};
use std::io;
use std::io::Write;
use std::process::ExitCode;

// Prints a line for each two graphs of these sources, in order, and nothing else. The status is the one to end with, where it is asked for.
pub(crate) fn print_answers<W: Write>(
    heap: Global,
    sources: &[Source],
    asked: bool,
    out: &mut W,
) -> io::Result<ExitCode>
    ensures printed { OnOk result (Appends (W.contents out.old) (W.contents out.new) (lines_of (in_twos (graphs_of sources.now)))) }
    ensures status { IfOk result (λ code. exit_status code ≡ status asked (in_twos (graphs_of sources.now))) }
{
    let graphs = graphs_of(heap, sources)?;
    let answers = answers(heap, graphs.as_slice())?;
    print_all(answers.as_slice(), out)?;
    Ok(status(asked, answers.as_slice()))
}

fn print_all<W: Write>(answers: &[Comparison], out: &mut W) -> io::Result<()>
    ensures { OnOk result (Appends (W.contents out.old) (W.contents out.new) (lines_of (map told answers.now))) }
{
    for answer in answers {
        out.writeln(*answer)?;
    }
    Ok(())
}

// All graphs at once, since two that belong together may come from two files.
fn graphs_of(heap: Global, sources: &[Source]) -> Result<Vec<&[u64]>, AllocError>
    ensures { IfOk result (λ v. held v.items ≡ graphs_of sources.now) }
{
    let mut graphs = Vec::new(heap);
    for source in sources {
        push_graphs(&mut graphs, source)?;
    }
    Ok(graphs)
}

fn push_graphs<'a>(graphs: &mut Vec<&'a [u64]>, source: &'a Source) -> Result<(), AllocError>
    ensures { OnOk result (held graphs.new.items ≡ held graphs.old.items ++ source_graphs source.now) }
{
    for graph in source.graphs() {
        graphs.push(graph)?;
    }
    Ok(())
}
