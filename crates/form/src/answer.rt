ghost use Rattle.std.specs.Prelude.{◌≡◌, OnOk};
ghost use Rattle.std.specs.Io.KnownBytes.{Appends};
ghost use Rattle.input.specs.Source.{source_graphs, graphs_of};
ghost use Rattle.form.specs.Line.{text, line_of, lines_of};

use crate::line::Line;
use canonical_form::form::form_of;
use graph::simple::LARGEST_FORM;
use input::source::Source;
use std::io;
use std::io::Write;

// Prints the line for each graph of these sources, in order, and nothing else, without an allocation.
pub(crate) fn print_lines<W: Write>(sources: &[Source], out: &mut W) -> io::Result<()>
    ensures { OnOk result (Appends (W.contents out.old) (W.contents out.new) (lines_of (graphs_of sources.now))) }
{
    let mut room = [0; LARGEST_FORM];
    for source in sources {
        print_source(source, &mut room, out)?;
    }
    Ok(())
}

fn print_source<W: Write>(
    source: &Source,
    room: &mut [u64; LARGEST_FORM],
    out: &mut W,
) -> io::Result<()>
    ensures { OnOk result (Appends (W.contents out.old) (W.contents out.new) (lines_of (source_graphs source.now))) }
{
    for graph in source.graphs() {
        out.writeln(line_for(graph, room))?;
    }
    Ok(())
}

// The line that is printed for a graph. The form is written into the room, which is lent, so that it need not be filled anew for each graph; what it
// holds afterwards means nothing.
fn line_for<'a>(graph: &[u64], room: &'a mut [u64; LARGEST_FORM]) -> Line<'a>
    ensures { text result ≡ line_of graph.now }
{
    match form_of(graph, room) {
        Ok(length) => Line::Form(&room[..length]),
        Err(refusal) => Line::Refused(refusal),
    }
}
