ghost use Rattle.std.specs.Prelude.{◌≡◌, IfOk, IfSome, length, max};
ghost use Rattle.input.specs.Graphs.{graphs_left};
ghost use Rattle.input.specs.Source.{source_graphs, graphs_in_bytes};

use crate::bytes::numbers;
use crate::graphs::Graphs;
use std::alloc::{AllocError, Global};
use std::fs::File;
use std::io;
use std::io::Read;

// A file, or standard input, read whole.
#[derive(Drop)]
pub struct Source {
    numbers: Vec<u64>,
    // Whether one to three bytes that make no number come behind the numbers, which are there either way: so no Option holds both.
    trailing_bytes: bool,
}

impl Source {
    pub fn of_bytes(heap: Global, bytes: &[u8]) -> Result<Source, AllocError>
        ensures { IfOk result (λ s. source_graphs s ≡ graphs_in_bytes bytes.now) }
    {
        Ok(Source {
            numbers: numbers(heap, bytes)?,
            trailing_bytes: bytes.len() % 4 != 0,
        })
    }

    pub fn graphs(&self) -> Graphs<'_>
        ensures { graphs_left result ≡ source_graphs self.now }
    {
        Graphs::new(self.numbers.as_slice(), self.trailing_bytes)
    }
}

// The files of these names, or standard input where there are none. What cannot be read is named on standard error. No contract can say what a file
// holds, so this one says only that there is a source for each name.
pub fn read_all(rt: &HostRuntime, names: &[String]) -> io::Result<Vec<Source>>
    ensures { IfOk result (λ sources. length sources.items ≡ max 1 (length names.now)) }
{
    let mut sources = Vec::new(rt.alloc());
    for name in names {
        sources.push(named(rt, name.as_str(), read_file(rt, name.as_str()))?)?;
    }
    if sources.is_empty() {
        sources.push(named(rt, "standard input", read_whole(rt, rt.stdin()))?)?;
    }
    Ok(sources)
}

fn read_file(rt: &HostRuntime, name: &str) -> io::Result<Source> {
    read_whole(rt, File::open(rt, name)?)
}

// All that a reader gives.
fn read_whole<R: Read + Drop>(rt: &HostRuntime, mut reader: R) -> io::Result<Source>
    ensures { IfOk result (λ s. IfSome (R.remaining reader) (λ bytes. source_graphs s ≡ graphs_in_bytes bytes)) }
{
    let mut bytes = Vec::new(rt.alloc());
    reader.read_to_end(&mut bytes)?;
    Ok(Source::of_bytes(rt.alloc(), bytes.as_slice())?)
}

// Hands on what was read. If it is an error, a line on standard error names what could not be read; one that cannot be written is let go, since the
// error matters more.
pub(crate) fn named<T>(rt: &HostRuntime, name: &str, read: io::Result<T>) -> io::Result<T>
    ensures { result ≡ read }
{
    read.inspect_err(|e| {
        let _ = eprintln!(rt; "cannot read {name}: {e}");
    })
}
