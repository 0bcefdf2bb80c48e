// Prints a line for each two graphs that it reads: which blank node of the second each of the first is mapped to, or that they are not alike, or why
// one is refused. With `--status` its status tells whether all are alike.
#![tactic(auto)]

use crate::printing::print_answers;
use input::arguments::{arguments, strip_option};
use input::source::read_all;
use std::io;
use std::io::{BufWriter, Write};
use std::process::ExitCode;

mod answer;
mod printing;

fn main(rt: HostRuntime) -> io::Result<ExitCode> {
    let words = arguments(&rt)?;
    let behind = strip_option(words.as_slice(), "--status");
    let sources = read_all(&rt, behind.unwrap_or(words.as_slice()))?;
    let mut out = BufWriter::new(rt.alloc(), rt.stdout())?;
    let status = print_answers(rt.alloc(), sources.as_slice(), behind.is_some(), &mut out)?;
    out.flush()?;
    Ok(status)
}
