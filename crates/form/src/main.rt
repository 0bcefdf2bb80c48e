// Prints a line for each graph that it reads: its form, or why it is refused.
#![tactic(auto)]

use crate::answer::print_lines;
use input::arguments::arguments;
use input::source::read_all;
use std::io;
use std::io::{BufWriter, Write};

mod answer;
mod line;

fn main(rt: HostRuntime) -> io::Result<()> {
    let sources = read_all(&rt, arguments(&rt)?.as_slice())?;
    let mut out = BufWriter::new(rt.alloc(), rt.stdout())?;
    print_lines(sources.as_slice(), &mut out)?;
    out.flush()
}
