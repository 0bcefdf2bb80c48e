ghost use Rattle.std.specs.Prelude.{Some};
ghost use Rattle.form.specs.Line.{text};

use graph::refusal::Refusal;
use std::fmt;

// What is printed for a graph: the numbers of its form, lent from where they were written, or why it is refused. Printing it allocates nothing.
#[derive(Clone, Copy)]
pub(crate) enum Line<'a> {
    Form(&'a [u64]),
    Refused(Refusal),
}

impl fmt::Display for Line<'_> {
    ghost output = { λ l. Some (text l) };

    fn fmt<W: fmt::Write>(&self, f: &mut fmt::Formatter<W>) -> fmt::Result {
        match self {
            Line::Form(numbers) => {
                if let Some((first, others)) = numbers.split_first() {
                    write!(f, "{first}")?;
                    for number in others {
                        write!(f, " {number}")?;
                    }
                }
                Ok(())
            }
            Line::Refused(refusal) => write!(f, "{refusal}"),
        }
    }
}
