ghost use Rattle.std.specs.Prelude.{Some};
ghost use Rattle.isomorphism.specs.Compared.{told, line};

use crate::compare::Comparison;
use std::fmt;

impl fmt::Display for Comparison {
    ghost output = { λ c. Some (line (told c)) };

    fn fmt<W: fmt::Write>(&self, f: &mut fmt::Formatter<W>) -> fmt::Result {
        match self {
            Comparison::Isomorphic(mapping) => {
                write!(f, "alike")?;
                for place in mapping.places() {
                    write!(f, " {place}")?;
                }
                Ok(())
            }
            Comparison::NotIsomorphic => write!(f, "not alike"),
            Comparison::Refused(refusal) => write!(f, "{refusal}"),
        }
    }
}
