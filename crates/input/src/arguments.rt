ghost use Rattle.std.specs.Prelude.{◌≡◌, map, option_map, string_bytes};
ghost use Rattle.input.specs.Arguments.{behind};

use crate::source::named;
use std::{env, io};

// The words that the program is called with, behind its own name.
pub fn arguments(rt: &HostRuntime) -> io::Result<Vec<String>> {
    let words = named(rt, "the arguments", env::args(rt))?;
    Ok(words.skip(1).collect(rt.alloc())?)
}

// The words behind the option, if that is the first.
pub fn strip_option<'a>(words: &'a [String], option: &str) -> Option<&'a [String]>
    ensures { option_map (λ r. map string_bytes r.now) result ≡ behind option.now (map string_bytes words.now) }
{
    match words.split_first() {
        Some((first, others)) if first.as_str() == option => Some(others),
        _ => None,
    }
}
