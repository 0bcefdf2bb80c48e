ghost use Rattle.std.specs.Prelude.{◌≡◌, ◌≤◌, length};
ghost use Rattle.std.specs.List.{All, AllPass};
ghost use Rattle.theory.specs.Triple.{width, triple_fits};
ghost use Rattle.theory.specs.Encoding.{most_blanks, most_written};

use graph::encoded::WIDTH;

mod read;

// A graph that is accepted, in its parts: how many blank nodes it has, and its rows as they are written, each of which writes a triple down.
#[derive(Clone, Copy)]
pub struct Parts<'a> {
    pub blanks: u8,
    pub rows: &'a [[u64; WIDTH]],
    ghost few_blanks: { blanks ≤ most_blanks },
    ghost few_triples: { length rows.now ≤ most_written },
    ghost wide: { All (λ r. length r ≡ width) rows.now },
    ghost fitting: { AllPass (triple_fits blanks) rows.now },
}
