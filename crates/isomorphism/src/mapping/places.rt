ghost use Rattle.std.specs.Prelude.{◌≡◌, ◌≤◌, length};
ghost use Rattle.theory.specs.Encoding.{most_blanks};
ghost use Rattle.isomorphism.specs.Mapping.{places_of};

use crate::mapping::Mapping;

impl Mapping {
    // The places, from that of blank node 0 on.
    pub fn places(&self) -> &[u64]
        ensures value { result.now ≡ places_of self.now }
        ensures few { length result.now ≤ most_blanks }
    {
        &self.places[..self.blanks]
    }
}
