ghost use Rattle.std.specs.Prelude.{◌≡◌, ◌↔◌, ◌≤◌, length, IfErr};
ghost use Rattle.std.specs.Result.{IsOk};
ghost use Rattle.theory.specs.Isomorphism.{Isomorphism, place};
ghost use Rattle.theory.specs.Refusal.{accepted};
ghost use Rattle.theory.specs.Encoding.{graph_in, blank_count, encoding_verdict, mapping_verdict, check_verdict};
ghost use Rattle.isomorphism.specs.Refusals.{misfit_of, MisfitCaused, checked, CheckCaused};
ghost use Rattle.isomorphism.specs.Parts.{graph_of};

use crate::refusal::{CheckRefusal, Misfit, PairRefusal};
use back::places_back;
use missing::first_missing;
use parts::Parts;

mod back;
mod missing;
mod parts;

// Whether the place that each blank node of a first graph is given in a second makes an isomorphism. Nothing is searched for, so that both graphs may
// have as many different triples as can be written. Places behind those of the blank nodes are not looked at. The rows of a graph are put in order on
// the stack: that takes 10 KiB for up to 256 triples as written, 160 KiB for up to 4,096, and else 2.5 MiB.
pub fn check_mapping(first: &[u64], second: &[u64], places: &[u64]) -> Result<(), CheckRefusal>
    ensures verdict { checked result ≡ check_verdict first.now second.now places.now }
    ensures cause { CheckCaused first.now second.now result }
    ensures exact { encoding_verdict first.now ≡ accepted → encoding_verdict second.now ≡ accepted →
        IsOk result ↔ ((blank_count first.now ≤ length places.now) × Isomorphism (graph_in first.now) (graph_in second.now) (place places.now)) }
{
    let from = Parts::read(first)
        .map_err(PairRefusal::First)
        .map_err(CheckRefusal::Graph)?;
    let to = Parts::read(second)
        .map_err(PairRefusal::Second)
        .map_err(CheckRefusal::Graph)?;
    check_places(&from, &to, places).map_err(CheckRefusal::Mapping)
}

// The same of two graphs that are accepted.
fn check_places(from: &Parts, to: &Parts, places: &[u64]) -> Result<(), Misfit>
    ensures verdict { misfit_of result ≡ mapping_verdict (graph_of from.now) (graph_of to.now) places.now }
    ensures cause { IfErr result MisfitCaused }
{
    let back = places_back(places, from.blanks as u64, to.blanks as u64)?;
    if let Some(triple) = first_missing(from, places, to) {
        return Err(Misfit::MappedToNone(triple as u64));
    }
    if let Some(triple) = first_missing(to, &back, from) {
        return Err(Misfit::NotMappedTo(triple as u64));
    }
    if from.blanks != to.blanks {
        return Err(Misfit::OtherCount);
    }
    Ok(())
}
