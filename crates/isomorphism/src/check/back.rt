ghost use Rattle.std.specs.Prelude.{◌≡◌, ◌≤◌, IfOk, IfErr};
ghost use Rattle.theory.specs.Lists.{numbers};
ghost use Rattle.theory.specs.Refusal.{first_fault};
ghost use Rattle.theory.specs.Encoding.{most_blanks, place_fits};
ghost use Rattle.isomorphism.specs.Back.{Back};
ghost use Rattle.isomorphism.specs.Refusals.{misfit_of, misfit_number};

use crate::refusal::Misfit;
use graph::encoded::MOST_BLANK_NODES;

// For each number the first of so many nodes that has it for its place; the count of nodes, which is none of them, where nobody has. Every node
// needs a place of its own, below `other_nodes`; else the first that has none is told.
pub(crate) fn places_back(
    places: &[u64],
    nodes: u64,
    other_nodes: u64,
) -> Result<[u64; MOST_BLANK_NODES], Misfit>
    requires { other_nodes ≤ most_blanks }
    ensures verdict { misfit_of result ≡ first_fault (place_fits other_nodes places.now) 6 0 (numbers nodes) }
    ensures number { IfErr result (λ m. misfit_number m ≡ 6) }
    ensures back { IfOk result (Back nodes places.now) }
{
    let mut back = [nodes; MOST_BLANK_NODES];
    for node in 0..nodes {
        match places.get(node as usize) {
            Some(&place) if place < other_nodes && back[place as usize] == nodes => {
                back[place as usize] = node;
            }
            _ => return Err(Misfit::NoPlace(node)),
        }
    }
    Ok(back)
}
